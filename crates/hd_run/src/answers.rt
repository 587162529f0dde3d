// Answering the lines of a script, one after the other.
ghost use Rattle.std.specs.Prelude.{◌≡◌, ◌<◌, ◌≤◌, ◌+◌, length, IsTrue};
ghost use Rattle.hd_num.specs.Lines.{lines_of};
ghost use Rattle.hd_run.specs.Limits.{script_limit};
ghost use Rattle.hd_run.specs.WrittenAnswers.{WritesAnswer, WritesAnswers, WritesInTurn, HasWriteStop};

use crate::stop::Stop;
use hd_base::{Sink, write_all};
use hd_num::next_line;
use hd_session::SurfaceSession;

/// Answers the lines of a script in order, numbered from 1, each on the surface after the lines
/// before it, and writes each answer before the next line is read. Tells whether all lines were
/// accepted.
pub fn answer_lines<E: SurfaceSession, W: Sink>(
    session: &mut E,
    script: &[u8],
    out: &mut W,
) -> Result<bool, Stop>
    requires open { IsTrue (W.is_open out.old) }
    requires few { length script.now ≤ script_limit }
    requires fresh { E.asked session.old ≡ 0 }
    ensures open { IsTrue (W.is_open out.new) }
    ensures answers { WritesAnswers (E.state session.old) (lines_of script.now) result (E.state session.new)
        (W.written out.old) (W.written out.new) }
    ensures turns { WritesInTurn (E.state session.old) (lines_of script.now) (E.asked session.new) result
        (W.written out.old) (W.written out.new) }
    ensures cause { HasWriteStop (W.faults out.old) (W.faults out.new) result }
{
    let mut accepted = true;
    let mut number = 1;
    let mut from = 0;
    'lines: while let Some((line, next)) = next_line(script, from) {
        let is_accepted = match answer_line(session, number, &script[line.start..line.end], out) {
            Ok(is_accepted) => is_accepted,
            Err(stop) => return Err(stop),
        };
        if !is_accepted {
            accepted = false;
        }
        number += 1;
        from = next;
    }
    Ok(accepted)
}

// Answers one line, writes the answer, and tells whether the line was accepted.
fn answer_line<E: SurfaceSession, W: Sink>(
    session: &mut E,
    number: u64,
    line: &[u8],
    out: &mut W,
) -> Result<bool, Stop>
    requires open { IsTrue (W.is_open out.old) }
    requires asked { E.asked session.old < script_limit }
    ensures open { IsTrue (W.is_open out.new) }
    ensures asked { E.asked session.new ≡ E.asked session.old + 1 }
    ensures answer { WritesAnswer (E.state session.old) number line.now result (E.state session.new)
        (W.written out.old) (W.written out.new) }
    ensures cause { HasWriteStop (W.faults out.old) (W.faults out.new) result }
{
    let Ok(answer) = session.answer_line(number, line) else {
        return Err(Stop::Memory);
    };
    if write_all(out, answer.text.as_slice()).is_err() {
        return Err(Stop::WriteFault);
    }
    Ok(answer.accepted)
}
