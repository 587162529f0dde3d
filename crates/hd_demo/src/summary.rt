// The summary of a surface: six values of the answers of its session.
ghost use Rattle.std.specs.Prelude.{◌≡◌, ◌≤◌, ◌<◌, ◌+◌, ◌++◌, OnOk, codes};
ghost use Rattle.std.specs.List.{before_first};
ghost use Rattle.hd_num.specs.Lines.{is_line_feed};
ghost use Rattle.hd_demo.specs.DemoText.{AddsRow, AddsRows, row, summary_rows, value_in};

use hd_list::{List, Memory};
use hd_num::{next_line, push_text, split_words};
use hd_session::SurfaceSession;
use std::alloc::Global;

/// Adds the summary of a session's surface: how many dales and hills there are, how many of them
/// are left after pruning at 5%, and the values of the parameters Spd and S10z. Six lines are asked
/// of the session, or fewer where one of them is refused its memory.
pub fn push_summary<E: SurfaceSession>(
    alloc: Global,
    out: &mut List<u8>,
    session: &mut E,
) -> Result<(), Memory>
    requires asked { E.asked session.old + 6 ≤ 16777216 }
    ensures summary { OnOk result (AddsRows (E.state session.old) summary_rows out.old out.new
        (E.state session.new)) }
    ensures asked { OnOk result (E.asked session.new ≡ E.asked session.old + 6) }
{
    push_row(alloc, out, session, "dales", "dales")?;
    push_row(alloc, out, session, "hills", "hills")?;
    push_row(alloc, out, session, "kept dales", "prune D 5%")?;
    push_row(alloc, out, session, "kept hills", "prune H 5%")?;
    push_row(alloc, out, session, "Spd", "param Spd")?;
    push_row(alloc, out, session, "S10z", "param S10z")?;
    Ok(())
}

// Adds a line of a summary: what is told, and the value of the answer to a question.
fn push_row<E: SurfaceSession>(
    alloc: Global,
    out: &mut List<u8>,
    session: &mut E,
    label: &str,
    question: &str,
) -> Result<(), Memory>
    requires asked { E.asked session.old < 16777216 }
    ensures row { OnOk result (AddsRow (E.state session.old)
        (row label.now question.now) out.old out.new (E.state session.new)) }
    ensures asked { E.asked session.new ≡ E.asked session.old + 1 }
{
    let answer = session.answer_line(1, question.as_bytes())?;
    push_text(out, label.as_bytes())?;
    push_text(out, b" ".as_slice())?;
    push_value(alloc, out, answer.text.as_slice())?;
    push_text(out, b"\n".as_slice())?;
    Ok(())
}

// Adds the last word of the first line of an answer.
fn push_value(alloc: Global, out: &mut List<u8>, answer: &[u8]) -> Result<(), Memory>
    ensures { OnOk result (out.new ≡ out.old ++ value_in answer.now) }
{
    let line = first_line(answer);
    let words = split_words(alloc, line)?;
    match words.as_slice().last() {
        Some(word) => push_text(out, &line[word.start..word.end]),
        None => Ok(()),
    }
}

// The first line of a text, without its LF.
fn first_line(text: &[u8]) -> &[u8]
    ensures { result.now ≡ before_first is_line_feed text.now }
{
    match next_line(text, 0) {
        Some((line, _)) => &text[line.start..line.end],
        None => text,
    }
}
