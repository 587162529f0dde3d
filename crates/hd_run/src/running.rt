// A run over a surface and a script.
ghost use Rattle.std.specs.Prelude.{◌≡◌, ◌≤◌, ◌⊎◌, ℕ, List as Items, length, Some, Err, IsTrue};
ghost use Rattle.std.specs.Option.{option_copied, ForSome};
ghost use Rattle.std.specs.Io.KnownBytes.{Keeps};
ghost use Rattle.hd_num.specs.Lines.{lines_of};
ghost use Rattle.hd_sdf_read.specs.FileOf.{file_of};
ghost use Rattle.hd_session.specs.State.{first_state};
ghost use Rattle.hd_words.specs.Limits.{greatest_tile, least_tile};
ghost use Rattle.hd_words.specs.Requests.{run_request_of};
ghost use Rattle.hd_run.specs.FaultCounts.{Count, SourceFailed, Stays, over};
ghost use Rattle.hd_run.specs.Limits.{script_limit, surface_limit};
ghost use Rattle.hd_run.specs.Outcome.{surface_of};
ghost use Rattle.hd_run.specs.ReadOrder.{IsOfSurface, SecondComesLast, StopsWithin, reading};
ghost use Rattle.hd_run.specs.declared.stop.Refusal.{Refusal};
ghost use Rattle.hd_run.specs.RunResult.{AnswersAndSaves, HasRunStop, HasSinkStop, IsRun};
ghost use Rattle.hd_run.specs.Saving.{SavesLast, saving};

use crate::answers::answer_lines;
use crate::inputs::{read_script, read_surface};
use crate::save::save_file;
use crate::stop::Stop;
use hd_base::{Sink, Source};
use hd_sdf_read::SdfFile;
use hd_session::{SurfaceSession, answer_keeps_a_state, answers_are_determined};
use hd_words::RunJob;
use std::alloc::Global;

/// Reads the surface, then the script, answers its lines, and saves the file that they leave, where
/// the words name one; without a script, the one line `dales`. Tells whether all lines were
/// accepted.
pub fn run<E: SurfaceSession, S: Source, R: Source, W: Sink, V: Sink>(
    alloc: Global,
    job: &RunJob<'_>,
    surface: &mut S,
    script: &mut R,
    out: &mut W,
    saved: &mut V,
) -> Result<bool, Stop>
    requires open { IsTrue (W.is_open out.old) }
    requires tile { (least_tile ≤ job.now.tile) × (job.now.tile ≤ greatest_tile) }
    requires surface { IsTrue (S.allows surface.old job.now.surface.now) }
    requires script { ForSome (option_copied job.now.script) (λ name. IsTrue (R.allows script.old name)) }
    requires saved { ForSome (option_copied job.now.save) (λ name. IsTrue (V.allows saved.old name)) }
    ensures open { IsTrue (W.is_open out.new) }
    ensures told { (bytes second : Items ℕ) → S.files surface.old job.now.surface.now ≡ Some bytes
        → ((name : Items ℕ) → option_copied job.now.script ≡ Some name → R.files script.old name ≡ Some second)
        → IsRun (run_request_of job.now) bytes second (saved.new ≡ saved.old)
        (saving (V.written saved.old) (V.written saved.new) (V.flushed saved.new) (over (V.faults saved.old) (V.faults saved.new)))
        result (W.written out.old) (W.written out.new) }
    ensures unwritten { result ≡ Err Stop.ReadFault → Keeps (W.written out.old) (W.written out.new) }
    ensures order { SecondComesLast (option_copied job.now.script) (S.files surface.old job.now.surface.now)
        (over (S.faults surface.old) (S.faults surface.new)) script.old script.new }
    ensures unread { (refusal : Refusal) → result ≡ Err (Stop.Refused refusal) → IsOfSurface refusal
        → script.new ≡ script.old }
    ensures surface_left { StopsWithin surface_limit job.now.surface.now
        (reading (S.files surface.old) (S.left surface.old)
        (S.left surface.new) (over (S.faults surface.old) (S.faults surface.new))) }
    ensures script_left { (name : Items ℕ) → option_copied job.now.script ≡ Some name
        → (script.new ≡ script.old)
        ⊎ StopsWithin script_limit name (reading (R.files script.old) (R.left script.old) (R.left script.new)
        (over (R.faults script.old) (R.faults script.new))) }
    ensures failed { (bytes : Items ℕ) → S.files surface.old job.now.surface.now ≡ Some bytes
        → result ≡ Err Stop.ReadFault
        → SourceFailed (surface_of bytes) (over (S.faults surface.old) (S.faults surface.new))
        (over (R.faults script.old) (R.faults script.new)) }
    ensures cause { HasRunStop (over (S.faults surface.old) (S.faults surface.new))
        (over (R.faults script.old) (R.faults script.new)) (over (W.faults out.old) (W.faults out.new))
        (over (V.faults saved.old) (V.faults saved.new)) result }
    ensures saved { SavesLast (option_copied job.now.save) result (saved.new ≡ saved.old)
        (over (S.faults surface.old) (S.faults surface.new)) (over (R.faults script.old) (R.faults script.new))
        (over (W.faults out.old) (W.faults out.new))
        (saving (V.written saved.old) (V.written saved.new) (V.flushed saved.new) (over (V.faults saved.old) (V.faults saved.new))) }
{
    answers_are_determined();
    answer_keeps_a_state();
    let file = match read_surface(alloc, surface, job.surface) {
        Ok(file) => file,
        Err(stop) => return Err(stop),
    };
    let Some(name) = job.script else {
        return answer_all::<E, W, V>(alloc, file, job, b"dales".as_slice(), out, saved);
    };
    let lines = match read_script(alloc, script, name) {
        Ok(lines) => lines,
        Err(stop) => {
            drop(file);
            return Err(stop);
        }
    };
    answer_all::<E, W, V>(alloc, file, job, lines.as_slice(), out, saved)
}

// Answers the lines on the surface of a file, and saves the file that they leave, where the words
// name one.
fn answer_all<E: SurfaceSession, W: Sink, V: Sink>(
    alloc: Global,
    file: SdfFile,
    job: &RunJob<'_>,
    script: &[u8],
    out: &mut W,
    saved: &mut V,
) -> Result<bool, Stop>
    requires open { IsTrue (W.is_open out.old) }
    requires few { length script.now ≤ script_limit }
    requires tile { (least_tile ≤ job.now.tile) × (job.now.tile ≤ greatest_tile) }
    requires saved { ForSome (option_copied job.now.save) (λ name. IsTrue (V.allows saved.old name)) }
    ensures open { IsTrue (W.is_open out.new) }
    ensures answers { AnswersAndSaves (option_copied job.now.save) (first_state (file_of file))
        (lines_of script.now)
        (saved.new ≡ saved.old)
        (saving (V.written saved.old) (V.written saved.new) (V.flushed saved.new) (over (V.faults saved.old) (V.faults saved.new)))
        result (W.written out.old) (W.written out.new) }
    ensures cause { HasSinkStop (over (W.faults out.old) (W.faults out.new))
        (over (V.faults saved.old) (V.faults saved.new)) result }
    ensures saved { (surface script : Count) → Stays surface → Stays script
        → SavesLast (option_copied job.now.save) result (saved.new ≡ saved.old) surface script
        (over (W.faults out.old) (W.faults out.new))
        (saving (V.written saved.old) (V.written saved.new) (V.flushed saved.new) (over (V.faults saved.old) (V.faults saved.new))) }
{
    let Ok(mut session) = E::on_file(alloc, file, job.tile) else {
        return Err(Stop::Memory);
    };
    let answered = answer_and_save(&mut session, job, script, out, saved);
    drop(session);
    answered
}

// Answers the lines in a session that was asked none, and saves the file that they leave, where the
// words name one.
fn answer_and_save<E: SurfaceSession, W: Sink, V: Sink>(
    session: &mut E,
    job: &RunJob<'_>,
    script: &[u8],
    out: &mut W,
    saved: &mut V,
) -> Result<bool, Stop>
    requires open { IsTrue (W.is_open out.old) }
    requires few { length script.now ≤ script_limit }
    requires fresh { E.asked session.old ≡ 0 }
    requires saved { ForSome (option_copied job.now.save) (λ name. IsTrue (V.allows saved.old name)) }
    ensures open { IsTrue (W.is_open out.new) }
    ensures answers { AnswersAndSaves (option_copied job.now.save) (E.state session.old) (lines_of script.now)
        (saved.new ≡ saved.old)
        (saving (V.written saved.old) (V.written saved.new) (V.flushed saved.new) (over (V.faults saved.old) (V.faults saved.new)))
        result (W.written out.old) (W.written out.new) }
    ensures cause { HasSinkStop (over (W.faults out.old) (W.faults out.new))
        (over (V.faults saved.old) (V.faults saved.new)) result }
    ensures saved { (surface script : Count) → Stays surface → Stays script
        → SavesLast (option_copied job.now.save) result (saved.new ≡ saved.old) surface script
        (over (W.faults out.old) (W.faults out.new))
        (saving (V.written saved.old) (V.written saved.new) (V.flushed saved.new) (over (V.faults saved.old) (V.faults saved.new))) }
{
    let accepted = match answer_lines(session, script, out) {
        Ok(accepted) => accepted,
        Err(stop) => return Err(stop),
    };
    let Some(name) = job.save else {
        return Ok(accepted);
    };
    match save_file(session, name, saved) {
        Ok(()) => {}
        Err(stop) => return Err(stop),
    }
    Ok(accepted)
}
