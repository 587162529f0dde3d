// The work that the words ask for.
ghost use Rattle.std.specs.Prelude.{◌≡◌, ◌≢◌, ◌⊎◌, ℕ, List as Items, map, string_bytes, None, IsTrue};
ghost use Rattle.std.specs.Option.{ForSome};
ghost use Rattle.std.specs.Io.KnownBytes.{Appends};
ghost use Rattle.hd_words.specs.Demo.{IsDemo};
ghost use Rattle.hd_words.specs.Forms.{form_of};
ghost use Rattle.hd_words.specs.Requests.{save_name, second_name, surface_name};
ghost use Rattle.hd_run.specs.FaultCounts.{SourceFailed, over};
ghost use Rattle.hd_run.specs.Outcome.{surface_of};
ghost use Rattle.hd_run.specs.ReadOrder.{reading};
ghost use Rattle.hd_run.specs.Saving.{saving};
ghost use Rattle.hd_program.specs.Ending.{EndsAs, EndsDemo, EndsRun, Finishes};
ghost use Rattle.hd_program.specs.Outcome.{TellsInputs};
ghost use Rattle.hd_program.specs.Status.{HasStatusCause};
ghost use Rattle.hd_program.specs.Texts.{read_fault_text};
ghost use Rattle.hd_program.specs.WorkOrder.{ReadsInOrder, ReadsWithin, SavesInTurn};

use crate::status::Status;
use crate::texts::{READ_FAULT, USAGE};
use hd_base::{Sink, Source, write_all};
use hd_demo::demo_text;
use hd_run::{Stop, check_certificate, run};
use hd_session::SurfaceSession;
use hd_words::{Demo, Job, command_of, job_of};
use std::alloc::Global;

/// Performs what the words after the program's name ask for, in a session of any kind. The surface is read from
/// `surface`, the script or the certificate from `script`, and answers go to `out`, which is handed in open. The file
/// that the lines of a script leave is saved to `saved`, where the words name one. All is as `top` promises it, which
/// is this call.
pub fn perform<E: SurfaceSession, S: Source, R: Source, W: Sink, V: Sink>(
    alloc: Global,
    words: &[String],
    surface: &mut S,
    script: &mut R,
    out: &mut W,
    saved: &mut V,
) -> Status
    requires open { IsTrue (W.is_open out.old) }
    requires surface { ForSome (form_of (map string_bytes words.now))
        (λ request. ForSome (surface_name request) (λ name. IsTrue (S.allows surface.old name))) }
    requires script { ForSome (form_of (map string_bytes words.now))
        (λ request. ForSome (second_name request) (λ name. IsTrue (R.allows script.old name))) }
    requires saved { ForSome (form_of (map string_bytes words.now))
        (λ request. ForSome (save_name request) (λ name. IsTrue (V.allows saved.old name))) }

    // What the words and the told bytes of both inputs come to is what was written and saved.
    ensures outcome { (bytes second : Items ℕ)
        → TellsInputs (map string_bytes words.now) (S.files surface.old) (R.files script.old) bytes second
        → EndsAs (map string_bytes words.now) bytes second
        (SourceFailed (surface_of bytes) (over (S.faults surface.old) (S.faults surface.new))
        (over (R.faults script.old) (R.faults script.new)))
        (saved.new ≡ saved.old)
        (saving (V.written saved.old) (V.written saved.new) (V.flushed saved.new) (over (V.faults saved.old) (V.faults saved.new)))
        result (W.written out.old) (W.written out.new) }
    ensures usage { result ≡ Status.Usage → form_of (map string_bytes words.now) ≡ None }
    ensures unformed { form_of (map string_bytes words.now) ≡ None
        → (result ≡ Status.Usage) ⊎ (result ≡ Status.WriteFault) }

    // No step comes before its turn, and no input is read further than to one byte past its limit.
    ensures order { ReadsInOrder (form_of (map string_bytes words.now)) (S.files surface.old)
        (over (S.faults surface.old) (S.faults surface.new)) surface.old surface.new script.old script.new }
    ensures unread { result ≡ Status.SurfaceRefused → script.new ≡ script.old }
    ensures within { ReadsWithin (form_of (map string_bytes words.now)) (surface.new ≡ surface.old)
        (script.new ≡ script.old)
        (reading (S.files surface.old) (S.left surface.old) (S.left surface.new) (over (S.faults surface.old) (S.faults surface.new)))
        (reading (R.files script.old) (R.left script.old) (R.left script.new) (over (R.faults script.old) (R.faults script.new))) }

    // Faults are answered only where there was one.
    ensures cause { HasStatusCause result (over (S.faults surface.old) (S.faults surface.new))
        (over (R.faults script.old) (R.faults script.new)) (over (W.faults out.old) (W.faults out.new))
        (over (V.faults saved.old) (V.faults saved.new)) }
    ensures read_fault { result ≡ Status.ReadFault
        → Appends (W.written out.old) (W.written out.new) read_fault_text }
    ensures flushed { result ≢ Status.WriteFault → result ≢ Status.Memory → IsTrue (W.flushed out.new) }

    // `saved` is touched only where the words name a file, and only once all lines are answered.
    ensures saved { SavesInTurn (form_of (map string_bytes words.now)) result (saved.new ≡ saved.old)
        (over (S.faults surface.old) (S.faults surface.new)) (over (R.faults script.old) (R.faults script.new))
        (over (W.faults out.old) (W.faults out.new))
        (saving (V.written saved.old) (V.written saved.new) (V.flushed saved.new) (over (V.faults saved.old) (V.faults saved.new))) }
{
    let Some(command) = command_of(words) else {
        return finish(out, USAGE.as_bytes(), Status::Usage);
    };
    let Ok(job) = job_of(alloc, command, words) else {
        return Status::Memory;
    };
    match job {
        Job::Run(job) => {
            let ran = run::<E, S, R, W, V>(alloc, &job, surface, script, out, saved);
            end_run(alloc, out, ran)
        }
        Job::Check(job) => {
            let checked = check_certificate(alloc, &job, surface, script, out);
            end_run(alloc, out, checked)
        }
        Job::Demo(demo) => show_demo::<E, W>(alloc, demo, out),
    }
}

// Ends a run or a check by what it came to.
fn end_run<W: Sink>(alloc: Global, out: &mut W, ran: Result<bool, Stop>) -> Status
    requires { IsTrue (W.is_open out.old) }
    ensures { EndsRun ran result (W.written out.old) (W.written out.new) (W.flushed out.new)
        (over (W.faults out.old) (W.faults out.new)) }
{
    match ran {
        Ok(true) => finish(out, b"".as_slice(), Status::Done),
        Ok(false) => finish(out, b"".as_slice(), Status::LineRefused),
        Err(Stop::Memory) => Status::Memory,
        Err(Stop::WriteFault) => Status::WriteFault,
        Err(Stop::ReadFault) => finish(out, READ_FAULT.as_bytes(), Status::ReadFault),
        Err(Stop::Refused(refusal)) => match refusal.text(alloc) {
            Ok(text) => finish(out, text.as_slice(), Status::of_refusal(refusal)),
            Err(_) => Status::Memory,
        },
    }
}

// Writes what a demo prints, and ends by that.
fn show_demo<E: SurfaceSession, W: Sink>(alloc: Global, demo: Demo, out: &mut W) -> Status
    requires open { IsTrue (W.is_open out.old) }
    requires demo { IsDemo demo }
    ensures { EndsDemo demo result (W.written out.old) (W.written out.new) (W.flushed out.new)
        (over (W.faults out.old) (W.faults out.new)) }
{
    match demo_text::<E>(alloc, demo) {
        Ok(text) => finish(out, text.as_slice(), Status::Done),
        Err(_) => Status::Memory,
    }
}

// Writes and flushes what is left to write, and answers the status, or a write fault.
fn finish<W: Sink>(out: &mut W, bytes: &[u8], status: Status) -> Status
    requires { IsTrue (W.is_open out.old) }
    ensures { Finishes bytes.now status result (W.written out.old) (W.written out.new) (W.flushed out.new)
        (over (W.faults out.old) (W.faults out.new)) }
{
    if write_all(out, bytes).is_err() {
        return Status::WriteFault;
    }
    if out.flush().is_err() {
        return Status::WriteFault;
    }
    status
}
