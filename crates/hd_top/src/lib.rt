//! The program as one call.
#![tactic(auto)]

ghost use Rattle.std.specs.Prelude.{◌≡◌, ◌≢◌, ◌⊎◌, ℕ, List as Items, map, string_bytes, None, Some, Ok, true, IsTrue};
ghost use Rattle.std.specs.Option.{ForSome};
ghost use Rattle.std.specs.Io.KnownBytes.{Appends};
ghost use Rattle.hd_map.specs.declared.types.Pos.{Pos};
ghost use Rattle.hd_map.specs.declared.types.SideName.{SideName};
ghost use Rattle.hd_script.specs.declared.command.Command.TheVariants.{Saddle};
ghost use Rattle.hd_script.specs.Line.{script_line};
ghost use Rattle.hd_session.specs.Answers.{IsAnswer};
ghost use Rattle.hd_session.specs.Reply.{Reply};
ghost use Rattle.hd_session.specs.Saddles.{PrintsRight};
ghost use Rattle.hd_session.specs.State.{State};
ghost use Rattle.hd_words.specs.Forms.{form_of};
ghost use Rattle.hd_words.specs.Requests.{save_name, second_name, surface_name};
ghost use Rattle.hd_run.specs.FaultCounts.{SourceFailed, over};
ghost use Rattle.hd_run.specs.Outcome.{surface_of};
ghost use Rattle.hd_run.specs.ReadOrder.{reading};
ghost use Rattle.hd_run.specs.Saving.{saving};
ghost use Rattle.hd_program.specs.Ending.{EndsAs};
ghost use Rattle.hd_program.specs.Outcome.{TellsInputs};
ghost use Rattle.hd_program.specs.Status.{HasStatusCause};
ghost use Rattle.hd_program.specs.Texts.{read_fault_text};
ghost use Rattle.hd_program.specs.WorkOrder.{ReadsInOrder, ReadsWithin, SavesInTurn};

use hd_base::{Sink, Source};
use hd_engine::Session;
use hd_program::perform;
pub use hd_program::{Status, exit_of};
use hd_session::printed_certificate_is_right;
use std::alloc::Global;

/// Runs the program by the words after its name. For every surface file, script and tile size, the program writes, line by
/// line, exactly what the definitions give on the whole present map after the accepted edits, masks and filters (clause
/// `outcome`); every saddle asked for comes with a path that rises no higher, and no path between those two pits stays
/// lower (for hills, mirrored) (`saddles`: the printed certificate is right); and a surface file is refused exactly where
/// the stated grammar excludes it (`outcome`), as it does one of over 268,435,456 bytes.
///
/// The surface is read from `surface`, the script or the certificate from `script`, and answers go to `out`, which is
/// handed in open. The file that the lines of a script leave is saved to `saved`, where the words name one; the words
/// decide the name, and no other is opened. A demo opens no source and saves nothing.
///
/// The first step that fails decides the status: the words, reading the surface, judging it, reading
/// the second input, then of a script each line's answer and its writing, opening, writing and
/// flushing `saved`, and of a certificate its form, its rules and the text; the flush of `out`. A
/// demo has the words, the writing of its text and the flush. The text of a status is written and
/// flushed; where this fails, the status is `WriteFault`. Of each input at most one byte past its
/// limit is read.
pub fn top<S: Source, R: Source, W: Sink, V: Sink>(
    alloc: Global,
    words: &[String],
    surface: &mut S,
    script: &mut R,
    out: &mut W,
    saved: &mut V,
) -> Status
    requires open { IsTrue (W.is_open out.old) }
    requires surface { ForSome (form_of (map string_bytes words.now))
        (λ request. ForSome (surface_name request) (λ name. IsTrue (S.allows surface.old name))) }
    requires script { ForSome (form_of (map string_bytes words.now))
        (λ request. ForSome (second_name request) (λ name. IsTrue (R.allows script.old name))) }
    requires saved { ForSome (form_of (map string_bytes words.now))
        (λ request. ForSome (save_name request) (λ name. IsTrue (V.allows saved.old name))) }

    // What the words and the told bytes of both inputs come to is what was written and saved.
    ensures outcome { (bytes second : Items ℕ)
        → TellsInputs (map string_bytes words.now) (S.files surface.old) (R.files script.old) bytes second
        → EndsAs (map string_bytes words.now) bytes second
        (SourceFailed (surface_of bytes) (over (S.faults surface.old) (S.faults surface.new))
        (over (R.faults script.old) (R.faults script.new)))
        (saved.new ≡ saved.old)
        (saving (V.written saved.old) (V.written saved.new) (V.flushed saved.new) (over (V.faults saved.old) (V.faults saved.new)))
        result (W.written out.old) (W.written out.new) }

    // Each accepted `saddle` line prints a certificate of the pits of its two points that is right on the map at that line.
    ensures saddles { (s : State) (number : ℕ) (line : Items ℕ) (side : SideName) (a b : Pos)
        (reply : Reply) (after : State)
        → script_line line ≡ Ok (Some (Saddle side a b)) → IsAnswer s number line reply after → reply.accepted ≡ true
        → PrintsRight s.map side a b reply }

    ensures usage { result ≡ Status.Usage → form_of (map string_bytes words.now) ≡ None }
    ensures unformed { form_of (map string_bytes words.now) ≡ None
        → (result ≡ Status.Usage) ⊎ (result ≡ Status.WriteFault) }

    // No step comes before its turn, and no input is read further than to one byte past its limit.
    ensures order { ReadsInOrder (form_of (map string_bytes words.now)) (S.files surface.old)
        (over (S.faults surface.old) (S.faults surface.new)) surface.old surface.new script.old script.new }
    ensures unread { result ≡ Status.SurfaceRefused → script.new ≡ script.old }
    ensures within { ReadsWithin (form_of (map string_bytes words.now)) (surface.new ≡ surface.old)
        (script.new ≡ script.old)
        (reading (S.files surface.old) (S.left surface.old) (S.left surface.new) (over (S.faults surface.old) (S.faults surface.new)))
        (reading (R.files script.old) (R.left script.old) (R.left script.new) (over (R.faults script.old) (R.faults script.new))) }

    // Faults are answered only where there was one.
    ensures cause { HasStatusCause result (over (S.faults surface.old) (S.faults surface.new))
        (over (R.faults script.old) (R.faults script.new)) (over (W.faults out.old) (W.faults out.new))
        (over (V.faults saved.old) (V.faults saved.new)) }
    ensures read_fault { result ≡ Status.ReadFault
        → Appends (W.written out.old) (W.written out.new) read_fault_text }
    ensures flushed { result ≢ Status.WriteFault → result ≢ Status.Memory → IsTrue (W.flushed out.new) }

    // `saved` is touched only where the words name a file, and only once all lines are answered.
    ensures saved { SavesInTurn (form_of (map string_bytes words.now)) result (saved.new ≡ saved.old)
        (over (S.faults surface.old) (S.faults surface.new)) (over (R.faults script.old) (R.faults script.new))
        (over (W.faults out.old) (W.faults out.new))
        (saving (V.written saved.old) (V.written saved.new) (V.flushed saved.new) (over (V.faults saved.old) (V.faults saved.new))) }
{
    printed_certificate_is_right();
    perform::<Session, S, R, W, V>(alloc, words, surface, script, out, saved)
}
