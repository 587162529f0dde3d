// What the program writes to.
ghost use Rattle.std.specs.Prelude.{◌≡◌, ◌<◌, [], ℕ, List as Items, Bool, false, length, Some, IsTrue, Option, OnOk, OnErr, IfOk};
ghost use Rattle.std.specs.Io.{WritesAtMost};
ghost use Rattle.std.specs.Io.KnownBytes.{WriteAppends, Keeps, Appends};
ghost use Rattle.hd_base.specs.Causes.{HasCause};
ghost use Rattle.hd_base.specs.Told.{OnTold, AppendsPart};

use crate::Failed;
use thiserror::Error;

/// The sink failed before all bytes were written.
#[derive(Clone, Copy, Debug, PartialEq, Eq, Error)]
#[error("write fault")]
pub struct WriteFault;

/// A place to write one file at a time to.
///
/// A call that fails answers `Failed` and counts a fault; no other call changes the count, which
/// stands still at its last value. A call may change which names may be opened next, so one leave
/// serves one open.
pub trait Sink {
    /// Whether a file is open.
    ghost is_open: { Self → Bool };

    /// How often it failed.
    ghost faults: { Self → ℕ };

    /// Whether a name may be opened.
    ghost allows: { Self → Items ℕ → Bool };

    /// The bytes written since it was opened, where they are told.
    ghost written: { Self → Option (Items ℕ) };

    /// Whether all told bytes are flushed.
    ghost flushed: { Self → Bool };

    /// Opens a file, in place of the one that is open. No byte of it is written yet.
    fn open(&mut self, name: &str) -> Result<(), Failed>
        requires { IsTrue (allows self.old name.now) }
        ensures opened { OnOk result (IsTrue (is_open self.new)) }
        ensures empty { OnOk result (OnTold (written self.old) (written self.new ≡ Some [])) }
        ensures refused { OnErr result (Keeps (written self.old) (written self.new)) }
        ensures cause { HasCause (faults self.old) (faults self.new) result };

    /// Writes the first bytes of a piece, at least one of a piece that has some.
    fn write(&mut self, piece: &[u8]) -> Result<usize, Failed>
        requires { IsTrue (is_open self.old) }
        ensures open { IsTrue (is_open self.new) }
        ensures bound { WritesAtMost result piece.now }
        ensures some { IfOk result (λ n. 0 < length piece.now → 0 < n) }
        ensures bytes { WriteAppends (written self.old) (written self.new) result piece.now }
        ensures unflushed { OnTold (written self.old) (IfOk result (λ n. 0 < n → flushed self.new ≡ false)) }
        ensures cause { HasCause (faults self.old) (faults self.new) result };

    /// Hands on all bytes that were written.
    fn flush(&mut self) -> Result<(), Failed>
        requires { IsTrue (is_open self.old) }
        ensures open { IsTrue (is_open self.new) }
        ensures flushed { OnOk result (IsTrue (flushed self.new)) }
        ensures written { Keeps (written self.old) (written self.new) }
        ensures cause { HasCause (faults self.old) (faults self.new) result };
}

/// Writes all bytes, by as many writes as are needed.
///
/// `WriteFault` comes only where the sink failed; some first bytes are written then, and not all.
pub fn write_all<W: Sink>(sink: &mut W, bytes: &[u8]) -> Result<(), WriteFault>
    requires { IsTrue (W.is_open sink.old) }
    ensures open { IsTrue (W.is_open sink.new) }
    ensures all { OnOk result (Appends (W.written sink.old) (W.written sink.new) bytes.now) }
    ensures part { OnErr result (AppendsPart (W.written sink.old) (W.written sink.new) bytes.now) }
    ensures cause { HasCause (W.faults sink.old) (W.faults sink.new) result }
{
    let mut rest = bytes;
    'pieces: while !rest.is_empty() {
        let Ok(count) = sink.write(rest) else {
            return Err(WriteFault);
        };
        rest = &rest[count..];
    }
    Ok(())
}
