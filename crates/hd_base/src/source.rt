// What the program reads from.
ghost use Rattle.std.specs.Prelude.{◌≡◌, ◌≢◌, ◌<◌, ◌-◌, ◌^◌, ℕ, List as Items, Bool, false, Option, Some, Err, IsTrue, OnOk, OnErr};
ghost use Rattle.std.specs.Io.{ReadsAtMost};
ghost use Rattle.std.specs.Io.KnownBytes.{ReadConsumes, IsAtEnd, Keeps};
ghost use Rattle.hd_base.specs.Causes.{HasCause};
ghost use Rattle.hd_base.specs.Told.{ReadsFile, StopsInFile, HasReadCause};

use crate::List;
use std::alloc::Global;
use thiserror::Error;

/// A source or a sink failed at this call, and has counted a fault.
#[derive(Clone, Copy, Debug, PartialEq, Eq, Error)]
#[error("failed")]
pub struct Failed;

/// Why a file was not read whole.
#[derive(Clone, Copy, Debug, PartialEq, Eq, Error)]
pub enum ReadError {
    /// Want of memory.
    #[error("out of memory")]
    Memory,
    /// The source failed.
    #[error("read fault")]
    ReadFault,
    /// The file has more bytes than this limit.
    #[error("more than {0} bytes")]
    TooLong(usize),
}

/// A place to read files from, by their names, one at a time.
///
/// A call that fails answers `Failed` and counts a fault; no other call changes the count, which
/// stands still at its last value. An open may change which names may be opened next, so one leave
/// serves one open.
pub trait Source {
    /// Whether a file is open.
    ghost is_open: { Self → Bool };

    /// How often it failed.
    ghost faults: { Self → ℕ };

    /// Whether a name may be opened.
    ghost allows: { Self → Items ℕ → Bool };

    /// The bytes of a file by its name, where they are told.
    ghost files: { Self → Items ℕ → Option (Items ℕ) };

    /// The bytes that are left of the open file, where they are told.
    ghost left: { Self → Option (Items ℕ) };

    /// Opens a file, in place of the one that is open.
    fn open(&mut self, name: &str) -> Result<(), Failed>
        requires { IsTrue (allows self.old name.now) }
        ensures opened { OnOk result (IsTrue (is_open self.new)) }
        ensures file { OnOk result
            ((bytes : Items ℕ) → files self.old name.now ≡ Some bytes → left self.new ≡ Some bytes) }
        ensures refused { OnErr result (Keeps (left self.old) (left self.new)) }
        ensures cause { HasCause (faults self.old) (faults self.new) result };

    /// Reads the first of the bytes that are left, at most as many as the slice holds. No byte into
    /// a slice that holds some is the end.
    fn read(&mut self, into: &mut [u8]) -> Result<usize, Failed>
        requires { IsTrue (is_open self.old) }
        ensures open { IsTrue (is_open self.new) }
        ensures bound { ReadsAtMost result into.new }
        ensures bytes { ReadConsumes (left self.old) (left self.new) result into.new }
        ensures cause { HasCause (faults self.old) (faults self.new) result };

    /// Nothing is left before a file is open.
    ghost closed: { (source : Self) → is_open source ≡ false → IsAtEnd (left source) };
}

/// Opens the file of a name, once, and reads it to its end, or to one byte past the limit of bytes.
///
/// `ReadFault` comes only where the source failed, `TooLong(limit)` exactly where more bytes than
/// the limit are there.
pub fn read_all<S: Source>(
    alloc: Global,
    source: &mut S,
    name: &str,
    limit: usize,
) -> Result<List<u8>, ReadError>
    requires limit { limit < 2 ^ 64 - 1 }
    requires allowed { IsTrue (S.allows source.old name.now) }
    ensures file { ReadsFile (S.files source.old name.now) limit result }
    ensures left { (bytes : Items ℕ) → S.files source.old name.now ≡ Some bytes
        → StopsInFile bytes limit (S.left source.old) (S.left source.new) result }
    ensures open { result ≢ Err ReadError.ReadFault → IsTrue (S.is_open source.new) }
    ensures cause { HasReadCause (S.faults source.old) (S.faults source.new) result }
{
    if source.open(name).is_err() {
        return Err(ReadError::ReadFault);
    }
    let mut bytes = Vec::new(alloc);
    let mut piece = [0u8; 8192];
    'pieces: loop {
        let room = (limit + 1 - bytes.len()).min(piece.len());
        let Ok(count) = source.read(&mut piece[..room]) else {
            return Err(ReadError::ReadFault);
        };
        if count == 0 {
            return Ok(List::from_vec(bytes));
        }
        if bytes.extend_from_slice(&piece[..count]).is_err() {
            return Err(ReadError::Memory);
        }
        if bytes.len() > limit {
            return Err(ReadError::TooLong(limit));
        }
    }
}
