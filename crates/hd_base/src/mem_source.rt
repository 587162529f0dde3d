// A source over files in memory, which fails at the calls that are listed.
ghost use Rattle.std.specs.Prelude.{◌≡◌, ◌<◌, ◌+◌, ◌^◌, ◌↔◌, ◌⊎◌, Some, None, true, length, drop, min, is_some, IsTrue, IsErr, MatchOption, IfOk, OnOk, OnErr};
ghost use Rattle.std.specs.List.{Contains};
ghost use Rattle.std.specs.Io.{ReadsAtMost};
ghost use Rattle.std.specs.Io.KnownBytes.{ReadConsumes};
ghost use Rattle.hd_base.specs.Causes.{HasCause};
ghost use Rattle.hd_base.specs.MemSource.{SourceState, failed_source, source_left_with, file_named, file_at, left_of, unread_of, left-closed};

use crate::schedule::Schedule;
use crate::{Failed, List, Source};
use std::marker::Model;

/// Files in memory by their names, of which it tells each byte.
///
/// Its calls are numbered from 0, and the number stays at its last value. The calls whose numbers
/// are listed fail, and so does an open of a name that is not there. Of two files of one name the
/// first counts.
#[derive(Drop)]
pub struct MemSource {
    files: List<(List<u8>, List<u8>)>,
    schedule: Schedule,
    piece: usize,
    // The index of the open file, and how many of its bytes are taken.
    reading: Option<(usize, usize)>,
}

impl Model for MemSource {
    ghost Value = { SourceState };

    ghost view = { λ s. record {
      contents = s.files;
      unread = unread_of s.files s.reading;
      piece = s.piece;
      fails = s.schedule.fails;
      calls = s.schedule.calls;
      fault_count = s.schedule.faults.count;
    } };

    ghost invariant = { λ s. 0 < s.piece };
}

impl MemSource {
    /// A source of these files, names before contents, that gives at most `piece` bytes a read, at
    /// least one, and fails at the calls whose numbers are in `fails`.
    pub fn new(files: List<(List<u8>, List<u8>)>, fails: List<u64>, piece: usize) -> Self
        requires { 0 < piece }
        ensures { result ≡ record {
          contents = files;
          unread = None;
          piece = piece;
          fails = fails;
          calls = 0;
          fault_count = 0;
        } }
    {
        MemSource {
            files,
            schedule: Schedule::new(fails),
            piece,
            reading: None,
        }
    }
}

impl Source for MemSource {
    ghost is_open = { λ s. is_some s.unread };

    ghost faults = { λ s. s.fault_count };

    ghost allows = { λ _ _. true };

    ghost files = { λ s. file_named s.contents };

    ghost left = { λ s. Some (left_of s) };

    fn open(&mut self, name: &str) -> Result<(), Failed>
        ensures opened { OnOk result (IsTrue (is_some self.new.unread)) }
        ensures ok { OnOk result
            (self.new ≡ source_left_with self.old (file_named self.old.contents name.now)) }
        ensures err { OnErr result (self.new ≡ failed_source self.old) }
        ensures fails { IsErr result
            ↔ (Contains self.old.fails self.old.calls ⊎ (file_named self.old.contents name.now ≡ None)) }
        ensures cause { HasCause self.old.fault_count self.new.fault_count result }
    {
        self.schedule.begin()?;
        let Some(index) = file_index(self.files.as_slice(), name.as_bytes()) else {
            return self.schedule.fail();
        };
        self.reading = Some((index, 0));
        Ok(())
    }

    fn read(&mut self, into: &mut [u8]) -> Result<usize, Failed>
        requires { IsTrue (is_some self.old.unread) }
        ensures open { IsTrue (is_some self.new.unread) }
        ensures bound { ReadsAtMost result into.new }
        ensures bytes { ReadConsumes (Some (left_of self.old)) (Some (left_of self.new)) result into.new }
        ensures count { IfOk result
            (λ n. n ≡ min (min (length (left_of self.old)) (length into.old)) self.old.piece) }
        ensures ok { IfOk result
            (λ n. self.new ≡ source_left_with self.old (Some (drop n (left_of self.old)))) }
        ensures err { OnErr result (self.new ≡ failed_source self.old) }
        ensures fails { IsErr result ↔ Contains self.old.fails self.old.calls }
        ensures cause { HasCause self.old.fault_count self.new.fault_count result }
    {
        let Some((index, taken)) = self.reading else {
            unreachable!();
        };
        self.schedule.begin()?;
        let rest = rest_of(self.files.as_slice(), index, taken);
        let count = rest.len().min(into.len()).min(self.piece);
        into[..count].copy_from_slice(&rest[..count]);
        self.reading = Some((index, taken + count));
        Ok(count)
    }

    ghost closed = { left-closed };
}

// The index of the first file of a name.
fn file_index(files: &[(List<u8>, List<u8>)], name: &[u8]) -> Option<usize>
    ensures { MatchOption result (file_named files.now name.now ≡ None)
        (λ index. file_named files.now name.now ≡ Some (file_at files.now index)) }
{
    'files: for (index, file) in files.iter().enumerate() {
        if file.0.as_slice() == name {
            return Some(index);
        }
    }
    None
}

// The bytes of a file after those that are taken.
fn rest_of(files: &[(List<u8>, List<u8>)], index: usize, taken: usize) -> &[u8]
    ensures value { result.now ≡ drop taken (file_at files.now index) }
    ensures fits { taken + length result.now < 2 ^ 64 }
{
    match files.get(index) {
        Some(file) => {
            let bytes = file.1.as_slice();
            if taken <= bytes.len() {
                &bytes[taken..]
            } else {
                &[]
            }
        }
        None => &[],
    }
}
