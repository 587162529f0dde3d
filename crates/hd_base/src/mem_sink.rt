// A sink in memory, which fails at the calls that are listed.
ghost use Rattle.std.specs.Prelude.{◌≡◌, ◌<◌, ◌≤◌, ◌+◌, ◌↔◌, ◌⊎◌, [], Some, true, length, min, IsErr, IfOk, OnOk, OnErr, vec_len, vec_capacity};
ghost use Rattle.std.specs.List.{Contains};
ghost use Rattle.hd_base.specs.Causes.{HasCause};
ghost use Rattle.hd_base.specs.MemSink.{SinkState, failed_sink, emptied_sink, longer_sink, flushed_sink};

use crate::schedule::Schedule;
use crate::{Failed, List, Memory, Sink};
use std::alloc::Global;
use std::marker::Model;

/// Keeps the bytes that are written, as far as there is room, and tells each of them.
///
/// Its calls are numbered from 0, and the number stays at its last value. The calls whose numbers
/// are listed fail, and so does a write of some bytes where no room is left.
#[derive(Drop)]
pub struct MemSink {
    bytes: Vec<u8>,
    room: usize,
    schedule: Schedule,
    piece: usize,
    flushed: bool,
}

impl Model for MemSink {
    ghost Value = { SinkState };

    ghost view = { λ s. record {
      bytes = s.bytes.items;
      room = s.room;
      is_flushed = s.flushed;
      piece = s.piece;
      fails = s.schedule.fails;
      calls = s.schedule.calls;
      fault_count = s.schedule.faults.count;
    } };

    ghost invariant = { λ s. (0 < s.piece) × (vec_len s.bytes + s.room ≤ vec_capacity s.bytes) };
}

impl MemSink {
    /// A sink with no room, that takes at most `piece` bytes a write, at least one, and fails at the
    /// calls whose numbers are in `fails`. It is open.
    pub fn new(alloc: Global, fails: List<u64>, piece: usize) -> Self
        requires { 0 < piece }
        ensures { result ≡ record {
          bytes = [];
          room = 0;
          is_flushed = true;
          piece = piece;
          fails = fails;
          calls = 0;
          fault_count = 0;
        } }
    {
        MemSink {
            bytes: Vec::new(alloc),
            room: 0,
            schedule: Schedule::new(fails),
            piece,
            flushed: true,
        }
    }

    /// Adds to the room that is left, which is in bytes. Where memory is refused, nothing changes.
    pub fn reserve(&mut self, n: usize) -> Result<(), Memory>
        ensures ok { OnOk result (self.new ≡ record self.old { room = self.old.room + n }) }
        ensures err { OnErr result (self.new ≡ self.old) }
    {
        let Some(room) = self.room.checked_add(n) else {
            return Err(Memory);
        };
        self.bytes.reserve(room)?;
        self.room = room;
        Ok(())
    }

    /// The bytes written since it was opened.
    pub fn bytes(&self) -> &[u8]
        ensures { result.now ≡ self.now.bytes }
    {
        self.bytes.as_slice()
    }
}

impl Sink for MemSink {
    ghost is_open = { λ _. true };

    ghost faults = { λ s. s.fault_count };

    ghost allows = { λ _ _. true };

    ghost written = { λ s. Some s.bytes };

    ghost flushed = { λ s. s.is_flushed };

    fn open(&mut self, _name: &str) -> Result<(), Failed>
        ensures ok { OnOk result (self.new ≡ emptied_sink self.old) }
        ensures err { OnErr result (self.new ≡ failed_sink self.old) }
        ensures fails { IsErr result ↔ Contains self.old.fails self.old.calls }
        ensures cause { HasCause self.old.fault_count self.new.fault_count result }
    {
        self.schedule.begin()?;
        self.room += self.bytes.len();
        self.bytes.clear();
        self.flushed = true;
        Ok(())
    }

    fn write(&mut self, piece: &[u8]) -> Result<usize, Failed>
        ensures some { IfOk result (λ n. 0 < length piece.now → 0 < n) }
        ensures count { IfOk result (λ n. n ≡ min (min (length piece.now) self.old.room) self.old.piece) }
        ensures ok { IfOk result (λ n. self.new ≡ longer_sink self.old n piece.now) }
        ensures err { OnErr result (self.new ≡ failed_sink self.old) }
        ensures fails { IsErr result
            ↔ (Contains self.old.fails self.old.calls ⊎ ((0 < length piece.now) × (self.old.room ≡ 0))) }
        ensures cause { HasCause self.old.fault_count self.new.fault_count result }
    {
        self.schedule.begin()?;
        let count = piece.len().min(self.room).min(self.piece);
        if count == 0 && !piece.is_empty() {
            return self.schedule.fail();
        }
        if self.bytes.extend_from_slice(&piece[..count]).is_err() {
            unreachable!();
        }
        self.room -= count;
        self.flushed = self.flushed && count == 0;
        Ok(count)
    }

    fn flush(&mut self) -> Result<(), Failed>
        ensures ok { OnOk result (self.new ≡ flushed_sink self.old) }
        ensures err { OnErr result (self.new ≡ failed_sink self.old) }
        ensures fails { IsErr result ↔ Contains self.old.fails self.old.calls }
        ensures cause { HasCause self.old.fault_count self.new.fault_count result }
    {
        self.schedule.begin()?;
        self.flushed = true;
        Ok(())
    }
}
