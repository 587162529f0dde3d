// A sink over one writer, as the standard output.
ghost use Rattle.std.specs.Prelude.{◌≡◌, ◌+◌, ◌<◌, ◌≤◌, ◌↔◌, [], length, true, false, IsOk, IfOk, IsSome, OnOk, IsTrue, MatchResult};
ghost use Rattle.std.specs.Io.{WritesAtMost};
ghost use Rattle.std.specs.Io.KnownBytes.{WriteAppends, Keeps};
ghost use Rattle.hd_base.specs.Causes.{HasCause};
ghost use Rattle.hd_base.specs.Faults.{no_fault};
ghost use Rattle.hd_base.specs.Adapters.{in_all, is_handed_on, last_told};

use crate::faults::Faults;
use crate::{Failed, Memory, Sink};
use std::alloc::Global;
use std::io;
use std::io::{BufWriter, ErrorKind, Write};
use std::marker::Model;

/// The bytes that are gathered before they go to the writer.
const GATHERED: usize = 65_536;

/// One writer, as the standard output, which is open from the start and takes each name.
///
/// Bytes are gathered for the writer, and handed on by a flush at the latest. The sink tells them
/// where the writer tells its own, and counts each fault. A write that takes nothing of a piece with
/// some bytes is a fault.
#[derive(Drop)]
pub struct StdoutSink<W: Write + Drop> {
    to: BufWriter<W>,
    // How many bytes were written since it was opened.
    taken: usize,
    has_flushed: bool,
    faults: Faults,
}

impl<W: Write + Drop> Model for StdoutSink<W> {
    ghost use Rattle.std.specs.Io.Buffered.{writer_buffer, writer_inner};
    ghost use Rattle.hd_base.specs.Adapters.{StdoutState};

    ghost Value = { StdoutState };

    ghost view = { λ s. record {
      got = W.contents (writer_inner s.to);
      gathered = writer_buffer s.to;
      taken = s.taken;
      has_flushed = s.has_flushed;
      faults = s.faults;
    } };
}

impl<W: Write + Drop> StdoutSink<W> {
    /// A sink that is open, has gathered nothing and has not failed.
    pub fn new(alloc: Global, to: W) -> Result<Self, Memory>
        ensures open { IfOk result (λ sink. IsTrue (⟦<StdoutSink<W> as Sink>⟧.is_open sink)) }
        ensures no_fault { IfOk result (λ sink. ⟦<StdoutSink<W> as Sink>⟧.faults sink ≡ 0) }
        ensures value { IfOk result (λ sink. sink ≡ record {
          got = W.contents to;
          gathered = [];
          taken = 0;
          has_flushed = true;
          faults = no_fault;
        }) }
    {
        match BufWriter::with_capacity(alloc, GATHERED, to) {
            Ok(to) => Ok(StdoutSink {
                to,
                taken: 0,
                has_flushed: true,
                faults: Faults::none(),
            }),
            Err(_) => Err(Memory),
        }
    }

    /// The error of the last fault.
    pub fn last_fault(&self) -> Option<io::Error>
        ensures error { result ≡ self.now.faults.last }
        ensures some { IsSome result ↔ (0 < self.now.faults.count) }
    {
        self.faults.last()
    }
}

impl<W: Write + Drop> Sink for StdoutSink<W> {
    ghost is_open = { λ _. true };

    ghost faults = { λ s. s.faults.count };

    ghost allows = { λ _ _. true };

    ghost written = { λ s. last_told s.taken (in_all s) };

    ghost flushed = { is_handed_on };

    fn open(&mut self, _name: &str) -> Result<(), Failed>
        ensures accepted { IsOk result }
        ensures same { self.new ≡ record self.old { taken = 0 } }
        ensures cause { HasCause self.old.faults.count self.new.faults.count result }
    {
        self.taken = 0;
        Ok(())
    }

    // A piece that fits the buffer is never handed on by itself, which nothing would try again.
    fn write(&mut self, piece: &[u8]) -> Result<usize, Failed>
        ensures bound { WritesAtMost result piece.now }
        ensures some { IfOk result (λ n. 0 < length piece.now → 0 < n) }
        ensures bytes { WriteAppends (in_all self.old) (in_all self.new) result piece.now }
        ensures taken { MatchResult result (λ n. self.new.taken ≡ self.old.taken + n)
            (λ _. self.new.taken ≡ self.old.taken) }
        ensures unflushed { IfOk result (λ n. 0 < n → is_handed_on self.new ≡ false) }
        ensures cause { HasCause self.old.faults.count self.new.faults.count result }
    {
        let room = usize::MAX - self.taken;
        let part = &piece[..piece.len().min(GATHERED - 1).min(room)];
        match self.to.write(part) {
            Ok(count) if 0 < count || piece.is_empty() => {
                self.taken += count;
                self.has_flushed = self.has_flushed && count == 0;
                Ok(count)
            }
            Ok(_) => self.faults.fail(io::Error::from(ErrorKind::WriteZero)),
            Err(error) => self.faults.fail(error),
        }
    }

    fn flush(&mut self) -> Result<(), Failed>
        ensures flushed { OnOk result (IsTrue (is_handed_on self.new)) }
        ensures bytes { Keeps (in_all self.old) (in_all self.new) }
        ensures taken { self.new.taken ≡ self.old.taken }
        ensures cause { HasCause self.old.faults.count self.new.faults.count result }
    {
        if let Err(error) = self.to.flush() {
            return self.faults.fail(error);
        }
        self.has_flushed = true;
        Ok(())
    }
}
