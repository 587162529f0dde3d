// A sink over the files of a runtime.
ghost use Rattle.std.specs.Prelude.{◌≡◌, ◌+◌, ◌<◌, ◌≤◌, ◌↔◌, [], length, None, Some, true, false, IfOk, OnOk, OnErr, IsErr, IsSome, IsTrue, MatchResult};
ghost use Rattle.std.specs.Io.{WritesAtMost};
ghost use Rattle.std.specs.Io.KnownBytes.{WriteAppends, Keeps};
ghost use Rattle.std.specs.Option.{option_map};
ghost use Rattle.hd_base.specs.Causes.{HasCause};
ghost use Rattle.hd_base.specs.Faults.{faulted, no_fault};
ghost use Rattle.hd_base.specs.Adapters.{AreToldAlike, is_in_place, last_told, lost_sink, opened_sink, placed_sink};
ghost use Rattle.hd_base.specs.Told.{OnTold};

use crate::faults::Faults;
use crate::new_file::{NewFile, hand_on, open_to_write};
use crate::{Failed, SetOwner, Sink};
use std::alloc::Global;
use std::io;
use std::io::{ErrorKind, Write};
use std::marker::Model;
use std::rt::Files;

/// Files of a runtime, one at a time.
///
/// What has a length is not written at its place: the bytes go to a new file beside it, and a flush
/// gives this the place, so that until then the file that stands there is as it was. What has none,
/// as a pipe or a device, is written directly. What is the standard output or the standard error,
/// and no character device, is not opened.
///
/// The sink tells what was written to the open file where the file tells its bytes, and counts each
/// fault. A write that takes nothing of a piece with some bytes is a fault. After a fault of a new
/// file this is removed, and each later write and flush fails, until the next open.
#[derive(Drop)]
pub struct FileSink<'a, R: Files> {
    files: &'a R,
    alloc: Global,
    // The name that was opened last, where memory was there to keep it.
    name: Option<String>,
    file: Option<R::File>,
    // The new file that a flush is to put in its place.
    pending: Option<NewFile>,
    is_lost: bool,
    // How many bytes were written since it was opened.
    taken: usize,
    has_flushed: bool,
    faults: Faults,
}

impl<'a, R: Files> Model for FileSink<'a, R> {
    ghost use Rattle.std.specs.Prelude.{is_some};
    ghost use Rattle.std.specs.Option.{option_and_then};
    ghost use Rattle.hd_base.specs.Adapters.{FileSinkState, AreToldAlike};

    ghost Value = { FileSinkState };

    ghost view = { λ s. record {
      has_file = is_some s.file;
      got = option_and_then R.File.contents s.file;
      taken = s.taken;
      has_flushed = s.has_flushed;
      is_pending = is_some s.pending;
      is_lost = s.is_lost;
      faults = s.faults;
    } };

    ghost invariant = { λ s. AreToldAlike R.File.contents };
}

impl<'a, R: Files> FileSink<'a, R> {
    /// A sink with no file open, that has not failed. All files of the runtime tell their bytes, or
    /// none does.
    pub fn new(alloc: Global, files: &'a R) -> Self
        requires { AreToldAlike R.File.contents }
        ensures { result ≡ record {
          has_file = false;
          got = None;
          taken = 0;
          has_flushed = true;
          is_pending = false;
          is_lost = false;
          faults = no_fault;
        } }
    {
        FileSink {
            files,
            alloc,
            name: None,
            file: None,
            pending: None,
            is_lost: false,
            taken: 0,
            has_flushed: true,
            faults: Faults::none(),
        }
    }

    /// The error of the last fault, and the name that was opened last, where memory was there to
    /// keep it.
    pub fn last_fault(&self) -> Option<(io::Error, Option<&str>)>
        ensures error { option_map (λ told. told.0) result ≡ self.now.faults.last }
        ensures some { IsSome result ↔ (0 < self.now.faults.count) }
    {
        self.faults.last_at(&self.name)
    }

    // Counts a fault of the open file. A new one is removed, and lost.
    fn lose<T>(&mut self, error: io::Error) -> Result<T, Failed>
        ensures err { IsErr result }
        ensures state { self.new ≡ lost_sink self.old self.old.got (faulted self.old.faults error) }
        ensures cause { HasCause self.old.faults.count self.new.faults.count result }
    {
        if let Some(pending) = self.pending.take() {
            pending.remove(self.files);
            self.is_lost = true;
        }
        self.faults.fail(error)
    }
}

impl<'a, R: Files> Sink for FileSink<'a, R>
where
    R::File: SetOwner,
{
    ghost is_open = { λ s. s.has_file };

    ghost faults = { λ s. s.faults.count };

    ghost allows = { λ _ _. true };

    ghost written = { λ s. last_told s.taken s.got };

    ghost flushed = { is_in_place };

    fn open(&mut self, name: &str) -> Result<(), Failed>
        ensures ok { OnOk result (self.new ≡ opened_sink self.old self.new.got self.new.is_pending) }
        ensures file { OnOk result ((file : R.File) × (self.new.got ≡ R.File.contents file)) }
        ensures empty { OnOk result (OnTold (last_told self.old.taken self.old.got)
            (last_told self.new.taken self.new.got ≡ Some [])) }
        ensures err { OnErr result (self.new ≡ record self.old { faults = self.new.faults }) }
        ensures cause { HasCause self.old.faults.count self.new.faults.count result }
    {
        self.name = String::from_str(self.alloc, name).ok();
        let (file, pending) = match open_to_write(self.alloc, self.files, name) {
            Ok(opened) => opened,
            Err(error) => return self.faults.fail(error),
        };
        if let Some(earlier) = &self.pending {
            earlier.remove(self.files);
        }
        self.file = Some(file);
        self.pending = pending;
        self.is_lost = false;
        self.taken = 0;
        self.has_flushed = true;
        Ok(())
    }

    fn write(&mut self, piece: &[u8]) -> Result<usize, Failed>
        requires { IsTrue self.old.has_file }
        ensures open { IsTrue self.new.has_file }
        ensures bound { WritesAtMost result piece.now }
        ensures some { IfOk result (λ n. 0 < length piece.now → 0 < n) }
        ensures bytes { WriteAppends self.old.got self.new.got result piece.now }
        ensures taken { MatchResult result (λ n. self.new.taken ≡ self.old.taken + n)
            (λ _. self.new.taken ≡ self.old.taken) }
        ensures unflushed { IfOk result (λ n. 0 < n → self.new.has_flushed ≡ false) }
        ensures pending { OnOk result (self.new.is_pending ≡ self.old.is_pending) }
        ensures kept { OnOk result (self.new.is_lost ≡ self.old.is_lost) }
        ensures no_fault { OnOk result (self.new.faults ≡ self.old.faults) }
        ensures err { OnErr result (self.new ≡ lost_sink self.old self.new.got self.new.faults) }
        ensures lost { IsTrue self.old.is_lost → IsErr result }
        ensures cause { HasCause self.old.faults.count self.new.faults.count result }
    {
        let Some(file) = &mut self.file else {
            unreachable!()
        };
        if self.is_lost {
            return self.lose(io::Error::from(ErrorKind::Other));
        }
        let room = usize::MAX - self.taken;
        match file.write(&piece[..piece.len().min(room)]) {
            Ok(count) if 0 < count || piece.is_empty() => {
                self.taken += count;
                self.has_flushed = self.has_flushed && count == 0;
                Ok(count)
            }
            Ok(_) => self.lose(io::Error::from(ErrorKind::WriteZero)),
            Err(error) => self.lose(error),
        }
    }

    fn flush(&mut self) -> Result<(), Failed>
        requires { IsTrue self.old.has_file }
        ensures open { IsTrue self.new.has_file }
        ensures flushed { OnOk result (IsTrue self.new.has_flushed) }
        ensures placed { OnOk result (IsTrue (is_in_place self.new)) }
        ensures ok { OnOk result (self.new ≡ placed_sink self.old self.new.got) }
        ensures err { OnErr result (self.new ≡ lost_sink self.old self.new.got self.new.faults) }
        ensures lost { IsTrue self.old.is_lost → IsErr result }
        ensures bytes { Keeps self.old.got self.new.got }
        ensures taken { self.new.taken ≡ self.old.taken }
        ensures cause { HasCause self.old.faults.count self.new.faults.count result }
    {
        let Some(file) = &mut self.file else {
            unreachable!()
        };
        if self.is_lost {
            return self.lose(io::Error::from(ErrorKind::Other));
        }
        if let Err(error) = hand_on(self.files, file, &self.pending) {
            return self.lose(error);
        }
        self.pending = None;
        self.has_flushed = true;
        Ok(())
    }
}
