// A source over the files of a runtime.
ghost use Rattle.std.specs.Prelude.{◌≡◌, ◌<◌, ◌↔◌, Some, None, IsSome, true, is_some, unwrap_or, OnOk, OnErr};
ghost use Rattle.std.specs.Option.{option_map};
ghost use Rattle.hd_base.specs.Causes.{HasCause};
ghost use Rattle.hd_base.specs.Faults.{no_fault};
ghost use Rattle.hd_base.specs.Adapters.{left-untold};

use crate::faults::Faults;
use crate::{Failed, Source};
use std::alloc::Global;
use std::fs::OpenOptions;
use std::io;
use std::io::Read;
use std::marker::Model;
use std::rt::Files;

/// Files of a runtime, one at a time.
///
/// The source tells what is left of the open file where the file tells it, and counts each fault.
#[derive(Drop)]
pub struct FileSource<'a, R: Files> {
    files: &'a R,
    alloc: Global,
    // The name that was opened last, where memory was there to keep it.
    name: Option<String>,
    file: Option<R::File>,
    faults: Faults,
}

impl<'a, R: Files> Model for FileSource<'a, R> {
    ghost use Rattle.std.specs.Option.{option_map};
    ghost use Rattle.hd_base.specs.Adapters.{FileSourceState};

    ghost Value = { FileSourceState };

    ghost view = { λ s. record {
      reading = option_map R.File.remaining s.file;
      faults = s.faults;
    } };
}

impl<'a, R: Files> FileSource<'a, R> {
    /// A source with no file open, that has not failed.
    pub fn new(alloc: Global, files: &'a R) -> Self
        ensures { result ≡ record { reading = None; faults = no_fault } }
    {
        FileSource {
            files,
            alloc,
            name: None,
            file: None,
            faults: Faults::none(),
        }
    }

    /// The error of the last fault, and the name that was opened last, where memory was there to
    /// keep it.
    pub fn last_fault(&self) -> Option<(io::Error, Option<&str>)>
        ensures error { option_map (λ told. told.0) result ≡ self.now.faults.last }
        ensures some { IsSome result ↔ (0 < self.now.faults.count) }
    {
        self.faults.last_at(&self.name)
    }
}

impl<'a, R: Files> Source for FileSource<'a, R> {
    ghost is_open = { λ s. is_some s.reading };

    ghost faults = { λ s. s.faults.count };

    ghost allows = { λ _ _. true };

    ghost files = { λ _ _. None };

    ghost left = { λ s. unwrap_or s.reading None };

    fn open(&mut self, name: &str) -> Result<(), Failed>
        ensures file { OnOk result ((file : R.File) × (self.new.reading ≡ Some (R.File.remaining file))) }
        ensures err { OnErr result (self.new ≡ record self.old { faults = self.new.faults }) }
        ensures cause { HasCause self.old.faults.count self.new.faults.count result }
    {
        self.name = String::from_str(self.alloc, name).ok();
        let file = match OpenOptions::new().read(true).open(self.files, name) {
            Ok(file) => file,
            Err(error) => return self.faults.fail(error),
        };
        self.file = Some(file);
        Ok(())
    }

    fn read(&mut self, into: &mut [u8]) -> Result<usize, Failed> {
        match &mut self.file {
            Some(file) => match file.read(into) {
                Ok(count) => Ok(count),
                Err(error) => self.faults.fail(error),
            },
            None => unreachable!(),
        }
    }

    ghost closed = { left-untold };
}
