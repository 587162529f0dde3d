// Which calls of a source or a sink in memory fail.
ghost use Rattle.std.specs.Prelude.{◌≡◌, ◌↔◌, IsErr, OnErr};
ghost use Rattle.std.specs.List.{Contains};
ghost use Rattle.hd_base.specs.Causes.{HasCause, one_more};
ghost use Rattle.hd_base.specs.Faults.{no_fault};

use crate::faults::Faults;
use crate::{Failed, List};
use std::io;
use std::io::ErrorKind;

/// Numbers the calls from 0, fails those that are listed, and counts the faults. Both numbers stay
/// at their last value.
#[derive(Drop)]
pub(crate) struct Schedule {
    fails: List<u64>,
    calls: u64,
    faults: Faults,
}

impl Schedule {
    /// Fails the calls of these numbers.
    pub(crate) fn new(fails: List<u64>) -> Self
        ensures { result ≡ record { fails = fails; calls = 0; faults = no_fault } }
    {
        Schedule {
            fails,
            calls: 0,
            faults: Faults::none(),
        }
    }

    /// Begins the next call. Where its number is listed, it fails.
    pub(crate) fn begin(&mut self) -> Result<(), Failed>
        ensures listed { IsErr result ↔ Contains self.old.fails self.old.calls }
        ensures number { self.new.calls ≡ one_more self.old.calls }
        ensures fails { self.new.fails ≡ self.old.fails }
        ensures fault { OnErr result (self.new.faults.count ≡ one_more self.old.faults.count) }
        ensures cause { HasCause self.old.faults.count self.new.faults.count result }
    {
        let fails = self.fails.as_slice().contains(&self.calls);
        self.calls = self.calls.saturating_add(1);
        if fails {
            return self.fail();
        }
        Ok(())
    }

    /// Counts a fault, and answers it.
    pub(crate) fn fail<T>(&mut self) -> Result<T, Failed>
        ensures err { IsErr result }
        ensures calls { self.new.calls ≡ self.old.calls }
        ensures fails { self.new.fails ≡ self.old.fails }
        ensures fault { self.new.faults.count ≡ one_more self.old.faults.count }
        ensures cause { HasCause self.old.faults.count self.new.faults.count result }
    {
        self.faults.fail(io::Error::from(ErrorKind::Other))
    }
}
