// The faults of a source or a sink.
ghost use Rattle.std.specs.Prelude.{◌≡◌, ◌<◌, ◌↔◌, IsErr, IsSome};
ghost use Rattle.std.specs.Option.{option_map};
ghost use Rattle.hd_base.specs.Causes.{HasCause};
ghost use Rattle.hd_base.specs.Faults.{no_fault, faulted};

use crate::Failed;
use std::io;
use std::marker::Model;

/// How many faults there were, and the error of the last one. The count stays at its last value.
#[derive(Drop)]
pub(crate) struct Faults {
    count: u64,
    last: Option<io::Error>,
}

impl Model for Faults {
    ghost use Rattle.std.specs.Prelude.{◌<◌, ◌↔◌, IsSome};
    ghost use Rattle.hd_base.specs.Faults.{FaultState};

    ghost Value = { FaultState };

    ghost view = { λ f. record { count = f.count; last = f.last } };

    ghost invariant = { λ f. IsSome f.last ↔ (0 < f.count) };
}

impl Faults {
    /// No fault yet.
    pub(crate) fn none() -> Self
        ensures { result ≡ no_fault }
    {
        Faults {
            count: 0,
            last: None,
        }
    }

    /// The error of the last fault.
    pub(crate) fn last(&self) -> Option<io::Error>
        ensures value { result ≡ self.now.last }
        ensures some { IsSome result ↔ (0 < self.now.count) }
    {
        self.last
    }

    /// The error of the last fault, beside the name of a file.
    pub(crate) fn last_at<'a>(
        &self,
        name: &'a Option<String>,
    ) -> Option<(io::Error, Option<&'a str>)>
        ensures error { option_map (λ told. told.0) result ≡ self.now.last }
        ensures some { IsSome result ↔ (0 < self.now.count) }
    {
        match self.last {
            Some(error) => Some((error, name.as_deref())),
            None => None,
        }
    }

    /// Counts a fault with its error, and answers it.
    pub(crate) fn fail<T>(&mut self, error: io::Error) -> Result<T, Failed>
        ensures err { IsErr result }
        ensures state { self.new ≡ faulted self.old error }
        ensures cause { HasCause self.old.count self.new.count result }
    {
        self.count = self.count.saturating_add(1);
        self.last = Some(error);
        Err(Failed)
    }
}
