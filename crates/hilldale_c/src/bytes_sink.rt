// A sink that keeps what is written.
ghost use Rattle.std.specs.Prelude.{◌≡◌, ◌++◌, Some, [], true, false};

use hd_base::{Failed, Sink};
use std::alloc::Global;

/// One file, under whatever name it is opened. A write fails for want of memory alone.
#[derive(Drop)]
pub(crate) struct BytesSink {
    pub(crate) bytes: Vec<u8>,
    faults: u64,
    is_flushed: bool,
}

impl BytesSink {
    /// A sink that is open, with no byte yet.
    pub(crate) fn new(alloc: Global) -> Self
        ensures { result.bytes.items ≡ [] }
    {
        BytesSink {
            bytes: Vec::new(alloc),
            faults: 0,
            is_flushed: true,
        }
    }
}

impl Sink for BytesSink {
    ghost is_open = { λ _. true };

    ghost faults = { λ s. s.faults };

    ghost allows = { λ _ _. true };

    ghost written = { λ s. Some s.bytes.items };

    ghost flushed = { λ s. s.is_flushed };

    fn open(&mut self, _name: &str) -> Result<(), Failed> {
        self.bytes.clear();
        self.is_flushed = true;
        Ok(())
    }

    fn write(&mut self, piece: &[u8]) -> Result<usize, Failed> {
        if self.bytes.extend_from_slice(piece).is_err() {
            self.faults = self.faults.saturating_add(1);
            return Err(Failed);
        }
        self.is_flushed = self.is_flushed && piece.is_empty();
        Ok(piece.len())
    }

    fn flush(&mut self) -> Result<(), Failed> {
        self.is_flushed = true;
        Ok(())
    }
}
