// A source of the bytes of a caller.
ghost use Rattle.std.specs.Prelude.{◌≡◌, Some, true, IsOk};
ghost use Rattle.std.proofs.lemmas.Bool.{true≢false};

use hd_base::{Failed, Source};

/// One file, under whatever name it is opened, which is not copied. It never fails.
#[derive(Drop)]
pub(crate) struct BytesSource<'a> {
    bytes: &'a [u8],
    rest: &'a [u8],
}

impl<'a> BytesSource<'a> {
    /// A source of these bytes.
    pub(crate) fn new(bytes: &'a [u8]) -> Self
        ensures { result.bytes.now ≡ bytes.now }
    {
        BytesSource { bytes, rest: &[] }
    }
}

impl<'a> Source for BytesSource<'a> {
    ghost is_open = { λ _. true };

    ghost faults = { λ _. 0 };

    ghost allows = { λ _ _. true };

    ghost files = { λ s _. Some s.bytes.now };

    ghost left = { λ s. Some s.rest.now };

    fn open(&mut self, _name: &str) -> Result<(), Failed> {
        self.rest = self.bytes;
        Ok(())
    }

    fn read(&mut self, into: &mut [u8]) -> Result<usize, Failed> {
        let rest = self.rest;
        let count = rest.len().min(into.len());
        into[..count].copy_from_slice(&rest[..count]);
        self.rest = &rest[count..];
        Ok(count)
    }

    ghost closed = { λ _ is_closed. absurd (true≢false is_closed) };
}
