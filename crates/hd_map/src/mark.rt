// The marks of the points of a surface, in one byte each.
ghost use Rattle.std.specs.Prelude.{◌≡◌, ◌&&◌, ◌||◌, not, false, IfOk};
ghost use Rattle.hd_map.specs.Packing.{masks, measures};
ghost use Rattle.hd_map.specs.UnmaskedMarks.{AreUnmasked};

use hd_list::Memory;
use std::alloc::Global;

/// Whether a point is measured, and whether it is masked.
#[derive(Clone, Copy, Debug, PartialEq, Eq)]
pub enum Mark {
    /// Measured and not masked.
    Shown,
    /// Measured and masked.
    Masked,
    /// Not measured and not masked.
    Unmeasured,
    /// Not measured and masked.
    MaskedUnmeasured,
}

const _: () = prove!(size_of::<Mark>() == 1);

impl Mark {
    /// The mark that says so.
    pub fn of(measured: bool, masked: bool) -> Mark
        ensures measured { measures result ≡ measured }
        ensures masked { masks result ≡ masked }
    {
        match (measured, masked) {
            (true, false) => Mark::Shown,
            (true, true) => Mark::Masked,
            (false, false) => Mark::Unmeasured,
            (false, true) => Mark::MaskedUnmeasured,
        }
    }

    /// Whether it says that the point is measured.
    pub fn is_measured(self) -> bool
        ensures { result ≡ measures self }
    {
        match self {
            Mark::Shown | Mark::Masked => true,
            Mark::Unmeasured | Mark::MaskedUnmeasured => false,
        }
    }

    /// Whether it says that the point is masked.
    pub fn is_masked(self) -> bool
        ensures { result ≡ masks self }
    {
        match self {
            Mark::Masked | Mark::MaskedUnmeasured => true,
            Mark::Shown | Mark::Unmeasured => false,
        }
    }

    /// Whether it says that the point is measured and not masked.
    #[inline]
    pub fn is_shown(self) -> bool
        ensures { result ≡ (measures self && not (masks self)) }
    {
        match self {
            Mark::Shown => true,
            Mark::Masked | Mark::Unmeasured | Mark::MaskedUnmeasured => false,
        }
    }

    /// The same of a point that is measured now, if so told.
    #[inline]
    pub fn measured_if(self, measured: bool) -> Mark
        ensures measured { measures result ≡ (measured || measures self) }
        ensures masked { masks result ≡ masks self }
    {
        if measured {
            Mark::of(true, self.is_masked())
        } else {
            self
        }
    }

    /// The same without the mask.
    pub fn unmasked(self) -> Mark
        ensures measured { measures result ≡ measures self }
        ensures masked { masks result ≡ false }
    {
        match self {
            Mark::Shown | Mark::Masked => Mark::Shown,
            Mark::Unmeasured | Mark::MaskedUnmeasured => Mark::Unmeasured,
        }
    }
}

/// The same marks without the masks.
pub fn unmasked_marks(alloc: Global, marks: &[Mark]) -> Result<Vec<Mark>, Memory>
    ensures { IfOk result (λ copy. AreUnmasked marks.now copy.items) }
{
    let mut copy = Vec::from_slice(alloc, marks)?;
    for index in 0..copy.len() {
        copy[index] = copy[index].unmasked();
    }
    Ok(copy)
}
