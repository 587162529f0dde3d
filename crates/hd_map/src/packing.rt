// A cell and its mask as a surface keeps them.
ghost use Rattle.std.specs.Prelude.{◌≡◌, ◌≤ℤ◌, ◌<ℤ◌, ◌+ℤ◌, pos};
ghost use Rattle.hd_map.specs.Map.{IsCellOf, IsNarrow};
ghost use Rattle.hd_map.specs.Packing.{as_it_is, cell_from, masks, over_least};

use crate::mark::Mark;
use crate::{Cell, DataType, least_of};

/// A cell and its mask as a surface keeps them, in one of its layouts.
#[derive(Clone, Copy, Debug, PartialEq, Eq)]
pub struct Packed<H> {
    /// What is kept of the height, and 0 where none was measured.
    pub number: H,
    /// What else there is to say of the point.
    pub mark: Mark,
}

/// A cell of the data type and its mask, with the height in four bytes.
#[tactic(auto, using(crate::proofs::DataTypes::in_four_bytes))]
pub fn pack_narrow(data_type: DataType, cell: Cell, masked: bool) -> Packed<u32>
    requires narrow { IsNarrow data_type }
    requires cell { IsCellOf data_type cell }
    ensures cell { cell_from (over_least data_type) result.number result.mark ≡ cell }
    ensures mask { masks result.mark ≡ masked }
{
    match cell {
        Cell::Height(height) => Packed {
            number: over_least(least_of(data_type), height),
            mark: Mark::of(true, masked),
        },
        Cell::Bad => Packed {
            number: 0,
            mark: Mark::of(false, masked),
        },
    }
}

/// A cell and its mask, with the height in eight bytes.
pub fn pack_wide(cell: Cell, masked: bool) -> Packed<i64>
    ensures cell { cell_from as_it_is result.number result.mark ≡ cell }
    ensures mask { masks result.mark ≡ masked }
{
    match cell {
        Cell::Height(height) => Packed {
            number: height,
            mark: Mark::of(true, masked),
        },
        Cell::Bad => Packed {
            number: 0,
            mark: Mark::of(false, masked),
        },
    }
}

/// How far a height is over the least one of its data type.
#[inline]
pub fn over_least(least: i64, height: i64) -> u32
    requires from { least ≤ℤ height }
    requires to { height <ℤ (least +ℤ pos 4294967296) }
    ensures { least +ℤ pos result ≡ height }
{
    (height - least) as u32
}
