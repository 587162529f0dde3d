// The ranges of the data types.
ghost use Rattle.std.specs.Prelude.{◌≡◌, ◌↔◌, IsTrue};
ghost use Rattle.hd_map.specs.Map.{IsCellOf, least_height, greatest_height};

use crate::{Cell, DataType};

/// The least height of a data type.
pub fn least_of(data_type: DataType) -> i64
    ensures { result ≡ least_height data_type }
{
    match data_type {
        DataType::U8 | DataType::U16 | DataType::U32 => 0,
        DataType::I8 => -128,
        DataType::I16 => -32_768,
        DataType::I32 => -2_147_483_648,
        DataType::Single { .. } | DataType::Double { .. } => -9_007_199_254_740_992,
    }
}

/// The greatest height of a data type.
pub fn greatest_of(data_type: DataType) -> i64
    ensures { result ≡ greatest_height data_type }
{
    match data_type {
        DataType::U8 => 255,
        DataType::U16 => 65_535,
        DataType::U32 => 4_294_967_295,
        DataType::I8 => 127,
        DataType::I16 => 32_767,
        DataType::I32 => 2_147_483_647,
        DataType::Single { .. } | DataType::Double { .. } => 9_007_199_254_740_992,
    }
}

/// Whether a cell is a height of the data type, or none.
pub fn is_cell_of(data_type: DataType, cell: Cell) -> bool
    ensures { IsTrue result ↔ IsCellOf data_type cell }
{
    match cell {
        Cell::Height(height) => least_of(data_type) <= height && height <= greatest_of(data_type),
        Cell::Bad => true,
    }
}
