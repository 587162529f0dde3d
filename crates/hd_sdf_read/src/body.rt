// What has come behind a header.
ghost use Rattle.std.specs.Prelude.{◌≡◌, ◌<◌, false, length};
ghost use Rattle.hd_map.specs.Cells.{cells_in, wide_cells_in};
ghost use Rattle.hd_map.specs.Map.{IsSize, cell_count};
ghost use Rattle.hd_sdf_read.specs.Scaling.{data_of, IsScaled};
ghost use Rattle.hd_sdf_read.specs.Keys.{has_decimals};

use crate::part_token::PartToken;
use crate::part_trailer::PartTrailer;
use crate::scaled::Scaled;
use hd_map::{Cells, DataType, Size, Surface};

/// The whole numbers that have come, and a part of the next; some are missing.
#[derive(Drop)]
pub struct WholePart {
    pub size: Size,
    pub cells: Cells,
    pub token: PartToken,
    ghost limits: { IsSize size },
    ghost whole: { has_decimals cells.data_type ≡ false },
    ghost missing: { length (cells_in cells) < cell_count size },
}

/// The decimals that have come, and a part of the next; some are missing.
#[derive(Drop)]
pub struct DecimalPart {
    pub size: Size,
    pub data_type: DataType,
    pub scaled: Scaled,
    pub token: PartToken,
    ghost limits: { IsSize size },
    ghost kept: { IsScaled scaled data_type (data_of scaled) },
    ghost missing: { length (wide_cells_in scaled.cells) < cell_count size },
}

/// What has come behind a header.
#[derive(Drop)]
pub enum Body {
    /// Whole numbers, some of which are missing.
    Whole(WholePart),
    /// Decimals, some of which are missing.
    Decimals(DecimalPart),
    /// All data, and a part of the token behind them.
    End(Surface, PartToken),
    /// All data, their end, and a part of the trailer.
    Trailer(Surface, PartTrailer),
}
