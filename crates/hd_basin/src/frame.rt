// The part of a grid that holds a tile and what is beside it.
ghost use Rattle.std.specs.Prelude.{◌≡◌, ◌<◌, ◌≤◌, ◌+◌, ◌-◌, ◌*◌, ◌↔◌, ◌⊎◌, IsTrue};
ghost use Rattle.hd_map.specs.Map.{IsSize, InGrid};
ghost use Rattle.hd_tiles.specs.Tile.{IsTileSide, tile_count};
ghost use Rattle.hd_basin.specs.Frames.{InFrame, FitsGrid, HoldsRound, IsRoundOnly};
ghost use Rattle.hd_basin.specs.Sinks.{IsArea, at_place};

use hd_map::Pos;
use hd_tiles::Tiling;

/// A rectangle of positions.
#[derive(Clone, Copy, Debug, PartialEq, Eq)]
pub struct Frame {
    /// The first column.
    pub left: u32,
    /// The first profile.
    pub top: u32,
    /// How many columns it has.
    pub columns: u32,
    /// How many profiles it has.
    pub rows: u32,
}

/// A tile of a tiling, and the rectangle of its positions.
#[derive(Clone, Copy, Debug, PartialEq, Eq)]
pub struct Plot {
    /// The tiling.
    pub tiling: Tiling,
    /// The number of the tile.
    pub tile: u32,
    /// Its positions.
    pub area: Frame,
}

/// Whether the position lies in the rectangle.
#[inline]
pub fn is_in_frame(frame: Frame, at: Pos) -> bool
    requires right { frame.left + frame.columns < 65536 }
    requires bottom { frame.top + frame.rows < 65536 }
    ensures { IsTrue result ↔ InFrame frame at }
{
    frame.left <= at.x
        && at.x < frame.left + frame.columns
        && frame.top <= at.y
        && at.y < frame.top + frame.rows
}

/// The rectangle of the positions of a tile and of those beside it.
pub fn frame_of(tiling: Tiling, tile: u32) -> Frame
    requires { tile < tile_count tiling.size tiling.side }
    ensures fits { FitsGrid tiling.size result }
    ensures holds { HoldsRound tiling.size tiling.side tile result }
    ensures only { IsRoundOnly tiling.size tiling.side tile result }
    ensures columns { result.columns ≤ tiling.side + 2 }
    ensures rows { result.rows ≤ tiling.side + 2 }
    ensures some_columns { 1 ≤ result.columns }
    ensures some_rows { 1 ≤ result.rows }
{
    let size = tiling.size();
    let across = tiling.across();
    let x = stretch_of(size.points, tiling.side(), tile % across);
    let y = stretch_of(size.profiles, tiling.side(), tile / across);
    Frame {
        left: x.from,
        top: y.from,
        columns: x.count,
        rows: y.count,
    }
}

/// The rectangle of the positions of a tile.
pub fn area_of(tiling: Tiling, tile: u32) -> Frame
    requires { tile < tile_count tiling.size tiling.side }
    ensures { IsArea tiling.size tiling.side tile result }
{
    let size = tiling.size();
    let across = tiling.across();
    let side = tiling.side();
    let left = tile % across * side;
    let top = tile / across * side;
    Frame {
        left,
        top,
        columns: side.min(size.points - left),
        rows: side.min(size.profiles - top),
    }
}

/// The position at a place of a rectangle, profile by profile.
#[inline]
pub fn position_in(frame: Frame, place: u32) -> Pos
    requires place { place < frame.columns * frame.rows }
    requires right { frame.left + frame.columns < 65536 }
    requires bottom { frame.top + frame.rows < 65536 }
    ensures value { result ≡ at_place frame place }
    ensures in_frame { InFrame frame result }
{
    Pos {
        x: frame.left + place % frame.columns,
        y: frame.top + place / frame.columns,
    }
}

/// The place of a position of a rectangle, profile by profile.
#[inline]
pub fn place_in(frame: Frame, at: Pos) -> u32
    requires in_frame { InFrame frame at }
    requires few { frame.columns * frame.rows ≤ 65536 }
    ensures place { result < frame.columns * frame.rows }
    ensures at { at_place frame result ≡ at }
{
    (at.y - frame.top) * frame.columns + (at.x - frame.left)
}

#[derive(Clone, Copy)]
struct Stretch {
    from: u32,
    count: u32,
}

// The numbers below a limit that are in the part of this number, or beside one of it.
fn stretch_of(limit: u32, side: u32, part: u32) -> Stretch
    requires limit { limit ≤ 65535 }
    requires side { IsTileSide side }
    requires some { part * side < limit }
    ensures fits { result.from + result.count ≤ limit }
    ensures count { result.count ≤ side + 2 }
    ensures some { 1 ≤ result.count }
    ensures from { result.from ≡ part * side - 1 }
    ensures within { result.from + result.count ≤ part * side + side + 1 }
    ensures after { result.from + result.count ≡ limit
        ⊎ (part * side + side + 1 ≤ result.from + result.count) }
{
    let from = (part * side).saturating_sub(1);
    let to = limit.min(part * side + side + 1);
    Stretch {
        from,
        count: to - from,
    }
}
