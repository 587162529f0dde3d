// The tiles that a change touches.
ghost use Rattle.std.specs.Prelude.{◌≡◌, ◌<◌, ◌≤◌, ◌+◌, ◌-◌, ◌*◌, ◌/◌, length, min};
ghost use Rattle.std.specs.Bool.{OnFalse, OnTrue};
ghost use Rattle.hd_map.specs.Encoding.{values_of};
ghost use Rattle.hd_map.specs.Map.{InGrid};
ghost use Rattle.hd_tiles.specs.Profile.{AllStay, IsRoundChange, SomeChanges};
ghost use Rattle.hd_tiles.specs.Tile.{IsTileSide, IsRound, tile_count};
ghost use Rattle.hd_tiles.specs.Stamps.{AreStamped};

use crate::Tiling;
use crate::change::{first_change, last_change};
use hd_map::{Grid, Lane, Pos};

// Of parts of this side along a line, the one that holds the place before this one, which lies in the
// given part, or this one where it is the first.
#[inline]
fn part_before(place: u32, part: u32, side: u32) -> u32
    requires side { IsTileSide side }
    requires part { part ≡ place / side }
    ensures { result ≡ (place - 1) / side }
{
    if place == part * side {
        part.saturating_sub(1)
    } else {
        part
    }
}

// The part that holds the place after this one, or this one where it is the last of the line.
#[inline]
fn part_after(place: u32, length: u32, part: u32, side: u32) -> u32
    requires side { IsTileSide side }
    requires part { part ≡ place / side }
    requires place { place < length }
    requires length { length ≤ 65535 }
    ensures { result ≡ min (place + 1) (length - 1) / side }
{
    if place + 1 == length {
        return part;
    }
    if place + 1 == part * side + side {
        part + 1
    } else {
        part
    }
}

/// Puts a stamp on each tile that holds the position or one of the eight positions round it. These are
/// the tiles at four corners, some of which may be one.
#[inline]
pub fn touch_round(stamps: &mut Vec<u64>, tiling: Tiling, at: Pos, stamp: u64)
    requires in_grid { InGrid tiling.size at }
    requires tiles { length stamps.old.items ≡ tile_count tiling.size tiling.side }
    ensures { AreStamped (λ tile. IsRound tiling.size tiling.side tile at) stamp stamps.old.items
        stamps.new.items }
{
    let size = tiling.size();
    let side = tiling.side();
    let across = tiling.across();
    let column = tiling.part_of(at.x);
    let row = tiling.part_of(at.y);
    let left = part_before(at.x, column, side);
    let right = part_after(at.x, size.points, column, side);
    let top = part_before(at.y, row, side) * across;
    let bottom = part_after(at.y, size.profiles, row, side) * across;
    stamps[(top + left) as usize] = stamp;
    stamps[(top + right) as usize] = stamp;
    stamps[(bottom + left) as usize] = stamp;
    stamps[(bottom + right) as usize] = stamp;
}

// Puts a stamp on each tile that holds a point of the profile in this part of it whose cell becomes another by the
// numbers of the row, or one of the eight positions round such a point, and tells whether there is one. These are the
// tiles round the first such point and round the last.
fn touch_part<G: Grid, L: Lane>(
    stamps: &mut Vec<u64>,
    tiling: Tiling,
    grid: &G,
    y: u32,
    row: &[L],
    part: u32,
    stamp: u64,
) -> bool
    requires same_size { tiling.size ≡ (G.map grid.now).size }
    requires tiles { length stamps.old.items ≡ tile_count tiling.size tiling.side }
    requires profile { y < tiling.size.profiles }
    requires columns { length row.now ≡ tiling.size.points }
    requires part { part * tiling.side < tiling.size.points }
    ensures stamped { AreStamped (IsRoundChange (G.map grid.now) y
        (values_of L.code row.now) tiling.side (part * tiling.side)
        (min tiling.size.points (part * tiling.side + tiling.side))) stamp stamps.old.items
        stamps.new.items }
    ensures some { OnTrue result (SomeChanges (G.map grid.now) y
        (values_of L.code row.now) tiling.size.points) }
    ensures none { OnFalse result (AllStay (G.map grid.now) y (values_of L.code row.now)
        (part * tiling.side) (min tiling.size.points (part * tiling.side + tiling.side))) }
{
    let from = part * tiling.side();
    let to = tiling.size().points.min(from + tiling.side());
    let Some(first) = first_change(grid, y, row, from, to) else {
        return false;
    };
    let last = last_change(grid, y, row, first, to);
    touch_round(stamps, tiling, Pos { x: first, y }, stamp);
    touch_round(stamps, tiling, Pos { x: last, y }, stamp);
    true
}

/// Puts a stamp on each tile that holds a point of the profile whose cell becomes another by the numbers of the row, or
/// one of the eight positions round such a point, and tells whether there is one.
pub fn touch_changes<G: Grid, L: Lane>(
    stamps: &mut Vec<u64>,
    tiling: Tiling,
    grid: &G,
    y: u32,
    row: &[L],
    stamp: u64,
) -> bool
    requires same_size { tiling.size ≡ (G.map grid.now).size }
    requires tiles { length stamps.old.items ≡ tile_count tiling.size tiling.side }
    requires profile { y < tiling.size.profiles }
    requires columns { length row.now ≡ tiling.size.points }
    ensures stamped { AreStamped (IsRoundChange (G.map grid.now) y
        (values_of L.code row.now) tiling.side 0 tiling.size.points) stamp stamps.old.items
        stamps.new.items }
    ensures some { OnTrue result (SomeChanges (G.map grid.now) y
        (values_of L.code row.now) tiling.size.points) }
    ensures none { OnFalse result (AllStay (G.map grid.now) y
        (values_of L.code row.now) 0 tiling.size.points) }
{
    let mut some = false;
    for part in 0..tiling.across() {
        some = touch_part(stamps, tiling, grid, y, row, part, stamp) | some;
    }
    some
}

/// Puts a stamp on every tile.
pub fn touch_all(stamps: &mut Vec<u64>, stamp: u64)
    ensures { AreStamped (λ tile. Unit {0}) stamp stamps.old.items stamps.new.items }
{
    for tile in 0..stamps.len() {
        stamps[tile] = stamp;
    }
}
