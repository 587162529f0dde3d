// The data of a surface.
ghost use Rattle.std.specs.Prelude.{◌≡◌, ◌<◌, ◌≤◌, ◌+◌, ◌-◌, ◌*◌, ◌++◌, ◌∷◌, drop, length};
ghost use Rattle.hd_map.specs.Map.{IsSize, cell_count, most_places, place_of, places_of};
ghost use Rattle.hd_sdf_write.specs.Canonical.{cell_text};
ghost use Rattle.hd_sdf_write.specs.Data.{data_text, gap_after};

use crate::steps::{write_byte, write_steps};
use hd_map::{Cell, DataType, Grid, Pos, Size, position_after, position_of};

/// Writes the data of a grid from one up to another into the end of a slice, with a line for each profile, and
/// tells where they start. A datum and what stands behind it take 41 bytes at most.
pub fn write_data<G: Grid>(text: &mut [u8], grid: &G, from: u32, to: u32) -> usize
    requires some { from < to }
    requires inside { to ≤ cell_count (G.map grid.now).size }
    requires room { (to - from) * 41 ≤ length text.old }
    ensures text { drop result text.new ≡ data_text (G.map grid.now) from (to - from) }
    ensures some { result < length text.new }
{
    let size = grid.size();
    let places = places_of(grid.data_type());
    let mut start = text.len();
    let mut at = position_after(size, position_of(size, to - 1));
    let mut index = to;
    'points: while index > from {
        index -= 1;
        at = position_before(size, at);
        start = write_byte(text, start, gap_after(size, at));
        start = write_cell(text, start, grid.cell(at), places);
    }
    start
}

// The position before another one of the grid, or before the first of a further profile.
#[inline]
fn position_before(size: Size, at: Pos) -> Pos
    requires points { 1 ≤ size.points }
    requires some { 0 < place_of size at }
    ensures column { at.x < size.points → result.x < size.points }
    ensures place { place_of size result + 1 ≡ place_of size at }
{
    if at.x > 0 {
        Pos {
            x: at.x - 1,
            y: at.y,
        }
    } else {
        Pos {
            x: size.points - 1,
            y: at.y - 1,
        }
    }
}

// What stands behind the datum of a position.
#[inline]
fn gap_after(size: Size, at: Pos) -> u8
    requires { at.x < size.points }
    ensures { result ≡ gap_after size (place_of size at) }
{
    if at.x + 1 == size.points { b'\n' } else { b' ' }
}

// How many decimal places the heights of a data type have.
fn places_of(data_type: DataType) -> u8
    ensures { result ≡ places_of data_type }
{
    match data_type {
        DataType::Single { places } | DataType::Double { places } => places,
        _ => 0,
    }
}

// Writes a datum of a type with so many decimal places. Inlined, it passes no cell through memory.
#[inline(always)]
fn write_cell(text: &mut [u8], end: usize, cell: Cell, places: u8) -> usize
    requires few { places ≤ most_places }
    requires room { 40 ≤ end }
    requires within { end ≤ length text.old }
    ensures text { (t : DataType) → places_of t ≡ places
        → drop result text.new ≡ cell_text t cell ++ drop end text.old }
    ensures short { end ≤ result + 40 }
    ensures start { result ≤ end }
{
    match cell {
        Cell::Height(height) => write_steps(text, end, height, places),
        Cell::Bad => write_bad(text, end),
    }
}

// Writes the datum of a point where nothing was measured.
#[inline]
fn write_bad(text: &mut [u8], end: usize) -> usize
    requires room { 3 ≤ end }
    requires within { end ≤ length text.old }
    ensures text { drop result text.new ≡ 66 ∷ 65 ∷ 68 ∷ drop end text.old }
    ensures start { result + 3 ≡ end }
{
    let last = write_byte(text, end, b'D');
    let middle = write_byte(text, last, b'A');
    write_byte(text, middle, b'B')
}
