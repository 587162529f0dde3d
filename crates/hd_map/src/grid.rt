// A grid that is seen as a map.
ghost use Rattle.std.specs.Prelude.{◌≡◌, ◌<◌, ◌^◌, ◌+◌, ℕ, ◌↔◌, IsTrue, length};
ghost use Rattle.std.specs.Bool.{OnTrue, OnFalse};
ghost use Rattle.hd_map.specs.Map.{Map, IsMap, IsSize, InGrid, Present, place_of, position_at, cell_count, cell_at, mask_at, shown_height};
ghost use Rattle.hd_map.specs.Rank.{rank};
ghost use Rattle.hd_map.specs.Lanes.{IsFarProfile, IsRowOfHeights};
ghost use Rattle.hd_map.specs.Encoding.{values_of};
ghost use Rattle.hd_map.specs.Sets.{AreHeightsIn, SetsCell, SetsMask, under, with_heights, CountsChange};

use crate::{Adjacency, Cell, DataType, Lane, MapError, Pos, Rank, Size};

/// Heights on a rectangular grid, seen as a map and a setting (a sampled surface after ISO 25178-2).
pub trait Heights {
    /// The map and the setting that it is seen as.
    ghost map: { Self → Map };

    /// How many points and profiles it has.
    fn size(&self) -> Size
        ensures { result ≡ (map self.now).size };

    /// Which of its points are neighbours.
    fn adjacency(&self) -> Adjacency
        ensures { result ≡ (map self.now).adjacency };

    /// The height of a present point in steps, and none where the point is not present.
    fn height(&self, at: Pos) -> Option<i64>
        requires { InGrid (map self.now).size at }
        ensures { result ≡ shown_height (cell_at (map self.now) at) (mask_at (map self.now) at) };

    /// Writes by column the heights of the points of a profile into a row, as numbers that stand for them, and tells
    /// whether all are near enough to zero for these. Where one is not, the row holds anything.
    fn fill_heights<L: Lane>(&self, y: u32, row: &mut [L]) -> bool
        requires profile { y < (map self.now).size.profiles }
        requires columns { length row.old ≡ (map self.now).size.points }
        ensures row { OnTrue result (IsRowOfHeights L.code (map self.now) y row.new) }
        ensures far { OnFalse result (IsFarProfile L.code (map self.now) y) }
    {
        for x in 0..row.len() {
            match L::of_height(self.height(Pos { x: x as u32, y })) {
                Some(number) => row[x] = number,
                None => return false,
            }
        }
        true
    }

    /// The size is within the limits, the lists are of that size, and the heights are of the type.
    ghost whole: { (grid : Self) → IsMap (map grid) };
}

/// A rectangular grid of whole-number heights, some of them not measured and some masked.
pub trait Grid: Heights {
    /// Whether the second grid comes from the first by sets.
    ghost comes_from: { Self → Self → Type 0 };

    /// How many changes it has counted.
    ghost changes: { Self → ℕ };

    /// The type of its heights.
    fn data_type(&self) -> DataType
        ensures { result ≡ (Self.map self.now).data_type };

    /// The cell at a position, whether it is masked or not.
    fn cell(&self, at: Pos) -> Cell
        requires { InGrid (Self.map self.now).size at }
        ensures { result ≡ cell_at (Self.map self.now) at };

    /// Whether a position is masked.
    fn masked(&self, at: Pos) -> bool
        requires { InGrid (Self.map self.now).size at }
        ensures { result ≡ mask_at (Self.map self.now) at };

    /// Sets the cell at a position; the mask stays. `Outside` comes exactly where the position is
    /// not in the grid, else `HeightRange` exactly where the height is not of the data type.
    fn set_cell(&mut self, at: Pos, cell: Cell) -> Result<(), MapError>
        requires { changes self.old < 2 ^ 63 }
        ensures sets { SetsCell (Self.map self.old) at cell result (Self.map self.new) }
        ensures origin { comes_from self.old self.new }
        ensures count { CountsChange (Self.map self.old) (Self.map self.new) (changes self.old)
            (changes self.new) };

    /// Sets the heights of a profile, by column, to those for which the numbers of a row stand; where a number stands
    /// for none, the cell stays. The masks stay.
    fn set_heights<L: Lane>(&mut self, y: u32, row: &[L])
        requires profile { y < (Self.map self.old).size.profiles }
        requires columns { length row.now ≡ (Self.map self.old).size.points }
        requires in_range { AreHeightsIn (Self.map self.old).data_type (values_of L.code row.now) }
        requires count { changes self.old < 2 ^ 63 }
        ensures sets { Self.map self.new ≡ with_heights (Self.map self.old) y (values_of L.code row.now) }
        ensures origin { comes_from self.old self.new }
        ensures count { CountsChange (Self.map self.old) (Self.map self.new) (changes self.old)
            (changes self.new) };

    /// Sets the mask at a position; the cell stays. `Outside` comes exactly where the position is
    /// not in the grid.
    fn set_mask(&mut self, at: Pos, masked: bool) -> Result<(), MapError>
        requires { changes self.old < 2 ^ 63 }
        ensures sets { SetsMask (Self.map self.old) at masked result (Self.map self.new) }
        ensures origin { comes_from self.old self.new }
        ensures count { CountsChange (Self.map self.old) (Self.map self.new) (changes self.old)
            (changes self.new) };

    /// Sets which of its points are neighbours, and nothing else.
    fn set_adjacency(&mut self, adjacency: Adjacency)
        requires { changes self.old < 2 ^ 63 }
        ensures sets { Self.map self.new ≡ under adjacency (Self.map self.old) }
        ensures origin { comes_from self.old self.new }
        ensures count { CountsChange (Self.map self.old) (Self.map self.new) (changes self.old)
            (changes self.new) };

    /// Each grid comes from itself.
    ghost itself: { (grid : Self) → comes_from grid grid };

    /// What comes from a grid that comes from another comes from that other.
    ghost onward: { (a b c : Self) → comes_from a b → comes_from b c → comes_from a c };
}

/// Whether the position lies in a grid of this size.
pub fn contains(size: Size, at: Pos) -> bool
    ensures { IsTrue result ↔ InGrid size at }
{
    at.x < size.points && at.y < size.profiles
}

/// The index of a position in a grid of this size: profile by profile, column by column.
pub fn index_of(size: Size, at: Pos) -> u32
    requires limits { IsSize size }
    requires in_grid { InGrid size at }
    ensures value { result ≡ place_of size at }
    ensures in_map { result < cell_count size }
{
    at.y * size.points + at.x
}

/// The position of an index in a grid of this size.
pub fn position_of(size: Size, index: u32) -> Pos
    requires { index < cell_count size }
    ensures value { result ≡ position_at size index }
    ensures in_grid { InGrid size result }
    ensures place { place_of size result ≡ index }
{
    Pos {
        x: index % size.points,
        y: index / size.points,
    }
}

/// The position after another one of the grid, profile by profile. After the last one comes the
/// first of a further profile.
#[inline]
pub fn position_after(size: Size, at: Pos) -> Pos
    requires limits { IsSize size }
    requires in_grid { InGrid size at }
    ensures column { result.x < size.points }
    ensures place { place_of size result ≡ place_of size at + 1 }
{
    if at.x + 1 < size.points {
        Pos {
            x: at.x + 1,
            y: at.y,
        }
    } else {
        Pos { x: 0, y: at.y + 1 }
    }
}

/// The height of a present point in steps, and none where the point is not present.
pub fn height<G: Heights>(grid: &G, at: Pos) -> Option<i64>
    requires { InGrid (G.map grid.now).size at }
    ensures { result ≡ shown_height (cell_at (G.map grid.now) at) (mask_at (G.map grid.now) at) }
{
    grid.height(at)
}

/// Whether the point is present: measured and not masked.
pub fn is_present<G: Heights>(grid: &G, at: Pos) -> bool
    requires { InGrid (G.map grid.now).size at }
    ensures { IsTrue result ↔ Present (G.map grid.now) at }
{
    height(grid, at).is_some()
}

/// The rank of a present point.
pub fn rank_of<G: Heights>(grid: &G, at: Pos) -> Rank
    requires { Present (G.map grid.now) at }
    ensures { result ≡ rank (G.map grid.now) at }
{
    let index = index_of(grid.size(), at);
    match grid.height(at) {
        Some(height) => Rank { height, index },
        None => unreachable!(),
    }
}
