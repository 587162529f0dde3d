// A surface whose heights take four bytes each.
ghost use Rattle.std.specs.Prelude.{◌≡◌, ◌↔◌, ◌<◌, ◌≤◌, ◌≤ℤ◌, ◌<ℤ◌, ◌+ℤ◌, ℕ, ℤ, pos, negsuc, neg_ℤ, IfOk, MatchOption, Some, IsTrue, length, replicate, false};
ghost use Rattle.hd_map.specs.Map.{IsSize, IsMap, IsNarrow, cell_count, four_bytes, least_height, shown_height};
ghost use Rattle.hd_map.specs.Packing.{cell_from, kept_map, masks, over_least};

use crate::lane::number_of;
use crate::mark::{Mark, unmasked_marks};
use crate::packing::{over_least, pack_narrow};
use crate::{
    Adjacency, Cell, Cells, DataType, Grid, Heights, Lane, MapError, Pos, Size, contains, index_of,
    is_cell_of, least_of,
};
use hd_list::Memory;
use std::alloc::Global;

/// Whether four bytes hold how far each height of a data type is over the least one.
pub fn is_narrow(data_type: DataType) -> bool
    ensures { IsTrue result ↔ IsNarrow data_type }
{
    match data_type {
        DataType::Single { .. } | DataType::Double { .. } => false,
        _ => true,
    }
}

/// A surface whose data type has heights that four bytes tell apart. As measured, a point takes five
/// bytes: four for its height and one for its mark.
#[derive(Debug, Drop)]
pub struct Narrow {
    size: Size,
    data_type: DataType,
    least: i64,
    heights: Vec<u32>,
    marks: Vec<Mark>,
    adjacency: Adjacency,
    ghost is_least: { least ≡ least_height data_type },
    ghost narrow: { IsNarrow data_type },
    ghost paired: { length heights.items ≡ length marks.items },
    ghost whole: { IsMap (kept_map (over_least data_type) size data_type heights.items marks.items adjacency) },
}

impl Narrow {
    ghost use Rattle.hd_map.specs.Cells.{cells_in};
    ghost use Rattle.hd_map.specs.declared.types.Adjacency.TheVariants.{Eight};
    ghost use Rattle.hd_map.specs.Layouts.{narrow_map};
    ghost use Rattle.hd_map.specs.Unmasked.{unmasked, unmeasured_map};

    /// A surface with these cells, none of them masked, and with eight neighbours.
    ///
    /// Both sizes are from 1 to 65,535 with at most 4,194,304 cells, and there are as many cells as
    /// the size says.
    pub fn new(size: Size, cells: Cells) -> Narrow
        requires limits { IsSize size }
        requires whole { length (cells_in cells) ≡ cell_count size }
        ensures { narrow_map result ≡ record {
          size = size;
          data_type = cells.data_type;
          cells =
              cells_in cells;
          masks = replicate (cell_count size) false;
          adjacency = Eight;
        } }
    {
        let Cells {
            data_type,
            least,
            heights,
            marks,
        } = cells;
        Narrow {
            size,
            data_type,
            least,
            heights,
            marks,
            adjacency: Adjacency::Eight,
        }
    }

    /// A surface on which no point is measured and none is masked, with eight neighbours.
    ///
    /// Both sizes are from 1 to 65,535 with at most 4,194,304 cells, and the data type is one whose
    /// heights four bytes tell apart.
    pub(crate) fn unmeasured(
        alloc: Global,
        size: Size,
        data_type: DataType,
    ) -> Result<Narrow, Memory>
        requires limits { IsSize size }
        requires narrow { IsNarrow data_type }
        ensures { IfOk result (λ s. narrow_map s ≡ unmeasured_map size data_type) }
    {
        let count = size.profiles as usize * size.points as usize;
        Ok(Narrow {
            size,
            data_type,
            least: least_of(data_type),
            heights: vec![in alloc; 0; count]?,
            marks: vec![in alloc; Mark::Unmeasured; count]?,
            adjacency: Adjacency::Eight,
        })
    }

    /// A copy with the same cells, none of them masked, and with eight neighbours.
    pub fn without_masks(&self, alloc: Global) -> Result<Narrow, Memory>
        ensures { IfOk result (λ s. narrow_map s ≡ unmasked (narrow_map self.now)) }
    {
        let heights = Vec::from_slice(alloc, self.heights.as_slice())?;
        let marks = unmasked_marks(alloc, self.marks.as_slice())?;
        Ok(Narrow {
            size: self.size,
            data_type: self.data_type,
            least: self.least,
            heights,
            marks,
            adjacency: Adjacency::Eight,
        })
    }
}

impl Heights for Narrow {
    ghost use Rattle.hd_map.specs.Layouts.{narrow_map};

    ghost map = { narrow_map };

    ghost whole = { λ s. s.whole };

    fn size(&self) -> Size {
        self.size
    }

    fn adjacency(&self) -> Adjacency {
        self.adjacency
    }

    fn height(&self, at: Pos) -> Option<i64> {
        let index = index_of(self.size, at) as usize;
        height_over(self.least, self.heights[index], self.marks[index])
    }

    fn fill_heights<L: Lane>(&self, y: u32, row: &mut [L]) -> bool {
        let first = y as usize * self.size.points as usize;
        let least = self.least;
        let most = L::most_height();
        let (from, to) = (first_near(least, most), last_near(least, most));
        let heights = self.heights.as_slice();
        let marks = self.marks.as_slice();
        let mut all = true;
        for x in 0..row.len() {
            let over = heights[first + x];
            let shown = marks[first + x].is_shown();
            let is_near = (from <= over) & (over <= to);
            row[x] = number_of(shown & is_near, least + over as i64);
            all = all & (!shown | is_near);
        }
        all
    }
}

impl Grid for Narrow {
    ghost comes_from = { λ _ _. Unit {0} };

    ghost changes = { λ _. 0 };

    ghost itself = { λ _. tt };

    ghost onward = { λ _ _ _ _ _. tt };

    fn data_type(&self) -> DataType {
        self.data_type
    }

    fn cell(&self, at: Pos) -> Cell {
        let index = index_of(self.size, at) as usize;
        if self.marks[index].is_measured() {
            Cell::Height(self.least + self.heights[index] as i64)
        } else {
            Cell::Bad
        }
    }

    fn masked(&self, at: Pos) -> bool {
        self.marks[index_of(self.size, at) as usize].is_masked()
    }

    fn set_cell(&mut self, at: Pos, cell: Cell) -> Result<(), MapError> {
        if !contains(self.size, at) {
            return Err(MapError::Outside(at));
        }
        if !is_cell_of(self.data_type, cell) {
            return Err(MapError::HeightRange(at));
        }
        let index = index_of(self.size, at) as usize;
        let packed = pack_narrow(self.data_type, cell, self.marks[index].is_masked());
        self.heights[index] = packed.number;
        self.marks[index] = packed.mark;
        Ok(())
    }

    fn set_heights<L: Lane>(&mut self, y: u32, row: &[L]) {
        let first = y as usize * self.size.points as usize;
        let least = self.least;
        let heights = self.heights.as_mut_slice();
        let marks = self.marks.as_mut_slice();
        for x in 0..row.len() {
            let number = row[x];
            heights[first + x] = over_of(least, number, heights[first + x]);
            marks[first + x] = marks[first + x].measured_if(number.is_shown());
        }
    }

    fn set_mask(&mut self, at: Pos, masked: bool) -> Result<(), MapError> {
        if !contains(self.size, at) {
            return Err(MapError::Outside(at));
        }
        let index = index_of(self.size, at) as usize;
        self.marks[index] = Mark::of(self.marks[index].is_measured(), masked);
        Ok(())
    }

    fn set_adjacency(&mut self, adjacency: Adjacency) {
        self.adjacency = adjacency;
    }
}

// The height that is so far over the least one, where the mark shows it.
#[inline]
fn height_over(least: i64, over: u32, mark: Mark) -> Option<i64>
    requires least { negsuc 9007199254740991 ≤ℤ least }
    requires greatest { least ≤ℤ pos 0 }
    ensures { result ≡ shown_height (cell_from (λ n. least +ℤ pos n) over mark) (masks mark) }
{
    match mark {
        Mark::Shown => Some(least + over as i64),
        _ => None,
    }
}

// How far over the least height the one is for which a number stands, or else as far as before.
#[inline]
fn over_of<L: Lane>(least: i64, number: L, before: u32) -> u32
    requires { (z : ℤ) → L.code.shown number ≡ Some z → (least ≤ℤ z) × (z <ℤ (least +ℤ pos four_bytes)) }
    ensures { MatchOption (L.code.shown number) (result ≡ before) (λ z. (least +ℤ pos result) ≡ z) }
{
    match number.height() {
        Some(height) => over_least(least, height),
        None => before,
    }
}

// How far over the least height the first one is that lies at most so far below zero.
#[inline]
fn first_near(least: i64, most: i64) -> u32
    requires least { negsuc 2147483647 ≤ℤ least }
    requires most { pos 0 ≤ℤ most }
    ensures { (over : ℕ) → result ≤ over ↔ neg_ℤ most ≤ℤ (least +ℤ pos over) }
{
    if least < -most {
        (-most - least) as u32
    } else {
        0
    }
}

// How far over the least height the last one is that lies at most so far above zero, or as far as four bytes tell.
#[inline]
fn last_near(least: i64, most: i64) -> u32
    requires least { negsuc 2147483647 ≤ℤ least }
    requires zero { least ≤ℤ pos 0 }
    requires most { pos 0 ≤ℤ most }
    ensures { (over : ℕ) → over < four_bytes → over ≤ result ↔ (least +ℤ pos over) ≤ℤ most }
{
    if most < least + u32::MAX as i64 {
        (most - least) as u32
    } else {
        u32::MAX
    }
}
