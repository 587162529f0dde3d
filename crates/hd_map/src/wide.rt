// A surface whose heights take eight bytes each.
ghost use Rattle.std.specs.Prelude.{◌≡◌, ◌≤◌, ◌<◌, pos, IfOk, length, replicate, false, slice_index_or};
ghost use Rattle.hd_map.specs.Map.{IsSize, IsMap, cell_count, most_places, places_of, shown_height};
ghost use Rattle.hd_map.specs.Packing.{as_it_is, cell_from, kept_map, masks};

use crate::lane::number_of;
use crate::mark::{Mark, unmasked_marks};
use crate::packing::pack_wide;
use crate::{
    Adjacency, Cell, DataType, Grid, Heights, Lane, MapError, Pos, Size, WideCells, contains,
    index_of, is_cell_of,
};
use hd_list::Memory;
use std::alloc::Global;

/// A surface of any data type. As measured, a point takes nine bytes: eight for its height and one for
/// its mark.
#[derive(Debug, Drop)]
pub struct Wide {
    size: Size,
    data_type: DataType,
    heights: Vec<i64>,
    marks: Vec<Mark>,
    adjacency: Adjacency,
    ghost paired: { length heights.items ≡ length marks.items },
    ghost whole: { IsMap (kept_map as_it_is size data_type heights.items marks.items adjacency) },
}

impl Wide {
    ghost use Rattle.hd_map.specs.Cells.{wide_cells_in};
    ghost use Rattle.hd_map.specs.declared.types.Adjacency.TheVariants.{Eight};
    ghost use Rattle.hd_map.specs.Layouts.{wide_map};
    ghost use Rattle.hd_map.specs.Unmasked.{unmasked, unmeasured_map};

    /// A surface with these cells, none of them masked, and with eight neighbours.
    ///
    /// Both sizes are from 1 to 65,535 with at most 4,194,304 cells, and there are as many cells as
    /// the size says.
    pub fn new(size: Size, cells: WideCells) -> Wide
        requires limits { IsSize size }
        requires whole { length (wide_cells_in cells) ≡ cell_count size }
        ensures { wide_map result ≡ record {
          size = size;
          data_type = cells.data_type;
          cells =
              wide_cells_in cells;
          masks = replicate (cell_count size) false;
          adjacency = Eight;
        } }
    {
        let WideCells {
            data_type,
            heights,
            marks,
        } = cells;
        Wide {
            size,
            data_type,
            heights,
            marks,
            adjacency: Adjacency::Eight,
        }
    }

    /// A surface on which no point is measured and none is masked, with eight neighbours.
    ///
    /// Both sizes are from 1 to 65,535 with at most 4,194,304 cells, and the heights of the data type
    /// have at most 18 decimal places.
    pub(crate) fn unmeasured(alloc: Global, size: Size, data_type: DataType) -> Result<Wide, Memory>
        requires limits { IsSize size }
        requires places { places_of data_type ≤ most_places }
        ensures { IfOk result (λ s. wide_map s ≡ unmeasured_map size data_type) }
    {
        let count = size.profiles as usize * size.points as usize;
        Ok(Wide {
            size,
            data_type,
            heights: vec![in alloc; 0; count]?,
            marks: vec![in alloc; Mark::Unmeasured; count]?,
            adjacency: Adjacency::Eight,
        })
    }

    /// A copy with the same cells, none of them masked, and with eight neighbours.
    pub fn without_masks(&self, alloc: Global) -> Result<Wide, Memory>
        ensures { IfOk result (λ s. wide_map s ≡ unmasked (wide_map self.now)) }
    {
        let heights = Vec::from_slice(alloc, self.heights.as_slice())?;
        let marks = unmasked_marks(alloc, self.marks.as_slice())?;
        Ok(Wide {
            size: self.size,
            data_type: self.data_type,
            heights,
            marks,
            adjacency: Adjacency::Eight,
        })
    }
}

impl Heights for Wide {
    ghost use Rattle.hd_map.specs.Layouts.{wide_map};

    ghost map = { wide_map };

    ghost whole = { λ s. s.whole };

    fn size(&self) -> Size {
        self.size
    }

    fn adjacency(&self) -> Adjacency {
        self.adjacency
    }

    fn height(&self, at: Pos) -> Option<i64> {
        let index = index_of(self.size, at) as usize;
        height_in(self.heights.as_slice(), index, self.marks[index])
    }

    fn fill_heights<L: Lane>(&self, y: u32, row: &mut [L]) -> bool {
        let first = y as usize * self.size.points as usize;
        let most = L::most_height();
        let heights = self.heights.as_slice();
        let marks = self.marks.as_slice();
        let mut all = true;
        for x in 0..row.len() {
            let height = heights[first + x];
            let shown = marks[first + x].is_shown();
            let is_near = (-most <= height) & (height <= most);
            row[x] = number_of(shown & is_near, height);
            all = all & (!shown | is_near);
        }
        all
    }
}

impl Grid for Wide {
    ghost comes_from = { λ _ _. Unit {0} };

    ghost changes = { λ _. 0 };

    ghost itself = { λ _. tt };

    ghost onward = { λ _ _ _ _ _. tt };

    fn data_type(&self) -> DataType {
        self.data_type
    }

    fn cell(&self, at: Pos) -> Cell {
        let index = index_of(self.size, at) as usize;
        if self.marks[index].is_measured() {
            Cell::Height(self.heights[index])
        } else {
            Cell::Bad
        }
    }

    fn masked(&self, at: Pos) -> bool {
        self.marks[index_of(self.size, at) as usize].is_masked()
    }

    fn set_cell(&mut self, at: Pos, cell: Cell) -> Result<(), MapError> {
        if !contains(self.size, at) {
            return Err(MapError::Outside(at));
        }
        if !is_cell_of(self.data_type, cell) {
            return Err(MapError::HeightRange(at));
        }
        let index = index_of(self.size, at) as usize;
        let packed = pack_wide(cell, self.marks[index].is_masked());
        self.heights[index] = packed.number;
        self.marks[index] = packed.mark;
        Ok(())
    }

    fn set_heights<L: Lane>(&mut self, y: u32, row: &[L]) {
        let first = y as usize * self.size.points as usize;
        let heights = self.heights.as_mut_slice();
        let marks = self.marks.as_mut_slice();
        for x in 0..row.len() {
            let number = row[x];
            heights[first + x] = number.height().unwrap_or(heights[first + x]);
            marks[first + x] = marks[first + x].measured_if(number.is_shown());
        }
    }

    fn set_mask(&mut self, at: Pos, masked: bool) -> Result<(), MapError> {
        if !contains(self.size, at) {
            return Err(MapError::Outside(at));
        }
        let index = index_of(self.size, at) as usize;
        self.marks[index] = Mark::of(self.marks[index].is_measured(), masked);
        Ok(())
    }

    fn set_adjacency(&mut self, adjacency: Adjacency) {
        self.adjacency = adjacency;
    }
}

// The height at an index, where the mark shows it.
#[inline]
fn height_in(heights: &[i64], index: usize, mark: Mark) -> Option<i64>
    requires { index < length heights.now }
    ensures { result ≡ shown_height (cell_from as_it_is
        (slice_index_or heights.now index (pos 0)) mark) (masks mark) }
{
    match mark {
        Mark::Shown => Some(heights[index]),
        _ => None,
    }
}
