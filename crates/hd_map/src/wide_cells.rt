// The cells of a surface with heights of eight bytes, as they are read.
ghost use Rattle.std.specs.Prelude.{◌≡◌, ◌≤◌, ◌*ℤ◌, ◌∷◌, ◌++◌, [], length, map, replicate, false, IfOk, OnOk, OnErr};
ghost use Rattle.std.specs.Int.{int_wrap, w64};
ghost use Rattle.hd_map.specs.Map.{AreCellsOf, IsCellOf, most_places, places_of};
ghost use Rattle.hd_map.specs.Packing.{as_it_is, cell_from, kept_cells, masks, multiplied};

use crate::mark::Mark;
use crate::{Cell, DataType};
use hd_list::Memory;
use std::alloc::Global;

/// The cells of a surface of any data type as they are read, by index. Each is of the data type, and
/// takes nine bytes, as measured.
#[derive(Debug, Drop)]
pub struct WideCells {
    pub(crate) data_type: DataType,
    pub(crate) heights: Vec<i64>,
    pub(crate) marks: Vec<Mark>,
    ghost places: { places_of data_type ≤ most_places },
    ghost paired: { length heights.items ≡ length marks.items },
    ghost unmasked: { map masks marks.items ≡ replicate (length marks.items) false },
    ghost of_type: { AreCellsOf data_type (kept_cells as_it_is heights.items marks.items) },
}

impl WideCells {
    ghost use Rattle.hd_map.specs.Cells.{wide_cells_in};

    /// No cells, and the memory for this many. The heights of the data type have at most 18 decimal
    /// places.
    pub fn with_capacity(
        alloc: Global,
        data_type: DataType,
        capacity: usize,
    ) -> Result<WideCells, Memory>
        requires { places_of data_type ≤ most_places }
        ensures data_type { IfOk result (λ cells. cells.data_type ≡ data_type) }
        ensures none { IfOk result (λ cells. wide_cells_in cells ≡ []) }
    {
        Ok(WideCells {
            data_type,
            heights: Vec::with_capacity(alloc, capacity)?,
            marks: Vec::with_capacity(alloc, capacity)?,
        })
    }

    /// The data type of the cells.
    pub fn data_type(&self) -> DataType
        ensures { result ≡ self.now.data_type }
    {
        self.data_type
    }

    /// How many cells there are.
    pub fn len(&self) -> usize
        ensures { result ≡ length (wide_cells_in self.now) }
    {
        self.heights.len()
    }

    /// Adds a cell of the data type at the end. Where memory is refused, the cells stay as they were.
    #[inline]
    pub fn push(&mut self, cell: Cell) -> Result<(), Memory>
        requires { IsCellOf self.old.data_type cell }
        ensures data_type { self.new.data_type ≡ self.old.data_type }
        ensures ok { OnOk result (wide_cells_in self.new ≡ wide_cells_in self.old ++ cell ∷ []) }
        ensures err { OnErr result (wide_cells_in self.new ≡ wide_cells_in self.old) }
    {
        match cell {
            Cell::Height(height) => self.push_packed(height, Mark::Shown),
            Cell::Bad => self.push_packed(0, Mark::Unmeasured),
        }
    }

    // Adds the cell that is kept so.
    #[inline]
    fn push_packed(&mut self, height: i64, mark: Mark) -> Result<(), Memory>
        requires of_type { IsCellOf self.old.data_type (cell_from as_it_is height mark) }
        requires unmasked { masks mark ≡ false }
        ensures data_type { self.new.data_type ≡ self.old.data_type }
        ensures ok { OnOk result (wide_cells_in self.new ≡ wide_cells_in self.old
            ++ cell_from as_it_is height mark ∷ []) }
        ensures err { OnErr result (wide_cells_in self.new ≡ wide_cells_in self.old) }
    {
        self.heights.push(height)?;
        if self.marks.push(mark).is_err() {
            self.heights.pop();
            return Err(Memory);
        }
        Ok(())
    }

    /// Multiplies each height by a factor, and takes the cells as those of another data type. Its
    /// heights have at most 18 decimal places, and each product is in its range.
    pub fn multiply(&mut self, data_type: DataType, factor: i64)
        requires places { places_of data_type ≤ most_places }
        requires of_type { AreCellsOf data_type (map (multiplied factor) (wide_cells_in self.old)) }
        ensures data_type { self.new.data_type ≡ data_type }
        ensures cells { wide_cells_in self.new ≡ map (multiplied factor) (wide_cells_in self.old) }
    {
        multiply_all(&mut self.heights, factor);
        self.data_type = data_type;
    }
}

// Multiplies each number by a factor, in 64 bits.
fn multiply_all(numbers: &mut Vec<i64>, factor: i64)
    ensures { numbers.new.items ≡ map (λ number. int_wrap w64 (number *ℤ factor)) numbers.old.items }
{
    for index in 0..numbers.len() {
        numbers[index] = numbers[index].wrapping_mul(factor);
    }
}
