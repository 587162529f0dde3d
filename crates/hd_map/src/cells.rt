// The cells of a surface as they are read.
ghost use Rattle.std.specs.Prelude.{◌≡◌, ◌∷◌, ◌++◌, [], length, map, replicate, false, IfOk, OnOk, OnErr};
ghost use Rattle.hd_map.specs.Map.{AreCellsOf, IsCellOf, IsNarrow, least_height};
ghost use Rattle.hd_map.specs.Packing.{cell_from, kept_cells, masks, over_least};

use crate::mark::Mark;
use crate::{Cell, DataType, least_of, over_least};
use hd_list::Memory;
use std::alloc::Global;

/// The cells of a surface as they are read, by index. Each is of the data type, and takes five bytes,
/// as measured.
#[derive(Debug, Drop)]
pub struct Cells {
    pub(crate) data_type: DataType,
    pub(crate) least: i64,
    pub(crate) heights: Vec<u32>,
    pub(crate) marks: Vec<Mark>,
    ghost is_least: { least ≡ least_height data_type },
    ghost paired: { length heights.items ≡ length marks.items },
    ghost unmasked: { map masks marks.items ≡ replicate (length marks.items) false },
    ghost narrow: { IsNarrow data_type },
    ghost of_type: { AreCellsOf data_type (kept_cells (over_least data_type) heights.items marks.items) },
}

impl Cells {
    ghost use Rattle.hd_map.specs.Cells.{cells_in};

    /// No cells, and the memory for this many. The data type is one whose heights four bytes tell
    /// apart.
    pub fn with_capacity(
        alloc: Global,
        data_type: DataType,
        capacity: usize,
    ) -> Result<Cells, Memory>
        requires { IsNarrow data_type }
        ensures data_type { IfOk result (λ cells. cells.data_type ≡ data_type) }
        ensures none { IfOk result (λ cells. cells_in cells ≡ []) }
    {
        Ok(Cells {
            data_type,
            least: least_of(data_type),
            heights: Vec::with_capacity(alloc, capacity)?,
            marks: Vec::with_capacity(alloc, capacity)?,
        })
    }

    /// The data type of the cells.
    pub fn data_type(&self) -> DataType
        ensures { result ≡ self.now.data_type }
    {
        self.data_type
    }

    /// How many cells there are.
    pub fn len(&self) -> usize
        ensures { result ≡ length (cells_in self.now) }
    {
        self.heights.len()
    }

    /// Adds a cell of the data type at the end. Where memory is refused, the cells stay as they were.
    #[inline]
    #[tactic(auto, using(crate::proofs::DataTypes::in_four_bytes))]
    pub fn push(&mut self, cell: Cell) -> Result<(), Memory>
        requires { IsCellOf self.old.data_type cell }
        ensures data_type { self.new.data_type ≡ self.old.data_type }
        ensures ok { OnOk result (cells_in self.new ≡ cells_in self.old ++ cell ∷ []) }
        ensures err { OnErr result (cells_in self.new ≡ cells_in self.old) }
    {
        match cell {
            Cell::Height(height) => self.push_packed(over_least(self.least, height), Mark::Shown),
            Cell::Bad => self.push_packed(0, Mark::Unmeasured),
        }
    }

    /// Adds cells of the data type at the end, each as it is kept: how far its height is over the least
    /// one, and a mark without a mask. Where memory is refused, the cells stay as they were.
    pub fn extend_packed(&mut self, overs: &[u32], marks: &[Mark]) -> Result<(), Memory>
        requires paired { length overs.now ≡ length marks.now }
        requires unmasked { map masks marks.now ≡ replicate (length marks.now) false }
        requires of_type { AreCellsOf self.old.data_type
            (kept_cells (over_least self.old.data_type) overs.now marks.now) }
        ensures data_type { self.new.data_type ≡ self.old.data_type }
        ensures ok { OnOk result (cells_in self.new ≡ cells_in self.old
            ++ kept_cells (over_least self.old.data_type) overs.now marks.now) }
        ensures err { OnErr result (cells_in self.new ≡ cells_in self.old) }
    {
        let count = self.heights.len();
        self.heights.extend_from_slice(overs)?;
        if self.marks.extend_from_slice(marks).is_err() {
            self.heights.truncate(count);
            return Err(Memory);
        }
        Ok(())
    }

    // Adds the cell that is kept so.
    #[inline]
    fn push_packed(&mut self, over: u32, mark: Mark) -> Result<(), Memory>
        requires of_type { IsCellOf self.old.data_type (cell_from (over_least self.old.data_type) over mark) }
        requires unmasked { masks mark ≡ false }
        ensures data_type { self.new.data_type ≡ self.old.data_type }
        ensures ok { OnOk result (cells_in self.new ≡ cells_in self.old
            ++ cell_from (over_least self.old.data_type) over mark ∷ []) }
        ensures err { OnErr result (cells_in self.new ≡ cells_in self.old) }
    {
        self.heights.push(over)?;
        if self.marks.push(mark).is_err() {
            self.heights.pop();
            return Err(Memory);
        }
        Ok(())
    }
}
