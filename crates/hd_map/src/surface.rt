// A surface: its cells, and masks over them, in one of two layouts.
ghost use Rattle.std.specs.Prelude.{◌≡◌, ◌≤◌, IfOk, length, replicate, false};
ghost use Rattle.hd_map.specs.Map.{IsSize, cell_count, most_places, places_of};

use crate::{
    Adjacency, Cell, Cells, DataType, Grid, Heights, Lane, MapError, Narrow, Pos, Size, Wide,
    is_narrow,
};
use hd_list::Memory;
use std::alloc::Global;

/// A surface in memory, in the layout that its data type needs. As a grid it asks for the layout at
/// each call; what goes over many points takes the layout out once.
#[derive(Debug, Drop)]
pub enum Surface {
    /// Four bytes hold each height.
    Narrow(Narrow),
    /// Eight bytes hold each height.
    Wide(Wide),
}

impl Surface {
    ghost use Rattle.hd_map.specs.Cells.{cells_in};
    ghost use Rattle.hd_map.specs.declared.types.Adjacency.TheVariants.{Eight};
    ghost use Rattle.hd_map.specs.Unmasked.{unmasked, unmeasured_map};
    ghost use Rattle.hd_map.specs.Surface.{map_of};

    /// A surface with these cells, none of them masked, and with eight neighbours.
    ///
    /// Both sizes are from 1 to 65,535 with at most 4,194,304 cells, and there are as many cells as
    /// the size says.
    pub fn new(size: Size, cells: Cells) -> Surface
        requires limits { IsSize size }
        requires whole { length (cells_in cells) ≡ cell_count size }
        ensures { map_of result ≡ record {
          size = size;
          data_type = cells.data_type;
          cells =
              cells_in cells;
          masks = replicate (cell_count size) false;
          adjacency = Eight;
        } }
    {
        Surface::Narrow(Narrow::new(size, cells))
    }

    /// A surface on which no point is measured and none is masked, with eight neighbours.
    ///
    /// Both sizes are from 1 to 65,535 with at most 4,194,304 cells, and the heights of the data type
    /// have at most 18 decimal places.
    pub fn unmeasured(alloc: Global, size: Size, data_type: DataType) -> Result<Surface, Memory>
        requires limits { IsSize size }
        requires places { places_of data_type ≤ most_places }
        ensures { IfOk result (λ s. map_of s ≡ unmeasured_map size data_type) }
    {
        if is_narrow(data_type) {
            let surface = Narrow::unmeasured(alloc, size, data_type)?;
            Ok(Surface::Narrow(surface))
        } else {
            let surface = Wide::unmeasured(alloc, size, data_type)?;
            Ok(Surface::Wide(surface))
        }
    }

    /// A copy with the same cells, none of them masked, and with eight neighbours.
    pub fn without_masks(&self, alloc: Global) -> Result<Surface, Memory>
        ensures { IfOk result (λ s. map_of s ≡ unmasked (map_of self.now)) }
    {
        match self {
            Surface::Narrow(surface) => {
                let copy = surface.without_masks(alloc)?;
                Ok(Surface::Narrow(copy))
            }
            Surface::Wide(surface) => {
                let copy = surface.without_masks(alloc)?;
                Ok(Surface::Wide(copy))
            }
        }
    }
}

impl Heights for Surface {
    ghost use Rattle.hd_map.specs.Surface.{map_of};
    ghost use Rattle.hd_map.specs.SurfaceLaws.{surface-whole};

    ghost map = { map_of };

    ghost whole = { surface-whole };

    fn size(&self) -> Size {
        match self {
            Surface::Narrow(surface) => surface.size(),
            Surface::Wide(surface) => surface.size(),
        }
    }

    fn adjacency(&self) -> Adjacency {
        match self {
            Surface::Narrow(surface) => surface.adjacency(),
            Surface::Wide(surface) => surface.adjacency(),
        }
    }

    fn height(&self, at: Pos) -> Option<i64> {
        match self {
            Surface::Narrow(surface) => surface.height(at),
            Surface::Wide(surface) => surface.height(at),
        }
    }

    fn fill_heights<L: Lane>(&self, y: u32, row: &mut [L]) -> bool {
        match self {
            Surface::Narrow(surface) => surface.fill_heights(y, row),
            Surface::Wide(surface) => surface.fill_heights(y, row),
        }
    }
}

impl Grid for Surface {
    ghost comes_from = { λ _ _. Unit {0} };

    ghost changes = { λ _. 0 };

    ghost itself = { λ _. tt };

    ghost onward = { λ _ _ _ _ _. tt };

    fn data_type(&self) -> DataType {
        match self {
            Surface::Narrow(surface) => surface.data_type(),
            Surface::Wide(surface) => surface.data_type(),
        }
    }

    fn cell(&self, at: Pos) -> Cell {
        match self {
            Surface::Narrow(surface) => surface.cell(at),
            Surface::Wide(surface) => surface.cell(at),
        }
    }

    fn masked(&self, at: Pos) -> bool {
        match self {
            Surface::Narrow(surface) => surface.masked(at),
            Surface::Wide(surface) => surface.masked(at),
        }
    }

    fn set_cell(&mut self, at: Pos, cell: Cell) -> Result<(), MapError> {
        match self {
            Surface::Narrow(surface) => surface.set_cell(at, cell),
            Surface::Wide(surface) => surface.set_cell(at, cell),
        }
    }

    fn set_heights<L: Lane>(&mut self, y: u32, row: &[L]) {
        match self {
            Surface::Narrow(surface) => surface.set_heights(y, row),
            Surface::Wide(surface) => surface.set_heights(y, row),
        }
    }

    fn set_mask(&mut self, at: Pos, masked: bool) -> Result<(), MapError> {
        match self {
            Surface::Narrow(surface) => surface.set_mask(at, masked),
            Surface::Wide(surface) => surface.set_mask(at, masked),
        }
    }

    fn set_adjacency(&mut self, adjacency: Adjacency) {
        match self {
            Surface::Narrow(surface) => surface.set_adjacency(adjacency),
            Surface::Wide(surface) => surface.set_adjacency(adjacency),
        }
    }
}
