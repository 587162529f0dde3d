// Surfaces that are written down cell by cell.
ghost use Rattle.std.specs.Prelude.{◌≡◌, IfSome, replicate, false};
ghost use Rattle.hd_map.specs.Map.{IsSize, cell_count};
ghost use Rattle.hd_map.specs.Surface.{map_of};
ghost use Rattle.hd_map.specs.declared.types.Adjacency.TheVariants.{Eight};

use hd_map::{Cell, Cells, DataType, Size, Surface, is_cell_of, is_narrow};
use std::alloc::Global;

/// The surface of this size and data type with these cells by index, none of them masked.
///
/// The size is within the limits of a surface. `None` comes where four bytes do not hold the heights
/// of the data type, where there are not as many cells as the size says, where a height is not of the
/// data type, and for want of memory.
pub fn surface_of(alloc: Global, size: Size, data_type: DataType, cells: &[Cell]) -> Option<Surface>
    requires { IsSize size }
    ensures { IfSome result (λ surface. map_of surface
        ≡ record {
          size = size;
          data_type = data_type;
          cells = cells.now;
          masks = replicate
              (cell_count size) false;
          adjacency = Eight;
        }) }
{
    if !is_narrow(data_type) {
        return None;
    }
    let mut taken = Cells::with_capacity(alloc, data_type, cells.len()).ok()?;
    'cells: for &cell in cells {
        if !is_cell_of(data_type, cell) {
            return None;
        }
        taken.push(cell).ok()?;
    }
    if taken.len() != (size.profiles * size.points) as usize {
        return None;
    }
    Some(Surface::new(size, taken))
}
