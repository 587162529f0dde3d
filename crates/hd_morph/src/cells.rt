// The filters of a map: its new cells.
ghost use Rattle.std.specs.Prelude.{◌≡◌, IfOk, length};
ghost use Rattle.hd_map.specs.Map.{cell_count};
ghost use Rattle.hd_morph.specs.declared.filter.Filter.TheVariants.{Dilation, Erosion, Opening, Closing};
ghost use Rattle.hd_morph.specs.Answer.{FiltersMap};
ghost use Rattle.hd_morph.specs.NewHeights.{cells_after};

use crate::heights::{closed_heights, dilated_heights, eroded_heights, opened_heights};
use crate::new_heights::NewHeights;
use crate::{Element, MorphError};
use hd_list::{List, Memory};
use hd_map::{Cell, Grid, Pos, position_after};
use std::alloc::Global;

/// The dilation of a map by an element: its new cells by index.
///
/// At each present point x stands the greatest `f(x - u) + b(u)`, in steps, over all offsets u from
/// the centre of the element at which it has a number b(u) and for which x - u is a present point
/// of height f(x - u). Points that are not present keep their cell; their treatment is this
/// project's own, the rest is the dilation of ISO 16610-40.
///
/// `HeightRange` comes exactly where a new height is not in the range of the data type, with the
/// first such position by index. `Memory` may come in place of any other answer. Measured, it takes
/// 20 bytes a point, the 16 of the new cells among them, where no height is more than 2 ^ 29 steps
/// from zero and no number of the element more than 2 ^ 27, and else 24.
pub fn dilate<G: Grid>(alloc: Global, grid: &G, element: &Element) -> Result<List<Cell>, MorphError>
    ensures { FiltersMap Dilation (G.map grid.now) element.now result }
{
    let heights = dilated_heights(alloc, grid, element)?;
    let cells = cells_with(alloc, grid, &heights)?;
    Ok(cells)
}

/// The erosion of a map by an element: its new cells by index.
///
/// At each present point x stands the least `f(x + u) - b(u)`, in steps, over all offsets u from the
/// centre of the element at which it has a number b(u) and for which x + u is a present point of
/// height f(x + u). All else is as for [`dilate`].
pub fn erode<G: Grid>(alloc: Global, grid: &G, element: &Element) -> Result<List<Cell>, MorphError>
    ensures { FiltersMap Erosion (G.map grid.now) element.now result }
{
    let heights = eroded_heights(alloc, grid, element)?;
    let cells = cells_with(alloc, grid, &heights)?;
    Ok(cells)
}

/// The opening of a map by an element, an erosion and then a dilation: its new cells by index.
///
/// Heights between the two are not held against the data type. All else is as for [`dilate`].
pub fn open<G: Grid>(alloc: Global, grid: &G, element: &Element) -> Result<List<Cell>, MorphError>
    ensures { FiltersMap Opening (G.map grid.now) element.now result }
{
    let heights = opened_heights(alloc, grid, element)?;
    let cells = cells_with(alloc, grid, &heights)?;
    Ok(cells)
}

/// The closing of a map by an element, a dilation and then an erosion: its new cells by index.
///
/// Heights between the two are not held against the data type. All else is as for [`dilate`].
pub fn close<G: Grid>(alloc: Global, grid: &G, element: &Element) -> Result<List<Cell>, MorphError>
    ensures { FiltersMap Closing (G.map grid.now) element.now result }
{
    let heights = closed_heights(alloc, grid, element)?;
    let cells = cells_with(alloc, grid, &heights)?;
    Ok(cells)
}

// The cells of a map with new heights.
fn cells_with<G: Grid>(alloc: Global, grid: &G, heights: &NewHeights) -> Result<List<Cell>, Memory>
    requires { length heights.now ≡ cell_count (G.map grid.now).size }
    ensures { IfOk result (λ cells. cells ≡ cells_after (G.map grid.now) heights.now) }
{
    let size = grid.size();
    let count = size.profiles * size.points;
    let mut cells = List::with_capacity(alloc, count as usize)?;
    let mut at = Pos { x: 0, y: 0 };
    for index in 0..count {
        cells.push(heights.cell(index, grid.cell(at)))?;
        at = position_after(size, at);
    }
    Ok(cells)
}
