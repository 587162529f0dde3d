// The passes between regions, from the borders between the indexes of their pits.
ghost use Rattle.std.specs.Prelude.{◌≡◌, map, All, AllPairs, IfOk};
ghost use Rattle.hd_map.specs.Passes.{ArePassesUnder};
ghost use Rattle.hd_map.specs.Region.{AreRegions};
ghost use Rattle.hd_steep.specs.Passes.{ComesFirst, HasPoints, pass_of_border, place_of_label};

use crate::border::Border;
use crate::crossing::pass_between;
use crate::pairs::borders_of;
use crate::points::point_at;
use hd_list::{List, Memory};
use hd_map::{Heights, Pass, Side};
use std::alloc::Global;

/// The passes between the regions with these labels: for each two of them with neighbouring members
/// one, by the lesser index of their pits and then by the greater.
///
/// The labels are those that `regions` gives for this grid and side. It takes 16 bytes a point, and
/// memory in proportion to the passes.
pub fn passes<S: Side, G: Heights>(
    alloc: Global,
    grid: &G,
    labels: &List<Option<u32>>,
) -> Result<List<Pass>, Memory>
    requires { AreRegions (G.map grid.now) S.NAME labels.now }
    ensures passes { IfOk result (ArePassesUnder (G.map grid.now) S.NAME labels.now) }
    ensures ordered { IfOk result (AllPairs ComesFirst) }
{
    let places = root_places(alloc, labels.as_slice())?;
    let borders = borders_of::<S, G>(alloc, grid, &places, places.len(), 0)?;
    let passes = list_passes::<S, G>(alloc, grid, &borders)?;
    Ok(passes)
}

// By index the index of the pit in whose region the point lies, and 0 where no point is present.
fn root_places(alloc: Global, labels: &[Option<u32>]) -> Result<Vec<u32>, Memory>
    ensures { IfOk result (λ places. places.items ≡ map place_of_label labels.now) }
{
    let mut places = Vec::with_capacity(alloc, labels.len())?;
    for label in labels {
        places.push(label.unwrap_or(0))?;
    }
    Ok(places)
}

// The passes of borders.
fn list_passes<S: Side, G: Heights>(
    alloc: Global,
    grid: &G,
    borders: &[Border],
) -> Result<List<Pass>, Memory>
    requires { All (HasPoints (G.map grid.now)) borders.now }
    ensures { IfOk result (λ passes. passes ≡ map (pass_of_border (G.map grid.now) S.NAME) borders.now) }
{
    let mut passes = List::with_capacity(alloc, borders.len())?;
    for border in borders {
        passes.push(pass_of_border::<S, G>(grid, *border))?;
    }
    Ok(passes)
}

// The pass of a border.
fn pass_of_border<S: Side, G: Heights>(grid: &G, border: Border) -> Pass
    requires { HasPoints (G.map grid.now) border }
    ensures { result ≡ pass_of_border (G.map grid.now) S.NAME border }
{
    let one = point_at(grid, border.a);
    let other = point_at(grid, border.b);
    pass_between::<S>(one, other, border.pass)
}
