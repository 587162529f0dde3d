// The tallies of the regions of a grid.
ghost use Rattle.std.specs.Prelude.{◌≡◌, ◌<◌, ◌^◌, length, map, replicate, All, IfOk};
ghost use Rattle.hd_map.specs.Map.{cell_count};
ghost use Rattle.hd_steep.specs.Numbering.{AreNumbered, roots_of};
ghost use Rattle.hd_survey.specs.Edges.{HaveRoots};
ghost use Rattle.hd_survey.specs.Tallies.{AddsPoint, AreTallies, no_tally, region_tally};

use crate::edges::edge_height;
use crate::tally::{NO_TALLY, count_point};
use hd_list::{List, Memory};
use hd_map::{Heights, Pos, Side, position_after};
use hd_regions::Tally;
use hd_steep::Regions;
use std::alloc::Global;

/// The tallies of the regions of a grid, in position order of their pits.
pub fn region_tallies<S: Side, G: Heights>(
    alloc: Global,
    grid: &G,
    regions: &Regions,
) -> Result<List<Tally>, Memory>
    requires { AreNumbered (G.map grid.now) S.NAME regions.now }
    ensures { IfOk result (λ tallies. tallies
        ≡ map (region_tally (G.map grid.now) (roots_of regions.now)) regions.now.pits) }
{
    let tallies = tally_points(alloc, grid, regions)?;
    Ok(List::from_vec(tallies))
}

// By number of a pit, the tally of the points that lie in its region. Exactly the present points lie in
// regions.
fn tally_points<G: Heights>(
    alloc: Global,
    grid: &G,
    regions: &Regions,
) -> Result<Vec<Tally>, Memory>
    requires whole { length regions.now.numbers ≡ cell_count (G.map grid.now).size }
    requires present { HaveRoots (G.map grid.now) (roots_of regions.now) }
    ensures { IfOk result (λ tallies. AreTallies (G.map grid.now) regions.now
        (cell_count (G.map grid.now).size) tallies.items) }
{
    let mut tallies = no_tallies(alloc, regions.pits().len())?;
    let size = grid.size();
    let mut at = Pos { x: 0, y: 0 };
    'points: for index in 0..regions.len() {
        if let Some(number) = regions.number(index) {
            let height = edge_height(grid, regions, at);
            add_point(&mut tallies, number, height);
        }
        at = position_after(size, at);
    }
    Ok(tallies)
}

// Adds a point to the tally of its number.
#[inline]
fn add_point(tallies: &mut Vec<Tally>, number: u32, height: Option<i64>)
    requires few { All (λ t. t.points < 2 ^ 31) tallies.old.items }
    requires inside { number < length tallies.old.items }
    ensures { AddsPoint tallies.old.items number height tallies.new.items }
{
    count_point(&mut tallies[number as usize], height);
}

/// So many tallies of no points.
pub fn no_tallies(alloc: Global, count: usize) -> Result<Vec<Tally>, Memory>
    ensures { IfOk result (λ tallies. tallies.items ≡ replicate count no_tally) }
{
    let tallies = vec![in alloc; NO_TALLY; count]?;
    Ok(tallies)
}
