// The pits of a map with their merges.
ghost use Rattle.std.specs.Prelude.{All, IfOk};
ghost use Rattle.hd_map.specs.Pruning.{ArePits};
ghost use Rattle.hd_steep.specs.Crossings.{HasPits, passes_of};
ghost use Rattle.hd_steep.specs.Numbering.{AreNumbered};
ghost use Rattle.hd_survey.specs.Findings.{ArePitMerges};
ghost use Rattle.hd_survey.specs.PitLinks.{AreLinkedPits, AreRegionCrossings};

use crate::pits::lows_of;
use hd_graph::{
    Low, Merge, merges_by_links, merges_rest_on_the_passes, merges_tell_the_saddles,
    passes_of_basins_are_a_graph, regions_are_basins,
};
use hd_list::{List, Memory};
use hd_map::{Heights, Link, Rank, Side};
use hd_steep::{Regions, crossings};
use std::alloc::Global;

/// The pits of a map on a side in position order, and their merges as the water rises.
#[derive(Drop)]
pub struct PitMerges {
    /// The pits.
    pub lows: List<Low>,
    /// The merges, which name the pits by their places.
    pub merges: List<Merge>,
}

/// The pits of these regions and their merges.
pub fn merges_of_regions<S: Side, G: Heights>(
    alloc: Global,
    grid: &G,
    regions: &Regions,
) -> Result<PitMerges, Memory>
    requires { AreNumbered (G.map grid.now) S.NAME regions.now }
    ensures { IfOk result (ArePitMerges (G.map grid.now) S.NAME) }
{
    let crossings = crossings::<S, G>(alloc, grid, regions)?;
    let links = crossings.into_vec();
    merges_of_crossings::<S, G>(alloc, grid, regions.pits(), links)
}

/// The same, where the numbers of the points are given up once the crossings between the regions are found, and the list
/// of the pits before these are joined.
pub fn into_merges<S: Side, G: Heights>(
    alloc: Global,
    grid: &G,
    regions: Regions,
) -> Result<PitMerges, Memory>
    requires { AreNumbered (G.map grid.now) S.NAME regions }
    ensures { IfOk result (ArePitMerges (G.map grid.now) S.NAME) }
{
    let crossings = crossings::<S, G>(alloc, grid, &regions)?;
    let links = crossings.into_vec();
    let pits = regions.into_pits();
    let lows = lows_of(alloc, pits.as_slice())?;
    drop(pits);
    merges_of_linked_pits::<S, G>(alloc, grid, lows, links)
}

/// The pits of a map, in position order, and their merges by the crossings between their regions, which name the pits
/// by their places.
pub fn merges_of_crossings<S: Side, G: Heights>(
    alloc: Global,
    grid: &G,
    pits: &[Rank],
    crossings: Vec<Link>,
) -> Result<PitMerges, Memory>
    requires pits { ArePits (G.map grid.now) S.NAME pits.now }
    requires ends { All (HasPits pits.now) crossings.items }
    requires passes { AreRegionCrossings (G.map grid.now) S.NAME (passes_of S.NAME pits.now crossings.items) }
    ensures { IfOk result (ArePitMerges (G.map grid.now) S.NAME) }
{
    let lows = lows_of(alloc, pits)?;
    merges_of_linked_pits::<S, G>(alloc, grid, lows, crossings)
}

// The same of the pits as lows.
fn merges_of_linked_pits<S: Side, G: Heights>(
    alloc: Global,
    _grid: &G,
    lows: List<Low>,
    links: Vec<Link>,
) -> Result<PitMerges, Memory>
    requires { AreLinkedPits (G.map _grid.now) S.NAME lows links.items }
    ensures { IfOk result (ArePitMerges (G.map _grid.now) S.NAME) }
{
    regions_are_basins();
    passes_of_basins_are_a_graph();
    merges_rest_on_the_passes();
    merges_tell_the_saddles();
    let merges = merges_by_links::<S>(alloc, lows.as_slice(), links)?;
    Ok(PitMerges { lows, merges })
}
