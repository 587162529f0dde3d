// The regions of a side after pruning, by what feature parameters take of them.
ghost use Rattle.std.specs.Prelude.{◌≡◌, ◌≤◌, length, All, IfOk, unsigned_abs};
ghost use Rattle.std.specs.Option.{ForSome};
ghost use Rattle.hd_map.specs.Presence.{present_heights};
ghost use Rattle.hd_map.specs.HeightRange.{range_of};
ghost use Rattle.hd_survey.specs.Findings.{AreFindings, AreKeptFeatures};
ghost use Rattle.hd_survey.specs.Features.{AreFeaturesWith, AreHeightsAlone, AreHeightsWith, feature_with};
ghost use Rattle.hd_survey.specs.Heights.{HasHeights, IsHeightRange, farthest_apart};

use crate::findings::Findings;
use crate::local_heights::lpvh;
use crate::owned::owned_tallies;
use crate::pruned::{cells_of, pruned_pits};
use crate::tally::NO_TALLY;
use crate::view::SideView;
use hd_feature::Region;
use hd_list::{List, Memory};
use hd_map::{HeightRange, Heights, Side, SideName};
use hd_num::Percent;
use hd_prune::Kept;
use hd_regions::Tally;
use std::alloc::Global;

/// The regions after the pruning of a map on a side, by what parameters take of them.
#[derive(Drop)]
pub struct KeptFeatures {
    /// The percent of the pruning.
    pub percent: Percent,
    /// The regions of the kept pits, in position order.
    pub list: List<Region>,
}

/// The regions of the kept pits after the pruning of a grid at a percent, in position order, by a view of one of
/// its sides and what was found of it, to which the merges of the pits are added. The range is that of the
/// heights of the grid.
pub fn features<S: Side, G: Heights, V: SideView<S>>(
    alloc: Global,
    grid: &G,
    view: &V,
    findings: &mut Findings<S>,
    percent: Percent,
    range: Option<HeightRange>,
) -> Result<List<Region>, Memory>
    requires view { V.map view.now ≡ G.map grid.now }
    requires findings { AreFindings (G.map grid.now) S.NAME findings.old }
    requires range { range ≡ range_of (present_heights (G.map grid.now)) }
    ensures are { IfOk result (AreKeptFeatures (G.map grid.now) S.NAME percent.thousandths) }
    ensures findings { AreFindings (G.map grid.now) S.NAME findings.new }
{
    findings.find_merges_by(view)?;
    let merges = findings.merges();
    let pruned = pruned_pits::<S, G, V>(alloc, grid, view, merges, percent, range)?;
    let tallies = view.tallies()?;
    let owned = owned_tallies(alloc, cells_of(grid), &pruned, tallies.as_slice())?;
    list_features(
        alloc,
        S::NAME,
        range,
        pruned.kept.as_slice(),
        owned.as_slice(),
    )
}

/// The same regions by their pits and local heights alone, as if they had no points: nothing is counted. The kept
/// pits are added to what was found.
pub fn heights_alone<S: Side, G: Heights>(
    alloc: Global,
    grid: &G,
    findings: &mut Findings<S>,
    percent: Percent,
    range: Option<HeightRange>,
) -> Result<List<Region>, Memory>
    requires findings { AreFindings (G.map grid.now) S.NAME findings.old }
    requires range { range ≡ range_of (present_heights (G.map grid.now)) }
    ensures are { IfOk result (AreHeightsAlone (G.map grid.now) S.NAME percent.thousandths) }
    ensures points { IfOk result (All (λ r. r.points ≤ 4194304)) }
    ensures heights { IfOk result (All (λ r. unsigned_abs r.lpvh ≤ farthest_apart)) }
    ensures few { IfOk result (λ list. length list ≤ 4194304) }
    ensures findings { AreFindings (G.map grid.now) S.NAME findings.new }
{
    findings.find_kept(alloc, grid, percent, range)?;
    let kept = findings.kept();
    list_heights(alloc, S::NAME, range, kept.pits.as_slice())
}

// The regions of the kept pits without any points.
fn list_heights(
    alloc: Global,
    side: SideName,
    range: Option<HeightRange>,
    kept: &[Kept],
) -> Result<List<Region>, Memory>
    requires heights { All HasHeights kept.now }
    requires range { ForSome range IsHeightRange }
    ensures { IfOk result (AreHeightsWith side range kept.now (length kept.now)) }
{
    let mut list = List::with_capacity(alloc, kept.len())?;
    'pits: for pit in kept {
        list.push(feature_with(side, range, *pit, NO_TALLY))?;
    }
    Ok(list)
}

// The regions of the kept pits with these tallies.
fn list_features(
    alloc: Global,
    side: SideName,
    range: Option<HeightRange>,
    kept: &[Kept],
    tallies: &[Tally],
) -> Result<List<Region>, Memory>
    requires tallies { length tallies.now ≡ length kept.now }
    requires heights { All HasHeights kept.now }
    requires range { ForSome range IsHeightRange }
    ensures { IfOk result (λ list. AreFeaturesWith side range kept.now tallies.now (length kept.now) list) }
{
    let mut list = List::with_capacity(alloc, kept.len())?;
    'pits: for (place, pit) in kept.iter().enumerate() {
        list.push(feature_with(side, range, *pit, tallies[place]))?;
    }
    Ok(list)
}

// The region of a kept pit with this tally.
fn feature_with(side: SideName, range: Option<HeightRange>, kept: Kept, tally: Tally) -> Region
    requires heights { HasHeights kept }
    requires range { ForSome range IsHeightRange }
    ensures { result ≡ feature_with side range kept tally }
{
    Region {
        pit: kept.pit,
        lpvh: lpvh(side, range, kept.pit, kept.nearest),
        points: u64::from(tally.points),
        edge_low: tally.edge.map(|edge| edge.least),
        edge_high: tally.edge.map(|edge| edge.greatest),
    }
}
