// The pruning of a map.
ghost use Rattle.std.specs.Prelude.{◌≡◌, IfOk, OnOk, true};
ghost use Rattle.std.specs.Option.{is_some};
ghost use Rattle.hd_map.specs.Map.{IsMap, Map, cell_count};
ghost use Rattle.hd_map.specs.Presence.{present_heights};
ghost use Rattle.hd_map.specs.HeightRange.{range_of};
ghost use Rattle.hd_prune.specs.Answer.{IsPruned};
ghost use Rattle.hd_survey.specs.Findings.{AreFindings, ArePitMerges, TellsPruning};
ghost use Rattle.hd_survey.specs.Regions.{AreSizesByRoots};

use crate::falls::Falls;
use crate::findings::Findings;
use crate::grid_view::GridView;
use crate::merges::PitMerges;
use crate::owned::owned_sizes;
use crate::view::SideView;
use hd_list::{List, Memory};
use hd_map::{HeightRange, Heights, RegionSize, Side, presence_by_rows};
use hd_num::Percent;
use hd_prune::{Pruned, Step, height_span, prune_by_merges};
use std::alloc::Global;

/// What a pruning does, and the regions that it leaves.
#[derive(Debug, Drop)]
pub struct PrunedRegions {
    /// The percent of the pruning.
    pub percent: Percent,
    /// The steps, in order.
    pub steps: List<Step>,
    /// The regions of the kept pits in position order, with all points that these own.
    pub kept: List<RegionSize>,
}

/// The pruning of a grid on a side at a percent, by what was found of the side, to which the merges of the pits and
/// the regions are added. The region of each point, which it needs, is given up with it.
pub fn pruned_side<S: Side, G: Heights>(
    alloc: Global,
    grid: &G,
    findings: &mut Findings<S>,
    percent: Percent,
) -> Result<Pruned, Memory>
    requires { AreFindings (G.map grid.now) S.NAME findings.old }
    ensures pruned { IfOk result (λ pruned. IsPruned
        (G.map grid.now) S.NAME percent.thousandths pruned.steps pruned.kept pruned.owners) }
    ensures sizes { OnOk result (is_some findings.new.sizes ≡ true) }
    ensures findings { AreFindings (G.map grid.now) S.NAME findings.new }
{
    let view = GridView::<S, G>::new(alloc, grid)?;
    let range = presence_by_rows(alloc, grid)?.range;
    pruned_side_by::<S, G, GridView<'_, S, G>>(alloc, grid, &view, findings, percent, range)
}

/// The same by a view of the side. The range is that of the heights of the grid.
pub fn pruned_side_by<S: Side, G: Heights, V: SideView<S>>(
    alloc: Global,
    grid: &G,
    view: &V,
    findings: &mut Findings<S>,
    percent: Percent,
    range: Option<HeightRange>,
) -> Result<Pruned, Memory>
    requires view { V.map view.now ≡ G.map grid.now }
    requires findings { AreFindings (G.map grid.now) S.NAME findings.old }
    requires range { range ≡ range_of (present_heights (G.map grid.now)) }
    ensures pruned { IfOk result (λ pruned. IsPruned
        (G.map grid.now) S.NAME percent.thousandths pruned.steps pruned.kept pruned.owners) }
    ensures sizes { OnOk result (is_some findings.new.sizes ≡ true) }
    ensures findings { AreFindings (G.map grid.now) S.NAME findings.new }
{
    findings.find_merges_by(view)?;
    findings.find_sizes_by(view)?;
    let merges = findings.merges();
    pruned_pits::<S, G, V>(alloc, grid, view, merges, percent, range)
}

/// A pruning of a grid on a side at a percent with the regions that it leaves of these, which are those of the grid.
pub fn regions_left<S: Side, G: Heights>(
    alloc: Global,
    grid: &G,
    pruned: Pruned,
    sizes: &[RegionSize],
    percent: Percent,
) -> Result<PrunedRegions, Memory>
    requires pruned { IsPruned (G.map grid.now) S.NAME percent.thousandths pruned.steps pruned.kept
        pruned.owners }
    requires sizes { AreSizesByRoots (G.map grid.now) S.NAME sizes.now }
    ensures percent { IfOk result (λ left. left.percent ≡ percent) }
    ensures left { IfOk result (TellsPruning (G.map grid.now) S.NAME percent.thousandths) }
{
    let kept = owned_sizes(alloc, cells_of(grid), &pruned, sizes)?;
    Ok(PrunedRegions {
        percent,
        steps: pruned.steps,
        kept,
    })
}

/// The pruning of the pits of a grid by a view of one of its sides and the merges of its pits. The range is that of
/// the heights of the grid.
pub fn pruned_pits<S: Side, G: Heights, V: SideView<S>>(
    alloc: Global,
    grid: &G,
    view: &V,
    merges: &PitMerges,
    percent: Percent,
    range: Option<HeightRange>,
) -> Result<Pruned, Memory>
    requires view { V.map view.now ≡ G.map grid.now }
    requires merges { ArePitMerges (G.map grid.now) S.NAME merges.now }
    requires range { range ≡ range_of (present_heights (G.map grid.now)) }
    ensures { IfOk result (λ pruned. IsPruned
        (G.map grid.now) S.NAME percent.thousandths pruned.steps pruned.kept pruned.owners) }
{
    let falls = Falls::<'_, S, G, V>::new(alloc, grid, view);
    prune_by_merges::<S, Falls<'_, S, G, V>>(
        alloc,
        merges.lows.as_slice(),
        merges.merges.as_slice(),
        &falls,
        percent,
        height_span(range),
    )
}

/// How many cells a grid has.
pub fn cells_of<G: Heights>(grid: &G) -> usize
    ensures { result ≡ cell_count (G.map grid.now).size }
{
    let size = grid.size();
    (size.profiles * size.points) as usize
}
