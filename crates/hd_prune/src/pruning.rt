// Wolf pruning.
ghost use Rattle.std.specs.Prelude.{◌≡◌, IfOk};
ghost use Rattle.hd_map.specs.Pruning.{ArePits, SzIs};
ghost use Rattle.hd_map.specs.Rank.{below_by};
ghost use Rattle.hd_map.specs.Saddle.{SaddleIs};
ghost use Rattle.hd_graph.specs.Merges.{AreMerges};
ghost use Rattle.hd_graph.specs.Tells.{TellsSaddles};
ghost use Rattle.hd_prune.specs.Answer.{IsPruned};
ghost use Rattle.hd_prune.specs.Kept.{AreNotUndercut};
ghost use Rattle.hd_prune.specs.Staying.{ranks_of};

use crate::around::Around;
use crate::keeping::keep;
use crate::leaving::{Limit, steps};
use crate::order::owners;
use crate::step::{Kept, Owned, Step};
use crate::taking::take_over;
use hd_graph::{FloodLine, Low, Merge, MergedPits, merges_of_pits};
use hd_list::{List, Memory};
use hd_map::Side;
use hd_num::Percent;
use std::alloc::Global;

/// What pruning gives.
#[derive(Debug, Drop)]
pub struct Pruned {
    /// The steps, in order.
    pub steps: List<Step>,
    /// The kept pits with their nearest saddles, in position order.
    pub kept: List<Kept>,
    /// All pits with their owners, in position order.
    pub owners: List<Owned>,
}

/// Prunes the pits of a map at a percent of Sz: as long as the smallest local height of a pit is below it,
/// that pit leaves, and the pit across its nearest saddle takes over what it owned (Wolf pruning of ISO
/// 25178-2). The line tells the pits of the map and their saddles; `sz` is the greatest height of a present
/// point less the least, in steps.
pub fn prune<S: Side, A: Around>(
    alloc: Global,
    line: &FloodLine<S>,
    around: &A,
    percent: Percent,
    sz: i64,
) -> Result<Pruned, Memory>
    requires side { A.side around.now ≡ S.NAME }
    requires told { TellsSaddles (A.map around.now) S.NAME line.now }
    requires sz { SzIs (A.map around.now) sz }
    ensures pruned { IfOk result (λ pruned. IsPruned
        (A.map around.now) S.NAME percent.thousandths pruned.steps pruned.kept pruned.owners) }
    ensures undercut { IfOk result (λ pruned. AreNotUndercut
        (A.map around.now) S.NAME percent.thousandths sz pruned.kept) }
{
    let MergedPits { pits, merges } = merges_of_pits::<S>(alloc, line)?;
    prune_by_merges::<S, A>(
        alloc,
        pits.as_slice(),
        merges.as_slice(),
        around,
        percent,
        sz,
    )
}

/// The same pruning as `prune` gives, without a line: from the merges of all pits of the map, which stand in
/// position order. `sz` is the greatest height of a present point less the least, in steps.
pub fn prune_by_merges<S: Side, A: Around>(
    alloc: Global,
    lows: &[Low],
    merges: &[Merge],
    around: &A,
    percent: Percent,
    sz: i64,
) -> Result<Pruned, Memory>
    requires side { A.side around.now ≡ S.NAME }
    requires pits { ArePits (A.map around.now) S.NAME (ranks_of lows.now) }
    requires merges { AreMerges (below_by S.NAME) (SaddleIs (A.map around.now) S.NAME) lows.now merges.now }
    requires sz { SzIs (A.map around.now) sz }
    ensures pruned { IfOk result (λ pruned. IsPruned
        (A.map around.now) S.NAME percent.thousandths pruned.steps pruned.kept pruned.owners) }
    ensures undercut { IfOk result (λ pruned. AreNotUndercut
        (A.map around.now) S.NAME percent.thousandths sz pruned.kept) }
{
    let leavers = steps::<S>(alloc, lows, merges, &Limit { percent, sz })?;
    let mut taken = take_over::<S, A>(alloc, around, &leavers)?;
    let kept = keep::<S>(alloc, lows, merges, percent, sz)?;
    let owners = owners::<S, A>(alloc, around, &mut taken.links, lows)?;
    Ok(Pruned {
        steps: taken.steps,
        kept,
        owners,
    })
}
