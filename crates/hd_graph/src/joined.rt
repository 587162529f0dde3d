// Lows that are joined below a level.
ghost use Rattle.std.specs.Prelude.{◌≡◌, ◌≢◌, ◌<◌, ◌^◌, ◌↔◌, IfOk, IsTrue, All, AllPairs, length};
ghost use Rattle.hd_map.specs.Map.{IsMap, Map};
ghost use Rattle.hd_map.specs.Shown.{IsBelowSaddle};
ghost use Rattle.hd_graph.specs.Classes.{AreFalling};
ghost use Rattle.hd_graph.specs.Tells.{AreClassesBelow, AreJoinedLows, AreMergesOf};

use crate::classes::Classes;
use crate::graph::Low;
use crate::merges::Merge;
use hd_list::Memory;
use hd_map::{Rank, Side};
use std::alloc::Global;

/// By pit of a map, whether it is this one or has a saddle with it that is below a level, or any saddle where there
/// is no level: by the pits and their merges. This pit is named by its place in the list. It takes 5 bytes a pit.
pub fn joined_lows<S: Side>(
    alloc: Global,
    lows: &[Low],
    merges: &[Merge],
    from: u32,
    level: Option<Rank>,
) -> Result<Vec<bool>, Memory>
    requires from { from < length lows.now }
    requires different { AllPairs (λ x y. x.rank.index ≢ y.rank.index) lows.now }
    requires merges { (m : Map) × IsMap m × AreMergesOf m S.NAME lows.now merges.now }
    ensures { IfOk result (λ joined. (m : Map) → IsMap m → AreMergesOf m S.NAME lows.now merges.now
        → AreJoinedLows m S.NAME lows.now from level joined.items) }
{
    let mut classes = classes_below::<S>(alloc, lows, merges, level)?;
    let mut joined = Vec::with_capacity(alloc, lows.len())?;
    let own = classes.least_of(from);
    for low in 0..lows.len() {
        let least = classes.least_of(low as u32);
        joined.push(least == own)?;
    }
    Ok(joined)
}

// The classes of the lows that are joined below a level. The merges rise, so it ends at the first that is not below it.
fn classes_below<S: Side>(
    alloc: Global,
    lows: &[Low],
    merges: &[Merge],
    level: Option<Rank>,
) -> Result<Classes, Memory>
    requires few { length lows.now < 2 ^ 32 }
    requires different { AllPairs (λ x y. x.rank.index ≢ y.rank.index) lows.now }
    requires within { All (λ x. (x.low < length lows.now) × (x.into < length lows.now)) merges.now }
    ensures falling { IfOk result (λ classes. AreFalling classes.parents.items) }
    ensures long { IfOk result (λ classes. length classes.parents.items ≡ length lows.now) }
    ensures below { IfOk result (λ classes. (m : Map) → IsMap m → AreMergesOf m S.NAME lows.now merges.now
        → AreClassesBelow m S.NAME lows.now level classes.parents.items) }
{
    let mut classes = Classes::new(alloc, lows.len())?;
    for place in 0..merges.len() {
        let merge = &merges[place];
        if !is_below::<S>(merge.at, level) {
            return Ok(classes);
        }
        classes.join(merge.low, merge.into);
    }
    Ok(classes)
}

// Whether a rank is below a level; any is where there is none.
fn is_below<S: Side>(rank: Rank, level: Option<Rank>) -> bool
    ensures { IsTrue result ↔ IsBelowSaddle S.NAME level rank }
{
    match level {
        Some(level) => S::below(rank, level),
        None => true,
    }
}
