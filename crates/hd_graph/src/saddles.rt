// Saddles of pits from their merges.
ghost use Rattle.std.specs.Prelude.{◌≡◌, ◌≢◌, ◌<◌, ◌^◌, IfOk, All, AllPairs, length, if◌then◌else◌};
ghost use Rattle.hd_map.specs.Map.{IsMap, Map};
ghost use Rattle.hd_map.specs.Rank.{below_by};
ghost use Rattle.hd_map.specs.Saddle.{SaddleIs};
ghost use Rattle.hd_graph.specs.Links.{rank_at};
ghost use Rattle.hd_graph.specs.Merges.{AreMergeNumbers};
ghost use Rattle.hd_graph.specs.Tells.{AreMergesOf};

use crate::graph::Low;
use crate::merges::Merge;
use hd_list::Memory;
use hd_map::{Rank, Side, higher_of};
use std::alloc::Global;

/// The saddle of two different pits of a map, by the pits and their merges, and none where no path joins the two.
/// The pits are named by their places in the list.
pub fn saddle_of_merges<S: Side>(
    alloc: Global,
    lows: &[Low],
    merges: &[Merge],
    from: u32,
    to: u32,
) -> Result<Option<Rank>, Memory>
    requires from { from < length lows.now }
    requires to { to < length lows.now }
    requires apart { from ≢ to }
    requires different { AllPairs (λ x y. x.rank.index ≢ y.rank.index) lows.now }
    requires merges { (m : Map) × IsMap m × AreMergesOf m S.NAME lows.now merges.now }
    ensures { IfOk result (λ saddle. (m : Map) → IsMap m → AreMergesOf m S.NAME lows.now merges.now
        → SaddleIs m S.NAME (rank_at lows.now from) (rank_at lows.now to) saddle) }
{
    let numbers = numbers_of_merges(alloc, lows.len(), merges)?;
    let mut end = from;
    let mut other = to;
    // A pit is below the passes at which it merges.
    let mut highest = lows[from as usize].rank;
    while end != other {
        let (high, deep) = higher_first::<S>(lows, end, other);
        let Some(merge) = merges.get(numbers[high as usize] as usize) else {
            return Ok(None);
        };
        highest = higher_of::<S>(highest, merge.at);
        end = merge.into;
        other = deep;
    }
    Ok(Some(highest))
}

// By low, the number of its merge, and how many merges there are where it has none.
fn numbers_of_merges(alloc: Global, count: usize, merges: &[Merge]) -> Result<Vec<u32>, Memory>
    requires within { All (λ x. x.low < count) merges.now }
    requires once { AllPairs (λ x y. x.low ≢ y.low) merges.now }
    requires few { length merges.now < 2 ^ 32 }
    ensures long { IfOk result (λ numbers. length numbers.items ≡ count) }
    ensures numbers { IfOk result (λ numbers. AreMergeNumbers merges.now numbers.items) }
{
    let mut numbers = vec![in alloc; merges.len() as u32; count]?;
    for (number, merge) in merges.iter().enumerate() {
        numbers[merge.low as usize] = number as u32;
    }
    Ok(numbers)
}

// Two lows, the higher one first.
fn higher_first<S: Side>(lows: &[Low], a: u32, b: u32) -> (u32, u32)
    requires first { a < length lows.now }
    requires second { b < length lows.now }
    ensures { result ≡ if below_by S.NAME (rank_at lows.now a) (rank_at lows.now b) then (b, a) else (a, b) }
{
    if S::below(lows[a as usize].rank, lows[b as usize].rank) {
        (b, a)
    } else {
        (a, b)
    }
}
