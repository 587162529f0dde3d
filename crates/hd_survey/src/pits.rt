// The pits of a map as the lows of a graph.
ghost use Rattle.std.specs.Prelude.{◌≡◌, map, IfOk};
ghost use Rattle.hd_survey.specs.PitLinks.{low_of};

use hd_graph::Low;
use hd_list::{List, Memory};
use hd_map::Rank;
use std::alloc::Global;

/// The pits as the lows of a graph.
pub fn lows_of(alloc: Global, pits: &[Rank]) -> Result<List<Low>, Memory>
    ensures { IfOk result (λ lows. lows ≡ map low_of pits.now) }
{
    let mut lows = List::with_capacity(alloc, pits.len())?;
    'pits: for pit in pits {
        lows.push(Low {
            rank: *pit,
            pit: true,
        })?;
    }
    Ok(lows)
}
