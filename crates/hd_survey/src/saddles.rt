// The saddle of two pits, and the pits that are reached below it.
ghost use Rattle.std.specs.Prelude.{◌≡◌, ◌≢◌, ◌<◌, ◌^◌, true, length, IfOk, OnOk, List as Items};
ghost use Rattle.std.specs.Option.{is_some};
ghost use Rattle.hd_graph.specs.Graph.{IsLow};
ghost use Rattle.hd_map.specs.Pruning.{ArePits};
ghost use Rattle.hd_map.specs.Region.{IsPit};
ghost use Rattle.hd_map.specs.Saddle.{SaddleIs};
ghost use Rattle.hd_map.specs.Shown.{IsBelowSaddle};
ghost use Rattle.hd_steep.specs.Reached.{AreReachedPits};
ghost use Rattle.hd_survey.specs.Findings.{AreFindings};
ghost use Rattle.hd_survey.specs.PitPlaces.{IsPlaceOf};

use crate::findings::Findings;
use crate::merges::PitMerges;
use hd_graph::{Low, joined_lows, saddle_of_merges};
use hd_list::Memory;
use hd_map::{Heights, Rank, Side};
use std::alloc::Global;

/// The saddle of two different pits of a grid on a side, and none where no path joins them, by what was found
/// of the side, to which the merges of the pits are added.
pub fn saddle_between<S: Side, G: Heights>(
    alloc: Global,
    grid: &G,
    findings: &mut Findings<S>,
    from: Rank,
    to: Rank,
) -> Result<Option<Rank>, Memory>
    requires findings { AreFindings (G.map grid.now) S.NAME findings.old }
    requires from { IsPit (G.map grid.now) S.NAME from }
    requires to { IsPit (G.map grid.now) S.NAME to }
    requires apart { from ≢ to }
    ensures saddle { IfOk result (SaddleIs (G.map grid.now) S.NAME from to) }
    ensures findings { AreFindings (G.map grid.now) S.NAME findings.new }
    ensures merges { OnOk result (is_some findings.new.merges ≡ true) }
{
    findings.find_merges(alloc, grid)?;
    let PitMerges { lows, merges, .. } = findings.merges();
    let first = place_of(lows.as_slice(), from);
    let second = place_of(lows.as_slice(), to);
    saddle_of_merges::<S>(alloc, lows.as_slice(), merges.as_slice(), first, second)
}

/// By pit of a grid on a side, in position order, whether it is reached from this one below a saddle, by the merges
/// of the pits, which were found. It takes 5 bytes a pit.
pub fn reached_pits<S: Side, G: Heights>(
    alloc: Global,
    _grid: &G,
    findings: &Findings<S>,
    from: Rank,
    saddle: Option<Rank>,
) -> Result<Vec<bool>, Memory>
    requires findings { AreFindings (G.map _grid.now) S.NAME findings.now }
    requires found { is_some findings.now.merges ≡ true }
    requires from { IsPit (G.map _grid.now) S.NAME from }
    requires low { IsBelowSaddle S.NAME saddle from }
    ensures { IfOk result (λ reached. (pits : Items Rank) → ArePits (G.map _grid.now) S.NAME pits
        → AreReachedPits (G.map _grid.now) S.NAME saddle from pits reached.items) }
{
    let PitMerges { lows, merges, .. } = findings.merges();
    let place = place_of(lows.as_slice(), from);
    joined_lows::<S>(alloc, lows.as_slice(), merges.as_slice(), place, saddle)
}

// The place of a pit in their list.
fn place_of(lows: &[Low], pit: Rank) -> u32
    requires few { length lows.now < 2 ^ 32 }
    requires there { IsLow lows.now pit }
    ensures { IsPlaceOf lows.now pit result }
{
    let mut place = 0u32;
    'lows: for low in lows {
        if low.rank == pit {
            return place;
        }
        place += 1;
    }
    unreachable!()
}
