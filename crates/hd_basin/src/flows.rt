// Where a sink flows.
ghost use Rattle.std.specs.Prelude.{◌≤◌, ◌+◌, ◌*◌, MatchOption};
ghost use Rattle.hd_map.specs.Map.{Present};
ghost use Rattle.hd_map.specs.Rank.{rank};
ghost use Rattle.hd_map.specs.Region.{IsPit};
ghost use Rattle.hd_basin.specs.Basin.{FlowsTo};
ghost use Rattle.hd_basin.specs.Frames.{InFrame};
ghost use Rattle.hd_basin.specs.Round.{AreRanks};

use crate::frame::Frame;
use crate::round::lowest_round;
use hd_map::{Heights, Pos, Rank, Side, index_of, position_of};

/// The next of a present point, and none exactly where it is a pit.
pub fn flows_of<S: Side, G: Heights>(grid: &G, area: Frame, ranks: &[Rank], at: Pos) -> Option<Pos>
    requires present { Present (G.map grid.now) at }
    requires ranks { AreRanks (G.map grid.now) S.NAME area ((area.rows + 2) * (area.columns + 2)) ranks.now }
    requires columns { area.columns ≤ 256 }
    requires rows { area.rows ≤ 256 }
    requires at { InFrame area at }
    ensures { MatchOption result (IsPit (G.map grid.now) S.NAME (rank (G.map grid.now) at))
        (FlowsTo (G.map grid.now) S.NAME (rank (G.map grid.now) at)) }
{
    let size = grid.size();
    let width = area.columns as usize + 2;
    let row = (at.y - area.top) as usize;
    let column = (at.x - area.left) as usize;
    let first = row * width + column;
    let lowest = lowest_round::<S>(grid.adjacency(), ranks, width, first);
    if lowest.index == index_of(size, at) {
        None
    } else {
        Some(position_of(size, lowest.index))
    }
}
