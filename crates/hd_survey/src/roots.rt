// The pits in whose regions the points of a grid lie.
ghost use Rattle.hd_map.specs.Map.{Present};
ghost use Rattle.hd_map.specs.Rank.{rank};
ghost use Rattle.hd_map.specs.Region.{IsRoot};
ghost use Rattle.hd_steep.specs.Numbering.{AreNumbered};

use hd_map::{Heights, Pos, Side, index_of, position_of};
use hd_steep::Regions;

/// The pit in whose region a present point lies, where the regions are known.
pub fn root_at<S: Side, G: Heights>(grid: &G, regions: &Regions, at: Pos) -> Pos
    requires regions { AreNumbered (G.map grid.now) S.NAME regions.now }
    requires present { Present (G.map grid.now) at }
    ensures present { Present (G.map grid.now) result }
    ensures root { IsRoot (G.map grid.now) S.NAME (rank (G.map grid.now) at) (rank (G.map grid.now) result) }
{
    let size = grid.size();
    match regions.pit(index_of(size, at) as usize) {
        Some(pit) => position_of(size, pit.index),
        None => unreachable!(),
    }
}
