// The way from a point to the pit of its region.
ghost use Rattle.std.specs.Prelude.{IfSome};
ghost use Rattle.hd_map.specs.Map.{Present};
ghost use Rattle.hd_map.specs.Rank.{rank};
ghost use Rattle.hd_map.specs.Region.{IsRoot};
ghost use Rattle.hd_survey.specs.Way.{IsRootOf};

use crate::pruned::cells_of;
use hd_map::{Heights, Pos, Side};
use hd_steep::next;
use std::alloc::Global;

/// The pit in which the steepest way down from a present point ends, and none where this way and those walked
/// before together have as many steps as the grid has points. The steps are counted.
pub fn end_of_way<S: Side, G: Heights>(
    alloc: Global,
    grid: &G,
    at: Pos,
    walked: &mut u64,
) -> Option<Pos>
    requires { Present (G.map grid.now) at }
    ensures { IfSome result (IsRootOf (G.map grid.now) S.NAME at) }
{
    let most = cells_of(grid) as u64;
    let mut here = at;
    'walk: while *walked < most {
        let Some(lower) = next::<S, G>(alloc, grid, here) else {
            return Some(here);
        };
        *walked += 1;
        here = lower;
    }
    None
}
