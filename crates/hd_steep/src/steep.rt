// The next of a point, its root, and the roots of all points.
ghost use Rattle.std.specs.Prelude.{IfOk, MatchOption};
ghost use Rattle.hd_map.specs.Map.{Present};
ghost use Rattle.hd_map.specs.Rank.{rank};
ghost use Rattle.hd_map.specs.Region.{IsPit, IsNext, IsRoot, AreRegions};

use crate::lowest::lowest_round;
use crate::numbering::{find_regions, list_roots};
use hd_list::{List, Memory};
use hd_map::{Heights, Pos, Side, index_of, position_of};
use std::alloc::Global;

/// The lowest of the neighbours that are below a present point, which is one step down the
/// steepest way from it. A pit has none.
///
/// Points are compared by height, and at one height by index. Pits and dales are those of
/// ISO 25178-2; that one single way leads down from each point of a grid is this project's own
/// rule. It takes no memory.
pub fn next<S: Side, G: Heights>(_alloc: Global, grid: &G, at: Pos) -> Option<Pos>
    requires { Present (G.map grid.now) at }
    ensures { MatchOption result (IsPit (G.map grid.now) S.NAME (rank (G.map grid.now) at))
        (λ q. Present (G.map grid.now) q × IsNext (G.map grid.now) S.NAME (rank (G.map grid.now) at) (rank (G.map grid.now) q)) }
{
    let size = grid.size();
    let lowest = lowest_round::<S, G>(grid, at);
    if lowest.index == index_of(size, at) {
        None
    } else {
        Some(position_of(size, lowest.index))
    }
}

/// The pit in which the steepest way down from a present point ends: the point lies in its dale.
/// It takes no memory.
pub fn root<S: Side, G: Heights>(alloc: Global, grid: &G, at: Pos) -> Pos
    requires { Present (G.map grid.now) at }
    ensures present { Present (G.map grid.now) result }
    ensures root { IsRoot (G.map grid.now) S.NAME (rank (G.map grid.now) at) (rank (G.map grid.now) result) }
{
    let mut here = at;
    'walk: while let Some(lower) = next::<S, G>(alloc, grid, here) {
        here = lower;
    }
    here
}

/// By index the index of the pit in whose region the point lies, and none for points that are not
/// present.
///
/// Measured, it takes 12 bytes a point, 20 a pit, at first for one of eight points, and 16 a column,
/// or 28 a column where a height is more than 2 ^ 29 steps from zero, and time in proportion to the
/// points, however long the ways are. Dales and hills are those of ISO 25178-2; that each point has
/// one steepest way is this project's own rule.
pub fn regions<S: Side, G: Heights>(alloc: Global, grid: &G) -> Result<List<Option<u32>>, Memory>
    ensures { IfOk result (AreRegions (G.map grid.now) S.NAME) }
{
    let regions = find_regions::<S, G>(alloc, grid)?;
    list_roots(alloc, &regions)
}
