// A flood by breadth: a queue of the points that are reached and whose neighbours may not be.
ghost use Rattle.std.specs.Prelude.{◌≡◌, ◌≤◌, OnOk, length};
ghost use Rattle.hd_map.specs.Map.{InGrid, cell_count};
ghost use Rattle.hd_reach.specs.Flood.{FloodsRound, Reaches, ReachesAt};
ghost use Rattle.hd_reach.specs.Marks.{AreBlank, AreMarked, marking};
ghost use Rattle.hd_reach.specs.Within.{LiesWithin};

use crate::FloodMark;
use crate::bound::{Bound, lies_within};
use hd_list::Memory;
use hd_map::{Heights, Pos, Side, beside_at, index_of, position_of};
use std::collections::VecDeque;

/// Marks the points within a bound that are reached from the start by way of such points: the start by its own
/// mark, and each other point by the one after that of a point from which it is reached in the fewest steps. It
/// ends at the goal, if there is one: points that are further may be left as they were. What waits is queued in
/// four bytes each, and it takes time in proportion to the points that are reached.
pub fn flood<S: Side, M: FloodMark, G: Heights>(
    grid: &G,
    bound: Bound,
    start: Pos,
    goal: Option<Pos>,
    first: M,
    marks: &mut Vec<M>,
    queue: &mut VecDeque<u32>,
) -> Result<(), Memory>
    requires whole { length marks.old.items ≡ cell_count (G.map grid.now).size }
    requires start { LiesWithin (G.map grid.now) S.NAME bound.level bound.strict start }
    requires blank { AreBlank (G.map grid.now)
        (LiesWithin (G.map grid.now) S.NAME bound.level bound.strict) start M.blank
        marks.old.items }
    requires first { first ≡ M.blank → ⊥ }
    ensures { OnOk result (AreMarked (G.map grid.now)
        (LiesWithin (G.map grid.now) S.NAME bound.level bound.strict) start goal
        (marking M.blank M.after first marks.old.items) marks.new.items) }
{
    let size = grid.size();
    let place = index_of(size, start);
    queue.clear();
    queue.push_back(place)?;
    marks[place as usize] = first;
    for _passed in 0..size.profiles * size.points {
        let Some(index) = queue.pop_front() else {
            return Ok(());
        };
        let here = position_of(size, index);
        if goal == Some(here) {
            return Ok(());
        }
        reach_round::<S, M, G>(grid, bound, here, marks, queue)?;
    }
    Ok(())
}

// Reaches the neighbours of a point.
fn reach_round<S: Side, M: FloodMark, G: Heights>(
    grid: &G,
    bound: Bound,
    here: Pos,
    marks: &mut Vec<M>,
    queue: &mut VecDeque<u32>,
) -> Result<(), Memory>
    requires here { InGrid (G.map grid.now).size here }
    requires whole { length marks.old.items ≡ cell_count (G.map grid.now).size }
    ensures { OnOk result (FloodsRound (G.map grid.now)
        (LiesWithin (G.map grid.now) S.NAME bound.level bound.strict) M.blank M.after here
        marks.old.items queue.old.items marks.new.items queue.new.items) }
{
    let mark = marks[index_of(grid.size(), here) as usize].after();
    reach_at::<S, M, G>(grid, bound, here, 0, 0, mark, marks, queue)?;
    reach_at::<S, M, G>(grid, bound, here, 1, 0, mark, marks, queue)?;
    reach_at::<S, M, G>(grid, bound, here, 2, 0, mark, marks, queue)?;
    reach_at::<S, M, G>(grid, bound, here, 0, 1, mark, marks, queue)?;
    reach_at::<S, M, G>(grid, bound, here, 2, 1, mark, marks, queue)?;
    reach_at::<S, M, G>(grid, bound, here, 0, 2, mark, marks, queue)?;
    reach_at::<S, M, G>(grid, bound, here, 1, 2, mark, marks, queue)?;
    reach_at::<S, M, G>(grid, bound, here, 2, 2, mark, marks, queue)?;
    Ok(())
}

// Reaches the position at a step from a point, if it lies in the grid and is beside the point.
#[inline(always)]
fn reach_at<S: Side, M: FloodMark, G: Heights>(
    grid: &G,
    bound: Bound,
    here: Pos,
    x: u32,
    y: u32,
    mark: M,
    marks: &mut Vec<M>,
    queue: &mut VecDeque<u32>,
) -> Result<(), Memory>
    requires here { InGrid (G.map grid.now).size here }
    requires x { x ≤ 2 }
    requires y { y ≤ 2 }
    requires whole { length marks.old.items ≡ cell_count (G.map grid.now).size }
    ensures reaches { OnOk result (ReachesAt (G.map grid.now)
        (LiesWithin (G.map grid.now) S.NAME bound.level bound.strict) M.blank here x y mark
        marks.old.items queue.old.items marks.new.items queue.new.items) }
    ensures whole { OnOk result (length marks.new.items ≡ cell_count (G.map grid.now).size) }
{
    match beside_at(grid, here, x, y) {
        Some(at) => reach::<S, M, G>(grid, bound, at, mark, marks, queue),
        None => Ok(()),
    }
}

// Reaches a position, if it lies within the bound and is not yet reached.
#[inline(always)]
fn reach<S: Side, M: FloodMark, G: Heights>(
    grid: &G,
    bound: Bound,
    at: Pos,
    mark: M,
    marks: &mut Vec<M>,
    queue: &mut VecDeque<u32>,
) -> Result<(), Memory>
    requires at { InGrid (G.map grid.now).size at }
    requires whole { length marks.old.items ≡ cell_count (G.map grid.now).size }
    ensures reaches { OnOk result (Reaches (G.map grid.now).size
        (LiesWithin (G.map grid.now) S.NAME bound.level bound.strict) M.blank at mark
        marks.old.items queue.old.items marks.new.items queue.new.items) }
    ensures whole { OnOk result (length marks.new.items ≡ cell_count (G.map grid.now).size) }
{
    let index = index_of(grid.size(), at);
    if !marks[index as usize].is_blank() || !lies_within::<S, G>(grid, bound, at) {
        return Ok(());
    }
    queue.push_back(index)?;
    marks[index as usize] = mark;
    Ok(())
}
