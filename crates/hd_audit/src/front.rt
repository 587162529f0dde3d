// The points that wait to be listed, and how the unlisted neighbours of a listed point come to wait.
ghost use Rattle.std.specs.Prelude.{◌≡◌, ◌<◌, ◌≤◌, ◌+◌, OnOk, length};
ghost use Rattle.std.specs.BinaryHeap.{heap_items};
ghost use Rattle.hd_map.specs.Map.{InGrid, Present, cell_count, place_of};
ghost use Rattle.hd_audit.specs.Flooding.{IsLowestFirst, OffersAt, OffersIfPresent, SpreadsRound};
ghost use Rattle.hd_audit.specs.Standings.{AreStanding, seen_of, standing_at};
ghost use Rattle.hd_audit.specs.declared.standing.Standing.TheVariants.{Under};

use crate::place_table::PlaceTable;
use crate::standing::Standing;
use crate::waiting::Waiting;
use hd_list::Memory;
use hd_map::{Heights, Pos, Rank, Side, beside_at, index_of, rank_of};
use std::collections::BinaryHeap;

/// The points that are listed or wait. Those that wait and are not below a level, which rises, are noted by
/// index; the few below it, which the flood reaches from above, are in a heap, and of these alone the heights
/// are asked for.
#[derive(Drop)]
pub struct Front<S: Side> {
    /// By index, how the point stands.
    pub standing: Vec<Standing>,
    /// By index, of a point that waits and is not below the level, the place of the line of its neighbour
    /// that was listed first.
    pub ahead: PlaceTable,
    /// The points that wait below the level, the lowest first.
    pub low: BinaryHeap<Waiting<S>>,
}

/// Lets the neighbours of a present point wait, as far as they are not seen, behind the line at a place.
pub fn spread<S: Side, G: Heights>(
    grid: &G,
    at: Pos,
    from: u32,
    level: &Option<Rank>,
    front: &mut Front<S>,
) -> Result<(), Memory>
    requires present { Present (G.map grid.now) at }
    requires standing { AreStanding (G.map grid.now) S.NAME level.now front.old.standing.items }
    requires ahead { length front.old.ahead ≡ cell_count (G.map grid.now).size }
    requires few { from < 4294967295 }
    requires heap { IsLowestFirst S.NAME (heap_items front.old.low) }
    ensures spreads { OnOk result (SpreadsRound (G.map grid.now) S.NAME at from level.now
        (seen_of front.old.standing.items) front.old.ahead (heap_items front.old.low)
        (seen_of front.new.standing.items) front.new.ahead (heap_items front.new.low)) }
    ensures standing { OnOk result (AreStanding (G.map grid.now) S.NAME level.now front.new.standing.items) }
    ensures ahead { OnOk result (length front.new.ahead ≡ cell_count (G.map grid.now).size) }
    ensures heap { OnOk result (IsLowestFirst S.NAME (heap_items front.new.low)) }
{
    offer_at(grid, at, 0, 0, from, level, front)?;
    offer_at(grid, at, 1, 0, from, level, front)?;
    offer_at(grid, at, 2, 0, from, level, front)?;
    offer_at(grid, at, 0, 1, from, level, front)?;
    offer_at(grid, at, 2, 1, from, level, front)?;
    offer_at(grid, at, 0, 2, from, level, front)?;
    offer_at(grid, at, 1, 2, from, level, front)?;
    offer_at(grid, at, 2, 2, from, level, front)?;
    Ok(())
}

// Lets the position at a step from a present point wait behind the line at a place, if it is a neighbour and
// not yet seen.
#[inline(always)]
fn offer_at<S: Side, G: Heights>(
    grid: &G,
    at: Pos,
    x: u32,
    y: u32,
    from: u32,
    level: &Option<Rank>,
    front: &mut Front<S>,
) -> Result<(), Memory>
    requires x { x ≤ 2 }
    requires y { y ≤ 2 }
    requires apart { x ≡ 1 → y ≡ 1 → ⊥ }
    requires present { Present (G.map grid.now) at }
    requires standing { AreStanding (G.map grid.now) S.NAME level.now front.old.standing.items }
    requires ahead { length front.old.ahead ≡ cell_count (G.map grid.now).size }
    requires few { from < 4294967295 }
    requires heap { IsLowestFirst S.NAME (heap_items front.old.low) }
    ensures offers { OnOk result (OffersAt (G.map grid.now) S.NAME at x y from level.now
        (seen_of front.old.standing.items) front.old.ahead (heap_items front.old.low)
        (seen_of front.new.standing.items) front.new.ahead (heap_items front.new.low)) }
    ensures standing { OnOk result (AreStanding (G.map grid.now) S.NAME level.now front.new.standing.items) }
    ensures ahead { OnOk result (length front.new.ahead ≡ cell_count (G.map grid.now).size) }
    ensures heap { OnOk result (IsLowestFirst S.NAME (heap_items front.new.low)) }
{
    match beside_at(grid, at, x, y) {
        Some(q) => offer(grid, q, from, level, front),
        None => Ok(()),
    }
}

// Lets a position wait behind the line at a place, if it is present and not yet seen.
#[inline(always)]
fn offer<S: Side, G: Heights>(
    grid: &G,
    at: Pos,
    from: u32,
    level: &Option<Rank>,
    front: &mut Front<S>,
) -> Result<(), Memory>
    requires in_grid { InGrid (G.map grid.now).size at }
    requires standing { AreStanding (G.map grid.now) S.NAME level.now front.old.standing.items }
    requires ahead { length front.old.ahead ≡ cell_count (G.map grid.now).size }
    requires few { from < 4294967295 }
    requires heap { IsLowestFirst S.NAME (heap_items front.old.low) }
    ensures offers { OnOk result (OffersIfPresent (G.map grid.now) S.NAME at from level.now
        (seen_of front.old.standing.items) front.old.ahead (heap_items front.old.low)
        (seen_of front.new.standing.items) front.new.ahead (heap_items front.new.low)) }
    ensures standing { OnOk result (AreStanding (G.map grid.now) S.NAME level.now front.new.standing.items) }
    ensures ahead { OnOk result (length front.new.ahead ≡ cell_count (G.map grid.now).size) }
    ensures heap { OnOk result (IsLowestFirst S.NAME (heap_items front.new.low)) }
{
    let index = index_of(grid.size(), at);
    match front.standing[index as usize] {
        Standing::Absent | Standing::Seen => Ok(()),
        Standing::Over => {
            front.standing[index as usize] = Standing::Seen;
            front.ahead.put(index, from);
            Ok(())
        }
        Standing::Under => offer_low(grid, at, from, level, front),
    }
}

// Lets a position wait in the heap behind the line at a place, where a point stands below the level.
fn offer_low<S: Side, G: Heights>(
    grid: &G,
    at: Pos,
    from: u32,
    level: &Option<Rank>,
    front: &mut Front<S>,
) -> Result<(), Memory>
    requires in_grid { InGrid (G.map grid.now).size at }
    requires standing { AreStanding (G.map grid.now) S.NAME level.now front.old.standing.items }
    requires ahead { length front.old.ahead ≡ cell_count (G.map grid.now).size }
    requires under { standing_at front.old.standing.items (place_of (G.map grid.now).size at) ≡ Under }
    requires heap { IsLowestFirst S.NAME (heap_items front.old.low) }
    ensures offers { OnOk result (OffersIfPresent (G.map grid.now) S.NAME at from level.now
        (seen_of front.old.standing.items) front.old.ahead (heap_items front.old.low)
        (seen_of front.new.standing.items) front.new.ahead (heap_items front.new.low)) }
    ensures standing { OnOk result (AreStanding (G.map grid.now) S.NAME level.now front.new.standing.items) }
    ensures ahead { OnOk result (length front.new.ahead ≡ cell_count (G.map grid.now).size) }
    ensures heap { OnOk result (IsLowestFirst S.NAME (heap_items front.new.low)) }
{
    let point = rank_of(grid, at);
    front.standing[point.index as usize] = Standing::Seen;
    front.low.push(Waiting::new(point, from))?;
    Ok(())
}
