// The lines of a shown certificate, by a flood from all kept pits.
ghost use Rattle.std.specs.Prelude.{◌≡◌, ◌<◌, ◌≤◌, ◌++◌, ◌∷◌, [], All, AllPairs, IfOk, None, OnOk, Some, length, replicate, false, ℕ};
ghost use Rattle.std.specs.BinaryHeap.{heap_items};
ghost use Rattle.hd_map.specs.Map.{Present, cell_count};
ghost use Rattle.hd_map.specs.Pruning.{SzIs};
ghost use Rattle.hd_map.specs.Rank.{IsPoint, rank};
ghost use Rattle.hd_prune.specs.Kept.{AreNotUndercut, pits_kept};
ghost use Rattle.hd_prune.specs.Staying.{AreKeptAlone};
ghost use Rattle.hd_audit.specs.Flooding.{AreBegun, AreNotBelow, ArePassed, IsFront, IsFrontAt, IsLowestFirst, Spreads, next_cut, next_line, rank_of_waiting};
ghost use Rattle.hd_audit.specs.Lines.{IsPointAt, line_at};
ghost use Rattle.hd_audit.specs.Listing.{AreShownTo};
ghost use Rattle.hd_audit.specs.Shown.{AreShownLines};
ghost use Rattle.hd_audit.specs.Standings.{AreStanding, seen_of};

use crate::front::{Front, spread};
use crate::limit::{Limit, is_within};
use crate::order::{Placed, placed_at, points_in_order};
use crate::place_table::PlaceTable;
use crate::standing::{Standing, pass, standings};
use crate::waiting::Waiting;
use crate::{AuditLine, AuditLines};
use hd_list::Memory;
use hd_map::{Heights, Pos, Rank, Side, position_of, rank_of};
use hd_prune::Kept;
use std::alloc::Global;
use std::collections::BinaryHeap;

/// The lines of the shown certificate of a grid on a side: first the kept pits, then each time the lowest point
/// that is not yet listed and has a listed neighbour. The kept pits are those of the pruning at the percent of
/// the limit. It takes time in proportion to n log n of the points.
pub fn shown_lines<S: Side, G: Heights>(
    alloc: Global,
    grid: &G,
    limit: &Limit,
    kept: &[Kept],
) -> Result<AuditLines, Memory>
    requires side { limit.now.side ≡ S.NAME }
    requires sz { SzIs (G.map grid.now) limit.now.sz }
    requires kept { AreKeptAlone (G.map grid.now) S.NAME limit.now.percent.thousandths kept.now }
    ensures { IfOk result (λ lines. AreShownLines
        (G.map grid.now) S.NAME limit.now.percent.thousandths limit.now.sz
        (pits_kept kept.now) lines) }
{
    let size = grid.size();
    let count = (size.profiles * size.points) as usize;
    let mut front = Front::<S> {
        standing: standings(alloc, grid)?,
        ahead: PlaceTable::new(alloc, count)?,
        low: BinaryHeap::new(alloc),
    };
    let mut lines = AuditLines::with_capacity(alloc, count)?;
    list_kept::<S, G>(grid, kept, &mut front.standing, &mut lines)?;
    spread_kept(grid, &lines, &mut front)?;
    list_others(alloc, grid, limit, kept, &mut lines, &mut front)?;
    Ok(lines)
}

// Lists the kept pits.
fn list_kept<S: Side, G: Heights>(
    grid: &G,
    kept: &[Kept],
    standing: &mut Vec<Standing>,
    lines: &mut AuditLines,
) -> Result<(), Memory>
    requires points { All (λ k. IsPoint (G.map grid.now) k.pit) kept.now }
    requires in_order { AllPairs (λ a b. a.pit.index < b.pit.index) kept.now }
    requires standing { AreStanding (G.map grid.now) S.NAME None standing.old.items }
    requires blank { seen_of standing.old.items ≡ replicate (cell_count (G.map grid.now).size) false }
    requires empty { lines.old ≡ [] }
    ensures begun { OnOk result (AreBegun (G.map grid.now) kept.now (length kept.now)
        (seen_of standing.new.items) lines.new) }
    ensures standing { OnOk result (AreStanding (G.map grid.now) S.NAME None standing.new.items) }
{
    for k in kept {
        let index = k.pit.index;
        lines.push(AuditLine {
            index,
            parent: None,
            cut: Some(index),
        })?;
        standing[index as usize] = Standing::Seen;
    }
    Ok(())
}

// Lets all unlisted neighbours of the listed pits wait.
fn spread_kept<S: Side, G: Heights>(
    grid: &G,
    lines: &AuditLines,
    front: &mut Front<S>,
) -> Result<(), Memory>
    requires front { IsFront (G.map grid.now) S.NAME lines.now None
        (seen_of front.old.standing.items) front.old.ahead (heap_items front.old.low) 0 }
    requires few { length lines.now ≤ cell_count (G.map grid.now).size }
    requires points { (k : ℕ) → k < length lines.now
        → IsPointAt (G.map grid.now) (line_at lines.now k).index }
    requires standing { AreStanding (G.map grid.now) S.NAME None front.old.standing.items }
    requires heap { IsLowestFirst S.NAME (heap_items front.old.low) }
    ensures front { OnOk result (IsFront (G.map grid.now) S.NAME lines.now None
        (seen_of front.new.standing.items) front.new.ahead (heap_items front.new.low)
        (length lines.now)) }
    ensures standing { OnOk result (AreStanding (G.map grid.now) S.NAME None front.new.standing.items) }
    ensures heap { OnOk result (IsLowestFirst S.NAME (heap_items front.new.low)) }
{
    for place in 0..lines.len() {
        let at = position_of(grid.size(), lines.at(place).index);
        spread(grid, at, place as u32, &None, front)?;
    }
    Ok(())
}

// Lists the other points. The level goes through the points in their order; what waits at the level is the
// lowest of all that wait, and so is then each time the lowest in the heap, until it is empty.
fn list_others<S: Side, G: Heights>(
    alloc: Global,
    grid: &G,
    limit: &Limit,
    kept: &[Kept],
    lines: &mut AuditLines,
    front: &mut Front<S>,
) -> Result<(), Memory>
    requires side { limit.now.side ≡ S.NAME }
    requires firm { AreNotUndercut (G.map grid.now) S.NAME limit.now.percent.thousandths
        limit.now.sz kept.now }
    requires shown { AreShownTo (G.map grid.now) S.NAME limit.now.percent.thousandths limit.now.sz
        (pits_kept kept.now) lines.old (length lines.old) }
    requires front { IsFrontAt (G.map grid.now) S.NAME lines.old
        (seen_of front.old.standing.items) front.old.ahead (heap_items front.old.low) }
    requires standing { AreStanding (G.map grid.now) S.NAME None front.old.standing.items }
    requires heap { IsLowestFirst S.NAME (heap_items front.old.low) }
    ensures { OnOk result (AreShownLines (G.map grid.now) S.NAME limit.now.percent.thousandths
        limit.now.sz (pits_kept kept.now) lines.new) }
{
    let points = points_in_order::<S, G>(alloc, grid)?;
    let mut next = placed_at::<S, G>(grid, points.as_slice(), 0);
    for place in 0..points.len() {
        let Some(Placed { rank, at }) = next else {
            unreachable!();
        };
        // The next height is asked for before this point is listed, so that memory has time to answer.
        next = placed_at::<S, G>(grid, points.as_slice(), place + 1);
        list_from(grid, limit, kept, rank, at, lines, front)?;
        pass(&mut front.standing, rank.index);
    }
    Ok(())
}

// Lists a point, if it waits, and then the points below it that are reached from there. It is the lowest of
// those that wait.
fn list_from<S: Side, G: Heights>(
    grid: &G,
    limit: &Limit,
    kept: &[Kept],
    point: Rank,
    at: Pos,
    lines: &mut AuditLines,
    front: &mut Front<S>,
) -> Result<(), Memory>
    requires side { limit.now.side ≡ S.NAME }
    requires firm { AreNotUndercut (G.map grid.now) S.NAME limit.now.percent.thousandths
        limit.now.sz kept.now }
    requires shown { AreShownTo (G.map grid.now) S.NAME limit.now.percent.thousandths limit.now.sz
        (pits_kept kept.now) lines.old (length lines.old) }
    requires front { IsFrontAt (G.map grid.now) S.NAME lines.old
        (seen_of front.old.standing.items) front.old.ahead (heap_items front.old.low) }
    requires point { IsPoint (G.map grid.now) point }
    requires present { Present (G.map grid.now) at }
    requires at { point ≡ rank (G.map grid.now) at }
    requires lowest { AreNotBelow (G.map grid.now) S.NAME front.old.ahead point }
    requires standing { AreStanding (G.map grid.now) S.NAME (Some point) front.old.standing.items }
    requires heap { IsLowestFirst S.NAME (heap_items front.old.low) }
    ensures shown { OnOk result (AreShownTo (G.map grid.now) S.NAME limit.now.percent.thousandths
        limit.now.sz (pits_kept kept.now) lines.new (length lines.new)) }
    ensures front { OnOk result (IsFrontAt (G.map grid.now) S.NAME lines.new
        (seen_of front.new.standing.items) front.new.ahead (heap_items front.new.low)) }
    ensures passed { OnOk result (ArePassed (G.map grid.now) S.NAME front.new.ahead point) }
    ensures standing { OnOk result (AreStanding (G.map grid.now) S.NAME
        (Some point) front.new.standing.items) }
    ensures heap { OnOk result (IsLowestFirst S.NAME (heap_items front.new.low)) }
{
    let Some(from) = front.ahead.place_at(point.index) else {
        return Ok(());
    };
    front.ahead.clear(point.index);
    let next = Waiting::new(point, from);
    list_point(grid, limit, point, next, at, lines, front)?;
    list_low(grid, limit, kept, point, lines, front)?;
    Ok(())
}

// Lists the points in the heap, each time the lowest, until it is empty.
fn list_low<S: Side, G: Heights>(
    grid: &G,
    limit: &Limit,
    kept: &[Kept],
    level: Rank,
    lines: &mut AuditLines,
    front: &mut Front<S>,
) -> Result<(), Memory>
    requires side { limit.now.side ≡ S.NAME }
    requires firm { AreNotUndercut (G.map grid.now) S.NAME limit.now.percent.thousandths
        limit.now.sz kept.now }
    requires shown { AreShownTo (G.map grid.now) S.NAME limit.now.percent.thousandths limit.now.sz
        (pits_kept kept.now) lines.old (length lines.old) }
    requires front { IsFront (G.map grid.now) S.NAME lines.old (Some level)
        (seen_of front.old.standing.items) front.old.ahead (heap_items front.old.low)
        (length lines.old) }
    requires standing { AreStanding (G.map grid.now) S.NAME (Some level) front.old.standing.items }
    requires heap { IsLowestFirst S.NAME (heap_items front.old.low) }
    ensures shown { OnOk result (AreShownTo (G.map grid.now) S.NAME limit.now.percent.thousandths
        limit.now.sz (pits_kept kept.now) lines.new (length lines.new)) }
    ensures front { OnOk result (IsFront (G.map grid.now) S.NAME lines.new (Some level)
        (seen_of front.new.standing.items) front.new.ahead (heap_items front.new.low)
        (length lines.new)) }
    ensures empty { OnOk result (length (heap_items front.new.low) ≡ 0) }
    ensures standing { OnOk result (AreStanding (G.map grid.now) S.NAME
        (Some level) front.new.standing.items) }
    ensures heap { OnOk result (IsLowestFirst S.NAME (heap_items front.new.low)) }
{
    while let Some(next) = front.low.pop() {
        let at = position_of(grid.size(), next.index);
        list_point(grid, limit, level, next, at, lines, front)?;
    }
    Ok(())
}

// Lists a point that waited, and lets its unlisted neighbours wait.
fn list_point<S: Side, G: Heights>(
    grid: &G,
    limit: &Limit,
    level: Rank,
    next: Waiting<S>,
    at: Pos,
    lines: &mut AuditLines,
    front: &mut Front<S>,
) -> Result<(), Memory>
    requires side { limit.now.side ≡ S.NAME }
    requires from { next.from < length lines.old }
    requires few { length lines.old < cell_count (G.map grid.now).size }
    requires point { IsPoint (G.map grid.now) (rank_of_waiting next) }
    requires present { Present (G.map grid.now) at }
    requires at { rank_of_waiting next ≡ rank (G.map grid.now) at }
    requires cut { (c : ℕ) → (line_at lines.old next.from).cut ≡ Some c → IsPointAt (G.map grid.now) c }
    requires standing { AreStanding (G.map grid.now) S.NAME (Some level) front.old.standing.items }
    requires ahead { length front.old.ahead ≡ cell_count (G.map grid.now).size }
    requires heap { IsLowestFirst S.NAME (heap_items front.old.low) }
    ensures lines { OnOk result (lines.new ≡ lines.old
        ++ next_line (G.map grid.now) S.NAME limit.now.percent.thousandths limit.now.sz
        (line_at lines.old next.from) (rank_of_waiting next) ∷ []) }
    ensures spreads { OnOk result (Spreads (G.map grid.now) S.NAME lines.new (length lines.old)
        (Some level) (seen_of front.old.standing.items) front.old.ahead (heap_items front.old.low)
        (seen_of front.new.standing.items) front.new.ahead (heap_items front.new.low)) }
    ensures standing { OnOk result (AreStanding (G.map grid.now) S.NAME
        (Some level) front.new.standing.items) }
    ensures ahead { OnOk result (length front.new.ahead ≡ cell_count (G.map grid.now).size) }
    ensures heap { OnOk result (IsLowestFirst S.NAME (heap_items front.new.low)) }
{
    let place = lines.len();
    let line = line_of(grid, limit, lines.at(next.from as usize), next.rank());
    lines.push(line)?;
    spread(grid, at, place as u32, &Some(level), front)?;
    Ok(())
}

// The line of a point that is reached from that of a line.
fn line_of<G: Heights>(grid: &G, limit: &Limit, parent: AuditLine, point: Rank) -> AuditLine
    requires point { IsPoint (G.map grid.now) point }
    requires cut { (c : ℕ) → parent.cut ≡ Some c → IsPointAt (G.map grid.now) c }
    ensures { result ≡ next_line (G.map grid.now) limit.now.side limit.now.percent.thousandths
        limit.now.sz parent point }
{
    AuditLine {
        index: point.index,
        parent: Some(parent.index),
        cut: cut_of(grid, limit, parent.cut, point),
    }
}

// The cut of a point that is reached from one of this cut.
fn cut_of<G: Heights>(grid: &G, limit: &Limit, cut: Option<u32>, point: Rank) -> Option<u32>
    requires point { IsPoint (G.map grid.now) point }
    requires cut { (c : ℕ) → cut ≡ Some c → IsPointAt (G.map grid.now) c }
    ensures { result ≡ next_cut (G.map grid.now) limit.now.side limit.now.percent.thousandths
        limit.now.sz cut point }
{
    let index = cut?;
    let pit = rank_of(grid, position_of(grid.size(), index));
    if is_within(limit, pit, point) {
        Some(index)
    } else {
        None
    }
}
