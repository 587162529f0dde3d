// The passes between two basins of a tile, from the pairs of neighbours that lie in two of them.
ghost use Rattle.std.specs.Prelude.{◌≡◌, ◌<◌, ◌≤◌, ◌*◌, ◌+◌, ℕ, Some, IfOk, MatchOption, OnOk, length, map};
ghost use Rattle.std.specs.Bool.{OnTrue};
ghost use Rattle.hd_map.specs.declared.types.Pos.{Pos};
ghost use Rattle.hd_map.specs.declared.types.Rank.{Rank};
ghost use Rattle.hd_basin.specs.Built.{HasPasses};
ghost use Rattle.hd_basin.specs.Frames.{InFrame};
ghost use Rattle.hd_basin.specs.Inside.{AreMet, AreNamed, IsAlone, IsPairAt, IsStep, join_of, label_at, place_of_frame, step_down, step_right};
ghost use Rattle.hd_basin.specs.Parts.{JoinBelow, pass_named};
ghost use Rattle.hd_basin.specs.Round.{AreRanks};
ghost use Rattle.hd_basin.specs.Sinks.{IsArea};

use crate::Node;
use crate::frame::{Frame, Plot, is_in_frame, place_in};
use crate::meetings::{Meeting, Meetings};
use crate::part::Join;
use crate::round::rank_in;
use hd_list::{List, Memory};
use hd_map::{Heights, Pos, Rank, Side, are_beside, higher_of};
use std::alloc::Global;

/// The passes between two basins of a tile.
pub fn passes_inside<S: Side, G: Heights>(
    alloc: Global,
    grid: &G,
    plot: Plot,
    ranks: &[Rank],
    labels: &[u32],
    nodes: &[Node],
) -> Result<List<Join>, Memory>
    requires area { IsArea (G.map grid.now).size plot.tiling.side plot.tile plot.area }
    requires ranks { AreRanks (G.map grid.now) S.NAME plot.area
        ((plot.area.rows + 2) * (plot.area.columns + 2)) ranks.now }
    requires named { AreNamed (G.map grid.now) S.NAME plot.tiling.side plot.area nodes.now labels.now }
    ensures passes { IfOk result (λ joins. HasPasses
        (G.map grid.now) S.NAME plot.tiling.side plot.tile (map (pass_named nodes.now) joins)) }
    ensures named { IfOk result (λ joins. JoinBelow (length nodes.now) joins) }
{
    let mut meetings = Meetings::new(alloc, nodes.len())?;
    for row in 0..plot.area.rows {
        meet_row::<S, G>(grid, plot, ranks, labels, nodes, row, &mut meetings)?;
    }
    let joins = list_joins(alloc, meetings.list.as_slice())?;
    Ok(joins)
}

// Notes the meetings of the points of a row with those after them.
fn meet_row<S: Side, G: Heights>(
    grid: &G,
    plot: Plot,
    ranks: &[Rank],
    labels: &[u32],
    _nodes: &[Node],
    row: u32,
    meetings: &mut Meetings,
) -> Result<(), Memory>
    requires area { IsArea (G.map grid.now).size plot.tiling.side plot.tile plot.area }
    requires ranks { AreRanks (G.map grid.now) S.NAME plot.area
        ((plot.area.rows + 2) * (plot.area.columns + 2)) ranks.now }
    requires named { AreNamed (G.map grid.now) S.NAME plot.tiling.side plot.area _nodes.now labels.now }
    requires row { row < plot.area.rows }
    requires before { AreMet (G.map grid.now) S.NAME plot.area labels.now (length _nodes.now)
        (row * plot.area.columns) 0 meetings.old.lasts.items meetings.old.list.items }
    ensures { OnOk result (AreMet (G.map grid.now) S.NAME plot.area labels.now (length _nodes.now)
        ((row + 1) * plot.area.columns) 0 meetings.new.lasts.items meetings.new.list.items) }
{
    for column in 0..plot.area.columns {
        let at = Pos {
            x: plot.area.left + column,
            y: plot.area.top + row,
        };
        meet_point::<S, G>(grid, plot, ranks, labels, _nodes, at, meetings)?;
    }
    Ok(())
}

// Notes the meetings of a point with those after it.
#[inline]
fn meet_point<S: Side, G: Heights>(
    grid: &G,
    plot: Plot,
    ranks: &[Rank],
    labels: &[u32],
    _nodes: &[Node],
    at: Pos,
    meetings: &mut Meetings,
) -> Result<(), Memory>
    requires area { IsArea (G.map grid.now).size plot.tiling.side plot.tile plot.area }
    requires ranks { AreRanks (G.map grid.now) S.NAME plot.area
        ((plot.area.rows + 2) * (plot.area.columns + 2)) ranks.now }
    requires named { AreNamed (G.map grid.now) S.NAME plot.tiling.side plot.area _nodes.now labels.now }
    requires at { InFrame plot.area at }
    requires before { AreMet (G.map grid.now) S.NAME plot.area labels.now (length _nodes.now)
        (place_of_frame plot.area at) 0 meetings.old.lasts.items meetings.old.list.items }
    ensures { OnOk result (AreMet (G.map grid.now) S.NAME plot.area labels.now (length _nodes.now)
        (place_of_frame plot.area at + 1) 0 meetings.new.lasts.items meetings.new.list.items) }
{
    if is_alone(plot.area, labels, at) {
        return Ok(());
    }
    for step in 0..4u32 {
        meet_step::<S, G>(grid, plot, ranks, labels, _nodes, at, step, meetings)?;
    }
    Ok(())
}

// Whether the four positions a step after one are in the tile and have its label, so that no two basins meet there.
// Most points of large basins are so.
#[inline]
fn is_alone(area: Frame, labels: &[u32], at: Pos) -> bool
    requires few { area.columns * area.rows ≤ 65536 }
    requires whole { length labels.now ≡ area.columns * area.rows }
    requires at { InFrame area at }
    ensures { OnTrue result (IsAlone area labels.now at) }
{
    let column = at.x - area.left;
    let row = at.y - area.top;
    if column == 0 || column + 1 >= area.columns || row + 1 >= area.rows {
        return false;
    }
    let place = (row * area.columns + column) as usize;
    let below = place + area.columns as usize;
    let own = labels[place];
    labels[place + 1] == own
        && labels[below - 1] == own
        && labels[below] == own
        && labels[below + 1] == own
}

// Notes the meeting of a point with the one a step after it, if they have one.
#[inline]
fn meet_step<S: Side, G: Heights>(
    grid: &G,
    plot: Plot,
    ranks: &[Rank],
    labels: &[u32],
    _nodes: &[Node],
    at: Pos,
    step: u32,
    meetings: &mut Meetings,
) -> Result<(), Memory>
    requires area { IsArea (G.map grid.now).size plot.tiling.side plot.tile plot.area }
    requires ranks { AreRanks (G.map grid.now) S.NAME plot.area
        ((plot.area.rows + 2) * (plot.area.columns + 2)) ranks.now }
    requires named { AreNamed (G.map grid.now) S.NAME plot.tiling.side plot.area _nodes.now labels.now }
    requires at { InFrame plot.area at }
    requires step { step < 4 }
    requires before { AreMet (G.map grid.now) S.NAME plot.area labels.now (length _nodes.now)
        (place_of_frame plot.area at) step meetings.old.lasts.items meetings.old.list.items }
    ensures { OnOk result (AreMet (G.map grid.now) S.NAME plot.area labels.now (length _nodes.now)
        (place_of_frame plot.area at) (step + 1) meetings.new.lasts.items meetings.new.list.items) }
{
    let Some(near) = stepped(plot.area, at, step) else {
        return Ok(());
    };
    let count = meetings.lasts.len();
    let Some((a, b, higher)) = pair_at::<S, G>(grid, plot, ranks, labels, _nodes, count, at, near)
    else {
        return Ok(());
    };
    meetings.note::<S>(a, b, higher)?;
    Ok(())
}

// The position a step after another one, if the rectangle has it: the one on the right, or one of the
// three below.
#[inline]
fn stepped(area: Frame, at: Pos, step: u32) -> Option<Pos>
    requires right { area.left + area.columns < 65536 }
    requires bottom { area.top + area.rows < 65536 }
    requires at { InFrame area at }
    requires step { step < 4 }
    ensures { MatchOption result ((q : Pos) → InFrame area q → IsStep at q step → ⊥)
        (λ q. InFrame area q × IsStep at q step) }
{
    let right = at.x + step_right(step);
    if right == 0 {
        return None;
    }
    let near = Pos {
        x: right - 1,
        y: at.y + step_down(step),
    };
    if is_in_frame(area, near) {
        Some(near)
    } else {
        None
    }
}

// How many columns a step leads to the right, and one more.
#[inline]
fn step_right(step: u32) -> u32
    requires { step < 4 }
    ensures value { result ≡ step_right step }
    ensures few { result ≤ 2 }
{
    if step == 0 { 2 } else { step - 1 }
}

// How many profiles a step leads down.
#[inline]
fn step_down(step: u32) -> u32
    ensures value { result ≡ step_down step }
    ensures few { result ≤ 1 }
{
    if step == 0 { 0 } else { 1 }
}

// The meeting of two positions side by side, if they have one: the numbers of two nodes, the lesser
// first, and the higher of the points.
#[inline]
fn pair_at<S: Side, G: Heights>(
    grid: &G,
    plot: Plot,
    ranks: &[Rank],
    labels: &[u32],
    _nodes: &[Node],
    count: usize,
    at: Pos,
    near: Pos,
) -> Option<(u32, u32, Rank)>
    requires area { IsArea (G.map grid.now).size plot.tiling.side plot.tile plot.area }
    requires ranks { AreRanks (G.map grid.now) S.NAME plot.area
        ((plot.area.rows + 2) * (plot.area.columns + 2)) ranks.now }
    requires named { AreNamed (G.map grid.now) S.NAME plot.tiling.side plot.area _nodes.now labels.now }
    requires count { count ≡ length _nodes.now }
    requires at { InFrame plot.area at }
    requires near { InFrame plot.area near }
    requires step { (step : _) × (step < 4) × IsStep at near step }
    ensures { MatchOption result ((a b : ℕ) (w : Rank)
        → IsPairAt (G.map grid.now) S.NAME plot.area labels.now count at near a b w → ⊥)
        (λ x. IsPairAt (G.map grid.now) S.NAME plot.area labels.now count at near x.0 x.1 x.2) }
{
    let a = label_in(plot.area, labels, at);
    let b = label_in(plot.area, labels, near);
    if a == b {
        return None;
    }
    if a as usize >= count {
        return None;
    }
    if b as usize >= count {
        return None;
    }
    if !are_beside(grid.adjacency(), at, near) {
        return None;
    }
    let here = rank_in::<S, G>(grid, plot.area, ranks, at);
    let there = rank_in::<S, G>(grid, plot.area, ranks, near);
    let higher = higher_of::<S>(here, there);
    if a < b {
        Some((a, b, higher))
    } else {
        Some((b, a, higher))
    }
}

// The label at a position of the tile.
#[inline]
fn label_in(area: Frame, labels: &[u32], at: Pos) -> u32
    requires few { area.columns * area.rows ≤ 65536 }
    requires whole { length labels.now ≡ area.columns * area.rows }
    requires at { InFrame area at }
    ensures { result ≡ label_at area labels.now at }
{
    labels[place_in(area, at) as usize]
}

// The meetings as they are kept of a tile.
fn list_joins(alloc: Global, meetings: &[Meeting]) -> Result<List<Join>, Memory>
    ensures { IfOk result (λ joins. joins ≡ map join_of meetings.now) }
{
    let mut joins = List::with_capacity(alloc, meetings.len())?;
    'meetings: for meeting in meetings {
        joins.push(join_of(*meeting))?;
    }
    Ok(joins)
}

// A meeting as it is kept of a tile.
fn join_of(meeting: Meeting) -> Join
    ensures { result ≡ join_of meeting }
{
    Join {
        a: meeting.a,
        b: meeting.b,
        at: meeting.at,
    }
}
