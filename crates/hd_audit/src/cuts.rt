// Rule 17: the cuts are closed.
ghost use Rattle.std.specs.Prelude.{◌≡◌, ◌<◌, ◌↔◌, ℕ, IsTrue, None, length};
ghost use Rattle.hd_map.specs.Map.{Present, cell_count, position_at};
ghost use Rattle.hd_check.specs.Rules.{point_of};
ghost use Rattle.hd_audit.specs.Leaks.{FirstLeakRound, FirstLeaking, LeaksTo};
ghost use Rattle.hd_audit.specs.Lines.{HasCut, rank_at};
ghost use Rattle.hd_audit.specs.Places.{AreAllPlaces};
ghost use Rattle.hd_audit.specs.Rules.{CutsClosed, CutsOfKept, FirstLeak, NewPoints};

use crate::AuditLines;
use crate::limit::{Limit, is_within};
use crate::place_table::PlaceTable;
use crate::places::position_in;
use hd_map::{Heights, Pos, Rank, index_of, neighbours, rank_of};
use std::alloc::Global;

/// Rule 17: for the first line with a cut and a neighbour that is within it and has not this cut, its first
/// such neighbour.
pub fn first_leak<G: Heights>(
    alloc: Global,
    surface: &G,
    limit: &Limit,
    lines: &AuditLines,
    places: &PlaceTable,
) -> Option<Pos>
    requires new { NewPoints (G.map surface.now) lines.now None }
    requires places { AreAllPlaces (G.map surface.now) lines.now places.now }
    requires cuts { CutsOfKept (G.map surface.now) limit.now.side lines.now None }
    ensures { CutsClosed (G.map surface.now) limit.now.side limit.now.percent.thousandths
        limit.now.sz lines.now result }
{
    for k in 0..lines.len() {
        if let Some(q) = leak_of(alloc, surface, limit, lines, places, k) {
            return Some(q);
        }
    }
    None
}

// The first neighbour of the point of a line that is within its cut and has not this cut.
fn leak_of<G: Heights>(
    alloc: Global,
    surface: &G,
    limit: &Limit,
    lines: &AuditLines,
    places: &PlaceTable,
    k: usize,
) -> Option<Pos>
    requires line { k < length lines.now }
    requires new { NewPoints (G.map surface.now) lines.now None }
    requires places { AreAllPlaces (G.map surface.now) lines.now places.now }
    requires cuts { CutsOfKept (G.map surface.now) limit.now.side lines.now None }
    ensures { FirstLeak (G.map surface.now) limit.now.side limit.now.percent.thousandths
        limit.now.sz lines.now k result }
{
    let line = lines.at(k);
    match line.cut {
        Some(cut) => leak_round(alloc, surface, limit, lines, places, cut, line.index),
        None => None,
    }
}

// The first neighbour of the point of an index that is within the pit of a cut and has not this cut.
fn leak_round<G: Heights>(
    alloc: Global,
    surface: &G,
    limit: &Limit,
    lines: &AuditLines,
    places: &PlaceTable,
    cut: u32,
    index: u32,
) -> Option<Pos>
    requires places { AreAllPlaces (G.map surface.now) lines.now places.now }
    requires inside { cut < cell_count (G.map surface.now).size }
    requires kept { Present (G.map surface.now) (position_at (G.map surface.now).size cut) }
    requires index { index < cell_count (G.map surface.now).size }
    ensures { FirstLeakRound (G.map surface.now) limit.now.side limit.now.percent.thousandths
        limit.now.sz lines.now cut (position_at (G.map surface.now).size index) result }
{
    let pit = rank_of(surface, position_in(surface, cut));
    let at = position_in(surface, index);
    let near = neighbours(alloc, surface, at);
    first_leaking(surface, limit, lines, places, cut, pit, near.as_slice())
}

// The first of some points that is within the pit of a cut and has not this cut.
fn first_leaking<G: Heights>(
    surface: &G,
    limit: &Limit,
    lines: &AuditLines,
    places: &PlaceTable,
    cut: u32,
    pit: Rank,
    round: &[Pos],
) -> Option<Pos>
    requires places { AreAllPlaces (G.map surface.now) lines.now places.now }
    requires pit { pit ≡ rank_at (G.map surface.now) cut }
    requires kept { Present (G.map surface.now) (position_at (G.map surface.now).size cut) }
    requires present { (j : ℕ) → j < length round.now → Present (G.map surface.now) (point_of round.now j) }
    ensures { FirstLeaking (G.map surface.now) limit.now.side limit.now.percent.thousandths
        limit.now.sz lines.now cut round.now result }
{
    for j in 0..round.len() {
        if leaks_to(surface, limit, lines, places, cut, pit, round[j]) {
            return Some(round[j]);
        }
    }
    None
}

// Whether a point is within the pit of a cut and has not this cut.
fn leaks_to<G: Heights>(
    surface: &G,
    limit: &Limit,
    lines: &AuditLines,
    places: &PlaceTable,
    cut: u32,
    pit: Rank,
    at: Pos,
) -> bool
    requires places { AreAllPlaces (G.map surface.now) lines.now places.now }
    requires pit { pit ≡ rank_at (G.map surface.now) cut }
    requires kept { Present (G.map surface.now) (position_at (G.map surface.now).size cut) }
    requires at { Present (G.map surface.now) at }
    ensures { IsTrue result ↔ LeaksTo (G.map surface.now) limit.now.side
        limit.now.percent.thousandths limit.now.sz lines.now cut at }
{
    if !is_within(limit, pit, rank_of(surface, at)) {
        return false;
    }
    let index = index_of(surface.size(), at);
    !has_cut(surface, lines, places, index, cut)
}

// Whether the point of an index has this cut.
fn has_cut<G: Heights>(
    _surface: &G,
    lines: &AuditLines,
    places: &PlaceTable,
    index: u32,
    cut: u32,
) -> bool
    requires { AreAllPlaces (G.map _surface.now) lines.now places.now }
    ensures { IsTrue result ↔ HasCut lines.now index cut }
{
    match places.place_at(index) {
        Some(place) => lines.at(place as usize).cut == Some(cut),
        None => false,
    }
}
