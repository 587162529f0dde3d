// The rules 14 to 16: parents, pits without a parent, and the cuts that are named.
ghost use Rattle.std.specs.Prelude.{◌≡◌, ◌<◌, ◌↔◌, IsTrue, None, MatchOption, length};
ghost use Rattle.hd_map.specs.Map.{Present, cell_count, position_at};
ghost use Rattle.hd_audit.specs.Lines.{line_at};
ghost use Rattle.hd_audit.specs.Places.{AreAllPlaces};
ghost use Rattle.hd_audit.specs.Rules.{CutsOfKept, IsCutOf, IsEarlierNeighbour, IsKeptPit, NewPoints, ParentsEarlier, KeptArePits};

use crate::place_table::PlaceTable;
use crate::places::position_in;
use crate::{AuditLine, AuditLines};
use hd_check::{are_neighbours, is_lower, is_pit};
use hd_map::{Heights, Pos, SideName};
use std::alloc::Global;

/// Rule 14: the point of the first line whose parent is no neighbour on an earlier line.
pub fn first_stray<G: Heights>(surface: &G, lines: &AuditLines, places: &PlaceTable) -> Option<Pos>
    requires new { NewPoints (G.map surface.now) lines.now None }
    requires places { AreAllPlaces (G.map surface.now) lines.now places.now }
    ensures { ParentsEarlier (G.map surface.now) lines.now result }
{
    for k in 0..lines.len() {
        if !has_earlier_parent(surface, lines, places, k) {
            return Some(position_in(surface, lines.at(k).index));
        }
    }
    None
}

// Whether a line has no parent or one that is a neighbour on an earlier line.
fn has_earlier_parent<G: Heights>(
    surface: &G,
    lines: &AuditLines,
    places: &PlaceTable,
    k: usize,
) -> bool
    requires line { k < length lines.now }
    requires new { NewPoints (G.map surface.now) lines.now None }
    requires places { AreAllPlaces (G.map surface.now) lines.now places.now }
    ensures { IsTrue result ↔ MatchOption (line_at lines.now k).parent (Unit {0})
        (IsEarlierNeighbour (G.map surface.now) lines.now k) }
{
    let line = lines.at(k);
    let Some(parent) = line.parent else {
        return true;
    };
    let Some(place) = places.place_at(parent) else {
        return false;
    };
    if !stands_before(place, k) {
        return false;
    }
    let from = position_in(surface, line.index);
    let to = position_in(surface, parent);
    are_neighbours(surface, from, to)
}

// Whether a line of this number stands before another.
fn stands_before(place: u32, k: usize) -> bool
    ensures { IsTrue result ↔ (place < k) }
{
    (place as usize) < k
}

/// Rule 15: the point of the first line without a parent that is no pit in its own cut.
pub fn first_no_pit<G: Heights>(
    alloc: Global,
    surface: &G,
    side: SideName,
    lines: &AuditLines,
) -> Option<Pos>
    requires { NewPoints (G.map surface.now) lines.now None }
    ensures { KeptArePits (G.map surface.now) side lines.now result }
{
    for k in 0..lines.len() {
        let line = lines.at(k);
        if !is_right_without_parent(alloc, surface, side, line) {
            return Some(position_in(surface, line.index));
        }
    }
    None
}

// Whether a line has a parent, or its point is a pit in its own cut.
fn is_right_without_parent<G: Heights>(
    alloc: Global,
    surface: &G,
    side: SideName,
    line: AuditLine,
) -> bool
    requires inside { line.index < cell_count (G.map surface.now).size }
    requires present { Present (G.map surface.now) (position_at (G.map surface.now).size line.index) }
    ensures { IsTrue result ↔ (line.parent ≡ None → IsKeptPit (G.map surface.now) side line) }
{
    match line.parent {
        Some(_) => true,
        None => is_kept_pit(alloc, surface, side, line),
    }
}

// Whether the point of a line is a pit in its own cut.
fn is_kept_pit<G: Heights>(alloc: Global, surface: &G, side: SideName, line: AuditLine) -> bool
    requires inside { line.index < cell_count (G.map surface.now).size }
    requires present { Present (G.map surface.now) (position_at (G.map surface.now).size line.index) }
    ensures { IsTrue result ↔ IsKeptPit (G.map surface.now) side line }
{
    if line.cut != Some(line.index) {
        return false;
    }
    let at = position_in(surface, line.index);
    is_pit(alloc, surface, side, at)
}

/// Rule 16: the point of the first line whose cut is not that of a line without a parent, or whose point
/// is below the point of its cut.
pub fn first_wrong_cut<G: Heights>(
    surface: &G,
    side: SideName,
    lines: &AuditLines,
    places: &PlaceTable,
) -> Option<Pos>
    requires new { NewPoints (G.map surface.now) lines.now None }
    requires places { AreAllPlaces (G.map surface.now) lines.now places.now }
    ensures { CutsOfKept (G.map surface.now) side lines.now result }
{
    for k in 0..lines.len() {
        if !has_kept_cut(surface, side, lines, places, k) {
            return Some(position_in(surface, lines.at(k).index));
        }
    }
    None
}

// Whether a line has no cut or that of a line without a parent whose point its own is not below.
fn has_kept_cut<G: Heights>(
    surface: &G,
    side: SideName,
    lines: &AuditLines,
    places: &PlaceTable,
    k: usize,
) -> bool
    requires line { k < length lines.now }
    requires new { NewPoints (G.map surface.now) lines.now None }
    requires places { AreAllPlaces (G.map surface.now) lines.now places.now }
    ensures { IsTrue result ↔ MatchOption (line_at lines.now k).cut (Unit {0})
        (IsCutOf (G.map surface.now) side lines.now (line_at lines.now k)) }
{
    let line = lines.at(k);
    let Some(cut) = line.cut else {
        return true;
    };
    let Some(place) = places.place_at(cut) else {
        return false;
    };
    if lines.at(place as usize).parent.is_some() {
        return false;
    }
    let at = position_in(surface, line.index);
    let pit = position_in(surface, cut);
    !is_lower(surface, side, at, pit)
}
