// The number of the line of each point, and the rules 12 and 13: each present point has one line.
ghost use Rattle.std.specs.Prelude.{◌≡◌, ◌<◌, ◌≤◌, ◌↔◌, IsTrue, Some, None, length, replicate, slice_set};
ghost use Rattle.hd_map.specs.Map.{Present, cell_count, position_at};
ghost use Rattle.hd_audit.specs.Lines.{IsListed};
ghost use Rattle.hd_audit.specs.Places.{AreAllPlaces, place_at};
ghost use Rattle.hd_audit.specs.Rules.{AllListed, NewPoints};

use crate::AuditLines;
use crate::place_table::PlaceTable;
use hd_map::{Heights, Pos, Size, is_present, position_of};

/// The position of an index, which may be past the last point.
pub fn position_named(size: Size, index: u32) -> Pos
    requires { 1 ≤ size.points }
    ensures { result ≡ position_at size index }
{
    Pos {
        x: index % size.points,
        y: index / size.points,
    }
}

/// The position of the point of an index.
pub fn position_in<G: Heights>(surface: &G, index: u32) -> Pos
    requires { index < cell_count (G.map surface.now).size }
    ensures { result ≡ position_at (G.map surface.now).size index }
{
    position_of(surface.size(), index)
}

/// How many cells a grid has.
pub fn cells_of<G: Heights>(surface: &G) -> u32
    ensures { result ≡ cell_count (G.map surface.now).size }
{
    let size = surface.size();
    size.profiles * size.points
}

/// Rule 12: the point of the first line that is outside, not present, or on an earlier line. The numbers
/// of the lines are noted.
pub fn first_not_new<G: Heights>(
    surface: &G,
    lines: &AuditLines,
    places: &mut PlaceTable,
) -> Option<Pos>
    requires { places.old ≡ replicate (cell_count (G.map surface.now).size) None }
    ensures rule { NewPoints (G.map surface.now) lines.now result }
    ensures places { result ≡ None → AreAllPlaces (G.map surface.now) lines.now places.new }
{
    let size = surface.size();
    for k in 0..lines.len() {
        let index = lines.at(k).index;
        if !is_new(surface, places, index) {
            return Some(position_named(size, index));
        }
        places.put(index, k as u32);
    }
    None
}

// Whether a present point has this index, and no line is noted there.
fn is_new<G: Heights>(surface: &G, places: &PlaceTable, index: u32) -> bool
    requires { length places.now ≡ cell_count (G.map surface.now).size }
    ensures { IsTrue result ↔ ((index < cell_count (G.map surface.now).size)
        × Present (G.map surface.now) (position_at (G.map surface.now).size index)
        × (place_at places.now index ≡ None)) }
{
    index < cells_of(surface)
        && places.place_at(index).is_none()
        && is_present(surface, position_in(surface, index))
}

/// Rule 13: the first present point without a line.
pub fn first_unlisted<G: Heights>(
    surface: &G,
    lines: &AuditLines,
    places: &PlaceTable,
) -> Option<Pos>
    requires { AreAllPlaces (G.map surface.now) lines.now places.now }
    ensures { AllListed (G.map surface.now) lines.now result }
{
    for index in 0..cells_of(surface) {
        if !has_line_if_present(surface, lines, places, index) {
            return Some(position_in(surface, index));
        }
    }
    None
}

// Whether the point of an index has a line or is not present.
fn has_line_if_present<G: Heights>(
    surface: &G,
    _lines: &AuditLines,
    places: &PlaceTable,
    index: u32,
) -> bool
    requires places { AreAllPlaces (G.map surface.now) _lines.now places.now }
    requires inside { index < cell_count (G.map surface.now).size }
    ensures { IsTrue result ↔ (Present (G.map surface.now)
        (position_at (G.map surface.now).size index) → IsListed _lines.now index) }
{
    match places.place_at(index) {
        Some(_) => true,
        None => !is_present(surface, position_in(surface, index)),
    }
}
