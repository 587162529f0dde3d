// Rule 11: the cut is closed.
ghost use Rattle.std.specs.Prelude.{◌≡◌, ◌<◌, ◌≤◌, ◌+◌, ◌↔◌, ℕ, IsTrue, true, length, None, MatchOption};
ghost use Rattle.std.specs.List.{Contains};
ghost use Rattle.hd_map.specs.Map.{IsSize, InGrid, Present, place_of};
ghost use Rattle.hd_map.specs.Neighbour.{AreBesideUnder};
ghost use Rattle.hd_map.specs.Rank.{below_by};
ghost use Rattle.hd_check.specs.Profiles.{ArePlaces, FirstLeakIn, IsBehind, IsFirstFrom, IsPlaceOf, rank_of_level};
ghost use Rattle.hd_check.specs.Rules.{AsksPairs, FirstLeak, IsBelowLevel, IsCutClosed, point_of};

use crate::order::is_below;
use hd_map::{Heights, Pos, Rank, SideName, Size, are_beside, index_of, is_present, rank_of};

// A place of the cut for each of the three profiles round a point. The cut rises, so the places only
// go forward from one of its points to the next.
#[derive(Clone, Copy)]
struct Places {
    above: usize,
    beside: usize,
    below: usize,
}

/// Rule 11: for the first point of the cut with a neighbour that is below the saddle and not in the
/// cut, its first such neighbour. It takes time in proportion to the points of the cut.
pub fn first_leak<G: Heights>(
    surface: &G,
    side: SideName,
    level: Option<Pos>,
    cut: &[Pos],
) -> Option<Pos>
    requires present { (k : ℕ) → k < length cut.now → Present (G.map surface.now) (point_of cut.now k) }
    requires level { MatchOption level (Unit {0}) (Present (G.map surface.now)) }
    requires rises { AsksPairs cut.now (λ p q. place_of (G.map surface.now).size p
        < place_of (G.map surface.now).size q) None }
    ensures { IsCutClosed (G.map surface.now) side level cut.now result }
{
    let top = rank_at(surface, level);
    let mut places = Places {
        above: 0,
        beside: 0,
        below: 0,
    };
    for k in 0..cut.len() {
        if let Some(q) = leak_of(surface, side, level, top, cut, cut[k], &mut places) {
            return Some(q);
        }
    }
    None
}

// The rank of the saddle, if there is one.
fn rank_at<G: Heights>(surface: &G, level: Option<Pos>) -> Option<Rank>
    requires { MatchOption level (Unit {0}) (Present (G.map surface.now)) }
    ensures { result ≡ rank_of_level (G.map surface.now) level }
{
    match level {
        Some(at) => Some(rank_of(surface, at)),
        None => None,
    }
}

// The first neighbour of a point of the cut that is below the saddle and not in the cut. The rank of the
// saddle is known.
fn leak_of<G: Heights>(
    surface: &G,
    side: SideName,
    level: Option<Pos>,
    top: Option<Rank>,
    cut: &[Pos],
    at: Pos,
    places: &mut Places,
) -> Option<Pos>
    requires present { (k : ℕ) → k < length cut.now → Present (G.map surface.now) (point_of cut.now k) }
    requires top { top ≡ rank_of_level (G.map surface.now) level }
    requires rises { AsksPairs cut.now (λ p q. place_of (G.map surface.now).size p
        < place_of (G.map surface.now).size q) None }
    requires at { Contains cut.now at }
    requires here { Present (G.map surface.now) at }
    requires places { ArePlaces (G.map surface.now).size cut.now
        (place_of (G.map surface.now).size at) places.old }
    ensures first { FirstLeak (G.map surface.now) side level cut.now at result }
    ensures places { ArePlaces (G.map surface.now).size cut.now
        (place_of (G.map surface.now).size at + 1) places.new }
{
    let above = leak_in(surface, side, level, top, cut, at, 0, &mut places.above);
    if above.is_some() {
        return above;
    }
    let beside = leak_in(surface, side, level, top, cut, at, 1, &mut places.beside);
    if beside.is_some() {
        return beside;
    }
    leak_in(surface, side, level, top, cut, at, 2, &mut places.below)
}

// The first such neighbour of a point of the cut in a profile: so many after the one before its own.
fn leak_in<G: Heights>(
    surface: &G,
    side: SideName,
    level: Option<Pos>,
    top: Option<Rank>,
    cut: &[Pos],
    at: Pos,
    step: u32,
    place: &mut usize,
) -> Option<Pos>
    requires present { (k : ℕ) → k < length cut.now → Present (G.map surface.now) (point_of cut.now k) }
    requires top { top ≡ rank_of_level (G.map surface.now) level }
    requires rises { AsksPairs cut.now (λ p q. place_of (G.map surface.now).size p
        < place_of (G.map surface.now).size q) None }
    requires at { Contains cut.now at }
    requires here { Present (G.map surface.now) at }
    requires step { step ≤ 2 }
    requires place { IsPlaceOf (G.map surface.now).size cut.now
        (place_of (G.map surface.now).size at) step place.old }
    ensures first { FirstLeakIn (G.map surface.now) side level cut.now at step result }
    ensures place { IsPlaceOf (G.map surface.now).size cut.now
        (place_of (G.map surface.now).size at + 1) step place.new }
{
    let size = surface.size();
    if at.y + step == 0 || at.y + step > size.profiles {
        return None;
    }
    let row = at.y + step - 1;
    let left = at.x.saturating_sub(1);
    *place = first_from(size, cut, *place, index_of(size, Pos { x: left, y: row }));
    let mut next = *place;
    for x in left..size.points.min(at.x + 2) {
        let q = Pos { x, y: row };
        if stands_at(cut, next, q) {
            next += 1;
        } else if is_open(surface, side, level, top, at, q) {
            return Some(q);
        }
    }
    None
}

// The first place of the cut from another on at which its point is not before an index.
fn first_from(size: Size, cut: &[Pos], start: usize, index: u32) -> usize
    requires limits { IsSize size }
    requires inside { (k : ℕ) → k < length cut.now → InGrid size (point_of cut.now k) }
    requires start { IsBehind size cut.now index start }
    ensures { IsFirstFrom size cut.now index result }
{
    for place in start..cut.len() {
        if index_of(size, cut[place]) >= index {
            return place;
        }
    }
    cut.len()
}

// Whether a position stands at a place of the cut.
fn stands_at(cut: &[Pos], place: usize, at: Pos) -> bool
    ensures { IsTrue result ↔ ((place < length cut.now) × (point_of cut.now place ≡ at)) }
{
    place < cut.len() && cut[place] == at
}

// Whether a position near another one is beside it under the setting, present, and below the saddle,
// if there is one. The rank of the saddle is known.
#[inline]
fn is_open<G: Heights>(
    surface: &G,
    side: SideName,
    _level: Option<Pos>,
    top: Option<Rank>,
    from: Pos,
    at: Pos,
) -> bool
    requires at { InGrid (G.map surface.now).size at }
    requires top { top ≡ rank_of_level (G.map surface.now) _level }
    ensures { IsTrue result ↔ (AreBesideUnder (G.map surface.now).adjacency from at
        × Present (G.map surface.now) at × IsBelowLevel (G.map surface.now) side _level at) }
{
    are_beside(surface.adjacency(), from, at)
        && is_present(surface, at)
        && is_under(side, top, rank_of(surface, at))
}

// Whether a rank is below another, if there is one.
#[inline]
fn is_under(side: SideName, top: Option<Rank>, rank: Rank) -> bool
    ensures { IsTrue result ↔ MatchOption top (Unit {0}) (λ s. below_by side rank s ≡ true) }
{
    match top {
        Some(top) => is_below(side, rank, top),
        None => true,
    }
}
