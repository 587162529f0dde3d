// The rules 8 to 10: the cut.
ghost use Rattle.std.specs.Prelude.{◌≡◌, ◌<◌, ◌↔◌, ℕ, IsTrue, length, None, MatchOption};
ghost use Rattle.std.specs.List.{Contains};
ghost use Rattle.hd_map.specs.Map.{IsSize, InGrid, Present, place_of};
ghost use Rattle.hd_check.specs.Judged.{Asks, Then};
ghost use Rattle.hd_check.specs.Rules.{AsksPoints, AsksPairs, IsBelowLevel, point_of};

use crate::order::is_lower;
use hd_map::{Heights, Pos, SideName, Size, index_of};

/// Rule 8: the second of the first two positions that don't rise.
pub fn first_not_rising(size: Size, cut: &[Pos]) -> Option<Pos>
    requires limits { IsSize size }
    requires inside { (k : ℕ) → k < length cut.now → InGrid size (point_of cut.now k) }
    ensures { AsksPairs cut.now (λ p q. place_of size p < place_of size q) result }
{
    for k in 1..cut.len() {
        if index_of(size, cut[k]) <= index_of(size, cut[k - 1]) {
            return Some(cut[k]);
        }
    }
    None
}

// Whether a position is in a list that rises, by halves.
fn is_in(size: Size, cut: &[Pos], at: Pos) -> bool
    requires limits { IsSize size }
    requires inside { (k : ℕ) → k < length cut.now → InGrid size (point_of cut.now k) }
    requires at { InGrid size at }
    requires rises { AsksPairs cut.now (λ p q. place_of size p < place_of size q) None }
    ensures { IsTrue result ↔ Contains cut.now at }
{
    let place = index_of(size, at);
    let mut low = 0;
    let mut high = cut.len();
    'halves: while low < high {
        let middle = low + (high - low) / 2;
        let here = index_of(size, cut[middle]);
        if here == place {
            return true;
        }
        if here < place {
            low = middle + 1;
        } else {
            high = middle;
        }
    }
    false
}

/// Rule 9: the first of the two ends that is not where it belongs.
pub fn wrong_part(size: Size, cut: &[Pos], from: Pos, to: Pos) -> Option<Pos>
    requires limits { IsSize size }
    requires inside { (k : ℕ) → k < length cut.now → InGrid size (point_of cut.now k) }
    requires from { InGrid size from }
    requires to { InGrid size to }
    requires rises { AsksPairs cut.now (λ p q. place_of size p < place_of size q) None }
    ensures { Then (Asks (Contains cut.now from) from) (Asks (Contains cut.now to → ⊥) to) result }
{
    if !is_in(size, cut, from) {
        return Some(from);
    }
    if is_in(size, cut, to) {
        return Some(to);
    }
    None
}

// Whether a point is below the saddle, if there is one.
fn is_below_level<G: Heights>(surface: &G, side: SideName, level: Option<Pos>, at: Pos) -> bool
    requires at { Present (G.map surface.now) at }
    requires level { MatchOption level (Unit {0}) (Present (G.map surface.now)) }
    ensures { IsTrue result ↔ IsBelowLevel (G.map surface.now) side level at }
{
    match level {
        Some(saddle) => is_lower(surface, side, at, saddle),
        None => true,
    }
}

/// Rule 10: the first point of the cut that is not below the saddle.
pub fn first_not_below<G: Heights>(
    surface: &G,
    side: SideName,
    level: Option<Pos>,
    cut: &[Pos],
) -> Option<Pos>
    requires present { (k : ℕ) → k < length cut.now → Present (G.map surface.now) (point_of cut.now k) }
    requires level { MatchOption level (Unit {0}) (Present (G.map surface.now)) }
    ensures { AsksPoints cut.now (IsBelowLevel (G.map surface.now) side level) result }
{
    for k in 0..cut.len() {
        if !is_below_level(surface, side, level, cut[k]) {
            return Some(cut[k]);
        }
    }
    None
}
