// The rules 1 to 7: the points, the pits and the path.
ghost use Rattle.std.specs.Prelude.{◌<◌, ◌↔◌, ℕ, IsTrue, length, None};
ghost use Rattle.std.specs.List.{Contains};
ghost use Rattle.hd_map.specs.Map.{Present};
ghost use Rattle.hd_map.specs.Neighbour.{Neighbour};
ghost use Rattle.hd_map.specs.Order.{IsNotAbove};
ghost use Rattle.hd_map.specs.Rank.{rank, below_by};
ghost use Rattle.hd_map.specs.Region.{IsPit};
ghost use Rattle.hd_check.specs.Rules.{AsksPoints, AsksPairs, AllPresent, TwoPits, TrueHeight, PathEnds, PathSteps, SaddleOnPath, PathLow, point_of};

use crate::Certificate;
use crate::order::is_lower;
use hd_map::{Heights, Pos, SideName, are_beside, contains, is_present, neighbours, rank_of};
use std::alloc::Global;

/// Rule 1: the first of the points that is not present.
pub fn first_absent<G: Heights>(surface: &G, certificate: &Certificate) -> Option<Pos>
    ensures { AllPresent (G.map surface.now) certificate.now result }
{
    if !is_point(surface, certificate.from) {
        return Some(certificate.from);
    }
    if !is_point(surface, certificate.to) {
        return Some(certificate.to);
    }
    if let Some((saddle, _)) = certificate.saddle {
        if !is_point(surface, saddle) {
            return Some(saddle);
        }
    }
    if let Some(at) = absent_of(surface, certificate.path.as_slice()) {
        return Some(at);
    }
    absent_of(surface, certificate.cut.as_slice())
}

/// Whether a position is in the grid and present.
pub fn is_point<G: Heights>(surface: &G, at: Pos) -> bool
    ensures { IsTrue result ↔ Present (G.map surface.now) at }
{
    contains(surface.size(), at) && is_present(surface, at)
}

// The first point of a list that is not present.
fn absent_of<G: Heights>(surface: &G, points: &[Pos]) -> Option<Pos>
    ensures { AsksPoints points.now (Present (G.map surface.now)) result }
{
    for k in 0..points.len() {
        if !is_point(surface, points[k]) {
            return Some(points[k]);
        }
    }
    None
}

/// Rule 2: the first end that is no pit, or that is the other one.
pub fn wrong_pit<G: Heights>(alloc: Global, surface: &G, certificate: &Certificate) -> Option<Pos>
    requires { AllPresent (G.map surface.now) certificate.now None }
    ensures { TwoPits (G.map surface.now) certificate.now result }
{
    if !is_pit(alloc, surface, certificate.side, certificate.from) {
        return Some(certificate.from);
    }
    if !is_pit(alloc, surface, certificate.side, certificate.to) {
        return Some(certificate.to);
    }
    if certificate.from == certificate.to {
        return Some(certificate.to);
    }
    None
}

/// Whether a present point is a pit.
pub fn is_pit<G: Heights>(alloc: Global, surface: &G, side: SideName, at: Pos) -> bool
    requires { Present (G.map surface.now) at }
    ensures { IsTrue result ↔ IsPit (G.map surface.now) side (rank (G.map surface.now) at) }
{
    let near = neighbours(alloc, surface, at);
    let round = near.as_slice();
    for k in 0..round.len() {
        if is_lower(surface, side, round[k], at) {
            return false;
        }
    }
    true
}

/// Rule 3: the saddle, where its height is another.
pub fn wrong_height<G: Heights>(surface: &G, certificate: &Certificate) -> Option<Pos>
    requires { AllPresent (G.map surface.now) certificate.now None }
    ensures { TrueHeight (G.map surface.now) certificate.now result }
{
    if let Some((saddle, height)) = certificate.saddle {
        if rank_of(surface, saddle).height != height {
            return Some(saddle);
        }
    }
    None
}

/// Rule 4: what the path lacks at its ends.
pub fn wrong_end(certificate: &Certificate) -> Option<Pos>
    ensures { (m : _) → PathEnds m certificate.now result }
{
    if certificate.saddle.is_none() {
        return None;
    }
    let path = certificate.path.as_slice();
    if path.is_empty() {
        return Some(certificate.from);
    }
    if path[0] != certificate.from {
        return Some(path[0]);
    }
    if path[path.len() - 1] != certificate.to {
        return Some(path[path.len() - 1]);
    }
    None
}

/// Rule 5: the first path point that is no neighbour of the one before.
pub fn wrong_step<G: Heights>(surface: &G, certificate: &Certificate) -> Option<Pos>
    requires { AllPresent (G.map surface.now) certificate.now None }
    ensures { PathSteps (G.map surface.now) certificate.now result }
{
    if certificate.saddle.is_none() {
        return None;
    }
    stray_of(surface, certificate.path.as_slice())
}

// The second of the first two points that are no neighbours.
fn stray_of<G: Heights>(surface: &G, path: &[Pos]) -> Option<Pos>
    requires { (k : ℕ) → k < length path.now → Present (G.map surface.now) (point_of path.now k) }
    ensures { AsksPairs path.now (Neighbour (G.map surface.now)) result }
{
    for k in 1..path.len() {
        if !are_neighbours(surface, path[k - 1], path[k]) {
            return Some(path[k]);
        }
    }
    None
}

/// Whether two present points are neighbours.
pub fn are_neighbours<G: Heights>(surface: &G, a: Pos, b: Pos) -> bool
    requires a { Present (G.map surface.now) a }
    requires b { Present (G.map surface.now) b }
    ensures { IsTrue result ↔ Neighbour (G.map surface.now) a b }
{
    let is_near = a.x.abs_diff(b.x) <= 1 && a.y.abs_diff(b.y) <= 1;
    is_near && a != b && are_beside(surface.adjacency(), a, b)
}

/// Rule 6: the saddle, where it is not on the path.
pub fn off_path(certificate: &Certificate) -> Option<Pos>
    ensures { (m : _) → SaddleOnPath m certificate.now result }
{
    match certificate.saddle {
        Some((saddle, _)) => {
            if has_point(certificate.path.as_slice(), saddle) {
                None
            } else {
                Some(saddle)
            }
        }
        None => None,
    }
}

// Whether a point stands in a list.
fn has_point(points: &[Pos], at: Pos) -> bool
    ensures { IsTrue result ↔ Contains points.now at }
{
    for k in 0..points.len() {
        if points[k] == at {
            return true;
        }
    }
    false
}

/// Rule 7: the first path point above the saddle.
pub fn first_high<G: Heights>(surface: &G, certificate: &Certificate) -> Option<Pos>
    requires { AllPresent (G.map surface.now) certificate.now None }
    ensures { PathLow (G.map surface.now) certificate.now result }
{
    match certificate.saddle {
        Some((saddle, _)) => high_of(
            surface,
            certificate.side,
            saddle,
            certificate.path.as_slice(),
        ),
        None => None,
    }
}

// The first point above the saddle.
fn high_of<G: Heights>(surface: &G, side: SideName, saddle: Pos, path: &[Pos]) -> Option<Pos>
    requires saddle { Present (G.map surface.now) saddle }
    requires path { (k : ℕ) → k < length path.now → Present (G.map surface.now) (point_of path.now k) }
    ensures { AsksPoints path.now (λ p. IsNotAbove (below_by side) (rank (G.map surface.now) p)
        (rank (G.map surface.now) saddle)) result }
{
    for k in 0..path.len() {
        if is_lower(surface, side, saddle, path[k]) {
            return Some(path[k]);
        }
    }
    None
}
