// The neighbours of a point.
ghost use Rattle.std.specs.Prelude.{◌≡◌, ◌<◌, ◌≤◌, ◌+◌, ◌↔◌, MatchOption, IsTrue, map};
ghost use Rattle.std.specs.List.{Contains, AllPairs};
ghost use Rattle.hd_map.specs.Map.{InGrid, Present, place_of};
ghost use Rattle.hd_map.specs.Neighbour.{Neighbour, AreBesideUnder};
ghost use Rattle.hd_map.specs.Sets.{under};

use crate::{Adjacency, Heights, Pos, Size, Under, contains, is_present};
use smallvec::SmallVec;
use std::alloc::Global;

/// Whether two positions whose columns and profiles differ by at most one are side by side under a
/// setting.
#[inline]
pub fn are_beside(adjacency: Adjacency, p: Pos, q: Pos) -> bool
    ensures { IsTrue result ↔ AreBesideUnder adjacency p q }
{
    match adjacency {
        Adjacency::Four => p.x == q.x || p.y == q.y,
        Adjacency::Six => p.x == q.x || p.y == q.y || (p.x < q.x) == (p.y < q.y),
        Adjacency::Eight => true,
    }
}

/// The neighbours of a point under the setting of the grid, in position order: the present points
/// whose column and profile differ from its own by at most one, and that are beside it under the
/// setting. A point that is not present has none. The list lies inline and takes no memory.
pub fn neighbours<G: Heights>(alloc: Global, grid: &G, at: Pos) -> SmallVec<Pos, 8>
    requires { InGrid (G.map grid.now).size at }
    ensures all { (q : _) → Contains result.items q ↔ Neighbour (G.map grid.now) at q }
    ensures ordered { AllPairs (λ a b. place_of (G.map grid.now).size a
        < place_of (G.map grid.now).size b) result.items }
    ensures inline { result.capacity ≡ 8 }
{
    if is_present(grid, at) {
        points_round(alloc, grid, at)
    } else {
        SmallVec::new(alloc)
    }
}

/// The neighbours of a point under a setting, as `neighbours` gives them under that of the grid.
pub fn neighbours_by<G: Heights>(
    alloc: Global,
    grid: &G,
    adjacency: Adjacency,
    at: Pos,
) -> SmallVec<Pos, 8>
    requires { InGrid (G.map grid.now).size at }
    ensures all { (q : _) → Contains result.items q ↔ Neighbour (under adjacency (G.map grid.now)) at q }
    ensures ordered { AllPairs (λ a b. place_of (G.map grid.now).size a
        < place_of (G.map grid.now).size b) result.items }
    ensures inline { result.capacity ≡ 8 }
{
    neighbours(alloc, &Under { grid, adjacency }, at)
}

// The neighbours of a present point.
fn points_round<G: Heights>(alloc: Global, grid: &G, at: Pos) -> SmallVec<Pos, 8>
    requires { Present (G.map grid.now) at }
    ensures all { (q : _) → Contains result.items q ↔ Neighbour (G.map grid.now) at q }
    ensures ordered { AllPairs (λ a b. place_of (G.map grid.now).size a
        < place_of (G.map grid.now).size b) result.items }
    ensures inline { result.capacity ≡ 8 }
{
    let adjacency = grid.adjacency();
    let mut found = SmallVec::new(alloc);
    for step in 0..9u32 {
        if step != 4 {
            if let Some(q) = present_at(grid, at, step % 3, step / 3) {
                if are_beside(adjacency, at, q) {
                    found.push_reserved(q);
                }
            }
        }
    }
    found
}

// The point at a step from a position, if one is present there.
fn present_at<G: Heights>(grid: &G, at: Pos, x: u32, y: u32) -> Option<Pos>
    requires near { InGrid (G.map grid.now).size at }
    requires x { x ≤ 2 }
    requires y { y ≤ 2 }
    ensures { MatchOption result ((q : _) → q.x + 1 ≡ at.x + x → q.y + 1 ≡ at.y + y
        → Present (G.map grid.now) q → ⊥)
        (λ q. (q.x + 1 ≡ at.x + x) × (q.y + 1 ≡ at.y + y) × Present (G.map grid.now) q) }
{
    let Some(q) = step_from(grid.size(), at, x, y) else {
        return None;
    };
    if is_present(grid, q) { Some(q) } else { None }
}

/// The position at a step from another one, if it lies in the grid and is beside it under the setting of the
/// grid. A step of 0 is one back in the columns or profiles, 1 none, and 2 one on.
#[inline]
pub fn beside_at<G: Heights>(grid: &G, at: Pos, x: u32, y: u32) -> Option<Pos>
    requires at { InGrid (G.map grid.now).size at }
    requires x { x ≤ 2 }
    requires y { y ≤ 2 }
    ensures { MatchOption result ((q : _) → q.x + 1 ≡ at.x + x → q.y + 1 ≡ at.y + y
        → InGrid (G.map grid.now).size q → AreBesideUnder (G.map grid.now).adjacency at q → ⊥)
        (λ q. (q.x + 1 ≡ at.x + x) × (q.y + 1 ≡ at.y + y) × InGrid (G.map grid.now).size q × AreBesideUnder (G.map grid.now).adjacency at q) }
{
    let Some(q) = step_from(grid.size(), at, x, y) else {
        return None;
    };
    if are_beside(grid.adjacency(), at, q) {
        Some(q)
    } else {
        None
    }
}

// The position at a step from another one, if it lies in a grid of this size.
#[inline]
fn step_from(size: Size, at: Pos, x: u32, y: u32) -> Option<Pos>
    requires at { InGrid size at }
    requires columns { size.points ≤ 65535 }
    requires profiles { size.profiles ≤ 65535 }
    requires x { x ≤ 2 }
    requires y { y ≤ 2 }
    ensures { MatchOption result ((q : _) → q.x + 1 ≡ at.x + x → q.y + 1 ≡ at.y + y → InGrid size q → ⊥)
        (λ q. (q.x + 1 ≡ at.x + x) × (q.y + 1 ≡ at.y + y) × InGrid size q) }
{
    if at.x + x == 0 || at.y + y == 0 {
        return None;
    }
    let q = Pos {
        x: at.x + x - 1,
        y: at.y + y - 1,
    };
    if contains(size, q) { Some(q) } else { None }
}
