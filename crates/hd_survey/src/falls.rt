// The neighbours below a point, with their pits.
ghost use Rattle.std.specs.Prelude.{◌≡◌, ◌↔◌, ◌<◌, true, ℕ, List as Items, Option, All, AllPairs, Contains};
ghost use Rattle.std.specs.Ordering.{is_lt};
ghost use Rattle.hd_map.specs.declared.types.Rank.{Rank};
ghost use Rattle.hd_map.specs.Map.{Present};
ghost use Rattle.hd_map.specs.Rank.{below_by, IsPoint};
ghost use Rattle.hd_map.specs.Region.{AreRegions, IsRoot, LowerNeighbour};
ghost use Rattle.hd_prune.specs.Around.{IsLowerNeighbourAt};
ghost use Rattle.hd_survey.specs.Falls.{ranks_below, ranks_of};

use crate::view::SideView;
use hd_map::{Heights, Pos, Rank, Side, neighbours, position_of, rank_of};
use hd_prune::Around;
use smallvec::SmallVec;
use std::alloc::Global;
use std::cmp::Ordering;
use std::marker::{Model, PhantomData};

/// A grid, with a view of one of its sides for the roots of its points. Contracts see it as the grid
/// and the view.
#[derive(Drop)]
pub struct Falls<'a, S: Side, G: Heights, V: SideView<S>> {
    alloc: Global,
    grid: &'a G,
    view: &'a V,
    side: PhantomData<S>,
}

impl<'a, S: Side, G: Heights, V: SideView<S>> Model for Falls<'a, S, G, V> {
    ghost use Rattle.std.specs.Prelude.{◌≡◌, ℕ, List, Option};
    ghost use Rattle.hd_map.specs.Region.{AreRegions};

    ghost Value = { G × V };

    ghost view = { λ f. (f.grid.now, f.view.now) };

    ghost invariant = { λ f. (V.map f.view.now ≡ G.map f.grid.now) × (roots : List (Option ℕ)) × AreRegions (G.map f.grid.now) S.NAME roots };
}

impl<'a, S: Side, G: Heights, V: SideView<S>> Falls<'a, S, G, V> {
    /// A grid with a view of one of its sides.
    pub fn new(alloc: Global, grid: &'a G, view: &'a V) -> Self
        requires view { V.map view.now ≡ G.map grid.now }
        requires regions { (roots : Items (Option ℕ)) × AreRegions (G.map grid.now) S.NAME roots }
        ensures { result.0 ≡ grid.now }
    {
        Falls {
            alloc,
            grid,
            view,
            side: PhantomData,
        }
    }
}

impl<'a, S: Side, G: Heights, V: SideView<S>> Around for Falls<'a, S, G, V> {
    ghost map = { λ f. G.map f.0 };

    ghost side = { λ f. S.NAME };

    ghost whole = { λ f. G.whole f.0 };

    fn around(&self, saddle: Rank, k: u32) -> Option<(Rank, Rank)> {
        let lower = lower_neighbours::<S, G>(self.alloc, self.grid, saddle);
        fall_at::<S, G, V>(self.grid, self.view, saddle, &lower, k as usize)
    }

    fn all_around(&self, saddle: Rank) -> [Option<(Rank, Rank)>; 9] {
        let lower = lower_neighbours::<S, G>(self.alloc, self.grid, saddle);
        let mut all = [None; 9];
        for k in 0..9usize {
            all[k] = fall_at::<S, G, V>(self.grid, self.view, saddle, &lower, k);
        }
        all
    }
}

// Of the neighbours below a saddle, the one at a place, with the pit in whose region it lies.
#[inline]
fn fall_at<S: Side, G: Heights, V: SideView<S>>(
    grid: &G,
    view: &V,
    _saddle: Rank,
    lower: &SmallVec<Lower, 8>,
    k: usize,
) -> Option<(Rank, Rank)>
    requires view { V.map view.now ≡ G.map grid.now }
    requires regions { (roots : Items (Option ℕ)) × AreRegions (G.map grid.now) S.NAME roots }
    requires each { (q : Rank) → Contains (ranks_of lower.now.items) q
        ↔ LowerNeighbour (G.map grid.now) S.NAME _saddle q }
    requires in_order { AllPairs (λ a b. below_by S.NAME a b ≡ true) (ranks_of lower.now.items) }
    ensures { IsLowerNeighbourAt (G.map grid.now) S.NAME _saddle k result }
{
    if k >= lower.len() {
        return None;
    }
    let rank = lower[k].rank;
    let root = root_of::<S, G, V>(grid, view, rank);
    Some((rank, root))
}

/// A neighbour below a point.
#[derive(Clone, Copy)]
pub struct Lower {
    /// Its rank.
    pub rank: Rank,
}

impl Default for Lower {
    fn default() -> Lower {
        Lower {
            rank: Rank {
                height: 0,
                index: 0,
            },
        }
    }
}

// The neighbours of a present point that are below it, in the order of the side.
fn lower_neighbours<S: Side, G: Heights>(alloc: Global, grid: &G, point: Rank) -> SmallVec<Lower, 8>
    requires { IsPoint (G.map grid.now) point }
    ensures each { (q : Rank) → Contains (ranks_of result.items) q
        ↔ LowerNeighbour (G.map grid.now) S.NAME point q }
    ensures in_order { AllPairs (λ a b. below_by S.NAME a b ≡ true) (ranks_of result.items) }
{
    let mut lower = gather_lower::<S, G>(alloc, grid, point);
    lower.sort_unstable_by(|a, b| compare::<S>(a, b));
    lower
}

// The same in position order.
fn gather_lower<S: Side, G: Heights>(alloc: Global, grid: &G, point: Rank) -> SmallVec<Lower, 8>
    requires { IsPoint (G.map grid.now) point }
    ensures each { (q : Rank) → Contains (ranks_of result.items) q
        ↔ LowerNeighbour (G.map grid.now) S.NAME point q }
    ensures rise { AllPairs (λ a b. a.index < b.index) (ranks_of result.items) }
{
    let at = position_of(grid.size(), point.index);
    let near = neighbours(alloc, grid, at);
    pick_lower::<S, G>(alloc, grid, point, &near)
}

// Of these places, those below a point.
fn pick_lower<S: Side, G: Heights>(
    alloc: Global,
    grid: &G,
    point: Rank,
    near: &SmallVec<Pos, 8>,
) -> SmallVec<Lower, 8>
    requires present { All (Present (G.map grid.now)) near.now.items }
    requires inline { near.now.capacity ≡ 8 }
    ensures { ranks_of result.items ≡ ranks_below (G.map grid.now) S.NAME point near.now.items }
{
    let mut lower = SmallVec::new(alloc);
    'places: for place in 0..near.len() {
        let rank = rank_of(grid, near[place]);
        if S::below(rank, point) {
            lower.push_reserved(Lower { rank });
        }
    }
    lower
}

// Which of two neighbours comes first in the order of the side.
fn compare<S: Side>(a: &Lower, b: &Lower) -> Ordering
    ensures { is_lt result ≡ below_by S.NAME a.now.rank b.now.rank }
{
    if S::below(a.rank, b.rank) {
        Ordering::Less
    } else {
        Ordering::Greater
    }
}

// The pit in whose region a present point lies.
fn root_of<S: Side, G: Heights, V: SideView<S>>(grid: &G, view: &V, point: Rank) -> Rank
    requires point { IsPoint (G.map grid.now) point }
    requires view { V.map view.now ≡ G.map grid.now }
    ensures { IsRoot (G.map grid.now) S.NAME point result }
{
    let root = view.root(position_of(grid.size(), point.index));
    rank_of(grid, root)
}
