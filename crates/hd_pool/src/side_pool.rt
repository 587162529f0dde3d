// The pool of a side of a grid in tiles, and when it answers.
ghost use Rattle.std.specs.Prelude.{◌≡◌, ◌*◌, ◌<◌, ◌^◌, IfOk, IsTrue, None, OnErr, OnOk, false};
ghost use Rattle.hd_map.specs.Map.{cell_count, Present};
ghost use Rattle.hd_map.specs.Rank.{rank};
ghost use Rattle.hd_map.specs.Region.{IsRoot};
ghost use Rattle.hd_basin.specs.InStep.{IsPoolOf};
ghost use Rattle.hd_pool.specs.Following.{Follows, IsFollowing, IsReady, after_report, has_or_earns, labels_by_pool, may_take, nothing_kept, points_to_take, reports_by_pool, steps_earned};
ghost use Rattle.hd_pool.specs.Outlay.{counted, paid};

use crate::PoolView;
use crate::outlay::Outlay;
use hd_basin::Basins;
use hd_list::Memory;
use hd_map::{Grid, Heights, Pos, Side};
use hd_tiles::{Steps, Tiles};
use std::alloc::Global;
use std::marker::{Brand, Model};
use std::sync::ledger::{Blank, Ledger};

/// How many times a step counts that was walked where there is a pool.
const BESIDE_POOL: u64 = 8;

/// The pool of a side of a grid in tiles. Reports go over the whole map until one did so after a change; from then on the
/// pool tells them. A label is told by the pool where ways that were walked took as many steps as it is worth to bring it
/// up. Where changes touched more than a fourth of the tiles, a report lets the pool go, and all begins again. Contracts see it
/// as what is kept.
#[derive(Drop)]
pub struct SidePool<S: Side> {
    pool: Option<Basins<S>>,
    outlay: Outlay,
}

impl<S: Side> Model for SidePool<S> {
    ghost use Rattle.hd_pool.specs.Following.{KeptSide};

    ghost Value = { KeptSide };

    ghost view = { λ s. record { pool = s.pool; outlay = s.outlay } };
}

impl<S: Side> SidePool<S> {
    /// Nothing is kept, and nothing was asked.
    pub fn new() -> SidePool<S>
        ensures { result ≡ nothing_kept }
    {
        SidePool {
            pool: None,
            outlay: Outlay::new(),
        }
    }

    /// Tells whether a report on the side is told by its pool, and brings this up to the grid if so. If not, the report is
    /// counted as one that goes over the whole map.
    pub fn serves_report<G: Grid>(
        &mut self,
        alloc: Global,
        tiles: &Tiles<G>,
    ) -> Result<bool, Memory>
        requires { Follows (G.map tiles.now.grid) S.NAME tiles.now.tiling.side
            tiles.now.stamps.items self.old }
        ensures follows { Follows (G.map tiles.now.grid) S.NAME tiles.now.tiling.side
            tiles.now.stamps.items self.new }
        ensures ready { IfOk result (λ serves. IsTrue serves
            → IsReady (G.map tiles.now.grid) S.NAME self.new) }
        ensures rule { IfOk result (λ serves. serves
            ≡ reports_by_pool (cell_count tiles.now.tiling.size) tiles.now.stamps.items self.old) }
        ensures let_go { IfOk result (λ serves. serves ≡ false → self.new.pool ≡ None) }
        ensures outlay { IfOk result (λ serves. self.new.outlay
            ≡ after_report (cell_count tiles.now.tiling.size) tiles.now.tiling.side tiles.now.changes tiles.now.stamps.items self.old) }
    {
        let changes = tiles.changes();
        let points = points_of(tiles);
        if !self.has_or_earns(points) {
            self.outlay = self.outlay.reported(changes, points);
            return Ok(false);
        }
        if self.outlay.is_out_of_date(tiles) {
            self.pool = None;
            self.outlay = Outlay::new().reported(changes, points);
            return Ok(false);
        }
        self.bring_up(alloc, tiles)?;
        Ok(true)
    }

    // Whether there is a pool, or one of so many points is worth it.
    fn has_or_earns(&self, points: u64) -> bool
        requires { points < 2 ^ 56 }
        ensures { result ≡ has_or_earns points self.now }
    {
        self.pool.is_some() || self.outlay.is_worth(points)
    }

    /// Tells whether a label of the side is told by its pool, and brings this up to the grid if so.
    pub fn serves_label<G: Grid>(&mut self, alloc: Global, tiles: &Tiles<G>) -> Result<bool, Memory>
        requires { Follows (G.map tiles.now.grid) S.NAME tiles.now.tiling.side
            tiles.now.stamps.items self.old }
        ensures follows { Follows (G.map tiles.now.grid) S.NAME tiles.now.tiling.side
            tiles.now.stamps.items self.new }
        ensures ready { IfOk result (λ serves. IsTrue serves
            → IsReady (G.map tiles.now.grid) S.NAME self.new) }
        ensures rule { IfOk result (λ serves. serves
            ≡ labels_by_pool (cell_count tiles.now.tiling.size) tiles.now.tiling.side tiles.now.changes tiles.now.stamps.items self.old) }
        ensures same { IfOk result (λ serves. serves ≡ false → self.new ≡ self.old) }
    {
        if !self.may_take(tiles) || !self.outlay.is_worth(self.points_to_take(tiles)) {
            return Ok(false);
        }
        self.bring_up(alloc, tiles)?;
        Ok(true)
    }

    // Whether nothing changed since the pool was brought up, or one tile is worth it: then the tiles are looked through.
    fn may_take<G: Grid>(&self, tiles: &Tiles<G>) -> bool
        ensures { result ≡ may_take tiles.now.tiling.side tiles.now.changes self.now }
    {
        let side = tiles.tiling().side();
        tiles.changes() == self.outlay.last || self.outlay.is_worth(u64::from(side * side))
    }

    /// Counts the steps that the answer to a label took, where the pool did not serve. They count more where there is a pool,
    /// so that where ways are long it is seldom passed over.
    pub fn count_label<G: Grid>(&mut self, tiles: &Tiles<G>, steps: u64)
        ensures { self.new ≡ record self.old {
          outlay = counted tiles.now.changes
              (steps_earned steps self.old) self.old.outlay;
        } }
    {
        let earned = if self.pool.is_some() {
            steps.saturating_mul(BESIDE_POOL)
        } else {
            steps
        };
        self.outlay = self.outlay.counted(tiles.changes(), earned);
    }

    // How many points the pool takes in where it is brought up.
    fn points_to_take<G: Grid>(&self, tiles: &Tiles<G>) -> u64
        ensures few { result < 2 ^ 56 }
        ensures value { result ≡ points_to_take
            (cell_count tiles.now.tiling.size) tiles.now.tiling.side tiles.now.stamps.items
            self.now }
    {
        if self.pool.is_none() {
            return points_of(tiles);
        }
        let side = tiles.tiling().side();
        u64::from(self.outlay.touched(tiles)) * u64::from(side * side)
    }

    // Brings the pool up to the grid, and makes it first where there is none.
    fn bring_up<G: Grid>(&mut self, alloc: Global, tiles: &Tiles<G>) -> Result<(), Memory>
        requires { Follows (G.map tiles.now.grid) S.NAME tiles.now.tiling.side
            tiles.now.stamps.items self.old }
        ensures follows { Follows (G.map tiles.now.grid) S.NAME tiles.now.tiling.side
            tiles.now.stamps.items self.new }
        ensures ready { OnOk result (IsReady (G.map tiles.now.grid) S.NAME self.new) }
        ensures outlay { OnOk result (self.new.outlay ≡ paid tiles.now.changes
            (points_to_take (cell_count tiles.now.tiling.size) tiles.now.tiling.side tiles.now.stamps.items self.old) self.old.outlay) }
    {
        let points = self.points_to_take(tiles);
        let mut pool = match self.pool.take() {
            Some(pool) => pool,
            None => new_pool(alloc, tiles)?,
        };
        let refreshed = refresh::<S, G, Brand>(&mut pool, tiles, Blank::new(1));
        self.pool = Some(pool);
        refreshed?;
        self.outlay = self.outlay.paid(tiles.changes(), points);
        Ok(())
    }

    /// The pit in whose region a present point of a grid lies, by the pool, which is that of the grid.
    pub fn root<G: Heights>(&self, _grid: &G, at: Pos) -> Pos
        requires ready { IsReady (G.map _grid.now) S.NAME self.now }
        requires present { Present (G.map _grid.now) at }
        ensures present { Present (G.map _grid.now) result }
        ensures root { IsRoot (G.map _grid.now) S.NAME (rank (G.map _grid.now) at)
            (rank (G.map _grid.now) result) }
    {
        match &self.pool {
            Some(pool) => root_by::<S, G>(_grid, pool, at),
            None => unreachable!(),
        }
    }

    /// The side, by its pool. The pool is that of the grid. It takes time in proportion to the basins.
    pub fn view<'a, G: Heights>(
        &'a self,
        alloc: Global,
        grid: &'a G,
    ) -> Result<PoolView<'a, S, G>, Memory>
        requires { IsReady (G.map grid.now) S.NAME self.now }
        ensures { IfOk result (λ view. view ≡ grid.now) }
    {
        match &self.pool {
            Some(pool) => PoolView::new(alloc, grid, pool),
            None => unreachable!(),
        }
    }
}

// The pit in whose region a present point of a grid lies, by its pool.
fn root_by<S: Side, G: Heights>(_grid: &G, pool: &Basins<S>, at: Pos) -> Pos
    requires pool { IsPoolOf (G.map _grid.now) S.NAME pool.now }
    requires present { Present (G.map _grid.now) at }
    ensures present { Present (G.map _grid.now) result }
    ensures root { IsRoot (G.map _grid.now) S.NAME (rank (G.map _grid.now) at)
        (rank (G.map _grid.now) result) }
{
    match pool.label(at) {
        Some(pit) => pit,
        None => unreachable!(),
    }
}

// How many points a grid has.
fn points_of<G: Grid>(tiles: &Tiles<G>) -> u64
    ensures few { result < 2 ^ 32 }
    ensures points { result ≡ cell_count tiles.now.tiling.size }
{
    let size = tiles.tiling().size();
    u64::from(size.profiles) * u64::from(size.points)
}

// A pool for a grid that has seen no tile.
fn new_pool<S: Side, G: Grid>(alloc: Global, tiles: &Tiles<G>) -> Result<Basins<S>, Memory>
    ensures { IfOk result (IsFollowing (G.map tiles.now.grid) S.NAME tiles.now.tiling.side
        tiles.now.stamps.items) }
{
    let tiling = tiles.tiling();
    let pool = Basins::new(alloc, tiling.size(), tiling.side())?;
    Ok(pool)
}

// Brings a pool up to the grid, with a counter of looks of its own.
fn refresh<S: Side, G: Grid, L: Ledger>(
    pool: &mut Basins<S>,
    tiles: &Tiles<G>,
    blank: Blank,
) -> Result<(), Memory>
    requires name { blank.name ≡ L.name }
    requires parts { blank.parts ≡ L.parts }
    requires one { blank.parts ≡ 1 }
    requires following { IsFollowing (G.map tiles.now.grid) S.NAME tiles.now.tiling.side
        tiles.now.stamps.items pool.old }
    ensures following { IsFollowing (G.map tiles.now.grid) S.NAME tiles.now.tiling.side
        tiles.now.stamps.items pool.new }
    ensures pool { OnOk result (IsPoolOf (G.map tiles.now.grid) S.NAME pool.new) }
{
    let mut looks: Steps<L> = Steps::new(blank);
    pool.refresh(tiles, &mut looks)
}
