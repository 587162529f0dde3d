// A pool of basins with the tiles that it follows, whose looks are counted while the test runs.
ghost use Rattle.std.specs.Prelude.{◌≡◌};
ghost use Rattle.hd_map.specs.Surface.{map_of};
ghost use Rattle.hd_tiles.specs.Tile.{IsTileSide};
ghost use Rattle.hd_basin.specs.InStep.{HasMap};
ghost use Rattle.hd_pool.specs.Following.{IsFollowing};

use hd_basin::{Basins, pool_stays_in_step};
use hd_map::{Adjacency, Cell, Grid, Heights, Pos, Side, Size, Surface};
use hd_tiles::{Looked, Steps, Tiles};
use std::cell;
use std::marker::Brand;
use std::process::Abort;
use std::sync::ledger::{Blank, Ledger};

// A surface in tiles that counts the looks at it.
#[derive(Drop)]
pub(crate) struct Watched {
    pub(crate) tiles: Tiles<Surface>,
    looks: cell::Cell<u32>,
}

impl Looked for Watched {
    ghost use Rattle.std.specs.Prelude.{replicate, true};
    ghost use Rattle.std.proofs.lemmas.List.{length-replicate};
    ghost use Rattle.hd_map.specs.Map.{cell_count};
    ghost use Rattle.hd_map.specs.Surface.{map_of};
    ghost use Rattle.hd_map.specs.SurfaceLaws.{surface-whole};
    ghost use Rattle.hd_tiles.specs.Origin.{counted-as};

    ghost map = { λ w. map_of w.tiles.grid };

    ghost tile_side = { λ w. w.tiles.tiling.side };

    ghost stamps = { λ w. w.tiles.stamps.items };

    ghost leave = { λ w. replicate (cell_count (map_of w.tiles.grid).size) true };

    ghost whole = { λ w. record {
      map = surface-whole w.tiles.grid;
      side = w.tiles.tiling.tile_side;
      tiles = counted-as w.tiles.stamps.items w.tiles.tiling.size (map_of w.tiles.grid).size w.tiles.tiling.side w.tiles.same_size w.tiles.stamped;
      positions = length-replicate (cell_count (map_of w.tiles.grid).size) true;
    } };

    fn size(&self) -> Size {
        Looked::size(&self.tiles)
    }

    fn side(&self) -> u32 {
        self.tiles.side()
    }

    fn stamp(&self, tile: u32) -> u64 {
        self.tiles.stamp(tile)
    }

    fn look<L: Ledger>(&self, at: Pos, looks: &mut Steps<L>) -> Option<i64> {
        self.looks.set(self.looks.get().saturating_add(1));
        self.tiles.look(at, looks)
    }

    fn adjacency(&self) -> Adjacency {
        Looked::adjacency(&self.tiles)
    }
}

// A pool with the tiles that it follows.
#[derive(Drop)]
pub(crate) struct Followed<S: Side> {
    pub(crate) watched: Watched,
    pub(crate) pool: Basins<S>,
}

impl<S: Side> Followed<S> {
    // The pool that has seen nothing of this surface in tiles of this side.
    pub(crate) fn new(rt: &(impl Abort + AllocGlobal), surface: Surface, side: u32) -> Followed<S>
        requires { IsTileSide side }
        ensures { IsFollowing (map_of result.watched.tiles.grid) S.NAME
            result.watched.tiles.tiling.side result.watched.tiles.stamps.items result.pool }
    {
        let size = surface.size();
        let tiles = Tiles::from_surface(rt.alloc(), surface, side).expect(rt, "memory");
        let pool = Basins::new(rt.alloc(), size, side).expect(rt, "memory");
        let looks = cell::Cell::new(0);
        Followed {
            watched: Watched { tiles, looks },
            pool,
        }
    }

    // Brings the pool up to the surface, and tells how many looks that took.
    pub(crate) fn refresh(&mut self, rt: &impl Abort) -> u32
        requires { IsFollowing (map_of self.old.watched.tiles.grid) S.NAME
            self.old.watched.tiles.tiling.side self.old.watched.tiles.stamps.items self.old.pool }
        ensures following { IsFollowing (map_of self.new.watched.tiles.grid) S.NAME
            self.new.watched.tiles.tiling.side self.new.watched.tiles.stamps.items self.new.pool }
        ensures pool { HasMap S.NAME self.new.pool }
    {
        self.watched.looks.set(0);
        bring_up::<S, Brand>(rt, &mut self.pool, &self.watched, Blank::new(1));
        self.watched.looks.get()
    }

    // Sets the cell at a position.
    pub(crate) fn set_cell(&mut self, rt: &impl Abort, at: Pos, cell: Cell)
        requires { IsFollowing (map_of self.old.watched.tiles.grid) S.NAME
            self.old.watched.tiles.tiling.side self.old.watched.tiles.stamps.items self.old.pool }
        ensures { IsFollowing (map_of self.new.watched.tiles.grid) S.NAME
            self.new.watched.tiles.tiling.side self.new.watched.tiles.stamps.items self.new.pool }
    {
        assert!(rt; self.watched.tiles.changes() < 1_000);
        self.watched
            .tiles
            .set_cell(at, cell)
            .expect(rt, "a cell of the type");
        pool_stays_in_step();
    }

    // Sets or takes the mask at a position.
    pub(crate) fn set_mask(&mut self, rt: &impl Abort, at: Pos, masked: bool)
        requires { IsFollowing (map_of self.old.watched.tiles.grid) S.NAME
            self.old.watched.tiles.tiling.side self.old.watched.tiles.stamps.items self.old.pool }
        ensures { IsFollowing (map_of self.new.watched.tiles.grid) S.NAME
            self.new.watched.tiles.tiling.side self.new.watched.tiles.stamps.items self.new.pool }
    {
        assert!(rt; self.watched.tiles.changes() < 1_000);
        self.watched
            .tiles
            .set_mask(at, masked)
            .expect(rt, "a position");
        pool_stays_in_step();
    }

    // Sets which points are neighbours.
    pub(crate) fn set_adjacency(&mut self, rt: &impl Abort, adjacency: Adjacency)
        requires { IsFollowing (map_of self.old.watched.tiles.grid) S.NAME
            self.old.watched.tiles.tiling.side self.old.watched.tiles.stamps.items self.old.pool }
        ensures { IsFollowing (map_of self.new.watched.tiles.grid) S.NAME
            self.new.watched.tiles.tiling.side self.new.watched.tiles.stamps.items self.new.pool }
    {
        assert!(rt; self.watched.tiles.changes() < 1_000);
        self.watched.tiles.set_adjacency(adjacency);
        pool_stays_in_step();
    }
}

// Another pool that has seen all of the same tiles.
pub(crate) fn pool_anew<S: Side>(rt: &(impl Abort + AllocGlobal), watched: &Watched) -> Basins<S>
    ensures following { IsFollowing (map_of watched.now.tiles.grid) S.NAME
        watched.now.tiles.tiling.side watched.now.tiles.stamps.items result }
    ensures pool { HasMap S.NAME result }
{
    let tiling = watched.tiles.tiling();
    let mut pool = Basins::new(rt.alloc(), tiling.size(), tiling.side()).expect(rt, "memory");
    bring_up::<S, Brand>(rt, &mut pool, watched, Blank::new(1));
    pool
}

// Brings a pool up to these tiles, with a counter of its own.
fn bring_up<S: Side, L: Ledger>(
    rt: &impl Abort,
    pool: &mut Basins<S>,
    watched: &Watched,
    blank: Blank,
)
    requires name { blank.name ≡ L.name }
    requires parts { blank.parts ≡ L.parts }
    requires one { blank.parts ≡ 1 }
    requires following { IsFollowing (map_of watched.now.tiles.grid) S.NAME
        watched.now.tiles.tiling.side watched.now.tiles.stamps.items pool.old }
    ensures following { IsFollowing (map_of watched.now.tiles.grid) S.NAME
        watched.now.tiles.tiling.side watched.now.tiles.stamps.items pool.new }
    ensures pool { HasMap S.NAME pool.new }
{
    let mut looks: Steps<L> = Steps::new(blank);
    pool.refresh(watched, &mut looks).expect(rt, "memory");
}
