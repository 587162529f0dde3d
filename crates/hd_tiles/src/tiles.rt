// A grid in tiles.
ghost use Rattle.std.specs.Prelude.{◌≡◌, ◌<◌, ◌≤◌, ◌^◌, IfOk, length};
ghost use Rattle.hd_map.specs.Encoding.{values_of};
ghost use Rattle.hd_map.specs.Sets.{AreHeightsIn, SetsCell, SetsMask, under, with_heights, CountsChange};
ghost use Rattle.hd_tiles.specs.Tile.{IsTileSide, tile_count};
ghost use Rattle.hd_tiles.specs.Stamps.{AreUpTo, TouchesRound, TouchesProfile, TouchesAll};

use crate::touch::{touch_all, touch_changes, touch_round};
use crate::{Looked, Steps, Tiling};
use hd_list::Memory;
use hd_map::{Adjacency, Cell, DataType, Grid, Heights, Lane, MapError, Pos, Size, contains};
use std::alloc::Global;
use std::sync::ledger::Ledger;

/// A grid in square tiles, which counts its changes. The stamp of a tile is the number of the last change
/// that touched it, and 0 before the first: a change of a cell or a mask touches each tile that holds the
/// point or one of the eight positions round it, a change of the heights of a profile does so for each of
/// its points whose cell becomes another, and a change of the setting touches every tile.
#[derive(Drop)]
pub struct Tiles<G: Grid> {
    grid: G,
    tiling: Tiling,
    stamps: Vec<u64>,
    changes: u64,
    ghost same_size: { tiling.size ≡ (G.map grid).size },
    ghost stamped: { length stamps.items ≡ tile_count tiling.size tiling.side },
    ghost numbered: { AreUpTo changes stamps.items },
    ghost counted: { G.changes grid ≤ changes },
}

impl<G: Grid> Tiles<G> {
    /// A surface in tiles of this side, from 8 to 256 points. Nothing has changed yet.
    pub fn from_surface(alloc: Global, surface: G, side: u32) -> Result<Tiles<G>, Memory>
    where
        G: Drop,
        requires side { IsTileSide side }
        requires count { G.changes surface ≡ 0 }
        ensures surface { IfOk result (λ tiles. tiles.grid ≡ surface) }
        ensures side { IfOk result (λ tiles. tiles.tiling.side ≡ side) }
        ensures count { IfOk result (λ tiles. tiles.changes ≡ 0) }
    {
        let tiling = Tiling::new(surface.size(), side);
        let stamps = vec![in alloc; 0; tiling.count() as usize]?;
        Ok(Tiles {
            grid: surface,
            tiling,
            stamps,
            changes: 0,
        })
    }

    /// The surface.
    pub fn surface(&self) -> &G
        ensures { result.now ≡ self.now.grid }
    {
        &self.grid
    }

    /// How the surface is cut into tiles.
    pub fn tiling(&self) -> Tiling
        ensures { result ≡ self.now.tiling }
    {
        self.tiling
    }

    /// How many changes were counted. No stamp is above their number.
    pub fn changes(&self) -> u64
        ensures value { result ≡ self.now.changes }
        ensures stamps { AreUpTo result self.now.stamps.items }
    {
        self.changes
    }
}

impl<G: Grid> Heights for Tiles<G> {
    ghost map = { λ t. G.map t.grid };

    ghost whole = { λ t. G.whole t.grid };

    fn size(&self) -> Size {
        self.grid.size()
    }

    fn adjacency(&self) -> Adjacency {
        self.grid.adjacency()
    }

    #[inline]
    fn height(&self, at: Pos) -> Option<i64> {
        self.grid.height(at)
    }

    fn fill_heights<L: Lane>(&self, y: u32, row: &mut [L]) -> bool {
        self.grid.fill_heights(y, row)
    }
}

impl<G: Grid> Grid for Tiles<G> {
    ghost use Rattle.hd_tiles.specs.Stamps.{ComesFrom};
    ghost use Rattle.hd_tiles.specs.Origin.{comes-itself, comes-onward, count-stays};

    ghost comes_from = { λ old new. ComesFrom (G.map old.grid) old.tiling.side old.stamps.items (G.map new.grid) new.tiling.side new.stamps.items };

    ghost changes = { λ t. t.changes };

    ghost itself = { λ t. comes-itself (G.map t.grid) t.tiling.side t.stamps.items };

    ghost onward = { λ a b c first second. comes-onward (G.map a.grid) a.tiling.side a.stamps.items (G.map b.grid) b.tiling.side b.stamps.items (G.map c.grid) c.tiling.side c.stamps.items (count-stays a.stamps.items b.stamps.items a.tiling.size b.tiling.size (G.map a.grid).size (G.map b.grid).size a.tiling.side b.tiling.side a.same_size b.same_size first.size first.same_side a.stamped b.stamped) first second };

    fn data_type(&self) -> DataType {
        self.grid.data_type()
    }

    #[inline]
    fn cell(&self, at: Pos) -> Cell {
        self.grid.cell(at)
    }

    #[inline]
    fn masked(&self, at: Pos) -> bool {
        self.grid.masked(at)
    }

    #[inline]
    fn set_cell(&mut self, at: Pos, cell: Cell) -> Result<(), MapError>
        requires { self.old.changes < 2 ^ 63 }
        ensures sets { SetsCell (G.map self.old.grid) at cell result (G.map self.new.grid) }
        ensures origin { ComesFrom (G.map self.old.grid) self.old.tiling.side self.old.stamps.items
            (G.map self.new.grid) self.new.tiling.side self.new.stamps.items }
        ensures count { CountsChange (G.map self.old.grid)
            (G.map self.new.grid) self.old.changes self.new.changes }
        ensures touched { TouchesRound self.old.tiling.side at (G.map self.old.grid)
            (G.map self.new.grid) self.old.changes self.new.changes self.old.stamps.items
            self.new.stamps.items }
    {
        if !contains(self.tiling.size(), at) {
            return Err(MapError::Outside(at));
        }
        if self.grid.cell(at) == cell {
            return Ok(());
        }
        self.grid.set_cell(at, cell)?;
        self.changes += 1;
        touch_round(&mut self.stamps, self.tiling, at, self.changes);
        Ok(())
    }

    fn set_heights<L: Lane>(&mut self, y: u32, row: &[L])
        requires profile { y < (G.map self.old.grid).size.profiles }
        requires columns { length row.now ≡ (G.map self.old.grid).size.points }
        requires in_range { AreHeightsIn (G.map self.old.grid).data_type (values_of L.code row.now) }
        requires count { self.old.changes < 2 ^ 63 }
        ensures sets { (G.map self.new.grid) ≡ with_heights (G.map self.old.grid) y
            (values_of L.code row.now) }
        ensures origin { ComesFrom (G.map self.old.grid) self.old.tiling.side self.old.stamps.items
            (G.map self.new.grid) self.new.tiling.side self.new.stamps.items }
        ensures count { CountsChange (G.map self.old.grid)
            (G.map self.new.grid) self.old.changes self.new.changes }
        ensures touched { TouchesProfile self.old.tiling.side y (G.map self.old.grid)
            (G.map self.new.grid) self.old.changes self.new.changes self.old.stamps.items
            self.new.stamps.items }
    {
        let stamp = self.changes + 1;
        if touch_changes(&mut self.stamps, self.tiling, &self.grid, y, row, stamp) {
            self.grid.set_heights(y, row);
            self.changes = stamp;
        }
    }

    #[inline]
    fn set_mask(&mut self, at: Pos, masked: bool) -> Result<(), MapError>
        requires { self.old.changes < 2 ^ 63 }
        ensures sets { SetsMask (G.map self.old.grid) at masked result (G.map self.new.grid) }
        ensures origin { ComesFrom (G.map self.old.grid) self.old.tiling.side self.old.stamps.items
            (G.map self.new.grid) self.new.tiling.side self.new.stamps.items }
        ensures count { CountsChange (G.map self.old.grid)
            (G.map self.new.grid) self.old.changes self.new.changes }
        ensures touched { TouchesRound self.old.tiling.side at (G.map self.old.grid)
            (G.map self.new.grid) self.old.changes self.new.changes self.old.stamps.items
            self.new.stamps.items }
    {
        if !contains(self.tiling.size(), at) {
            return Err(MapError::Outside(at));
        }
        if self.grid.masked(at) == masked {
            return Ok(());
        }
        self.grid.set_mask(at, masked)?;
        self.changes += 1;
        touch_round(&mut self.stamps, self.tiling, at, self.changes);
        Ok(())
    }

    fn set_adjacency(&mut self, adjacency: Adjacency)
        requires { self.old.changes < 2 ^ 63 }
        ensures sets { (G.map self.new.grid) ≡ under adjacency (G.map self.old.grid) }
        ensures origin { ComesFrom (G.map self.old.grid) self.old.tiling.side self.old.stamps.items
            (G.map self.new.grid) self.new.tiling.side self.new.stamps.items }
        ensures count { CountsChange (G.map self.old.grid)
            (G.map self.new.grid) self.old.changes self.new.changes }
        ensures touched { TouchesAll (G.map self.old.grid)
            (G.map self.new.grid) self.old.changes self.new.changes self.old.stamps.items
            self.new.stamps.items }
    {
        if self.grid.adjacency() == adjacency {
            return;
        }
        self.grid.set_adjacency(adjacency);
        self.changes += 1;
        touch_all(&mut self.stamps, self.changes);
    }
}

impl<G: Grid> Looked for Tiles<G> {
    ghost use Rattle.std.specs.Prelude.{replicate, true};
    ghost use Rattle.std.proofs.lemmas.List.{length-replicate};
    ghost use Rattle.hd_map.specs.Map.{cell_count};
    ghost use Rattle.hd_tiles.specs.Origin.{counted-as};

    ghost map = { λ t. G.map t.grid };

    ghost tile_side = { λ t. t.tiling.side };

    ghost stamps = { λ t. t.stamps.items };

    ghost leave = { λ t. replicate (cell_count (G.map t.grid).size) true };

    ghost whole = { λ t. record {
      map = G.whole t.grid;
      side = t.tiling.tile_side;
      tiles = counted-as t.stamps.items t.tiling.size (G.map t.grid).size t.tiling.side t.same_size t.stamped;
      positions = length-replicate (cell_count (G.map t.grid).size) true;
    } };

    fn size(&self) -> Size {
        self.tiling.size()
    }

    fn side(&self) -> u32 {
        self.tiling.side()
    }

    fn stamp(&self, tile: u32) -> u64 {
        self.stamps[tile as usize]
    }

    fn look<L: Ledger>(&self, at: Pos, looks: &mut Steps<L>) -> Option<i64> {
        looks.tick();
        self.grid.height(at)
    }

    fn adjacency(&self) -> Adjacency {
        self.grid.adjacency()
    }
}
