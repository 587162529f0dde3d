// The pool of the local basins of a map.
ghost use Rattle.std.specs.Prelude.{◌≡◌, ◌≢◌, ◌<◌, ◌≤◌, ◌⊎◌, ◌+◌, ◌*◌, ◌^◌, ◌-◌, ℕ, [], List, All, Contains, IfOk, OnOk, OnErr, Option, Some, None, true, slice_get, slice_index, length};
ghost use Rattle.hd_map.specs.declared.types.Pos.{Pos};
ghost use Rattle.hd_map.specs.Map.{Map, IsMap, IsSize, InGrid, place_of};
ghost use Rattle.hd_map.specs.Crossings.{AreCrossingsUnder};
ghost use Rattle.hd_map.specs.Region.{AreRegions};
ghost use Rattle.hd_steep.specs.Crossings.{HasPits, passes_of};
ghost use Rattle.hd_tiles.specs.Tile.{IsTileSide, IsRound, tile_count};
ghost use Rattle.hd_basin.specs.InStep.{IsInStep, IsPoolOf, HasMap, HasSeenAll, KeepsSeen, IsBesideStale};
ghost use Rattle.hd_basin.specs.declared.node.Node.{Node};
ghost use Rattle.hd_basin.specs.declared.part.Part.{Part};
ghost use Rattle.hd_basin.specs.Parts.{HasNode, IsFresh, IsSound, node_of, stale_count};
ghost use Rattle.hd_basin.specs.Built.{IsBuilt};
ghost use Rattle.hd_basin.specs.Reading.{RootIs, NodeIs, IsGraphOf, AreExtents};
ghost use Rattle.hd_basin.specs.Between.{AddsAcross, AddsInside, AddsLinks, EndInNodes, IsNodeLow, LiesIn};
ghost use Rattle.hd_basin.specs.Graph.{pass_of};
ghost use Rattle.hd_basin.specs.Known.{AreKnown, AreKnownTo, FlowsOn, KeepsKnown, LeadTo};
ghost use Rattle.hd_basin.specs.Placed.{unknown};
ghost use Rattle.hd_basin.specs.Roots.{AreRoots, nodes_before};
ghost use Rattle.hd_basin.specs.Gathered.{AreGatheredTo};
ghost use Rattle.hd_basin.specs.Spots.{IsSpot, SpotIs, node_named, place_of_node};

use crate::between::push_link;
use crate::extents::{add_basin, listed};
use crate::graph::{lows_of, passes_of, was_seen_with};
use crate::made::made;
use crate::part::{Part, Seam};
use crate::place::place_in_tile;
use crate::placed::number_pits;
use crate::roots::{Roots, UNKNOWN};
use crate::spot::{Spot, note};
use crate::stock::Stock;
use crate::{Extent, Node, NodeKey};
use hd_graph::Graph;
use hd_list::{List, Memory};
use hd_map::{Link, Pos, Rank, Side, Size, position_of};
use hd_tiles::{Looked, Steps, Tiling};
use std::alloc::Global;
use std::marker::{Model, PhantomData};
use std::sync::ledger::Ledger;

/// A pool of the local basins of a map in tiles, with the passes between them. Each node stands under a key
/// that its tile lists, each label names a node of its own tile, and each pass that is not void names two
/// nodes. Contracts see it as the size, the side of the tiles and what is kept of each tile.
#[derive(Drop)]
pub struct Basins<S: Side> {
    alloc: Global,
    tiling: Tiling,
    stock: Stock,
    side: PhantomData<S>,
}

impl<S: Side> Model for Basins<S> {
    ghost use Rattle.hd_map.specs.Map.{IsSize};
    ghost use Rattle.hd_tiles.specs.Tile.{IsTileSide};
    ghost use Rattle.hd_basin.specs.Parts.{IsSound, Pool};

    ghost Value = { Pool };

    ghost view = { λ b. record { size = b.tiling.size; side = b.tiling.side; parts = b.stock } };

    ghost invariant = { λ b. IsSound (record { size = b.tiling.size; side = b.tiling.side; parts = b.stock }) };
}

impl<S: Side> Basins<S> {
    /// A pool of a grid of this size in tiles of this side, from 8 to 256 points, that holds no node and has
    /// seen no tile.
    pub fn new(alloc: Global, size: Size, side: u32) -> Result<Basins<S>, Memory>
        requires limits { IsSize size }
        requires side { IsTileSide side }
        ensures size { IfOk result (λ pool. pool.size ≡ size) }
        ensures side { IfOk result (λ pool. pool.side ≡ side) }
        ensures empty { IfOk result (λ pool. (tile : ℕ) (n : Node) → HasNode pool.parts tile n → ⊥) }
        ensures unseen { IfOk result (λ pool. (tile : ℕ) (part : Part)
            → slice_get pool.parts tile ≡ Some part → part.seen ≡ None) }
        ensures in_step { IfOk result (λ pool. (m : Map) (stamps : List ℕ) → m.size ≡ size
            → IsInStep m S.NAME stamps pool) }
    {
        let tiling = Tiling::new(size, side);
        let stock = Stock::new(alloc, tiling.count())?;
        Ok(Basins {
            alloc,
            tiling,
            stock,
            side: PhantomData,
        })
    }

    /// Brings the pool up to the present map. It looks at no more than (t + 2)² positions for each tile of
    /// side t whose stamp is not the one that it was seen with, all of them in that tile or beside it.
    ///
    /// The pool is in step then too, what was seen with its present stamp stays seen, and the next
    /// refresh does what is missing.
    pub fn refresh<T: Looked, L: Ledger>(
        &mut self,
        tiles: &T,
        looks: &mut Steps<L>,
    ) -> Result<(), Memory>
        requires side { self.old.side ≡ T.tile_side tiles.now }
        requires in_step { IsInStep (T.map tiles.now) S.NAME (T.stamps tiles.now) self.old }
        requires leave { (p : Pos) → IsBesideStale (T.map tiles.now) (T.stamps tiles.now) self.old p
            → slice_get (T.leave tiles.now) (place_of (T.map tiles.now).size p) ≡ Some true }
        ensures pool { OnOk result (IsPoolOf (T.map tiles.now) S.NAME self.new) }
        ensures seen { OnOk result (HasSeenAll (T.stamps tiles.now) self.new) }
        ensures in_step { IsInStep (T.map tiles.now) S.NAME (T.stamps tiles.now) self.new }
        ensures kept { OnErr result (KeepsSeen (T.stamps tiles.now) self.old self.new) }
        ensures side { self.new.side ≡ self.old.side }
        ensures looks { looks.new ≤ looks.old
            + stale_count (T.stamps tiles.now) self.old.parts *
            ((self.old.side + 2) * (self.old.side + 2)) }
    {
        'each: for tile in 0..self.tiling.count() {
            self.refresh_tile(tiles, looks, tile)?;
        }
        Ok(())
    }

    // Brings one tile up to the present map.
    fn refresh_tile<T: Looked, L: Ledger>(
        &mut self,
        tiles: &T,
        looks: &mut Steps<L>,
        tile: u32,
    ) -> Result<(), Memory>
        requires side { self.old.side ≡ T.tile_side tiles.now }
        requires in_step { IsInStep (T.map tiles.now) S.NAME (T.stamps tiles.now) self.old }
        requires tile { tile < length self.old.parts }
        requires leave { (p : Pos) → IsBesideStale (T.map tiles.now) (T.stamps tiles.now) self.old p
            → slice_get (T.leave tiles.now) (place_of (T.map tiles.now).size p) ≡ Some true }
        ensures fresh { OnOk result (IsFresh (T.stamps tiles.now) self.new.parts tile) }
        ensures sound { IsSound self.new }
        ensures in_step { IsInStep (T.map tiles.now) S.NAME (T.stamps tiles.now) self.new }
        ensures kept { KeepsSeen (T.stamps tiles.now) self.old self.new }
        ensures side { self.new.side ≡ self.old.side }
        ensures whole { length self.new.parts ≡ length self.old.parts }
        ensures looks { OnOk result (looks.new
            + stale_count (T.stamps tiles.now) self.new.parts *
            ((self.old.side + 2) * (self.old.side + 2)) ≤ looks.old
            + stale_count (T.stamps tiles.now) self.old.parts *
            ((self.old.side + 2) * (self.old.side + 2))) }
        ensures in_vain { OnErr result (looks.new ≤ looks.old
            + stale_count (T.stamps tiles.now) self.old.parts *
            ((self.old.side + 2) * (self.old.side + 2))) }
    {
        let seen = self.stock.seen(tile);
        let stamp = tiles.stamp(tile);
        if seen == Some(stamp) {
            return Ok(());
        }
        let part = self.build(tiles, looks, tile, stamp)?;
        self.stock.replace(self.alloc, tile, part)?;
        Ok(())
    }

    // What is to be kept of a tile whose stamp differs.
    fn build<T: Looked, L: Ledger>(
        &self,
        tiles: &T,
        looks: &mut Steps<L>,
        tile: u32,
        stamp: u64,
    ) -> Result<Part, Memory>
        requires side { self.now.side ≡ T.tile_side tiles.now }
        requires in_step { IsInStep (T.map tiles.now) S.NAME (T.stamps tiles.now) self.now }
        requires tile { tile < length self.now.parts }
        requires stamp { slice_get (T.stamps tiles.now) tile ≡ Some stamp }
        requires stale { IsFresh (T.stamps tiles.now) self.now.parts tile → ⊥ }
        requires leave { (p : Pos) → InGrid self.now.size p
            → IsRound self.now.size self.now.side tile p
            → slice_get (T.leave tiles.now) (place_of (T.map tiles.now).size p) ≡ Some true }
        ensures built { IfOk result (λ part. IsBuilt (T.map tiles.now) S.NAME self.now.side
            (T.stamps tiles.now) self.now.parts tile part) }
        ensures seen { IfOk result (λ part. part.seen ≡ Some stamp) }
        ensures looks { looks.new ≤ looks.old + (self.now.side + 2) * (self.now.side + 2) }
    {
        made::<S, T, L>(
            self.alloc,
            self.tiling,
            &self.stock,
            tiles,
            looks,
            tile,
            stamp,
        )
    }

    /// The node of a key, and none where no node has it.
    pub fn node(&self, key: NodeKey) -> Option<Node>
        ensures { NodeIs self.now key.key result }
    {
        let size = self.tiling.size();
        if key.key >= size.points as usize * size.profiles as usize {
            return None;
        }
        let node = self.node_at(position_of(size, key.key as u32))?;
        if node.low.index as usize == key.key {
            Some(node)
        } else {
            None
        }
    }

    /// The root of the point at a position, and none where no point is present. The pool is that of a
    /// whole map.
    pub fn label(&self, at: Pos) -> Option<Pos>
        requires pool { HasMap S.NAME self.now }
        requires in_grid { InGrid self.now.size at }
        ensures { (m : Map) → IsMap m → IsPoolOf m S.NAME self.now → RootIs m S.NAME at result }
    {
        let mut node = self.node_at(at)?;
        'walk: loop {
            let Some(onward) = node.flows else {
                return Some(position_of(self.tiling.size(), node.low.index));
            };
            match self.node_at(onward) {
                Some(next) => node = next,
                None => unreachable!(),
            }
        }
    }

    /// The pits, and the pit in whose region the basin of each node lies. The pool is that of a whole map. It takes
    /// time in proportion to the nodes, and to sort the pits.
    pub fn find_roots(&self) -> Result<Roots, Memory>
        requires { HasMap S.NAME self.now }
        ensures { IfOk result (AreRoots S.NAME self.now) }
    {
        let mut roots = number_pits(self.alloc, &self.stock)?;
        let mut way = Vec::new(self.alloc);
        let tiles = self.stock.count();
        'tiles: for tile in 0..tiles {
            self.number_tile(&mut roots, &mut way, tile)?;
        }
        Ok(roots)
    }

    // Gives each node of a tile its number. Each node of the tiles before has one.
    fn number_tile(
        &self,
        roots: &mut Roots,
        way: &mut Vec<usize>,
        tile: usize,
    ) -> Result<(), Memory>
        requires map { HasMap S.NAME self.now }
        requires tile { tile < length self.now.parts }
        requires known { AreKnown S.NAME self.now roots.old }
        requires before { AreKnownTo roots.old.numbers (nodes_before self.now.parts tile) }
        ensures known { OnOk result (AreKnown S.NAME self.now roots.new) }
        ensures through { OnOk result (AreKnownTo roots.new.numbers
            (nodes_before self.now.parts (tile + 1))) }
    {
        let count = self.stock.part(tile).count();
        'numbers: for number in 0..count {
            self.number_node(roots, way, Spot { tile, number })?;
        }
        Ok(())
    }

    // Gives a node its number, and those on its way.
    fn number_node(&self, roots: &mut Roots, way: &mut Vec<usize>, spot: Spot) -> Result<(), Memory>
        requires map { HasMap S.NAME self.now }
        requires spot { IsSpot self.now.parts spot }
        requires known { AreKnown S.NAME self.now roots.old }
        ensures known { OnOk result (AreKnown S.NAME self.now roots.new) }
        ensures kept { OnOk result (KeepsKnown roots.old.numbers roots.new.numbers) }
        ensures numbered { OnOk result
            (slice_index roots.new.numbers (place_of_node self.now.parts spot) ≢ unknown) }
    {
        way.clear();
        let number = self.follow(roots, way, spot)?;
        note(&mut roots.numbers, way, number);
        Ok(())
    }

    // Goes from node to node to the first that has a number, and lists the places of those before it.
    fn follow(&self, roots: &Roots, way: &mut Vec<usize>, spot: Spot) -> Result<u32, Memory>
        requires map { HasMap S.NAME self.now }
        requires spot { IsSpot self.now.parts spot }
        requires known { AreKnown S.NAME self.now roots.now }
        requires empty { way.old.items ≡ [] }
        ensures way { IfOk result
            (λ number. LeadTo S.NAME self.now roots.now.pits number way.new.items) }
        ensures known { IfOk result (λ number. number ≢ unknown) }
        ensures begins { OnOk result (Contains way.new.items (place_of_node self.now.parts spot)
            ⊎ (slice_index roots.now.numbers (place_of_node self.now.parts spot) ≢ unknown)) }
    {
        let mut here = spot;
        'walk: loop {
            let place = roots.firsts[here.tile] + here.number;
            let number = roots.numbers[place];
            if number != UNKNOWN {
                return Ok(number);
            }
            way.push(place)?;
            here = self.onward(here);
        }
    }

    // The node to which a node flows that is no pit.
    fn onward(&self, spot: Spot) -> Spot
        requires map { HasMap S.NAME self.now }
        requires spot { IsSpot self.now.parts spot }
        requires flows { (n : Node) → node_named self.now.parts spot ≡ Some n → n.flows ≢ None }
        ensures { (n : Node) → node_named self.now.parts spot ≡ Some n → FlowsOn self.now n result }
    {
        let node = self.stock.part(spot.tile).node(spot.number);
        let Some(at) = node.flows else {
            unreachable!();
        };
        match self.spot_at(at) {
            Some(next) => next,
            None => unreachable!(),
        }
    }

    // The node of the basin in which the point at a position lies, and none where no point is present.
    fn spot_at(&self, at: Pos) -> Option<Spot>
        requires { InGrid self.now.size at }
        ensures { SpotIs self.now at result }
    {
        let tile = self.tiling.tile_of(at) as usize;
        let part = self.stock.part(tile);
        let number = part.number_at(place_in_tile(self.tiling, at))?;
        Some(Spot { tile, number })
    }

    /// The passes between the regions of pits, from those between basins: each by the numbers of its two pits, at its
    /// point. The pool is that of a whole map, and the roots are its own.
    pub fn links(&self, roots: &Roots) -> Result<Vec<Link>, Memory>
        requires map { HasMap S.NAME self.now }
        requires roots { AreRoots S.NAME self.now roots.now }
        ensures ends { IfOk result (λ links. All (HasPits roots.now.pits) links.items) }
        ensures crossings { IfOk result (λ links. (m : Map) → IsMap m → IsPoolOf m S.NAME self.now
            → (labels : List (Option ℕ)) → AreRegions m S.NAME labels
            → AreCrossingsUnder m S.NAME labels (passes_of S.NAME roots.now.pits links.items)) }
    {
        let mut links = Vec::new(self.alloc);
        let tiles = self.stock.count();
        'tiles: for tile in 0..tiles {
            self.link_inside(&mut links, roots, tile)?;
            self.link_across(&mut links, roots, tile)?;
        }
        Ok(links)
    }

    // Adds the links of the passes within a tile.
    fn link_inside(&self, links: &mut Vec<Link>, roots: &Roots, tile: usize) -> Result<(), Memory>
        requires map { HasMap S.NAME self.now }
        requires roots { AreRoots S.NAME self.now roots.now }
        requires tile { tile < length self.now.parts }
        ensures { OnOk result
            (AddsInside S.NAME self.now roots.now.pits tile links.old.items links.new.items) }
    {
        let part = self.stock.part(tile);
        let first = roots.firsts[tile];
        let joins = part.joins();
        'joins: for join in joins {
            let a = roots.numbers[first + join.a as usize];
            let b = roots.numbers[first + join.b as usize];
            push_link(links, a, b, join.at)?;
        }
        Ok(())
    }

    // Adds the links of the seams of a tile that are not void.
    fn link_across(&self, links: &mut Vec<Link>, roots: &Roots, tile: usize) -> Result<(), Memory>
        requires map { HasMap S.NAME self.now }
        requires roots { AreRoots S.NAME self.now roots.now }
        requires tile { tile < length self.now.parts }
        ensures { OnOk result
            (AddsAcross S.NAME self.now roots.now.pits tile links.old.items links.new.items) }
    {
        let part = self.stock.part(tile);
        let seams = part.seams();
        'seams: for seam in seams {
            self.link_seam(links, roots, *seam)?;
        }
        Ok(())
    }

    // Adds the link of a seam, unless it is void.
    fn link_seam(&self, links: &mut Vec<Link>, roots: &Roots, seam: Seam) -> Result<(), Memory>
        requires map { HasMap S.NAME self.now }
        requires roots { AreRoots S.NAME self.now roots.now }
        requires ends { EndInNodes self.now.parts seam }
        ensures { OnOk result (AddsLinks S.NAME self.now roots.now.pits
            (pass_of S.NAME self.now.parts seam) links.old.items links.new.items) }
    {
        if was_seen_with(&self.stock, seam.with, seam.stamp) {
            let a = self.pit_number(roots, seam.pass.a);
            let b = self.pit_number(roots, seam.pass.b);
            push_link(links, a, b, seam.pass.at)?;
        }
        Ok(())
    }

    // The number of the pit in whose region the basin of a sink lies.
    fn pit_number(&self, roots: &Roots, sink: Rank) -> u32
        requires map { HasMap S.NAME self.now }
        requires roots { AreRoots S.NAME self.now roots.now }
        requires sink { IsNodeLow self.now.parts sink }
        ensures { LiesIn S.NAME self.now roots.now.pits sink result }
    {
        match self.spot_at(position_of(self.tiling.size(), sink.index)) {
            Some(spot) => roots.numbers[roots.firsts[spot.tile] + spot.number],
            None => unreachable!(),
        }
    }

    // The node of the basin in which the point at a position lies, and none where no point is present.
    fn node_at(&self, at: Pos) -> Option<Node>
        requires { InGrid self.now.size at }
        ensures { result ≡ node_of self.now.size self.now.side self.now.parts at }
    {
        let part = self.stock.part(self.tiling.tile_of(at) as usize);
        part.node_at(place_in_tile(self.tiling, at))
    }

    /// The graph of the local basins: their sinks as lows, which are pits exactly where they have no
    /// next, and the passes between them. The pool is that of a whole map.
    pub fn as_graph(&self) -> Result<Graph<S>, Memory>
        requires { HasMap S.NAME self.now }
        ensures { IfOk result (λ graph. (m : Map) → IsMap m → IsPoolOf m S.NAME self.now
            → IsGraphOf m S.NAME self.now.side graph) }
    {
        let lows = lows_of(self.alloc, &self.stock)?;
        let passes = passes_of::<S>(self.alloc, &self.stock)?;
        Ok(Graph::new(lows, passes))
    }

    /// The regions of all pits, by what their points sum up to, in position order. The pool is that of a
    /// whole map.
    pub fn extents(&self) -> Result<List<Extent>, Memory>
        requires { HasMap S.NAME self.now }
        ensures { IfOk result (λ extents. (m : Map) → IsMap m → IsPoolOf m S.NAME self.now
            → AreExtents m S.NAME extents) }
    {
        let roots = self.find_roots()?;
        self.extents_by(&roots)
    }

    /// The same by the roots of the pool.
    pub fn extents_by(&self, roots: &Roots) -> Result<List<Extent>, Memory>
        requires map { HasMap S.NAME self.now }
        requires roots { AreRoots S.NAME self.now roots.now }
        ensures { IfOk result (λ extents. (m : Map) → IsMap m → IsPoolOf m S.NAME self.now
            → AreExtents m S.NAME extents) }
    {
        let mut extents = vec![in self.alloc; None; roots.pits().len()]?;
        let tiles = self.stock.count();
        'tiles: for tile in 0..tiles {
            self.gather_tile(&mut extents, roots, tile);
        }
        listed(self.alloc, &extents)
    }

    // Adds the basins of a tile to the regions of their pits.
    fn gather_tile(&self, extents: &mut Vec<Option<Extent>>, roots: &Roots, tile: usize)
        requires map { HasMap S.NAME self.now }
        requires roots { AreRoots S.NAME self.now roots.now }
        requires tile { tile < length self.now.parts }
        requires before { AreGatheredTo S.NAME self.now roots.now.pits
            (nodes_before self.now.parts tile) extents.old.items }
        ensures { AreGatheredTo S.NAME self.now roots.now.pits
            (nodes_before self.now.parts (tile + 1)) extents.new.items }
    {
        let part = self.stock.part(tile);
        let pits = roots.pits();
        let first = roots.firsts[tile];
        let count = part.count();
        'numbers: for number in 0..count {
            let pit = roots.numbers[first + number];
            add_basin(extents, pit, pits[pit as usize], part.node(number));
        }
    }
}
