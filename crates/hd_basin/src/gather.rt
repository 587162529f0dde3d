// The nodes and the labels of a tile, gathered point by point.
ghost use Rattle.std.specs.Prelude.{◌≡◌, ◌≢◌, ◌<◌, ◌≤◌, ◌*◌, ◌+◌, ◌^◌, ℕ, IfOk, OnOk, MatchOption, Some, None, if◌then◌else◌, slice_get, length};
ghost use Rattle.std.specs.Bool.{OnTrue};
ghost use Rattle.hd_map.specs.Map.{Present};
ghost use Rattle.hd_tiles.specs.Tile.{tile_count};
ghost use Rattle.hd_basin.specs.declared.node.Node.{Node};
ghost use Rattle.hd_basin.specs.Frames.{InFrame};
ghost use Rattle.hd_basin.specs.Gathering.{Counts, IsGathered};
ghost use Rattle.hd_basin.specs.Inside.{place_of_frame};
ghost use Rattle.hd_basin.specs.Parts.{place_in_tile};
ghost use Rattle.hd_basin.specs.Round.{AreAllPoints, AreRanks};
ghost use Rattle.hd_basin.specs.Sinks.{AreSunk, IsArea, IsSunk, at_place, no_node};
ghost use Rattle.hd_map.specs.Rank.{rank};
ghost use Rattle.hd_map.specs.Region.{IsPit};
ghost use Rattle.hd_basin.specs.Basin.{FlowsTo};

use crate::Node;
use crate::adding::add_point;
use crate::edge::{are_all_points, is_edge};
use crate::flows::flows_of;
use crate::frame::{Frame, Plot, position_in};
use crate::links::NO_LINK;
use crate::round::rank_in;
use hd_list::Memory;
use hd_map::{Heights, Pos, Rank, Side, rank_of};
use std::alloc::Global;

/// Stands where no node is.
const NO_NODE: u32 = 4_294_967_295;

/// What was gathered from the points at the first places of a tile.
#[derive(Drop)]
pub struct Gathered {
    /// The nodes of the basins that were met.
    pub nodes: Vec<Node>,
    /// By the place of its sink the number of each node, and `NO_NODE` at all other places.
    pub numbers: Vec<u32>,
    /// For each of these places the number of its point's node, and `NO_NODE` without a point.
    pub labels: Vec<u32>,
}

impl Gathered {
    // Gathers the points of a row of the tile.
    fn take_row<S: Side, G: Heights>(
        &mut self,
        grid: &G,
        plot: Plot,
        ranks: &[Rank],
        sinks: &[u32],
        row: u32,
        whole: bool,
    ) -> Result<(), Memory>
        requires size { plot.tiling.size ≡ (G.map grid.now).size }
        requires area { IsArea (G.map grid.now).size plot.tiling.side plot.tile plot.area }
        requires ranks { AreRanks (G.map grid.now) S.NAME plot.area
            ((plot.area.rows + 2) * (plot.area.columns + 2)) ranks.now }
        requires whole { OnTrue whole (AreAllPoints S.NAME ranks.now) }
        requires sunk { AreSunk (G.map grid.now) S.NAME plot.tiling.side plot.area sinks.now }
        requires row { row < plot.area.rows }
        requires before { IsGathered (G.map grid.now) S.NAME plot.tiling.side plot.tile plot.area
            (row * plot.area.columns) self.old.nodes.items self.old.numbers.items
            self.old.labels.items }
        ensures { OnOk result (IsGathered (G.map grid.now) S.NAME plot.tiling.side plot.tile
            plot.area ((row + 1) * plot.area.columns) self.new.nodes.items self.new.numbers.items
            self.new.labels.items) }
    {
        let area = plot.area;
        for column in 0..area.columns {
            let at = Pos {
                x: area.left + column,
                y: area.top + row,
            };
            let sink = sinks[(row * area.columns + column) as usize];
            self.take::<S, G>(grid, plot, ranks, at, sink, whole)?;
        }
        Ok(())
    }

    // Gathers the point at a position, if one is present there.
    #[inline]
    fn take<S: Side, G: Heights>(
        &mut self,
        grid: &G,
        plot: Plot,
        ranks: &[Rank],
        at: Pos,
        sink: u32,
        whole: bool,
    ) -> Result<(), Memory>
        requires size { plot.tiling.size ≡ (G.map grid.now).size }
        requires area { IsArea (G.map grid.now).size plot.tiling.side plot.tile plot.area }
        requires ranks { AreRanks (G.map grid.now) S.NAME plot.area
            ((plot.area.rows + 2) * (plot.area.columns + 2)) ranks.now }
        requires whole { OnTrue whole (AreAllPoints S.NAME ranks.now) }
        requires at { InFrame plot.area at }
        requires sunk { IsSunk (G.map grid.now) S.NAME plot.tiling.side plot.area
            (place_of_frame plot.area at) sink }
        requires before { IsGathered (G.map grid.now) S.NAME plot.tiling.side plot.tile plot.area
            (place_of_frame plot.area at) self.old.nodes.items self.old.numbers.items
            self.old.labels.items }
        ensures { OnOk result (IsGathered (G.map grid.now) S.NAME plot.tiling.side plot.tile
            plot.area (place_of_frame plot.area at + 1) self.new.nodes.items self.new.numbers.items
            self.new.labels.items) }
    {
        if sink == NO_LINK {
            self.labels.push(NO_NODE)?;
            return Ok(());
        }
        let label = self.count::<S, G>(grid, plot, ranks, at, sink, whole)?;
        self.labels.push(label)?;
        Ok(())
    }

    // Counts a point in the basin of the sink at a place, and tells the number of the node.
    #[inline]
    fn count<S: Side, G: Heights>(
        &mut self,
        grid: &G,
        plot: Plot,
        ranks: &[Rank],
        at: Pos,
        home: u32,
        whole: bool,
    ) -> Result<u32, Memory>
        requires size { plot.tiling.size ≡ (G.map grid.now).size }
        requires ranks { AreRanks (G.map grid.now) S.NAME plot.area
            ((plot.area.rows + 2) * (plot.area.columns + 2)) ranks.now }
        requires whole { OnTrue whole (AreAllPoints S.NAME ranks.now) }
        requires columns { plot.area.columns ≤ 256 }
        requires rows { plot.area.rows ≤ 256 }
        requires at { Present (G.map grid.now) at }
        requires at_in { InFrame plot.area at }
        requires sink { Present (G.map grid.now) (at_place plot.area home) }
        requires sink_in { home < plot.area.columns * plot.area.rows }
        requires home { home ≡ place_in_tile plot.tiling.size plot.tiling.side (at_place plot.area home) }
        requires right { plot.area.left + plot.area.columns < 65536 }
        requires bottom { plot.area.top + plot.area.rows < 65536 }
        requires inside { home < length self.old.numbers.items }
        requires few { length self.old.nodes.items < 2 ^ 31 }
        requires known { (j i : ℕ) → slice_get self.old.numbers.items j ≡ Some i → i ≢ no_node
            → i < length self.old.nodes.items }
        requires small { (i : ℕ) (n : Node) → slice_get self.old.nodes.items i ≡ Some n → n.points < 2 ^ 31 }
        ensures counts { IfOk result (λ label. Counts
            (G.map grid.now) S.NAME plot.tiling.side plot.tile at
            (at_place plot.area home) self.old.nodes.items self.new.nodes.items
            self.old.numbers.items self.new.numbers.items label) }
        ensures labels { self.new.labels.items ≡ self.old.labels.items }
    {
        let area = plot.area;
        let point = rank_in::<S, G>(grid, area, ranks, at);
        let edge = is_edge::<S, G>(grid, area, ranks, at, whole);
        let number = self.numbers[home as usize];
        if number == NO_NODE {
            let number = self.nodes.len() as u32;
            let sink = position_in(area, home);
            let node = first_node::<S, G>(grid, plot.tile, area, ranks, sink, point, edge);
            self.nodes.push(node)?;
            self.numbers[home as usize] = number;
            return Ok(number);
        }
        add_point(&mut self.nodes[number as usize], point, edge);
        Ok(number)
    }
}

/// The nodes, the labels and the numbers of the nodes of a tile, from the sinks of its points.
pub fn gather<S: Side, G: Heights>(
    alloc: Global,
    grid: &G,
    plot: Plot,
    ranks: &[Rank],
    sinks: &[u32],
) -> Result<Gathered, Memory>
    requires size { plot.tiling.size ≡ (G.map grid.now).size }
    requires tile { plot.tile < tile_count plot.tiling.size plot.tiling.side }
    requires area { IsArea (G.map grid.now).size plot.tiling.side plot.tile plot.area }
    requires ranks { AreRanks (G.map grid.now) S.NAME plot.area
        ((plot.area.rows + 2) * (plot.area.columns + 2)) ranks.now }
    requires sunk { AreSunk (G.map grid.now) S.NAME plot.tiling.side plot.area sinks.now }
    ensures { IfOk result (λ all. IsGathered (G.map grid.now) S.NAME plot.tiling.side plot.tile
        plot.area (plot.area.columns * plot.area.rows) all.nodes.items all.numbers.items
        all.labels.items) }
{
    let count = (plot.area.columns * plot.area.rows) as usize;
    let mut all = Gathered {
        nodes: Vec::new(alloc),
        numbers: vec![in alloc; NO_NODE; count]?,
        labels: Vec::with_capacity(alloc, count)?,
    };
    let whole = are_all_points::<S>(ranks);
    for row in 0..plot.area.rows {
        all.take_row::<S, G>(grid, plot, ranks, sinks, row, whole)?;
    }
    Ok(all)
}

// The node of a sink with one point.
fn first_node<S: Side, G: Heights>(
    grid: &G,
    tile: u32,
    area: Frame,
    ranks: &[Rank],
    sink: Pos,
    point: Rank,
    edge: bool,
) -> Node
    requires present { Present (G.map grid.now) sink }
    requires ranks { AreRanks (G.map grid.now) S.NAME area ((area.rows + 2) * (area.columns + 2)) ranks.now }
    requires columns { area.columns ≤ 256 }
    requires rows { area.rows ≤ 256 }
    requires in_frame { InFrame area sink }
    ensures low { result.low ≡ rank (G.map grid.now) sink }
    ensures flows { MatchOption result.flows (IsPit (G.map grid.now) S.NAME result.low)
        (FlowsTo (G.map grid.now) S.NAME result.low) }
    ensures tile { result.tile ≡ tile }
    ensures points { result.points ≡ 1 }
    ensures high { result.high ≡ point.height }
    ensures least { result.least ≡ point.height }
    ensures edge_low { result.edge_low ≡ (if edge then Some point.height else None) }
    ensures edge_high { result.edge_high ≡ (if edge then Some point.height else None) }
{
    let edge_height = if edge { Some(point.height) } else { None };
    Node {
        low: rank_of(grid, sink),
        flows: flows_of::<S, G>(grid, area, ranks, sink),
        tile,
        points: 1,
        high: point.height,
        least: point.height,
        edge_low: edge_height,
        edge_high: edge_height,
    }
}
