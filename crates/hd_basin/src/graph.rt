// The lows and passes of a graph of local basins, from the tiles.
ghost use Rattle.std.specs.Prelude.{◌≡◌, ◌++◌, IfOk, OnOk, map, slice_get};
ghost use Rattle.std.specs.List.{flat_map};
ghost use Rattle.hd_basin.specs.Parts.{inner_passes, low_or_none, pass_named};
ghost use Rattle.hd_basin.specs.Graph.{as_low, lows_in, in_order, pass_of, passes_in, was_seen_with};

use crate::Node;
use crate::part::{Join, Seam};
use crate::shown::Shown;
use crate::stock::Stock;
use hd_graph::Low;
use hd_list::{List, Memory};
use hd_map::{Pass, Rank, Side};
use std::alloc::Global;

/// The lows of all nodes, tile by tile.
pub fn lows_of(alloc: Global, stock: &Stock) -> Result<List<Low>, Memory>
    ensures { IfOk result (λ lows. lows ≡ flat_map lows_in stock.now) }
{
    let mut lows = List::new(alloc);
    let tiles = stock.count();
    'tiles: for tile in 0..tiles {
        let part = stock.part(tile);
        push_lows(&mut lows, &part)?;
    }
    Ok(lows)
}

// Adds the lows of a tile.
fn push_lows(lows: &mut List<Low>, part: &Shown) -> Result<(), Memory>
    ensures { OnOk result (lows.new ≡ lows.old ++ lows_in part.now) }
{
    let count = part.count();
    'numbers: for number in 0..count {
        lows.push(as_low(part.node(number)))?;
    }
    Ok(())
}

// The sink of a node as a low.
fn as_low(node: Node) -> Low
    ensures { result ≡ as_low node }
{
    Low {
        rank: node.low,
        pit: node.flows.is_none(),
    }
}

/// The passes of all tiles, each with its lower end first, without the void seams.
pub fn passes_of<S: Side>(alloc: Global, stock: &Stock) -> Result<List<Pass>, Memory>
    ensures { IfOk result (λ passes. passes ≡ flat_map (passes_in S.NAME stock.now) stock.now) }
{
    let mut passes = List::new(alloc);
    let tiles = stock.count();
    'tiles: for tile in 0..tiles {
        let part = stock.part(tile);
        push_passes::<S>(&mut passes, stock, &part)?;
    }
    Ok(passes)
}

// Adds the passes of a tile, without the void seams.
fn push_passes<S: Side>(passes: &mut List<Pass>, stock: &Stock, part: &Shown) -> Result<(), Memory>
    ensures { OnOk result (passes.new ≡ passes.old ++ passes_in S.NAME stock.now part.now) }
{
    push_inside::<S>(passes, part)?;
    push_across::<S>(passes, stock, part.seams())?;
    Ok(())
}

// Adds the passes between two nodes of a tile.
fn push_inside<S: Side>(passes: &mut List<Pass>, part: &Shown) -> Result<(), Memory>
    ensures { OnOk result (passes.new ≡ passes.old ++ map (in_order S.NAME) (inner_passes part.now)) }
{
    let found = part.joins();
    'found: for join in found {
        let pass = pass_named(part, *join);
        passes.push(in_order::<S>(pass))?;
    }
    Ok(())
}

// The pass between two nodes, by their numbers.
fn pass_named(part: &Shown, join: Join) -> Pass
    ensures { result ≡ pass_named part.now.nodes join }
{
    Pass {
        a: low_of(part, join.a),
        b: low_of(part, join.b),
        at: join.at,
    }
}

// The sink of the node of a number, and no point where there is no node.
fn low_of(part: &Shown, number: u32) -> Rank
    ensures { result ≡ low_or_none (slice_get part.now.nodes number) }
{
    match part.find(number) {
        Some(node) => node.low,
        None => Rank {
            height: 0,
            index: 0,
        },
    }
}

// Adds the passes of these seams, without the void ones.
fn push_across<S: Side>(
    passes: &mut List<Pass>,
    stock: &Stock,
    seams: &[Seam],
) -> Result<(), Memory>
    ensures { OnOk result (passes.new ≡ passes.old ++ flat_map (pass_of S.NAME stock.now) seams.now) }
{
    'seams: for seam in seams {
        push_seam::<S>(passes, stock, *seam)?;
    }
    Ok(())
}

// Adds the pass of a seam, unless it is void.
fn push_seam<S: Side>(passes: &mut List<Pass>, stock: &Stock, seam: Seam) -> Result<(), Memory>
    ensures { OnOk result (passes.new ≡ passes.old ++ pass_of S.NAME stock.now seam) }
{
    if was_seen_with(stock, seam.with, seam.stamp) {
        passes.push(in_order::<S>(seam.pass))?;
    }
    Ok(())
}

/// Whether a tile was seen with this stamp.
pub fn was_seen_with(stock: &Stock, tile: u32, stamp: u64) -> bool
    ensures { result ≡ was_seen_with (slice_get stock.now tile) stamp }
{
    stock.seen(tile) == Some(stamp)
}

// The pass with its lower end first.
fn in_order<S: Side>(pass: Pass) -> Pass
    ensures { result ≡ in_order S.NAME pass }
{
    if S::below(pass.b, pass.a) {
        Pass {
            a: pass.b,
            b: pass.a,
            at: pass.at,
        }
    } else {
        pass
    }
}
