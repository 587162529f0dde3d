// The regions of pits, gathered basin by basin.
ghost use Rattle.std.specs.Prelude.{◌≡◌, ◌≢◌, ◌<◌, ◌+◌, ◌^◌, All, IfOk, None, Some, length, map, slice_index_or};
ghost use Rattle.std.specs.Option.{ForSome};
ghost use Rattle.hd_basin.specs.Adding.{IsGreater, IsLesser};
ghost use Rattle.hd_basin.specs.Extents.{AddsBasin, IsExtentWith, IsOfBoth};

use crate::adding::{greater, lesser};
use crate::{Extent, Node};
use hd_list::{List, Memory};
use hd_map::Rank;
use std::alloc::Global;

/// Adds the basin of a node to the region of the pit of a number.
pub fn add_basin(extents: &mut Vec<Option<Extent>>, number: u32, pit: Rank, node: Node)
    requires inside { number < length extents.old.items }
    requires few { ForSome (slice_index_or extents.old.items number None)
        (λ e. e.points + node.points < 2 ^ 64) }
    ensures { AddsBasin extents.old.items extents.new.items number pit node }
{
    let number = number as usize;
    extents[number] = Some(extent_with(extents[number], pit, node));
}

/// The extents of all of these, which are all known.
pub fn listed(alloc: Global, extents: &[Option<Extent>]) -> Result<List<Extent>, Memory>
    requires { All (λ e. e ≢ None) extents.now }
    ensures { IfOk result (λ list. map Some list ≡ extents.now) }
{
    let mut list = List::with_capacity(alloc, extents.len())?;
    'extents: for extent in extents {
        let Some(extent) = extent else {
            unreachable!();
        };
        list.push(*extent)?;
    }
    Ok(list)
}

// What is known of a pit's region with the basin of a node more.
fn extent_with(known: Option<Extent>, pit: Rank, node: Node) -> Extent
    requires { ForSome known (λ e. e.points + node.points < 2 ^ 64) }
    ensures { IsExtentWith known pit node result }
{
    match known {
        Some(extent) => Extent {
            pit: extent.pit,
            points: extent.points + node.points,
            high: greater(extent.high, node.high),
            least: lesser(extent.least, node.least),
            edge_low: least_of(extent.edge_low, node.edge_low),
            edge_high: greatest_of(extent.edge_high, node.edge_high),
        },
        None => Extent {
            pit,
            points: node.points,
            high: node.high,
            least: node.least,
            edge_low: node.edge_low,
            edge_high: node.edge_high,
        },
    }
}

// The lesser of two heights, and the one that is there where the other is none.
fn least_of(a: Option<i64>, b: Option<i64>) -> Option<i64>
    ensures { IsOfBoth IsLesser a b result }
{
    match (a, b) {
        (Some(a), Some(b)) => Some(lesser(a, b)),
        (Some(a), None) => Some(a),
        (None, b) => b,
    }
}

// The greater of two heights, and the one that is there where the other is none.
fn greatest_of(a: Option<i64>, b: Option<i64>) -> Option<i64>
    ensures { IsOfBoth IsGreater a b result }
{
    match (a, b) {
        (Some(a), Some(b)) => Some(greater(a, b)),
        (Some(a), None) => Some(a),
        (None, b) => b,
    }
}
