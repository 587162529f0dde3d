// Nodes with one more point.
ghost use Rattle.std.specs.Prelude.{◌<◌, ◌^◌};
ghost use Rattle.hd_basin.specs.Adding.{AddsPoint, IsGreater, IsLesser, GoesOn};

use crate::Node;
use hd_map::Rank;

/// Counts one more point of the basin, which may be an edge point.
#[inline]
pub fn add_point(node: &mut Node, point: Rank, edge: bool)
    requires { node.old.points < 2 ^ 63 }
    ensures { AddsPoint point.height edge node.old node.new }
{
    node.points += 1;
    node.high = greater(node.high, point.height);
    node.least = lesser(node.least, point.height);
    node.edge_low = lesser_edge(node.edge_low, point.height, edge);
    node.edge_high = greater_edge(node.edge_high, point.height, edge);
}

// The least height of the edge points with one more point.
#[inline]
fn lesser_edge(old: Option<i64>, height: i64, edge: bool) -> Option<i64>
    ensures { GoesOn IsLesser edge old height result }
{
    if !edge {
        return old;
    }
    match old {
        Some(low) => Some(lesser(low, height)),
        None => Some(height),
    }
}

// The greatest height of the edge points with one more point.
#[inline]
fn greater_edge(old: Option<i64>, height: i64, edge: bool) -> Option<i64>
    ensures { GoesOn IsGreater edge old height result }
{
    if !edge {
        return old;
    }
    match old {
        Some(high) => Some(greater(high, height)),
        None => Some(height),
    }
}

/// The greater of two heights.
#[inline]
pub fn greater(a: i64, b: i64) -> i64
    ensures { IsGreater a b result }
{
    if b <= a { a } else { b }
}

/// The lesser of two heights.
#[inline]
pub fn lesser(a: i64, b: i64) -> i64
    ensures { IsLesser a b result }
{
    if a <= b { a } else { b }
}
