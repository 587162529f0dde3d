// The edge points of a map, where its regions are known.
ghost use Rattle.std.specs.Prelude.{◌≡◌, ◌<◌, ◌+◌, not, length};
ghost use Rattle.std.specs.List.{list_any};
ghost use Rattle.hd_map.specs.Map.{InGrid, cell_count};
ghost use Rattle.hd_steep.specs.Numbering.{roots_of};
ghost use Rattle.hd_survey.specs.Edges.{HaveRoots, at as place_at, beside, edge_height, is_border, is_edge, is_here};

use hd_map::{Heights, Pos, Size, index_of};
use hd_steep::Regions;

/// The height of an edge point in steps, and none of any other point.
#[inline]
pub fn edge_height<G: Heights>(grid: &G, regions: &Regions, at: Pos) -> Option<i64>
    requires inside { InGrid (G.map grid.now).size at }
    requires whole { length regions.now.numbers ≡ cell_count (G.map grid.now).size }
    requires present { HaveRoots (G.map grid.now) (roots_of regions.now) }
    ensures { result ≡ edge_height (G.map grid.now) at }
{
    if is_edge(grid, regions, at) {
        grid.height(at)
    } else {
        None
    }
}

// Whether a present point is on the border, or has a position beside it where no point is present.
#[inline]
fn is_edge<G: Heights>(grid: &G, regions: &Regions, at: Pos) -> bool
    requires inside { InGrid (G.map grid.now).size at }
    requires whole { length regions.now.numbers ≡ cell_count (G.map grid.now).size }
    requires present { HaveRoots (G.map grid.now) (roots_of regions.now) }
    ensures { result ≡ is_edge (G.map grid.now) at }
{
    is_border(grid.size(), at) || has_gap_beside(grid, regions, at)
}

// Whether a position is on the border of the grid.
#[inline]
fn is_border(size: Size, at: Pos) -> bool
    requires { InGrid size at }
    ensures { result ≡ is_border size at }
{
    at.x == 0 || at.y == 0 || at.x + 1 == size.points || at.y + 1 == size.profiles
}

// Whether at one of the eight positions beside a position no point is present.
#[inline]
fn has_gap_beside<G: Heights>(grid: &G, regions: &Regions, at: Pos) -> bool
    requires inside { InGrid (G.map grid.now).size at }
    requires left { 0 < at.x }
    requires up { 0 < at.y }
    requires right { at.x + 1 < (G.map grid.now).size.points }
    requires down { at.y + 1 < (G.map grid.now).size.profiles }
    requires whole { length regions.now.numbers ≡ cell_count (G.map grid.now).size }
    requires present { HaveRoots (G.map grid.now) (roots_of regions.now) }
    ensures { result ≡ list_any (λ q. not (is_here (G.map grid.now) q)) (beside at) }
{
    let (left, right) = (at.x - 1, at.x + 1);
    let (above, below) = (at.y - 1, at.y + 1);
    !is_here(grid, regions, left, above)
        || !is_here(grid, regions, at.x, above)
        || !is_here(grid, regions, right, above)
        || !is_here(grid, regions, left, at.y)
        || !is_here(grid, regions, right, at.y)
        || !is_here(grid, regions, left, below)
        || !is_here(grid, regions, at.x, below)
        || !is_here(grid, regions, right, below)
}

// Whether a point is present in this column and profile: it lies in a region.
#[inline]
fn is_here<G: Heights>(grid: &G, regions: &Regions, x: u32, y: u32) -> bool
    requires column { x < (G.map grid.now).size.points }
    requires profile { y < (G.map grid.now).size.profiles }
    requires whole { length regions.now.numbers ≡ cell_count (G.map grid.now).size }
    requires present { HaveRoots (G.map grid.now) (roots_of regions.now) }
    ensures { result ≡ is_here (G.map grid.now) (place_at x y) }
{
    regions
        .number(index_of(grid.size(), Pos { x, y }) as usize)
        .is_some()
}
