// The point of an index.
ghost use Rattle.std.specs.Prelude.{◌≡◌};
ghost use Rattle.hd_steep.specs.Links.{HasPointAt};
ghost use Rattle.hd_steep.specs.Passes.{point_of};

use hd_map::{Heights, Rank, position_of, rank_of};

/// The point of an index.
#[inline]
pub fn point_at<G: Heights>(grid: &G, index: u32) -> Rank
    requires { HasPointAt (G.map grid.now) index }
    ensures { result ≡ point_of (G.map grid.now) index }
{
    rank_of(grid, position_of(grid.size(), index))
}
