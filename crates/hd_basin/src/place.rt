// The places of positions in the lists of their tiles.
ghost use Rattle.std.specs.Prelude.{◌≡◌};
ghost use Rattle.hd_map.specs.Map.{InGrid};
ghost use Rattle.hd_basin.specs.Parts.{place_in_tile};

use hd_map::Pos;
use hd_tiles::Tiling;

/// The place of a position in the lists of its tile: profile by profile of the tile.
#[inline]
pub fn place_in_tile(tiling: Tiling, at: Pos) -> u32
    requires { InGrid tiling.size at }
    ensures { result ≡ place_in_tile tiling.size tiling.side at }
{
    let side = tiling.side();
    let left = at.x / side * side;
    let columns = side.min(tiling.size().points - left);
    at.y % side * columns + at.x % side
}
