// Tiles whose points may be looked at, each look counted.
ghost use Rattle.std.specs.Prelude.{◌≡◌, ◌<◌, ◌+◌, ℕ, true, Bool, List, Some, length, slice_get};
ghost use Rattle.hd_map.specs.Map.{Map, InGrid, height_at, place_of};
ghost use Rattle.hd_tiles.specs.Stamps.{IsLooked};

use crate::Steps;
use hd_map::{Adjacency, Pos, Size};
use std::sync::ledger::Ledger;

/// A map in tiles with stamps, whose points may be looked at where there is leave for it. It is seen as
/// the map with its setting, the side of the tiles, their stamps, and by index which positions may be
/// looked at.
pub trait Looked {
    /// The map with its setting.
    ghost map: { Self → Map };

    /// The side of a tile in points.
    ghost tile_side: { Self → ℕ };

    /// The stamps by the numbers of the tiles.
    ghost stamps: { Self → List ℕ };

    /// By index, whether the position may be looked at.
    ghost leave: { Self → List Bool };

    /// How many points and profiles the map has.
    fn size(&self) -> Size
        ensures { result ≡ (map self.now).size };

    /// The side of a tile in points, from 8 to 256.
    fn side(&self) -> u32
        ensures { result ≡ tile_side self.now };

    /// The stamp of the tile of this number.
    fn stamp(&self, tile: u32) -> u64
        requires { tile < length (stamps self.now) }
        ensures { slice_get (stamps self.now) tile ≡ Some result };

    /// Looks at a position, and counts the look: the height of a present point in steps, and none where
    /// the point is not present.
    fn look<L: Ledger>(&self, at: Pos, looks: &mut Steps<L>) -> Option<i64>
        requires in_grid { InGrid (map self.now).size at }
        requires allowed { slice_get (leave self.now) (place_of (map self.now).size at) ≡ Some true }
        ensures height { result ≡ height_at (map self.now) at }
        ensures counted { looks.new ≡ looks.old + 1 };

    /// Which points are neighbours.
    fn adjacency(&self) -> Adjacency
        ensures { result ≡ (map self.now).adjacency };

    /// The map is within the limits, there is a stamp for each tile, and leave is said of each position.
    ghost whole: { (looked : Self) → IsLooked (map looked) (tile_side looked) (stamps looked) (leave looked) };
}
