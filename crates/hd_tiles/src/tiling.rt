// How a grid is cut into tiles.
ghost use Rattle.std.specs.Prelude.{◌≡◌, ◌<◌, ◌/◌};
ghost use Rattle.hd_map.specs.Map.{IsSize, InGrid};
ghost use Rattle.hd_tiles.specs.Tile.{IsTileSide, inverse_of, tiles_across, tile_count, tile_of};

use hd_map::{Pos, Size};

/// How a grid is cut into square tiles, numbered by rows. The last tiles of a row or of a column may be
/// cut.
#[derive(Clone, Copy, Debug, PartialEq, Eq)]
pub struct Tiling {
    size: Size,
    side: u32,
    across: u32,
    // By it places are divided by the side: a division takes several times as long as a product.
    inverse: u32,
    ghost limits: { IsSize size },
    ghost tile_side: { IsTileSide side },
    ghost row: { across ≡ tiles_across size side },
    ghost is_inverse: { inverse ≡ inverse_of side },
}

impl Tiling {
    /// The tiling of a grid of this size by tiles of this side, from 8 to 256 points.
    #[tactic(auto, unfolding(crate::specs::Tile::inverse_of))]
    pub fn new(size: Size, side: u32) -> Tiling
        requires limits { IsSize size }
        requires side { IsTileSide side }
        ensures size { result.size ≡ size }
        ensures side { result.side ≡ side }
    {
        Tiling {
            size,
            side,
            across: (size.points + side - 1) / side,
            inverse: (33_554_432 + side - 1) / side,
        }
    }

    /// How many points and profiles the grid has.
    pub fn size(self) -> Size
        ensures { result ≡ self.size }
    {
        self.size
    }

    /// The side of a tile in points.
    pub fn side(self) -> u32
        ensures { result ≡ self.side }
    {
        self.side
    }

    /// How many tiles a row of tiles has.
    pub fn across(self) -> u32
        ensures { result ≡ tiles_across self.size self.side }
    {
        self.across
    }

    // Which part of a line, cut into parts of a tile's side, a place lies in.
    #[inline]
    #[tactic(auto, using(crate::proofs::Inverses::divided_by_inverse))]
    pub(crate) fn part_of(self, place: u32) -> u32
        requires { place < 65536 }
        ensures { result ≡ place / self.side }
    {
        (u64::from(place) * u64::from(self.inverse) / 33_554_432) as u32
    }

    /// How many tiles there are.
    pub fn count(self) -> u32
        ensures { result ≡ tile_count self.size self.side }
    {
        (self.size.profiles + self.side - 1) / self.side * self.across
    }

    /// The number of the tile that holds a position.
    #[inline]
    pub fn tile_of(self, at: Pos) -> u32
        requires { InGrid self.size at }
        ensures value { result ≡ tile_of self.size self.side at }
        ensures tile { result < tile_count self.size self.side }
    {
        self.part_of(at.y) * self.across + self.part_of(at.x)
    }
}
