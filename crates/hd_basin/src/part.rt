// What a pool keeps of one tile.
ghost use Rattle.std.specs.Prelude.{◌≡◌, Some};
ghost use Rattle.hd_basin.specs.Parts.{node_at};

use crate::Node;
use hd_list::List;
use hd_map::{Pass, Rank};

/// A pass between a basin of a tile and one of another tile, found when the tile was seen.
#[derive(Clone, Copy, Debug, PartialEq, Eq)]
pub struct Seam {
    /// The pass.
    pub pass: Pass,
    /// The number of the other tile.
    pub with: u32,
    /// The stamp that the other tile had been seen with. Once it is seen with another one, it has the
    /// seams between the two, and this one is void.
    pub stamp: u64,
}

/// A pass between two basins of a tile.
#[derive(Clone, Copy, Debug, PartialEq, Eq)]
pub struct Join {
    /// The number of the node of one of them.
    pub a: u32,
    /// The number of the node of the other.
    pub b: u32,
    /// The higher of the two points at which they meet.
    pub at: Rank,
}

/// The local basins of a tile, as it was when it was last seen.
#[derive(Drop)]
pub struct Part {
    /// The stamp that the tile was seen with, and none where it was not seen yet.
    pub seen: Option<u64>,
    /// The nodes of its basins.
    pub nodes: List<Node>,
    /// For each position of the tile, profile by profile, the number of the node in whose basin the point
    /// lies, and the number of nodes where no point is present.
    pub labels: Vec<u32>,
    /// The passes between two of its basins.
    pub joins: List<Join>,
    /// The passes to basins of tiles that had been seen before it.
    pub seams: List<Seam>,
}

impl Part {
    /// The node that the label at a place of the tile names, and none where there is no label.
    pub fn node_at(&self, place: u32) -> Option<Node>
        ensures { result ≡ node_at (Some self.now) place }
    {
        match self.labels.get(place as usize) {
            Some(label) => self.nodes.as_slice().get(*label as usize).copied(),
            None => None,
        }
    }
}
