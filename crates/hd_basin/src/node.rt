// The nodes of local basins.
use hd_map::{Pos, Rank};

/// The name of a node: the index of its sink.
#[derive(Clone, Copy, Debug, PartialEq, Eq)]
pub struct NodeKey {
    /// The index of the sink.
    pub key: usize,
}

/// A local basin: the points of a tile that reach one local sink inside the tile. A local sink is a
/// point whose next is none or lies in another tile.
#[derive(Clone, Copy, Debug, PartialEq, Eq)]
pub struct Node {
    /// The sink.
    pub low: Rank,
    /// The next of the sink, in another tile, and none exactly where the sink is a pit.
    pub flows: Option<Pos>,
    /// The number of the tile.
    pub tile: u32,
    /// How many points the basin has.
    pub points: u64,
    /// The greatest height of these points in steps, on either side.
    pub high: i64,
    /// The least height of these points in steps, on either side.
    pub least: i64,
    /// The least height of the edge points among them, and none without such a point.
    pub edge_low: Option<i64>,
    /// The greatest height of the edge points among them, and none without such a point.
    pub edge_high: Option<i64>,
}
