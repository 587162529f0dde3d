// What the points of a region sum up to.
use hd_map::Rank;

/// A whole region by what its points sum up to.
#[derive(Clone, Copy, Debug, PartialEq, Eq)]
pub struct Extent {
    /// The pit.
    pub pit: Rank,
    /// How many points the region has.
    pub points: u64,
    /// The greatest height of these points in steps, on either side.
    pub high: i64,
    /// The least height of these points in steps, on either side.
    pub least: i64,
    /// The least height of the edge points among them, and none without such a point.
    pub edge_low: Option<i64>,
    /// The greatest height of the edge points among them, and none without such a point.
    pub edge_high: Option<i64>,
}
