// What the parameters take of a region.
use hd_map::Rank;

/// A region of a side after pruning, by what its parameters take of it.
#[derive(Clone, Copy, Debug, PartialEq, Eq)]
pub struct Region {
    /// The kept pit, or for hills the kept peak.
    pub pit: Rank,
    /// The local pit height, or the local peak height, in steps: the height difference to the nearest
    /// saddle, and without one the greatest height of the surface less that of the pit, or that of the
    /// peak less the least.
    pub lpvh: i64,
    /// The number of points.
    pub points: u64,
    /// The least height of an edge point in steps, and none without an edge point.
    pub edge_low: Option<i64>,
    /// The greatest height of an edge point in steps, and none without an edge point.
    pub edge_high: Option<i64>,
}
