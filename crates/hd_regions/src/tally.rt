// What is counted of a region.
use hd_map::HeightRange;

/// The number of the points of a region, and the range of the heights of its edge points.
#[derive(Clone, Copy, Debug, PartialEq, Eq)]
pub struct Tally {
    /// The number of its points.
    pub points: u32,
    /// The range of the heights of its edge points in steps, or none without one.
    pub edge: Option<HeightRange>,
}
