// Descents from points whose lower neighbours fall into several groups.

/// A way down from a point to one of its lower neighbours, by the indexes of the two.
#[derive(Clone, Copy, Debug, PartialEq, Eq)]
pub struct Descent {
    /// The index of the point.
    pub from: u32,
    /// The index of its lower neighbour.
    pub to: u32,
}
