// Borders by the places of the two owners.
use hd_map::Rank;

/// A border between the regions of two owners, by their places.
#[derive(Clone, Copy)]
pub struct Border {
    /// The lesser place.
    pub a: u32,
    /// The other.
    pub b: u32,
    /// How many pairs of neighbours lie across it.
    pub pairs: u64,
    /// The lowest of their higher points.
    pub pass: Rank,
}
