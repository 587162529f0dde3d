// Border lines.
use hd_map::Rank;

/// A border between the regions of two kept pits, where these have neighbouring points.
#[derive(Clone, Copy, Debug, PartialEq, Eq)]
pub struct BorderLine {
    /// The pit of lesser index.
    pub a: Rank,
    /// The other pit.
    pub b: Rank,
    /// How many pairs of neighbours lie across it.
    pub pairs: u64,
    /// The lowest, over these pairs, of the higher of the pair, by the order of the side.
    pub pass: Rank,
    /// Whether that is the saddle of the two pits.
    pub on_saddle: bool,
}
