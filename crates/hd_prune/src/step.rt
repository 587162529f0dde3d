// What pruning gives.
use hd_map::Rank;

/// One step of a pruning.
#[derive(Clone, Copy, Debug, PartialEq, Eq)]
pub struct Step {
    /// The pit that leaves.
    pub pit: Rank,
    /// Its local height in steps of the heights.
    pub local: i64,
    /// Its nearest saddle.
    pub saddle: Rank,
    /// The pit that takes over what it owned.
    pub into: Rank,
}

/// A pit and its owner.
#[derive(Clone, Copy, Debug, PartialEq, Eq)]
pub struct Owned {
    /// The pit.
    pub pit: Rank,
    /// The pit that owns it in the end.
    pub owner: Rank,
}

/// A kept pit and its nearest saddle.
#[derive(Clone, Copy, Debug, PartialEq, Eq)]
pub struct Kept {
    /// The pit.
    pub pit: Rank,
    /// The lowest saddle with another kept pit; none where no path leads to one.
    pub nearest: Option<Rank>,
}
