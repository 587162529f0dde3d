// The classes that saddles join, by their lowest pits.
use hd_map::Rank;

/// A saddle, and the lowest pit of a class that it joins.
#[derive(Clone, Copy)]
pub struct Part {
    /// The saddle.
    pub saddle: Rank,
    /// The lowest pit.
    pub low: Rank,
}

/// A saddle, and the lowest pits of the classes on its two sides.
#[derive(Clone, Copy)]
pub struct Rise {
    /// The saddle.
    pub saddle: Rank,
    /// The lowest pit of the one class.
    pub left: Rank,
    /// The lowest pit of the other.
    pub right: Rank,
}
