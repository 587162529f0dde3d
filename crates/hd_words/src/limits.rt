// The greatest and least values that are taken.

/// The least side of a tile, in points.
pub const LEAST_TILE: u32 = 8;

/// The greatest side of a tile, in points.
pub const GREATEST_TILE: u32 = 256;

/// The side of a tile, in points, where none is given.
pub const USUAL_TILE: u32 = 64;

/// The most points of a profile, and the most profiles.
pub const LONGEST_SIDE: u32 = 65_535;

/// The most cells of a surface.
pub const MOST_CELLS: u32 = 4_194_304;

/// The most edits of a demo.
pub const MOST_EDITS: u32 = 100_000;
