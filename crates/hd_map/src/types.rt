// What a map is made of.
use thiserror::Error;

/// A position in a grid, counted in points from 0.
#[derive(Clone, Copy, Debug, Default, PartialEq, Eq)]
pub struct Pos {
    /// The column: the place in a profile.
    pub x: u32,
    /// The profile.
    pub y: u32,
}

/// The size of a grid. The type holds any two numbers; those of a map are from 1 to 65,535, and it
/// has at most 4,194,304 points.
#[derive(Clone, Copy, Debug, PartialEq, Eq)]
pub struct Size {
    /// How many points a profile has (NumPoints of ISO 25178-71).
    pub points: u32,
    /// How many profiles there are (NumProfiles of ISO 25178-71).
    pub profiles: u32,
}

/// What was measured at a point.
#[derive(Clone, Copy, Debug, PartialEq, Eq)]
pub enum Cell {
    /// A height in steps.
    Height(i64),
    /// None (`BAD` of ISO 25178-71).
    Bad,
}

/// The type of the heights, which gives their range in steps (DataType of ISO 25178-71).
#[derive(Clone, Copy, Debug, PartialEq, Eq)]
pub enum DataType {
    /// From 0 to 255.
    U8,
    /// From 0 to 65,535.
    U16,
    /// From 0 to 4,294,967,295.
    U32,
    /// From -128 to 127.
    I8,
    /// From -32,768 to 32,767.
    I16,
    /// From -2,147,483,648 to 2,147,483,647.
    I32,
    /// From -9,007,199,254,740,992 to 9,007,199,254,740,992, where a step is a unit of the last
    /// decimal place (single precision).
    Single {
        /// How many decimal places a height has; those of a map are at most 18.
        places: u8,
    },
    /// The same range and steps (double precision).
    Double {
        /// How many decimal places a height has; those of a map are at most 18.
        places: u8,
    },
}

impl DataType {
    ghost use Rattle.std.specs.Prelude.{◌≡◌};
    ghost use Rattle.hd_map.specs.Map.{code_of};

    /// Its code (DataType of ISO 25178-71).
    pub fn code(self) -> u32
        ensures { result ≡ code_of self }
    {
        match self {
            DataType::U8 => 0,
            DataType::U16 => 1,
            DataType::U32 => 2,
            DataType::Single { .. } => 3,
            DataType::I8 => 4,
            DataType::I16 => 5,
            DataType::I32 => 6,
            DataType::Double { .. } => 7,
        }
    }
}

/// Which of the points whose columns and profiles differ by at most one are neighbours.
#[derive(Clone, Copy, Debug, PartialEq, Eq)]
pub enum Adjacency {
    /// Those of one column or one profile: at most four round a point.
    Four,
    /// Those of one column or one profile, and those of which the one of greater column has the
    /// greater profile: at most six.
    Six,
    /// All: at most eight.
    Eight,
}

/// A present point by what points are compared by: its height, and at one height its index.
#[derive(Clone, Copy, Debug, PartialEq, Eq)]
pub struct Rank {
    /// The height in steps.
    pub height: i64,
    /// The index: the profile times the points of a profile, plus the column.
    pub index: u32,
}

/// The lowest way over between two regions, by the order of a side.
#[derive(Clone, Copy, Debug, PartialEq, Eq)]
pub struct Pass {
    /// The lower of the two pits.
    pub a: Rank,
    /// The other pit.
    pub b: Rank,
    /// The higher point of the lowest pair of neighbours, one in each region.
    pub at: Rank,
}

/// A pass between two points of a list, which it names by their places.
#[derive(Clone, Copy, Debug, PartialEq, Eq)]
pub struct Link {
    /// The place of the one point.
    pub a: u32,
    /// The place of the other.
    pub b: u32,
    /// The pass.
    pub at: Rank,
}

/// A region by its pit, and the number of its points.
#[derive(Clone, Copy, Debug, PartialEq, Eq)]
pub struct RegionSize {
    /// Its pit.
    pub pit: Rank,
    /// The number of its points.
    pub points: u32,
}

/// Which regions of ISO 25178-2 are meant.
#[derive(Clone, Copy, Debug, PartialEq, Eq)]
pub enum SideName {
    /// Dales: points are compared by rank.
    Dales,
    /// Hills: points are compared by rank, reversed.
    Hills,
}

/// Why a cell or a mask was not set.
#[derive(Clone, Copy, Debug, PartialEq, Eq, Error)]
pub enum MapError {
    /// The position is not in the grid.
    #[error("the position is outside")]
    Outside(Pos),
    /// The height is not in the range of the data type.
    #[error("the height is out of range")]
    HeightRange(Pos),
}
