// The edits and their refusals.
use hd_list::List;
use hd_map::Pos;
use thiserror::Error;

/// An edit of the map. A rectangle is given by two of its corners: the first has the least column
/// and profile, and the second the greatest. A filter is given by the name of its element.
#[derive(Debug, Drop)]
pub enum Edit {
    /// The cell becomes this height in steps; the mask stays.
    Set { at: Pos, z: i64 },
    /// The cell becomes unmeasured; the mask stays.
    Bad { at: Pos },
    /// This many steps are added to the height of each present point of the rectangle.
    Add { from: Pos, to: Pos, delta: i64 },
    /// All points of the rectangle are masked; the cells stay.
    Mask { from: Pos, to: Pos },
    /// No point of the rectangle is masked; the cells stay.
    Unmask { from: Pos, to: Pos },
    /// The cells become those of the dilation by the element of this name; the masks stay.
    Dilate { name: List<u8> },
    /// The cells become those of the erosion; the masks stay.
    Erode { name: List<u8> },
    /// The cells become those of the opening, an erosion and then a dilation; the masks stay.
    Open { name: List<u8> },
    /// The cells become those of the closing, a dilation and then an erosion; the masks stay.
    Close { name: List<u8> },
}

/// Why an edit was refused, in the order in which the causes are tried. Want of memory may come
/// before any other.
#[derive(Clone, Copy, Debug, PartialEq, Eq, Error)]
pub enum EditError {
    /// Want of memory.
    #[error("out of memory")]
    Memory,
    /// The position is not in the grid; of a rectangle the first such corner.
    #[error("a position is outside")]
    Outside(Pos),
    /// The second corner has a lesser column or profile than the first.
    #[error("the rectangle is empty")]
    EmptyRect,
    /// There is no element of the name.
    #[error("no element of this name")]
    NoElement,
    /// The height is not in the range of the data type; the first such position by index.
    #[error("a height is out of range")]
    HeightRange(Pos),
}

/// Fewer edits are kept than were to be undone.
#[derive(Clone, Copy, Debug, PartialEq, Eq, Error)]
#[error("the log ends")]
pub struct LogEnds {
    /// How many edits are kept.
    pub kept: u32,
}
