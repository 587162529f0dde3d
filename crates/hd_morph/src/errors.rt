// The refusals of elements and filters.
use hd_list::Memory;
use hd_map::Pos;
use thiserror::Error;

/// Why a table makes no element, in the order in which the causes are tried.
#[derive(Clone, Copy, Debug, PartialEq, Eq, Error)]
pub enum ElementError {
    /// A size is even.
    #[error("a size of the element is even")]
    EvenSize,
    /// A size is over 15.
    #[error("the element is wider than 15")]
    TooWide,
    /// The centre has no number.
    #[error("the element has no origin")]
    NoOrigin,
}

/// Why a map was not filtered.
#[derive(Clone, Copy, Debug, PartialEq, Eq, Error)]
pub enum MorphError {
    /// Want of memory; it may come in place of any other answer.
    #[error("out of memory")]
    Memory,
    /// The first position by index whose new height is not in the range of the data type.
    #[error("a height is out of range")]
    HeightRange(Pos),
}

impl From<Memory> for MorphError {
    ghost use Rattle.std.specs.Prelude.{◌≡◌};
    ghost use Rattle.hd_morph.specs.declared.errors.MorphError.TheVariants.{Memory as out_of_memory};

    ghost from_gives = { λ _ error. error ≡ out_of_memory };

    fn from(_: Memory) -> Self {
        MorphError::Memory
    }
}
