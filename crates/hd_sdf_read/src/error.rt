// Why a text is no SDF file.
ghost use Rattle.std.specs.Prelude.{◌≡◌};
ghost use Rattle.hd_sdf_read.specs.declared.error.SdfError.TheVariants.{Memory as out_of_memory};

use hd_list::Memory;
use thiserror::Error;

/// Why a file was not read: the first offence against the grammar, from the front, with the number
/// of its line from 1, of its datum from 1, or of the required key that is missing, from 1, in the
/// order NumPoints, NumProfiles, Xscale, Yscale, Zscale, DataType.
#[derive(Clone, Copy, Debug, PartialEq, Eq, Error)]
pub enum SdfError {
    /// Want of memory. The text may be in the grammar or not.
    #[error("out of memory")]
    Memory,
    /// Line 1 is absent, too long, or neither `aBCR-1.0` nor `aISO-1.0`.
    #[error("bad version")]
    BadVersion,
    /// This line of the header is too long, or of none of the three kinds, or its key or value has
    /// not its form.
    #[error("bad header line")]
    BadHeaderLine(u64),
    /// The key of this line stood before.
    #[error("key twice")]
    KeyTwice(u64),
    /// The value of this line has not the form that its key asks for.
    #[error("bad value")]
    BadValue(u64),
    /// The text ends before the line `*`.
    #[error("the header does not end")]
    HeaderEnds,
    /// This required key is absent.
    #[error("a required key is missing")]
    MissingKey(u8),
    /// This line asks for a compression or a check.
    #[error("not supported")]
    Unsupported(u64),
    /// There are more than 4,194,304 points.
    #[error("too many points")]
    TooLarge,
    /// This datum of a type of whole numbers is neither `BAD` nor a whole number.
    #[error("a datum is not whole or BAD")]
    BadDatum(u64),
    /// This datum of a type of decimals is neither `BAD` nor a decimal.
    #[error("a datum is not a decimal or BAD")]
    BadDecimal(u64),
    /// This datum is a whole number outside the range of the type. Or it is a decimal of more than 18
    /// places, or one of the decimals up to this one, times ten to the greatest number of places among
    /// them, is outside the range.
    #[error("a datum is out of range")]
    DatumRange(u64),
    /// The data end after so many, too few.
    #[error("too few data")]
    TooFewData(u64),
    /// This datum comes after the last.
    #[error("one datum too many")]
    TooManyData(u64),
    /// The trailer has more than 65,536 bytes.
    #[error("trailer too long")]
    TrailerTooLong,
    /// This line holds the 241st extra key.
    #[error("too many keys")]
    TooManyKeys(u64),
}

impl From<Memory> for SdfError {
    ghost from_gives = { λ _ error. error ≡ out_of_memory };

    fn from(_: Memory) -> Self {
        SdfError::Memory
    }
}
