// The names of height parameters.
ghost use Rattle.std.specs.Prelude.{◌≡◌};
ghost use Rattle.hd_stats.specs.Names.{height_name_of};

use hd_feature::{NotationError, without_height};

/// A height parameter of a surface. Heights are in steps, and no form is taken away first.
#[derive(Clone, Copy, Debug, PartialEq, Eq)]
pub enum HeightName {
    /// `Sp`: the greatest height less the mean height.
    Sp,
    /// `Sv`: the mean height less the least height.
    Sv,
    /// `Sa`: the mean of the absolute values of the heights less the mean height.
    Sa,
    /// `Smr`: the part of the points whose height is at least this one, which is not taken from the mean.
    Smr(i64),
}

/// The height parameter of a name of ISO 25178-2: `Sp`, `Sv`, `Sa`, and `Smr` at the height `c` in steps.
///
/// The refusals, of which the first is the answer: `UnknownName` exactly where the name is none of
/// these, `NeedsHeight` exactly for `Smr` without a height, and `TakesNoHeight` exactly for the three
/// others with one.
pub fn height_name(name: &[u8], c: Option<i64>) -> Result<HeightName, NotationError>
    ensures { result ≡ height_name_of name.now c }
{
    match name {
        b"Sp" => without_height(HeightName::Sp, c),
        b"Sv" => without_height(HeightName::Sv, c),
        b"Sa" => without_height(HeightName::Sa, c),
        b"Smr" => match c {
            Some(c) => Ok(HeightName::Smr(c)),
            None => Err(NotationError::NeedsHeight),
        },
        _ => Err(NotationError::UnknownName),
    }
}
