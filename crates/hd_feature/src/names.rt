// The named parameters.
ghost use Rattle.std.specs.Prelude.{◌≡◌};
ghost use Rattle.hd_feature.specs.declared.notation.Attribute.TheVariants as attribute;
ghost use Rattle.hd_feature.specs.declared.notation.Kind.TheVariants as kinds;
ghost use Rattle.hd_feature.specs.declared.notation.Parameter.TheVariants as parameter;
ghost use Rattle.hd_feature.specs.declared.notation.Significance.TheVariants as significance;
ghost use Rattle.hd_feature.specs.declared.notation.Statistic.TheVariants as statistic;
ghost use Rattle.hd_feature.specs.Names.{given, AtHeight, Plain};
ghost use Rattle.hd_feature.specs.Parameters.{parameter_of, pruned};

use crate::{Attribute, Kind, Notation, NotationError, Parameter, Significance, Statistic};
use hd_num::Percent;

// The percent of the pruning of each named parameter: 5%.
const PERCENT: Percent = Percent { thousandths: 5000 };

/// The parameter of a name of ISO 25178-2: `Spd`, `S5p`, `S5v`, `S10z`, and `Sda` and `Sha` at the
/// height `c` in steps.
///
/// The refusals, of which the first is the answer: `UnknownName` exactly where the name is none of
/// these, `NeedsHeight` exactly for `Sda` and `Sha` without a height, and `TakesNoHeight` exactly for
/// the four others with one.
pub fn named(name: &[u8], c: Option<i64>) -> Result<Parameter, NotationError>
    ensures { result ≡ parameter_of name.now c }
{
    match name {
        b"Spd" => without_height(peak_density(), c),
        b"S5p" => without_height(Parameter::One(five_peaks()), c),
        b"S5v" => without_height(Parameter::One(five_pits()), c),
        b"S10z" => without_height(Parameter::Sum(five_peaks(), five_pits()), c),
        b"Sda" => closed_area(Kind::Dale, c),
        b"Sha" => closed_area(Kind::Hill, c),
        _ => Err(NotationError::UnknownName),
    }
}

/// A parameter that takes no height: `TakesNoHeight` exactly where there is one.
pub fn without_height<T: Copy + Drop>(parameter: T, c: Option<i64>) -> Result<T, NotationError>
    ensures { result ≡ given (Plain parameter) c }
{
    match c {
        None => Ok(parameter),
        Some(_) => Err(NotationError::TakesNoHeight),
    }
}

// The mean area of the hills or the dales that are closed at a height.
fn closed_area(kind: Kind, c: Option<i64>) -> Result<Parameter, NotationError>
    ensures { result ≡ given (AtHeight (λ c. parameter.One
        (pruned kind (significance.Closed c) attribute.AreaE statistic.Mean))) c }
{
    match c {
        None => Err(NotationError::NeedsHeight),
        Some(c) => Ok(Parameter::One(Notation {
            kind,
            percent: PERCENT,
            significance: Significance::Closed(c),
            attribute: Attribute::AreaE,
            statistic: Statistic::Mean,
        })),
    }
}

// The number of hills for each point.
fn peak_density() -> Parameter
    ensures { result ≡ parameter.One (pruned kinds.Hill significance.All attribute.Count statistic.Density) }
{
    Parameter::One(Notation {
        kind: Kind::Hill,
        percent: PERCENT,
        significance: Significance::All,
        attribute: Attribute::Count,
        statistic: Statistic::Density,
    })
}

// The mean local height of five peaks.
fn five_peaks() -> Notation
    ensures { result ≡ pruned kinds.Hill (significance.Top 5) attribute.Lpvh statistic.Mean }
{
    Notation {
        kind: Kind::Hill,
        percent: PERCENT,
        significance: Significance::Top(5),
        attribute: Attribute::Lpvh,
        statistic: Statistic::Mean,
    }
}

// The mean local height of five pits.
fn five_pits() -> Notation
    ensures { result ≡ pruned kinds.Dale (significance.Bot 5) attribute.Lpvh statistic.Mean }
{
    Notation {
        kind: Kind::Dale,
        percent: PERCENT,
        significance: Significance::Bot(5),
        attribute: Attribute::Lpvh,
        statistic: Statistic::Mean,
    }
}
