// The notation of a feature parameter, and its refusals.
use hd_num::Percent;
use thiserror::Error;

/// The type of the features (ISO 25178-2). Hills and peaks are the hills after pruning, dales and
/// pits the dales.
#[derive(Clone, Copy, Debug, PartialEq, Eq)]
pub enum Kind {
    /// `H`.
    Hill,
    /// `D`.
    Dale,
    /// `P`.
    Peak,
    /// `V`.
    Pit,
}

/// Which of the features are significant.
#[derive(Clone, Copy, Debug, PartialEq, Eq)]
pub enum Significance {
    /// `All`: each.
    All,
    /// `Top:N`: the N of greatest local height, equal ones by position, the lesser index first.
    Top(u32),
    /// `Bot:N`: the same of dales and pits.
    Bot(u32),
    /// `Closed:c`: those that are not open at the height c in steps.
    Closed(i64),
    /// `Open:c`: the hills with an edge point at least as high as c, or the dales with an edge point
    /// at most as high.
    Open(i64),
}

/// What is taken of a feature.
#[derive(Clone, Copy, Debug, PartialEq, Eq)]
pub enum Attribute {
    /// `lpvh`: the local pit height or local peak height in steps.
    Lpvh,
    /// `Count`: 1.
    Count,
    /// `AreaE`: the number of points.
    AreaE,
}

/// What is made of the attributes of the features.
#[derive(Clone, Copy, Debug, PartialEq, Eq)]
pub enum Statistic {
    /// `Mean`: the sum divided by the number of features.
    Mean,
    /// `Max`: the greatest.
    Max,
    /// `Min`: the least.
    Min,
    /// `Sum`: the sum.
    Sum,
    /// `Density`: the sum divided by the definition area.
    Density,
}

/// A feature parameter in this project's profile of the notation of ISO 25178-2.
#[derive(Clone, Copy, Debug, PartialEq, Eq)]
pub struct Notation {
    /// The type of the features.
    pub kind: Kind,
    /// The percent of the Wolf pruning.
    pub percent: Percent,
    /// Which of the features are significant.
    pub significance: Significance,
    /// What is taken of each.
    pub attribute: Attribute,
    /// What is made of that.
    pub statistic: Statistic,
}

/// What a name means.
#[derive(Clone, Copy, Debug, PartialEq, Eq)]
pub enum Parameter {
    /// The value of one notation.
    One(Notation),
    /// The sum of the values of two, and none where one of them is none.
    Sum(Notation, Notation),
}

/// Why a notation or a name was refused.
#[derive(Clone, Copy, Debug, PartialEq, Eq, Error)]
pub enum NotationError {
    /// The number, from 1, of the first part that has not its form, or that is missing, or of a part
    /// too many.
    #[error("a part has not its form")]
    BadPart(u8),
    /// The number of the part that does not go with the type: 4 the significance, 5 the attribute.
    #[error("a part does not go with the type")]
    BadPair(u8),
    /// The name is none of the table.
    #[error("unknown parameter")]
    UnknownName,
    /// The parameter takes a height, and none was given.
    #[error("the parameter needs a height")]
    NeedsHeight,
    /// A height was given, and the parameter takes none.
    #[error("the parameter takes no height")]
    TakesNoHeight,
}
