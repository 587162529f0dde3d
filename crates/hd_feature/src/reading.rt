// A word as a notation.
ghost use Rattle.std.specs.Prelude.{◌≡◌, ◌++◌, codes};
ghost use Rattle.hd_feature.specs.Notation.{attribute_of, edge_bound, has_attribute, has_significance, height_of, kind_of, notation_of, number_of, paired, pruning_of, scope_of, significance_of, statistic_of};

use crate::parts::{NotationPart, read_part};
use crate::{Attribute, Kind, Notation, NotationError, Significance, Statistic};
use hd_num::{Percent, Whole, read_count, read_percent, read_whole};

// The most digits of a number of features.
const MOST_DIGITS: usize = 7;

/// Reads a word as a notation of a feature parameter, in this project's profile of that of
/// ISO 25178-2: six parts with `;` between them and no blanks.
///
/// The refusals, of which the first is the answer: `BadPart` with the number of the first part that
/// has not its form; where all parts have theirs and are fewer than six, with the number of the first
/// missing one; where the six have theirs and there are more, with 7. `BadPair` with 4 exactly where
/// the significance does not go with the type, and then with 5 exactly where the attribute does not.
pub fn read_notation(word: &[u8]) -> Result<Notation, NotationError>
    ensures { result ≡ notation_of word.now }
{
    let (_scope, rest) = read_part::<Scope>(1, Some(word))?;
    let (kind, rest) = read_part::<Kind>(2, rest)?;
    let (percent, rest) = read_part::<Percent>(3, rest)?;
    let (significance, rest) = read_part::<Significance>(4, rest)?;
    let (attribute, rest) = read_part::<Attribute>(5, rest)?;
    let (statistic, rest) = read_part::<Statistic>(6, rest)?;
    if rest.is_some() {
        return Err(NotationError::BadPart(7));
    }
    paired(Notation {
        kind,
        percent,
        significance,
        attribute,
        statistic,
    })
}

/// Reads a word as the first five parts of a notation: as `read_notation` reads it with `;Sum` after it,
/// with the same refusals.
pub fn read_without_statistic(word: &[u8]) -> Result<Notation, NotationError>
    ensures { result ≡ notation_of (word.now ++ codes ";Sum") }
{
    let (_scope, rest) = read_part::<Scope>(1, Some(word))?;
    let (kind, rest) = read_part::<Kind>(2, rest)?;
    let (percent, rest) = read_part::<Percent>(3, rest)?;
    let (significance, rest) = read_part::<Significance>(4, rest)?;
    let (attribute, rest) = read_part::<Attribute>(5, rest)?;
    if rest.is_none() {
        return paired(Notation {
            kind,
            percent,
            significance,
            attribute,
            statistic: Statistic::Sum,
        });
    }
    let (_statistic, _more) = read_part::<Statistic>(6, rest)?;
    Err(NotationError::BadPart(7))
}

// The notation, where its parts go together.
fn paired(notation: Notation) -> Result<Notation, NotationError>
    ensures { result ≡ paired notation }
{
    if !has_significance(notation.kind, notation.significance) {
        return Err(NotationError::BadPair(4));
    }
    if !has_attribute(notation.kind, notation.attribute) {
        return Err(NotationError::BadPair(5));
    }
    Ok(notation)
}

// Whether the significance goes with the type.
fn has_significance(kind: Kind, significance: Significance) -> bool
    ensures { result ≡ has_significance kind significance }
{
    match significance {
        Significance::All => true,
        Significance::Top(_) => matches!(kind, Kind::Hill | Kind::Peak),
        Significance::Bot(_) => matches!(kind, Kind::Dale | Kind::Pit),
        Significance::Closed(_) | Significance::Open(_) => matches!(kind, Kind::Hill | Kind::Dale),
    }
}

// Whether the attribute goes with the type.
fn has_attribute(kind: Kind, attribute: Attribute) -> bool
    ensures { result ≡ has_attribute kind attribute }
{
    match attribute {
        Attribute::Lpvh | Attribute::Count => true,
        Attribute::AreaE => matches!(kind, Kind::Hill | Kind::Dale),
    }
}

// The first part.
#[derive(Clone, Copy)]
pub enum Scope {
    // `FC`, a feature characterization.
    Features,
}

impl NotationPart for Scope {
    ghost form_of = { scope_of };

    fn form(text: &[u8]) -> Option<Scope> {
        match text {
            b"FC" => Some(Scope::Features),
            _ => None,
        }
    }
}

impl NotationPart for Kind {
    ghost form_of = { kind_of };

    fn form(text: &[u8]) -> Option<Kind> {
        match text {
            b"H" => Some(Kind::Hill),
            b"D" => Some(Kind::Dale),
            b"P" => Some(Kind::Peak),
            b"V" => Some(Kind::Pit),
            _ => None,
        }
    }
}

impl NotationPart for Percent {
    ghost form_of = { pruning_of };

    fn form(text: &[u8]) -> Option<Percent> {
        let percent = text.strip_prefix(b"Wolfprune:")?;
        read_percent(percent)
    }
}

impl NotationPart for Significance {
    ghost form_of = { significance_of };

    fn form(text: &[u8]) -> Option<Significance> {
        if text == b"All".as_slice() {
            Some(Significance::All)
        } else if let Some(number) = text.strip_prefix(b"Top:") {
            number_of(number).map(Significance::Top)
        } else if let Some(number) = text.strip_prefix(b"Bot:") {
            number_of(number).map(Significance::Bot)
        } else {
            edge_bound(text)
        }
    }
}

// The significance by the heights of edge points that a text writes, or none.
fn edge_bound(text: &[u8]) -> Option<Significance>
    ensures { result ≡ edge_bound text.now }
{
    if let Some(height) = text.strip_prefix(b"Closed:") {
        height_of(height).map(Significance::Closed)
    } else if let Some(height) = text.strip_prefix(b"Open:") {
        height_of(height).map(Significance::Open)
    } else {
        None
    }
}

impl NotationPart for Attribute {
    ghost form_of = { attribute_of };

    fn form(text: &[u8]) -> Option<Attribute> {
        match text {
            b"lpvh" => Some(Attribute::Lpvh),
            b"Count" => Some(Attribute::Count),
            b"AreaE" => Some(Attribute::AreaE),
            _ => None,
        }
    }
}

impl NotationPart for Statistic {
    ghost form_of = { statistic_of };

    fn form(text: &[u8]) -> Option<Statistic> {
        if text == b"Mean".as_slice() {
            Some(Statistic::Mean)
        } else if text == b"Max".as_slice() {
            Some(Statistic::Max)
        } else if text == b"Min".as_slice() {
            Some(Statistic::Min)
        } else if text == b"Sum".as_slice() {
            Some(Statistic::Sum)
        } else if text == b"Density".as_slice() {
            Some(Statistic::Density)
        } else {
            None
        }
    }
}

// A number of features: one to seven digits, at least 1.
fn number_of(text: &[u8]) -> Option<u32>
    ensures { result ≡ number_of text.now }
{
    if MOST_DIGITS < text.len() {
        return None;
    }
    match read_count(text)? {
        0 => None,
        number => Some(number),
    }
}

// A height in steps: a whole number that fits i64.
fn height_of(text: &[u8]) -> Option<i64>
    ensures { result ≡ height_of text.now }
{
    match read_whole(text) {
        Whole::Is(height) => Some(height),
        Whole::Not | Whole::Outside => None,
    }
}
