// Lines of points that have no more blanks than needed, as they are written.
ghost use Rattle.std.specs.Prelude.{◌≡◌, ◌∷◌, IfSome};
ghost use Rattle.hd_num.specs.Whole.{count_of};
ghost use Rattle.hd_audit.specs.Plain.{BeginsWith, BeginsWithLine};
ghost use Rattle.hd_audit.specs.Reading.{count_or_none};

use crate::AuditLine;
use hd_num::leading_digits;

/// The first line of a text, and the text after it, where the line is `INDEX PARENT CUT` with one space between
/// two of its words, no other blank, and a line feed at its end. None comes where the
/// line is another one, and where one of its numbers has more than eighteen digits or is no count.
pub fn plain_line(text: &[u8]) -> Option<(AuditLine, &[u8])>
    ensures { IfSome result (λ found. BeginsWithLine text.now found.0 found.1.now) }
{
    let (index, rest) = count_before(text)?;
    let rest = after(b' ', rest)?;
    let (parent, rest) = count_or_none_before(rest)?;
    let rest = after(b' ', rest)?;
    let (cut, rest) = count_or_none_before(rest)?;
    let rest = after(b'\n', rest)?;
    Some((AuditLine { index, parent, cut }, rest))
}

// The text after this byte, with which it begins.
#[inline]
fn after(byte: u8, text: &[u8]) -> Option<&[u8]>
    ensures { IfSome result (λ rest. text.now ≡ byte ∷ rest.now) }
{
    match text {
        [first, rest @ ..] if *first == byte => Some(rest),
        _ => None,
    }
}

// The count that a text begins with, and the text after its digits.
#[inline]
fn count_before(text: &[u8]) -> Option<(u32, &[u8])>
    ensures { IfSome result (λ found. BeginsWith count_of text.now found.0 found.1.now) }
{
    let (digits, number) = leading_digits(text);
    if digits == 0 {
        return None;
    }
    let count = u32::try_from(number).ok()?;
    Some((count, &text[digits..]))
}

// The same of a count or `-`, which is none.
#[inline]
fn count_or_none_before(text: &[u8]) -> Option<(Option<u32>, &[u8])>
    ensures { IfSome result (λ found. BeginsWith count_or_none text.now found.0 found.1.now) }
{
    if let Some(rest) = after(b'-', text) {
        return Some((None, rest));
    }
    let (count, rest) = count_before(text)?;
    Some((Some(count), rest))
}
