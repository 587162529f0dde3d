// The data of a file.
ghost use Rattle.std.specs.Prelude.{◌≡◌, ◌<◌, ◌≤◌, ◌+◌, ◌^◌, ◌++◌, ◌+ℤ◌, ℕ, pos, IfSome, IsTrue, codes, length, slice_index, true};
ghost use Rattle.hd_map.specs.declared.types.Cell.TheVariants.{Height};
ghost use Rattle.hd_num.specs.Whole.{signed_number};
ghost use Rattle.hd_sdf_read.specs.Tokens.{is_gap};
ghost use Rattle.hd_sdf_read.specs.Grammar.{cell_of};
ghost use Rattle.hd_sdf_read.specs.WholeTokens.{AreDigits, TakesCell, TakesNumber};

use crate::SdfError;
use crate::digits::block_digits;
use crate::token::is_gap;
use hd_map::Cell;
use hd_num::{Whole, read_whole};

/// How the digits of a number are read.
#[derive(Clone, Copy)]
pub enum Reading {
    /// At most eight, at once.
    AtOnce,
    /// At most eleven, one by one.
    OneByOne,
}

/// How far the height at the front of a text is over the least one, if it is in the range, and the text
/// from the blank or the LF on that follows it. The range goes from so far below 0 to the greatest.
#[inline(always)]
pub fn leading_over(
    reading: Reading,
    below: u32,
    greatest: u32,
    text: &[u8],
) -> Option<(u32, &[u8])>
    requires { below + greatest < 2 ^ 32 }
    ensures cell { IfSome result (λ parts. TakesCell (signed_number true below)
        (pos greatest) text.now parts.1.now (Height (signed_number true below +ℤ pos parts.0))) }
    ensures left { IfSome result (λ parts. 0 < length parts.1.now) }
{
    if text.len() < 17 {
        return None;
    }
    if text[0] == b'-' {
        return over_below(reading, below, text);
    }
    let (number, rest) = leading_number(reading, text)?;
    if number > u64::from(greatest) {
        return None;
    }
    Some((below + number as u32, rest))
}

// The same, where the text begins with a minus.
#[inline(always)]
fn over_below(reading: Reading, below: u32, text: &[u8]) -> Option<(u32, &[u8])>
    requires long { 17 ≤ length text.now }
    requires minus { slice_index text.now 0 ≡ 45 }
    ensures cell { (greatest : ℕ) → IfSome result
        (λ parts. TakesCell (signed_number true below) (pos greatest) text.now parts.1.now
        (Height (signed_number true below +ℤ pos parts.0))) }
    ensures left { IfSome result (λ parts. 0 < length parts.1.now) }
{
    let (number, rest) = leading_number(reading, &text[1..])?;
    if number > u64::from(below) {
        return None;
    }
    Some((below - number as u32, rest))
}

// The number of the digits at the front of a text, if a blank or an LF follows them, and the text after
// them.
#[inline(always)]
fn leading_number(reading: Reading, text: &[u8]) -> Option<(u64, &[u8])>
    requires { 16 ≤ length text.now }
    ensures { IfSome result (λ parts. TakesNumber text.now parts.1.now parts.0) }
{
    let (count, number) = leading_digits(reading, text)?;
    let (_, rest) = text.split_at(count);
    if count == 0 || !begins_gap(rest) {
        return None;
    }
    Some((number, rest))
}

// Whether a text begins with a blank or an LF. Most often that is a space.
#[inline(always)]
fn begins_gap(text: &[u8]) -> bool
    requires { 0 < length text.now }
    ensures { IsTrue result → is_gap (slice_index text.now 0) ≡ true }
{
    text[0] == b' ' || is_rare_gap(text[0])
}

// Whether a byte is a blank or an LF: away from the loop that reads the data, which then has one
// comparison for each of them.
#[cold]
#[inline(never)]
fn is_rare_gap(byte: u8) -> bool
    ensures { result ≡ is_gap byte }
{
    is_gap(byte)
}

// How many digits a text begins with, and the number that they write, where they are not too many.
#[inline(always)]
fn leading_digits(reading: Reading, text: &[u8]) -> Option<(usize, u64)>
    requires { 16 ≤ length text.now }
    ensures { IfSome result (λ parts. AreDigits text.now parts.0 parts.1) }
{
    match reading {
        Reading::AtOnce => block_digits(text),
        Reading::OneByOne => few_digits(text),
    }
}

/// The text behind a `BAD` at its front, if a blank or an LF follows it.
pub fn behind_bad(text: &[u8]) -> Option<&[u8]>
    ensures { IfSome result (λ rest. (text.now ≡ codes "BAD" ++ rest.now) × (0 < length rest.now)
        × (is_gap (slice_index rest.now 0) ≡ true)) }
{
    match text {
        [b'B', b'A', b'D', rest @ ..] if !rest.is_empty() && ends_token(rest) => Some(rest),
        _ => None,
    }
}

// How many digits a text begins with, and the number that they write, where they are at most eleven
// of twelve bytes: so many bytes are looked at one by one with no test for the end of the text.
fn few_digits(text: &[u8]) -> Option<(usize, u64)>
    ensures { IfSome result (λ parts. AreDigits text.now parts.0 parts.1) }
{
    if text.len() < 12 {
        return None;
    }
    let mut number = 0u64;
    'digits: for place in 0..12usize {
        let byte = text[place];
        if !byte.is_ascii_digit() {
            return Some((place, number));
        }
        number = number * 10 + u64::from(byte - b'0');
    }
    None
}

/// Whether a token ends before this text.
pub fn ends_token(text: &[u8]) -> bool
    ensures { IsTrue result → 0 < length text.now → is_gap (slice_index text.now 0) ≡ true }
{
    match text.first() {
        Some(byte) => is_gap(*byte),
        None => true,
    }
}

/// The cell of the datum of this number.
pub fn cell_of(least: i64, greatest: i64, number: u64, token: &[u8]) -> Result<Cell, SdfError>
    ensures { result ≡ cell_of least greatest number token.now }
{
    if token == b"BAD".as_slice() {
        return Ok(Cell::Bad);
    }
    match read_whole(token) {
        Whole::Not => Err(SdfError::BadDatum(number)),
        Whole::Is(height) if least <= height && height <= greatest => Ok(Cell::Height(height)),
        Whole::Is(_) | Whole::Outside => Err(SdfError::DatumRange(number)),
    }
}
