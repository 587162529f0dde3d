// Decimals that words write.
ghost use Rattle.hd_num.specs.Whole.{signed_number};
ghost use Rattle.std.specs.Prelude.{◌≡◌, ◌<◌, ◌≤◌, ◌+◌, ◌-◌, ◌^◌, IfOk, IfSome, MatchOption, false, true, length, min};
ghost use Rattle.std.specs.Char.{is_ascii_digit};
ghost use Rattle.std.specs.List.{after_first, before_first, list_all};
ghost use Rattle.std.specs.Str.Parse.{digits_value_after, signed_digits_value};
ghost use Rattle.hd_num.specs.Decimal.{IsSplit, IsValueOf, IsBounded, decimal_of, has_exponent_form, is_decimal, is_exponent, is_point};

use crate::whole::{is_negative, read_count, unsigned_part};
use bstr::ByteSlice;
use hd_list::{List, Memory};
use std::alloc::Global;

/// A decimal as a word writes it. Its value is `digits * 10^exponent`, with the sign.
#[derive(Debug, Drop)]
pub struct Decimal {
    /// Whether the word begins with `-`.
    pub negative: bool,
    /// The number that all digits before the written exponent form, with the point left out.
    pub digits: u128,
    /// The written exponent, or 0 without one, less the number of digits after the point.
    pub exponent: i32,
    /// The word.
    pub literal: List<u8>,
}

/// Reads a word as a decimal: at most one sign; one to 38 digits with at most one `.` before,
/// between or after them; then optionally `e` or `E`, at most one sign and one to three digits. A
/// decimal has at most 64 bytes. None comes exactly where the word has not this form.
pub fn read_decimal(alloc: Global, word: &[u8]) -> Result<Option<Decimal>, Memory>
    ensures { IfOk result (λ found. found ≡ decimal_of word.now) }
{
    match decimal_value(word) {
        Some((digits, exponent)) => Ok(Some(Decimal {
            negative: is_negative(word),
            digits,
            exponent,
            literal: List::from_vec(Vec::from_slice(alloc, word)?),
        })),
        None => Ok(None),
    }
}

/// Whether a word has the form that `read_decimal` reads.
pub fn is_decimal(word: &[u8]) -> bool
    ensures { result ≡ is_decimal word.now }
{
    decimal_value(word).is_some()
}

// The digits and the exponent of a word, if that is a decimal.
fn decimal_value(word: &[u8]) -> Option<(u128, i32)>
    ensures { MatchOption result (is_decimal word.now ≡ false) (λ parts. IsValueOf word.now parts.0 parts.1) }
{
    let (mantissa, exponent) = split_exponent(unsigned_part(word))?;
    let (whole, fraction) = split_point(mantissa);
    let count = whole.len() + fraction.len();
    if word.len() > 64 || count == 0 || count > 38 {
        return None;
    }
    let digits = more_digits(more_digits(0, whole)?, fraction)?;
    Some((digits, exponent - fraction.len() as i32))
}

// What stands before the exponent of a text, and the exponent, or 0 without one.
fn split_exponent(text: &[u8]) -> Option<(&[u8], i32)>
    ensures { MatchOption result (has_exponent_form text.now ≡ false)
        (λ parts. IsSplit text.now parts.0.now parts.1) }
{
    match text.find_byteset(b"eE") {
        Some(place) => {
            let exponent = exponent_value(&text[place + 1..])?;
            Some((&text[..place], exponent))
        }
        None => Some((text, 0)),
    }
}

// The number that an exponent writes.
fn exponent_value(text: &[u8]) -> Option<i32>
    ensures form { MatchOption result (is_exponent text.now ≡ false)
        (λ n. (is_exponent text.now ≡ true) × (n ≡ signed_digits_value 10 text.now)) }
    ensures small { IfSome result (IsBounded 999) }
{
    let digits = unsigned_part(text);
    if digits.len() > 3 {
        return None;
    }
    let magnitude = read_count(digits)?;
    Some(signed(is_negative(text), magnitude))
}

// The number with a minus or without.
fn signed(negative: bool, magnitude: u32) -> i32
    requires { magnitude < 1000 }
    ensures value { result ≡ signed_number negative magnitude }
    ensures small { IsBounded 999 result }
{
    if negative {
        -(magnitude as i32)
    } else {
        magnitude as i32
    }
}

// The text before the first point, and the text after it.
pub(crate) fn split_point(text: &[u8]) -> (&[u8], &[u8])
    ensures before { result.0.now ≡ before_first is_point text.now }
    ensures after { result.1.now ≡ after_first is_point text.now }
    ensures short { length result.0.now + length result.1.now ≤ length text.now }
{
    match text.find_byte(b'.') {
        Some(place) => (&text[..place], &text[place + 1..]),
        None => (text, &[]),
    }
}

// The number that these digits make after those of another number, or the greatest u128 where it
// is more; none where one of them is no digit.
fn more_digits(before: u128, text: &[u8]) -> Option<u128>
    ensures { MatchOption result (list_all is_ascii_digit text.now ≡ false)
        (λ n. (list_all is_ascii_digit text.now ≡ true) × (n ≡ min (digits_value_after 10 before text.now) (2 ^ 128 - 1))) }
{
    let mut number = before;
    'digits: for byte in text {
        if !byte.is_ascii_digit() {
            return None;
        }
        number = number
            .saturating_mul(10)
            .saturating_add(u128::from(*byte - b'0'));
    }
    Some(number)
}
