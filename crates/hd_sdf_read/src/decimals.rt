// The data of a type of decimals.
ghost use Rattle.std.specs.Prelude.{◌≡◌, ◌<◌, ◌≤◌, ◌+◌, ◌*◌, ◌^◌, IfSome, MatchOption};
ghost use Rattle.hd_sdf_read.specs.Decimals.{IsSmall, measured, most_steps};
ghost use Rattle.hd_sdf_read.specs.DecimalTokens.{AreUnits, DecimalGiven, TakesDecimal, TokenGiven};

use crate::SdfError;
use crate::datum::ends_token;
use crate::scaled::{Datum, MOST_PLACES, MOST_STEPS, multiplied};
use crate::token::next_token;
use hd_num::{Decimal, is_negative, leading_digits, read_decimal, unsigned_part};
use std::alloc::Global;

/// The next datum, after so many, and the text after it, by its token.
pub fn token_decimal(alloc: Global, read: u64, text: &[u8]) -> Result<(Datum, &[u8]), SdfError>
    requires { read + 1 < 2 ^ 64 }
    ensures { DecimalGiven read text.now result }
{
    let (token, rest) = next_token(text);
    if token.is_empty() {
        return Err(SdfError::TooFewData(read));
    }
    if token == b"*".as_slice() {
        return Err(SdfError::TooFewData(read));
    }
    match datum_of(alloc, read + 1, token) {
        Ok(datum) => Ok((datum, rest)),
        Err(refusal) => Err(refusal),
    }
}

/// The datum of this number.
pub fn datum_of(alloc: Global, number: u64, token: &[u8]) -> Result<Datum, SdfError>
    ensures { TokenGiven number token.now result }
{
    if token == b"BAD".as_slice() {
        return Ok(Datum::Unmeasured);
    }
    match read_decimal(alloc, token)? {
        Some(decimal) => match measured(&decimal) {
            Some(datum) => Ok(datum),
            None => Err(SdfError::DatumRange(number)),
        },
        None => Err(SdfError::BadDecimal(number)),
    }
}

// What a decimal measures, if it alone is in range.
fn measured(decimal: &Decimal) -> Option<Datum>
    ensures { MatchOption result (IsSmall (measured decimal.now) → ⊥)
        (λ d. (d ≡ measured decimal.now) × IsSmall d) }
{
    if decimal.exponent >= 0 {
        let units = powered(decimal.digits, decimal.exponent as u32)?;
        return Some(Datum::Measured {
            negative: decimal.negative,
            units,
            places: 0,
        });
    }
    let places = decimal.exponent.unsigned_abs();
    if places > u32::from(MOST_PLACES) || decimal.digits > u128::from(MOST_STEPS) {
        return None;
    }
    Some(Datum::Measured {
        negative: decimal.negative,
        units: decimal.digits as u64,
        places: places as u8,
    })
}

// Digits times ten to a power, if these are steps in range.
fn powered(digits: u128, power: u32) -> Option<u64>
    ensures { MatchOption result (most_steps < digits * 10 ^ power)
        (λ units. (units ≡ digits * 10 ^ power) × (units ≤ most_steps)) }
{
    if digits == 0 {
        return Some(0);
    }
    if digits > u128::from(MOST_STEPS) {
        return None;
    }
    if power > u32::from(MOST_PLACES) {
        return None;
    }
    multiplied(digits as u64, power as u8)
}

/// The decimal without an exponent at the front of a text, if it alone is in range and a blank, an LF
/// or the end follows it, and the text after it. Those of more than eighteen digits are left out.
pub fn leading_decimal(text: &[u8]) -> Option<(Datum, &[u8])>
    ensures { IfSome result (λ parts. TakesDecimal text.now parts.1.now parts.0) }
{
    let (units, places, rest) = leading_units(unsigned_part(text))?;
    if units > MOST_STEPS || !ends_token(rest) {
        return None;
    }
    let datum = Datum::Measured {
        negative: is_negative(text),
        units,
        places,
    };
    Some((datum, rest))
}

// One to eighteen digits at the front of a text, with at most one point before, between or after
// them: the number that they make, how many stand after the point, and the text after them.
fn leading_units(text: &[u8]) -> Option<(u64, u8, &[u8])>
    ensures { IfSome result (λ parts. AreUnits text.now parts.0 parts.1 parts.2.now) }
{
    let (count, whole) = leading_digits(text);
    let (_, after) = text.split_at(count);
    if after.is_empty() || after[0] != b'.' {
        return if count == 0 {
            None
        } else {
            Some((whole, 0, after))
        };
    }
    let (_, fraction) = after.split_at(1);
    let (places, part) = leading_digits(fraction);
    let (_, rest) = fraction.split_at(places);
    if count + places == 0 || count + places > 18 {
        return None;
    }
    Some((whole * 10u64.pow(places as u32) + part, places as u8, rest))
}
