// Decimals that come in pieces.
ghost use Rattle.std.specs.Prelude.{◌≡◌, ◌≤◌, ◌+◌, ◌<◌, ◌^◌, false, length};
ghost use Rattle.std.specs.List.{list_any};
ghost use Rattle.hd_map.specs.Cells.{wide_cells_in};
ghost use Rattle.hd_map.specs.Map.{cell_count};
ghost use Rattle.hd_sdf_read.specs.DecimalCut.{AreReadOn, CutDecimal, DatumTaken};
ghost use Rattle.hd_sdf_read.specs.Scaling.{data_of, IsScaled};
ghost use Rattle.hd_sdf_read.specs.Tokens.{is_gap};

use crate::SdfError;
use crate::decimals::{datum_of, leading_decimal, token_decimal};
use crate::scaled::{Datum, Scaled};
use crate::token::{next_token, skip_gaps};
use hd_map::{DataType, Size};
use std::alloc::Global;

/// The decimals of a type with those of the whole data at the front of a text, as far as the size has
/// any, and the text from the first datum on whose end has not come.
pub fn read_decimals_on(
    alloc: Global,
    data_type: DataType,
    mut scaled: Scaled,
    size: Size,
    text: &[u8],
) -> Result<(Scaled, &[u8]), SdfError>
    requires kept { IsScaled scaled data_type (data_of scaled) }
    requires count { length (wide_cells_in scaled.cells) ≤ cell_count size }
    requires small { cell_count size < 2 ^ 32 }
    ensures { AreReadOn size data_type scaled text.now result }
{
    let count = size.profiles as usize * size.points as usize;
    let mut rest = text;
    'data: for read in scaled.len()..count {
        match cut_decimal(alloc, read as u64, rest) {
            Ok(Some((datum, after))) => {
                if let Err(refusal) = scaled.push(read as u64 + 1, datum) {
                    return Err(refusal);
                }
                rest = after;
            }
            Ok(None) => return Ok((scaled, rest)),
            Err(refusal) => return Err(refusal),
        }
    }
    Ok((scaled, rest))
}

// The next datum, after so many, and the text after it, or none where its end has not come.
fn cut_decimal(alloc: Global, read: u64, text: &[u8]) -> Result<Option<(Datum, &[u8])>, SdfError>
    requires { read + 1 < 2 ^ 64 }
    ensures { CutDecimal read text.now result }
{
    match leading_decimal(skip_gaps(text)) {
        Some((datum, after)) if !after.is_empty() => Ok(Some((datum, after))),
        _ => cut_token(alloc, read, text),
    }
}

// The same, by its token.
fn cut_token(alloc: Global, read: u64, text: &[u8]) -> Result<Option<(Datum, &[u8])>, SdfError>
    requires { read + 1 < 2 ^ 64 }
    ensures { CutDecimal read text.now result }
{
    let (_, after) = next_token(text);
    if after.is_empty() {
        return Ok(None);
    }
    match token_decimal(alloc, read, text) {
        Ok((datum, after)) => Ok(Some((datum, after))),
        Err(refusal) => Err(refusal),
    }
}

/// The decimals with one more, of a token behind which a gap or nothing stands.
pub fn take_decimal(
    alloc: Global,
    data_type: DataType,
    mut scaled: Scaled,
    size: Size,
    word: &[u8],
) -> Result<Scaled, SdfError>
    requires kept { IsScaled scaled data_type (data_of scaled) }
    requires missing { length (wide_cells_in scaled.cells) < cell_count size }
    requires small { cell_count size < 2 ^ 32 }
    requires some { 0 < length word.now }
    requires gapless { list_any is_gap word.now ≡ false }
    ensures { DatumTaken size data_type scaled word.now result }
{
    let read = scaled.len() as u64;
    if word == b"*".as_slice() {
        return Err(SdfError::TooFewData(read));
    }
    match datum_of(alloc, read + 1, word) {
        Ok(datum) => match scaled.push(read + 1, datum) {
            Ok(()) => Ok(scaled),
            Err(refusal) => Err(refusal),
        },
        Err(refusal) => Err(refusal),
    }
}
