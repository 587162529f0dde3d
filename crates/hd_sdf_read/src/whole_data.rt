// Whole numbers that come in pieces.
ghost use Rattle.std.specs.Prelude.{◌≡◌, ◌≤◌, ◌+◌, ◌<◌, ◌^◌, IfOk, false, length};
ghost use Rattle.std.specs.List.{list_any};
ghost use Rattle.hd_map.specs.Cells.{cells_in};
ghost use Rattle.hd_map.specs.Map.{cell_count};
ghost use Rattle.hd_sdf_read.specs.WholeCut.{CutGiven, IsReadOn, IsTaken};
ghost use Rattle.hd_sdf_read.specs.Tokens.{is_gap};
ghost use Rattle.hd_sdf_read.specs.Keys.{has_decimals};
ghost use Rattle.hd_sdf_read.specs.ShortWords.{ReadsShort};

use crate::SdfError;
use crate::datum::{cell_of, ends_token};
use crate::short_words::read_batch;
use crate::token::next_token;
use hd_list::Memory;
use hd_map::{Cell, Cells, Size, greatest_of, least_of, over_least};

/// The cells with those of the whole data at the front of a text, as far as the size has any, and the
/// text from the first datum on whose end has not come.
pub fn read_on(mut cells: Cells, size: Size, text: &[u8]) -> Result<(Cells, &[u8]), SdfError>
    requires whole { has_decimals cells.data_type ≡ false }
    requires count { length (cells_in cells) ≤ cell_count size }
    requires small { cell_count size < 2 ^ 32 }
    ensures { IsReadOn size cells text.now result }
{
    let least = least_of(cells.data_type());
    let greatest = greatest_of(cells.data_type());
    let count = size.profiles as usize * size.points as usize;
    let mut rest = text;
    'data: while cells.len() < count {
        rest = read_short(&mut cells, size, rest)?;
        let read = cells.len();
        if read == count {
            return Ok((cells, rest));
        }
        match cut_token(least, greatest, read as u64, rest) {
            Ok(Some((cell, after))) => {
                cells.push(cell)?;
                rest = after;
            }
            Ok(None) => return Ok((cells, rest)),
            Err(refusal) => return Err(refusal),
        }
    }
    Ok((cells, rest))
}

// Adds the cells of the short data at the front of a text, each behind a blank or an LF, as far as the
// size has any, and tells the text after them.
fn read_short<'a>(cells: &mut Cells, size: Size, text: &'a [u8]) -> Result<&'a [u8], Memory>
    requires whole { has_decimals cells.old.data_type ≡ false }
    requires count { length (cells_in cells.old) ≤ cell_count size }
    requires small { cell_count size < 2 ^ 32 }
    ensures { IfOk result (λ rest. ReadsShort size cells.old text.now cells.new rest.now) }
{
    let below = over_least(least_of(cells.data_type()), 0);
    let greatest = over_least(0, greatest_of(cells.data_type()));
    let count = size.profiles as usize * size.points as usize;
    let mut rest = text;
    if rest.is_empty() || !ends_token(rest) {
        return Ok(rest);
    }
    'short: while cells.len() < count {
        let room = count - cells.len();
        let (read, after) = read_batch(cells, below, greatest, room, rest)?;
        if read == 0 {
            return Ok(after);
        }
        rest = after;
    }
    Ok(rest)
}

// The cell of the next datum, after so many, and the text after it, or none where its end has not
// come.
fn cut_token(
    least: i64,
    greatest: i64,
    read: u64,
    text: &[u8],
) -> Result<Option<(Cell, &[u8])>, SdfError>
    requires { read + 1 < 2 ^ 64 }
    ensures { CutGiven least greatest read text.now result }
{
    let (token, after) = next_token(text);
    if after.is_empty() {
        return Ok(None);
    }
    if token == b"*".as_slice() {
        return Err(SdfError::TooFewData(read));
    }
    match cell_of(least, greatest, read + 1, token) {
        Ok(cell) => Ok(Some((cell, after))),
        Err(refusal) => Err(refusal),
    }
}

/// The cells with one more, of a token behind which a gap or nothing stands.
pub fn take_word(mut cells: Cells, size: Size, word: &[u8]) -> Result<Cells, SdfError>
    requires whole { has_decimals cells.data_type ≡ false }
    requires missing { length (cells_in cells) < cell_count size }
    requires small { cell_count size < 2 ^ 32 }
    requires some { 0 < length word.now }
    requires gapless { list_any is_gap word.now ≡ false }
    ensures { IsTaken size cells word.now result }
{
    let read = cells.len() as u64;
    if word == b"*".as_slice() {
        return Err(SdfError::TooFewData(read));
    }
    let data_type = cells.data_type();
    match cell_of(least_of(data_type), greatest_of(data_type), read + 1, word) {
        Ok(cell) => {
            cells.push(cell)?;
            Ok(cells)
        }
        Err(refusal) => Err(refusal),
    }
}
