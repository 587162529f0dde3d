// Many data at once: whole numbers of few digits, and `BAD`.
ghost use Rattle.std.specs.Prelude.{◌≡◌, ◌<◌, ◌≤◌, ◌+◌, ◌^◌, pos, IfOk, IfSome, false, true, length, map, replicate, slice_index, take};
ghost use Rattle.hd_map.specs.Map.{greatest_height, least_height};
ghost use Rattle.hd_map.specs.Packing.{cell_from, kept_cells, masks};
ghost use Rattle.hd_num.specs.Whole.{signed_number};
ghost use Rattle.hd_sdf_read.specs.ShortWords.{AreData, IsDatum, TakesBatch, height_over};
ghost use Rattle.hd_sdf_read.specs.Tokens.{is_gap};

use crate::datum::{Reading, behind_bad, leading_over};
use crate::token::skip_gaps;
use hd_list::Memory;
use hd_map::{Cells, Mark};

/// The most data of a batch.
pub const MOST_DATA: usize = 64;

/// Adds the cells of the data at the front of a text, each behind a blank or an LF, as far as there is
/// room and they are short, and tells how many they are and the text after them.
pub fn read_batch<'a>(
    cells: &mut Cells,
    below: u32,
    greatest: u32,
    room: usize,
    text: &'a [u8],
) -> Result<(usize, &'a [u8]), Memory>
    requires least { signed_number true below ≡ least_height cells.old.data_type }
    requires greatest { pos greatest ≡ greatest_height cells.old.data_type }
    requires span { below + greatest < 2 ^ 32 }
    requires some { 0 < length text.now }
    requires begins { is_gap (slice_index text.now 0) ≡ true }
    ensures { IfOk result (λ parts. TakesBatch (signed_number true below)
        (pos greatest) room cells.old text.now cells.new parts.1.now parts.0) }
{
    let mut overs = [0u32; MOST_DATA];
    let mut marks = [Mark::Shown; MOST_DATA];
    let (count, rest) = fill(
        below,
        greatest,
        room.min(MOST_DATA),
        text,
        &mut overs,
        &mut marks,
    );
    cells.extend_packed(&overs[..count], &marks[..count])?;
    Ok((count, rest))
}

// The same, with the cells as they are kept put into lists.
fn fill<'a>(
    below: u32,
    greatest: u32,
    room: usize,
    text: &'a [u8],
    overs: &mut [u32],
    marks: &mut [Mark],
) -> (usize, &'a [u8])
    requires span { below + greatest < 2 ^ 32 }
    requires some { 0 < length text.now }
    requires begins { is_gap (slice_index text.now 0) ≡ true }
    requires overs { room ≤ length overs.old }
    requires marks { room ≤ length marks.old }
    ensures count { result.0 ≤ room }
    ensures overs { length overs.new ≡ length overs.old }
    ensures marks { length marks.new ≡ length marks.old }
    ensures unmasked { map masks (take result.0 marks.new) ≡ replicate result.0 false }
    ensures cells { AreData (signed_number true below) (pos greatest) text.now result.1.now
        (kept_cells (height_over below) (take result.0 overs.new) (take result.0 marks.new)) }
{
    let mut rest = text;
    'cells: for place in 0..room {
        let Some((over, mark, after)) = next_cell(below, greatest, rest) else {
            return (place, rest);
        };
        overs[place] = over;
        marks[place] = mark;
        rest = after;
    }
    (room, rest)
}

// The cell of the next datum as it is kept, behind the blank or the LF that a text begins with, and
// the text from the next one on, which ends it. Most often one stands before it.
#[inline(always)]
fn next_cell(below: u32, greatest: u32, text: &[u8]) -> Option<(u32, Mark, &[u8])>
    requires span { below + greatest < 2 ^ 32 }
    requires some { 0 < length text.now }
    requires begins { is_gap (slice_index text.now 0) ≡ true }
    ensures unmasked { IfSome result (λ parts. masks parts.1 ≡ false) }
    ensures datum { IfSome result (λ parts. IsDatum (signed_number true below)
        (pos greatest) text.now parts.2.now (cell_from (height_over below) parts.0 parts.1)) }
{
    let word = &text[1..];
    if let Some((over, rest)) = leading_over(Reading::AtOnce, below, greatest, word) {
        return Some((over, Mark::Shown, rest));
    }
    let (over, mark, rest) = word_cell(below, greatest, skip_gaps(word))?;
    Some((over, mark, rest))
}

// The cell of the datum at the front of a text, and the text from the blank or the LF on that ends it.
fn word_cell(below: u32, greatest: u32, word: &[u8]) -> Option<(u32, Mark, &[u8])>
    requires { below + greatest < 2 ^ 32 }
    ensures unmasked { IfSome result (λ parts. masks parts.1 ≡ false) }
    ensures datum { IfSome result (λ parts. IsDatum (signed_number true below)
        (pos greatest) word.now parts.2.now (cell_from (height_over below) parts.0 parts.1)) }
{
    if let Some(rest) = behind_bad(word) {
        return Some((0, Mark::Unmeasured, rest));
    }
    if let Some((over, rest)) = leading_over(Reading::AtOnce, below, greatest, word) {
        return Some((over, Mark::Shown, rest));
    }
    let (over, rest) = leading_over(Reading::OneByOne, below, greatest, word)?;
    Some((over, Mark::Shown, rest))
}
