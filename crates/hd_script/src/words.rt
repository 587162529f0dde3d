// What the words of a line write.
ghost use Rattle.std.specs.Prelude.{◌≡◌, ◌⊎◌, ◌<◌, ◌^◌, ◌&&◌, Ok, Err, IfOk, length, nat_le};
ghost use Rattle.hd_morph.specs.Element.{IsEntry};
ghost use Rattle.hd_num.specs.Span.{IsPart, text_at};
ghost use Rattle.std.specs.List.{list_all};
ghost use Rattle.hd_script.specs.Whole.{AreBins};
ghost use Rattle.hd_script.specs.Words.{adjacency_word, bins_word, corner_words, count_word, entry_word, is_name_byte, name_word, percent_word, position_words, side_word, whole_word};

use crate::LineError;
use hd_list::List;
use hd_map::{Adjacency, Pos, SideName};
use hd_num::{Percent, Span, Whole, read_count, read_percent, read_whole};
use std::alloc::Global;

// The greatest absolute value of an entry of an element.
const GREATEST_ENTRY: i64 = 4_294_967_295;

// The most bins of a distribution.
const MOST_BINS: u32 = 64;

/// The bytes of a word.
pub fn text(line: &[u8], word: Span) -> &[u8]
    requires { IsPart line.now word }
    ensures { result.now ≡ text_at line.now word }
{
    &line[word.start..word.end]
}

/// The count that the word of a number writes.
pub fn count_word(number: u32, word: &[u8]) -> Result<u32, LineError>
    ensures { result ≡ count_word number word.now }
{
    match read_count(word) {
        Some(count) => Ok(count),
        None => Err(LineError::BadWord(number)),
    }
}

/// The whole number that the word of a number writes.
pub fn whole_word(number: u32, word: &[u8]) -> Result<i64, LineError>
    ensures { result ≡ whole_word number word.now }
{
    match read_whole(word) {
        Whole::Is(z) => Ok(z),
        Whole::Not | Whole::Outside => Err(LineError::BadWord(number)),
    }
}

/// The side that the word of a number names.
pub fn side_word(number: u32, word: &[u8]) -> Result<SideName, LineError>
    ensures { result ≡ side_word number word.now }
{
    match word {
        b"D" => Ok(SideName::Dales),
        b"H" => Ok(SideName::Hills),
        _ => Err(LineError::BadWord(number)),
    }
}

/// The setting of the neighbours that the word of a number names.
pub fn adjacency_word(number: u32, word: &[u8]) -> Result<Adjacency, LineError>
    ensures { result ≡ adjacency_word number word.now }
{
    match word {
        b"4" => Ok(Adjacency::Four),
        b"6" => Ok(Adjacency::Six),
        b"8" => Ok(Adjacency::Eight),
        _ => Err(LineError::BadWord(number)),
    }
}

/// The percent that the word of a number writes.
#[tactic(auto, unfolding(crate::specs::Words::percent_word))]
pub fn percent_word(number: u32, word: &[u8]) -> Result<Percent, LineError>
    ensures { result ≡ percent_word number word.now }
{
    match read_percent(word) {
        Some(percent) => Ok(percent),
        None => Err(LineError::BadWord(number)),
    }
}

/// The position whose column is the word of a number, and whose profile is the next word.
pub fn position_words(number: u32, x: &[u8], y: &[u8]) -> Result<Pos, LineError>
    requires { number < 2 ^ 16 }
    ensures { result ≡ position_words number x.now y.now }
{
    let x = count_word(number, x)?;
    let y = count_word(number + 1, y)?;
    Ok(Pos { x, y })
}

/// The two corners of a rectangle, the first column being word 2.
pub fn corner_words(
    x: &[u8],
    y: &[u8],
    other_x: &[u8],
    other_y: &[u8],
) -> Result<(Pos, Pos), LineError>
    ensures { result ≡ corner_words x.now y.now other_x.now other_y.now }
{
    let from = position_words(2, x, y)?;
    let to = position_words(4, other_x, other_y)?;
    Ok((from, to))
}

/// The number of bins that the word of a number writes: a count from 1 to 64.
pub fn bins_word(number: u32, word: &[u8]) -> Result<u32, LineError>
    ensures value { result ≡ bins_word number word.now }
    ensures bins { IfOk result AreBins }
{
    match read_count(word) {
        Some(count) if 1 <= count && count <= MOST_BINS => Ok(count),
        _ => Err(LineError::BadWord(number)),
    }
}

/// The name that the word of a number is: 1 to 32 letters, digits, `_` and `-`.
pub fn name_word(alloc: Global, number: u32, word: &[u8]) -> Result<List<u8>, LineError>
    ensures { (result ≡ Err LineError.Memory) ⊎ (result ≡ name_word number word.now) }
{
    if !is_name(word) {
        return Err(LineError::BadWord(number));
    }
    let mut name = List::new(alloc);
    name.extend_from_slice(word)?;
    Ok(name)
}

/// The entry of an element that the word of a number writes: `-` for none, or a whole number.
pub fn entry_word(number: u32, word: &[u8]) -> Result<Option<i64>, LineError>
    ensures value { result ≡ entry_word number word.now }
    ensures entry { IfOk result IsEntry }
{
    if matches!(word, b"-") {
        return Ok(None);
    }
    match read_whole(word) {
        Whole::Is(z) if -GREATEST_ENTRY <= z && z <= GREATEST_ENTRY => Ok(Some(z)),
        _ => Err(LineError::BadWord(number)),
    }
}

/// A word as it stands.
pub fn whole_text(alloc: Global, word: &[u8]) -> Result<List<u8>, LineError>
    ensures value { (result ≡ Err LineError.Memory) ⊎ (result ≡ Ok word.now) }
{
    let mut text = List::new(alloc);
    text.extend_from_slice(word)?;
    Ok(text)
}

// Whether a word is a name.
fn is_name(word: &[u8]) -> bool
    ensures { result ≡ nat_le 1 (length word.now) && nat_le
        (length word.now) 32 && list_all is_name_byte word.now }
{
    if word.is_empty() || 32 < word.len() {
        return false;
    }
    'bytes: for byte in word {
        if !is_name_byte(*byte) {
            return false;
        }
    }
    true
}

// Whether a byte may stand in a name.
fn is_name_byte(byte: u8) -> bool
    ensures { result ≡ is_name_byte byte }
{
    byte.is_ascii_alphanumeric() || byte == b'_' || byte == b'-'
}
