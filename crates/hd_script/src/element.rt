// The command that defines an element, whose number of words its own words tell.
ghost use Rattle.std.specs.Prelude.{◌≡◌, ◌⊎◌, ◌∷◌, ◌<◌, ◌^◌, Err, All, IfOk, length, map};
ghost use Rattle.hd_morph.specs.Element.{IsEntry};
ghost use Rattle.hd_num.specs.Span.{IsPart, text_at};
ghost use Rattle.hd_script.specs.CommandWords.{element_words};
ghost use Rattle.hd_script.specs.Whole.{IsWhole};
ghost use Rattle.hd_script.specs.Words.{entry_words};

use crate::words::{count_word, entry_word, name_word, text};
use crate::{Command, LineError};
use hd_list::List;
use hd_num::Span;
use std::alloc::Global;

/// `element NAME W H` and W times H entries, row by row. The first three words are read before the
/// number of the entries is judged.
pub fn element_words(alloc: Global, line: &[u8], words: &[Span]) -> Result<Command, LineError>
    requires parts { All (IsPart line.now) words.now }
    requires few { length words.now < 2 ^ 16 }
    ensures value { (result ≡ Err LineError.Memory)
        ⊎ (result ≡ element_words (map (text_at line.now) words.now)) }
    ensures whole { IfOk result IsWhole }
{
    let [name, width, height, entries @ ..] = words else {
        return Err(LineError::WordCount);
    };
    let name = text(line, *name);
    let (width, height) = (text(line, *width), text(line, *height));
    element_command(alloc, line, name, width, height, entries)
}

// The command of the words after `element`, of which the first three are given by their bytes.
fn element_command(
    alloc: Global,
    line: &[u8],
    name: &[u8],
    width: &[u8],
    height: &[u8],
    entries: &[Span],
) -> Result<Command, LineError>
    requires parts { All (IsPart line.now) entries.now }
    requires few { length entries.now < 2 ^ 16 }
    ensures value { (result ≡ Err LineError.Memory)
        ⊎ (result ≡ element_words (name.now ∷ width.now ∷ height.now
        ∷ map (text_at line.now) entries.now)) }
    ensures whole { IfOk result IsWhole }
{
    let name = name_word(alloc, 2, name)?;
    let width = count_word(3, width)?;
    let height = count_word(4, height)?;
    if entries.len() as u64 != u64::from(width) * u64::from(height) {
        return Err(LineError::WordCount);
    }
    let table = entry_words(alloc, line, entries)?;
    Ok(Command::Element {
        name,
        width,
        height,
        table,
    })
}

// The entries of an element, the first being word 5.
fn entry_words(alloc: Global, line: &[u8], words: &[Span]) -> Result<List<Option<i64>>, LineError>
    requires parts { All (IsPart line.now) words.now }
    requires few { length words.now < 2 ^ 16 }
    ensures value { (result ≡ Err LineError.Memory)
        ⊎ (result ≡ entry_words 5 (map (text_at line.now) words.now)) }
    ensures count { IfOk result (λ table. length table ≡ length words.now) }
    ensures entries { IfOk result (All IsEntry) }
{
    let mut table = List::new(alloc);
    'entries: for (index, word) in words.iter().enumerate() {
        table.push(entry_word(index as u32 + 5, text(line, *word))?)?;
    }
    Ok(table)
}
