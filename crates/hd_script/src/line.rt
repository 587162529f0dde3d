// The command of a line.
ghost use Rattle.std.specs.Prelude.{◌≡◌, ◌⊎◌, ◌<◌, ◌^◌, Err, All, IfOk, length, map};
ghost use Rattle.hd_num.specs.Span.{IsPart, text_at};
ghost use Rattle.hd_script.specs.Line.{is_comment, script_line, words_give};
ghost use Rattle.hd_script.specs.Whole.{IsWholeIfAny};

use crate::command_table::read_command;
use crate::words::text;
use crate::{Command, LineError};
use hd_num::{Span, split_words};
use std::alloc::Global;

// The greatest number of bytes of a line.
const LONGEST_LINE: usize = 4096;

/// Reads a line of a script, without its line feed. None comes exactly where the line is skipped:
/// it has no words, or its first word begins with `;`.
///
/// The refusals, of which the first is the answer: `LineTooLong` exactly where the line has more
/// than 4,096 bytes, whatever they are; `UnknownCommand` exactly where the first word is no command
/// of the table; `WordCount` exactly where the number of words is not that of the command;
/// `BadWord` with the number of the first word that has not its form, the command being word 1. An
/// `element` line of fewer than four words is `WordCount` first; of any other the name, the width and
/// the height are read before the number of words is judged. `Memory` may come in place of any other
/// answer. Memory is taken for the list of the words, and for the names, the table and the notation
/// that the command holds.
pub fn read_line(alloc: Global, line: &[u8]) -> Result<Option<Command>, LineError>
    ensures value { (result ≡ Err LineError.Memory) ⊎ (result ≡ script_line line.now) }
    ensures whole { IfOk result IsWholeIfAny }
{
    if line.len() > LONGEST_LINE {
        return Err(LineError::LineTooLong);
    }
    let words = split_words(alloc, line)?;
    read_words(alloc, line, words.as_slice())
}

// What the words of a line give.
fn read_words(alloc: Global, line: &[u8], words: &[Span]) -> Result<Option<Command>, LineError>
    requires parts { All (IsPart line.now) words.now }
    requires few { length words.now < 2 ^ 16 }
    ensures value { (result ≡ Err LineError.Memory)
        ⊎ (result ≡ words_give (map (text_at line.now) words.now)) }
    ensures whole { IfOk result IsWholeIfAny }
{
    let [name, words @ ..] = words else {
        return Ok(None);
    };
    let name = text(line, *name);
    if begins_comment(name) {
        return Ok(None);
    }
    let command = read_command(alloc, name, line, words)?;
    Ok(Some(command))
}

// Whether a word begins with `;`.
fn begins_comment(word: &[u8]) -> bool
    ensures { result ≡ is_comment word.now }
{
    matches!(word, [b';', ..])
}
