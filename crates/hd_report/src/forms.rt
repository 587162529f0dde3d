// Why a line has not its form.
ghost use Rattle.std.specs.Prelude.{◌≡◌, ◌++◌, IfOk, OnOk, codes, decimal};
ghost use Rattle.hd_report.specs.Forms.{form_text};

use hd_list::{List, Memory};
use hd_num::{push_text, push_unsigned};
use hd_script::LineError;
use std::alloc::Global;

/// The text of the cause. Want of memory is handed on.
pub fn form_cause(alloc: Global, error: LineError) -> Result<List<u8>, Memory>
    ensures { IfOk result (λ text. text ≡ form_text error) }
{
    let mut text = List::new(alloc);
    match error {
        LineError::Memory => return Err(Memory),
        LineError::UnknownCommand => push_text(&mut text, b"unknown command".as_slice())?,
        LineError::WordCount => push_text(&mut text, b"wrong number of words".as_slice())?,
        LineError::BadWord(word) => push_bad_word(&mut text, word)?,
        LineError::LineTooLong => push_text(&mut text, b"line too long".as_slice())?,
    }
    Ok(text)
}

// Adds that the word of this number has not its form.
fn push_bad_word(text: &mut List<u8>, word: u32) -> Result<(), Memory>
    ensures { OnOk result (text.new ≡ text.old ++ codes "word " ++ decimal word
        ++ codes " has not its form") }
{
    push_text(text, b"word ".as_slice())?;
    push_unsigned(text, u64::from(word))?;
    push_text(text, b" has not its form".as_slice())?;
    Ok(())
}
