// The commands whose words are kept as they stand.
ghost use Rattle.std.specs.Prelude.{◌≡◌, ◌⊎◌, ◌∷◌, [], Err, All, IfOk, map};
ghost use Rattle.hd_num.specs.Span.{IsPart, text_at};
ghost use Rattle.hd_script.specs.CommandWords.{feature_words, height_words, hist_words, param_words, perc_words};
ghost use Rattle.hd_script.specs.Whole.{IsWhole};

use crate::words::{bins_word, text, whole_text, whole_word};
use crate::{Command, LineError};
use hd_num::Span;
use std::alloc::Global;

/// `param NAME` or `param NAME C`.
pub fn param_words(alloc: Global, line: &[u8], words: &[Span]) -> Result<Command, LineError>
    requires { All (IsPart line.now) words.now }
    ensures value { (result ≡ Err LineError.Memory)
        ⊎ (result ≡ param_words (map (text_at line.now) words.now)) }
    ensures whole { IfOk result IsWhole }
{
    match words {
        [name] => {
            let name = whole_text(alloc, text(line, *name))?;
            Ok(Command::Param { name, height: None })
        }
        [name, height] => {
            let height = Some(whole_word(3, text(line, *height))?);
            let name = whole_text(alloc, text(line, *name))?;
            Ok(Command::Param { name, height })
        }
        _ => Err(LineError::WordCount),
    }
}

/// `feature WORD`.
pub fn feature_words(alloc: Global, line: &[u8], words: &[Span]) -> Result<Command, LineError>
    requires { All (IsPart line.now) words.now }
    ensures value { (result ≡ Err LineError.Memory)
        ⊎ (result ≡ feature_words (map (text_at line.now) words.now)) }
    ensures whole { IfOk result IsWhole }
{
    let [word] = words else {
        return Err(LineError::WordCount);
    };
    let word = whole_text(alloc, text(line, *word))?;
    Ok(Command::Feature { word })
}

/// `height NAME` or `height NAME C`.
pub fn height_words(alloc: Global, line: &[u8], words: &[Span]) -> Result<Command, LineError>
    requires { All (IsPart line.now) words.now }
    ensures value { (result ≡ Err LineError.Memory)
        ⊎ (result ≡ height_words (map (text_at line.now) words.now)) }
    ensures whole { IfOk result IsWhole }
{
    match words {
        [name] => {
            let name = whole_text(alloc, text(line, *name))?;
            Ok(Command::HeightValue { name, c: None })
        }
        [name, c] => {
            let c = Some(whole_word(3, text(line, *c))?);
            let name = whole_text(alloc, text(line, *name))?;
            Ok(Command::HeightValue { name, c })
        }
        _ => Err(LineError::WordCount),
    }
}

/// `hist N WORD`.
pub fn hist_words(alloc: Global, line: &[u8], words: &[Span]) -> Result<Command, LineError>
    requires { All (IsPart line.now) words.now }
    ensures value { (result ≡ Err LineError.Memory)
        ⊎ (result ≡ hist_words (map (text_at line.now) words.now)) }
    ensures whole { IfOk result IsWhole }
{
    let [bins, word] = words else {
        return Err(LineError::WordCount);
    };
    let bins = bins_word(2, text(line, *bins))?;
    let word = whole_text(alloc, text(line, *word))?;
    Ok(Command::Hist { bins, word })
}

/// `perc V WORD`.
pub fn perc_words(alloc: Global, line: &[u8], words: &[Span]) -> Result<Command, LineError>
    requires { All (IsPart line.now) words.now }
    ensures value { (result ≡ Err LineError.Memory)
        ⊎ (result ≡ perc_words (map (text_at line.now) words.now)) }
    ensures whole { IfOk result IsWhole }
{
    let [above, word] = words else {
        return Err(LineError::WordCount);
    };
    perc_command(alloc, text(line, *above), text(line, *word))
}

// The command of the two words after `perc`.
fn perc_command(alloc: Global, above: &[u8], word: &[u8]) -> Result<Command, LineError>
    ensures value { (result ≡ Err LineError.Memory) ⊎ (result ≡ perc_words (above.now ∷ word.now ∷ [])) }
    ensures whole { IfOk result IsWhole }
{
    let above = whole_word(2, above)?;
    let word = whole_text(alloc, word)?;
    Ok(Command::Perc { above, word })
}
