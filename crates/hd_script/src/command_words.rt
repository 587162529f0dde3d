// The commands that the words after each name make.
ghost use Rattle.std.specs.Prelude.{◌≡◌, ◌∷◌, [], All, IfOk, map, if◌then◌else◌};
ghost use Rattle.hd_script.specs.Whole.{IsWhole};
ghost use Rattle.hd_num.specs.Span.{IsPart, text_at};
ghost use Rattle.hd_script.specs.CommandWords.{add_words, bad_words, label_words, mask_words, neighbours_words, no_words, saddle_words, set_words, tree_words, undo_words, unmask_words};

use crate::words::{
    adjacency_word, corner_words, count_word, position_words, side_word, text, whole_word,
};
use crate::{Command, LineError};
use hd_edit::Edit;
use hd_num::Span;

/// A command with no words after its name.
pub fn no_words(line: &[u8], words: &[Span], command: Command) -> Result<Command, LineError>
    requires { IsWhole command }
    ensures value { result ≡ no_words command (map (text_at line.now) words.now) }
    ensures whole { IfOk result IsWhole }
{
    if words.is_empty() {
        Ok(command)
    } else {
        Err(LineError::WordCount)
    }
}

/// `set X Y Z`.
pub fn set_words(line: &[u8], words: &[Span]) -> Result<Command, LineError>
    requires { All (IsPart line.now) words.now }
    ensures value { result ≡ set_words (map (text_at line.now) words.now) }
    ensures whole { IfOk result IsWhole }
{
    let [x, y, z] = words else {
        return Err(LineError::WordCount);
    };
    set_command(text(line, *x), text(line, *y), text(line, *z))
}

// The command of the three words after `set`.
fn set_command(x: &[u8], y: &[u8], z: &[u8]) -> Result<Command, LineError>
    ensures value { result ≡ set_words (x.now ∷ y.now ∷ z.now ∷ []) }
    ensures whole { IfOk result IsWhole }
{
    let at = position_words(2, x, y)?;
    let z = whole_word(4, z)?;
    Ok(Command::Do(Edit::Set { at, z }))
}

/// `bad X Y`.
pub fn bad_words(line: &[u8], words: &[Span]) -> Result<Command, LineError>
    requires { All (IsPart line.now) words.now }
    ensures value { result ≡ bad_words (map (text_at line.now) words.now) }
    ensures whole { IfOk result IsWhole }
{
    let [x, y] = words else {
        return Err(LineError::WordCount);
    };
    let at = position_words(2, text(line, *x), text(line, *y))?;
    Ok(Command::Do(Edit::Bad { at }))
}

/// `add X0 Y0 X1 Y1 D`.
pub fn add_words(line: &[u8], words: &[Span]) -> Result<Command, LineError>
    requires { All (IsPart line.now) words.now }
    ensures value { result ≡ add_words (map (text_at line.now) words.now) }
    ensures whole { IfOk result IsWhole }
{
    let [x, y, other_x, other_y, delta] = words else {
        return Err(LineError::WordCount);
    };
    let (x, y) = (text(line, *x), text(line, *y));
    let (other_x, other_y) = (text(line, *other_x), text(line, *other_y));
    add_command(x, y, other_x, other_y, text(line, *delta))
}

// The command of the five words after `add`.
fn add_command(
    x: &[u8],
    y: &[u8],
    other_x: &[u8],
    other_y: &[u8],
    delta: &[u8],
) -> Result<Command, LineError>
    ensures value { result ≡ add_words (x.now ∷ y.now ∷ other_x.now ∷ other_y.now ∷ delta.now ∷ []) }
    ensures whole { IfOk result IsWhole }
{
    let (from, to) = corner_words(x, y, other_x, other_y)?;
    let delta = whole_word(6, delta)?;
    Ok(Command::Do(Edit::Add { from, to, delta }))
}

/// `mask X0 Y0 X1 Y1`, or `unmask` with these words.
pub fn mask_words(line: &[u8], words: &[Span], masked: bool) -> Result<Command, LineError>
    requires { All (IsPart line.now) words.now }
    ensures value { let words = map (text_at line.now) words.now in
        result ≡ (if masked then mask_words words else unmask_words words) }
    ensures whole { IfOk result IsWhole }
{
    let [x, y, other_x, other_y] = words else {
        return Err(LineError::WordCount);
    };
    let (x, y) = (text(line, *x), text(line, *y));
    mask_command(x, y, text(line, *other_x), text(line, *other_y), masked)
}

// The command of the four words after `mask` or `unmask`.
fn mask_command(
    x: &[u8],
    y: &[u8],
    other_x: &[u8],
    other_y: &[u8],
    masked: bool,
) -> Result<Command, LineError>
    ensures value { let words = x.now ∷ y.now ∷ other_x.now ∷ other_y.now ∷ [] in
        result ≡ (if masked then mask_words words else unmask_words words) }
    ensures whole { IfOk result IsWhole }
{
    let (from, to) = corner_words(x, y, other_x, other_y)?;
    let edit = if masked {
        Edit::Mask { from, to }
    } else {
        Edit::Unmask { from, to }
    };
    Ok(Command::Do(edit))
}

/// `undo K`.
pub fn undo_words(line: &[u8], words: &[Span]) -> Result<Command, LineError>
    requires { All (IsPart line.now) words.now }
    ensures value { result ≡ undo_words (map (text_at line.now) words.now) }
    ensures whole { IfOk result IsWhole }
{
    let [count] = words else {
        return Err(LineError::WordCount);
    };
    let count = count_word(2, text(line, *count))?;
    Ok(Command::Undo(u64::from(count)))
}

/// `label S X Y`.
pub fn label_words(line: &[u8], words: &[Span]) -> Result<Command, LineError>
    requires { All (IsPart line.now) words.now }
    ensures value { result ≡ label_words (map (text_at line.now) words.now) }
    ensures whole { IfOk result IsWhole }
{
    let [side, x, y] = words else {
        return Err(LineError::WordCount);
    };
    label_command(text(line, *side), text(line, *x), text(line, *y))
}

// The command of the three words after `label`.
fn label_command(side: &[u8], x: &[u8], y: &[u8]) -> Result<Command, LineError>
    ensures value { result ≡ label_words (side.now ∷ x.now ∷ y.now ∷ []) }
    ensures whole { IfOk result IsWhole }
{
    let side = side_word(2, side)?;
    let at = position_words(3, x, y)?;
    Ok(Command::Label { side, at })
}

/// `saddle S X Y X Y`.
pub fn saddle_words(line: &[u8], words: &[Span]) -> Result<Command, LineError>
    requires { All (IsPart line.now) words.now }
    ensures value { result ≡ saddle_words (map (text_at line.now) words.now) }
    ensures whole { IfOk result IsWhole }
{
    let [side, x, y, other_x, other_y] = words else {
        return Err(LineError::WordCount);
    };
    let (x, y) = (text(line, *x), text(line, *y));
    let (other_x, other_y) = (text(line, *other_x), text(line, *other_y));
    saddle_command(text(line, *side), x, y, other_x, other_y)
}

// The command of the five words after `saddle`.
fn saddle_command(
    side: &[u8],
    x: &[u8],
    y: &[u8],
    other_x: &[u8],
    other_y: &[u8],
) -> Result<Command, LineError>
    ensures value { result ≡ saddle_words (side.now ∷ x.now ∷ y.now ∷ other_x.now ∷ other_y.now ∷ []) }
    ensures whole { IfOk result IsWhole }
{
    let side = side_word(2, side)?;
    let a = position_words(3, x, y)?;
    let b = position_words(5, other_x, other_y)?;
    Ok(Command::Saddle { side, a, b })
}

/// `tree S`.
pub fn tree_words(line: &[u8], words: &[Span]) -> Result<Command, LineError>
    requires { All (IsPart line.now) words.now }
    ensures value { result ≡ tree_words (map (text_at line.now) words.now) }
    ensures whole { IfOk result IsWhole }
{
    let [side] = words else {
        return Err(LineError::WordCount);
    };
    let side = side_word(2, text(line, *side))?;
    Ok(Command::Tree { side })
}

/// `neighbours N`.
pub fn neighbours_words(line: &[u8], words: &[Span]) -> Result<Command, LineError>
    requires { All (IsPart line.now) words.now }
    ensures value { result ≡ neighbours_words (map (text_at line.now) words.now) }
    ensures whole { IfOk result IsWhole }
{
    let [adjacency] = words else {
        return Err(LineError::WordCount);
    };
    let adjacency = adjacency_word(2, text(line, *adjacency))?;
    Ok(Command::Neighbours(adjacency))
}
