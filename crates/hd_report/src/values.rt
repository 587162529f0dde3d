// The lines of the values of parameters and notations.
ghost use Rattle.std.specs.Prelude.{◌≡◌, ◌++◌, ◌∷◌, [], IfOk, OnOk};
ghost use Rattle.hd_report.specs.Values.{feature_line, height_line, height_text, named_line, param_line, value_text};

use hd_list::{List, Memory};
use hd_num::{Frac, push_frac, push_text, push_whole};
use std::alloc::Global;

/// `param NAME VALUE`, with the height in steps after the name where there is one, and `none` for no
/// value.
pub fn tell_parameter(
    alloc: Global,
    name: &[u8],
    height: Option<i64>,
    value: Option<Frac>,
) -> Result<List<u8>, Memory>
    ensures { IfOk result (λ text. text ≡ param_line name.now height value) }
{
    tell_named(alloc, b"param ".as_slice(), name, height, value)
}

/// `height NAME VALUE`, with the height in steps after the name where there is one, and `none` for no
/// value.
pub fn tell_height(
    alloc: Global,
    name: &[u8],
    height: Option<i64>,
    value: Option<Frac>,
) -> Result<List<u8>, Memory>
    ensures { IfOk result (λ text. text ≡ height_line name.now height value) }
{
    tell_named(alloc, b"height ".as_slice(), name, height, value)
}

// A command, a name, a height where there is one, and the value.
fn tell_named(
    alloc: Global,
    command: &[u8],
    name: &[u8],
    height: Option<i64>,
    value: Option<Frac>,
) -> Result<List<u8>, Memory>
    ensures { IfOk result (λ text. text ≡ named_line command.now name.now height value) }
{
    let mut text = List::new(alloc);
    push_text(&mut text, command)?;
    push_text(&mut text, name)?;
    push_height(&mut text, height)?;
    push_value(&mut text, value)?;
    Ok(text)
}

/// `feature WORD VALUE`, with `none` for no value.
pub fn tell_feature(alloc: Global, word: &[u8], value: Option<Frac>) -> Result<List<u8>, Memory>
    ensures { IfOk result (λ text. text ≡ feature_line word.now value) }
{
    let mut text = List::new(alloc);
    push_text(&mut text, b"feature ".as_slice())?;
    push_text(&mut text, word)?;
    push_value(&mut text, value)?;
    Ok(text)
}

/// Adds a space, a fraction or `none`, and the end of the line.
pub fn push_value(text: &mut List<u8>, value: Option<Frac>) -> Result<(), Memory>
    ensures { OnOk result (text.new ≡ text.old ++ 32 ∷ [] ++ value_text value ++ 10 ∷ []) }
{
    text.push(b' ')?;
    match value {
        Some(value) => push_frac(text, value)?,
        None => push_text(text, b"none".as_slice())?,
    }
    text.push(b'\n')
}

// Adds a height with a space before it, or nothing.
fn push_height(text: &mut List<u8>, height: Option<i64>) -> Result<(), Memory>
    ensures { OnOk result (text.new ≡ text.old ++ height_text height) }
{
    if let Some(height) = height {
        text.push(b' ')?;
        push_whole(text, height)?;
    }
    Ok(())
}
