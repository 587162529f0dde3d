// The lines of the elements, and why a table makes none.
ghost use Rattle.std.specs.Prelude.{◌≡◌, ◌++◌, IfOk, OnOk};
ghost use Rattle.std.specs.List.{flat_map};
ghost use Rattle.hd_report.specs.Elements.{element_line, element_text, elements_text};

use hd_edit::ElementLine;
use hd_list::{List, Memory};
use hd_morph::ElementError;
use hd_num::{push_text, push_unsigned};
use std::alloc::Global;

/// The text of the cause for which a table makes no element.
pub fn element_cause(alloc: Global, error: ElementError) -> Result<List<u8>, Memory>
    ensures { IfOk result (λ text. text ≡ element_text error) }
{
    let mut text = List::new(alloc);
    match error {
        ElementError::EvenSize => push_text(&mut text, b"element size is even".as_slice())?,
        ElementError::TooWide => push_text(&mut text, b"element is wider than 15".as_slice())?,
        ElementError::NoOrigin => push_text(&mut text, b"element has no origin".as_slice())?,
    }
    Ok(text)
}

/// The number of the elements, and a line for each with its name, width and height.
pub fn list_elements(alloc: Global, lines: &[ElementLine]) -> Result<List<u8>, Memory>
    ensures { IfOk result (λ text. text ≡ elements_text lines.now) }
{
    let mut text = List::new(alloc);
    push_text(&mut text, b"elements ".as_slice())?;
    push_unsigned(&mut text, lines.len() as u64)?;
    text.push(b'\n')?;
    push_elements(&mut text, lines)?;
    Ok(text)
}

// Adds a line for each element.
fn push_elements(text: &mut List<u8>, lines: &[ElementLine]) -> Result<(), Memory>
    ensures { OnOk result (text.new ≡ text.old ++ flat_map element_line lines.now) }
{
    'lines: for line in lines {
        push_element(text, line)?;
    }
    Ok(())
}

// Adds the line of an element.
fn push_element(text: &mut List<u8>, line: &ElementLine) -> Result<(), Memory>
    ensures { OnOk result (text.new ≡ text.old ++ element_line line.now) }
{
    push_text(text, b"element ".as_slice())?;
    push_text(text, line.name.as_slice())?;
    text.push(b' ')?;
    push_unsigned(text, u64::from(line.width))?;
    text.push(b' ')?;
    push_unsigned(text, u64::from(line.height))?;
    text.push(b'\n')?;
    Ok(())
}
