// Why edits and undo are refused.
ghost use Rattle.std.specs.Prelude.{◌≡◌, ◌++◌, IfOk, codes};
ghost use Rattle.hd_report.specs.Edits.{edit_text, kept_text};
ghost use Rattle.hd_report.specs.Place.{place_text};

use crate::place::push_place;
use crate::points::outside_cause;
use hd_edit::EditError;
use hd_list::{List, Memory};
use hd_map::Pos;
use hd_num::{push_text, push_unsigned};
use std::alloc::Global;

/// The text of the cause for which an edit is refused. Want of memory is handed on.
pub fn edit_cause(alloc: Global, error: EditError) -> Result<List<u8>, Memory>
    ensures known { IfOk result (λ text. error ≡ EditError.Memory → ⊥) }
    ensures text { IfOk result (λ text. text ≡ edit_text error) }
{
    match error {
        EditError::Memory => Err(Memory),
        EditError::Outside(at) => outside_cause(alloc, at),
        EditError::HeightRange(at) => range_cause(alloc, at),
        EditError::EmptyRect => plain_cause(alloc, b"empty rectangle".as_slice()),
        EditError::NoElement => plain_cause(alloc, b"no element of this name".as_slice()),
    }
}

// `height out of range at X Y`.
fn range_cause(alloc: Global, at: Pos) -> Result<List<u8>, Memory>
    ensures { IfOk result (λ text. text ≡ codes "height out of range at " ++ place_text at) }
{
    let mut text = List::new(alloc);
    push_text(&mut text, b"height out of range at ".as_slice())?;
    push_place(&mut text, at)?;
    Ok(text)
}

// A cause that is always the same.
fn plain_cause(alloc: Global, cause: &[u8]) -> Result<List<u8>, Memory>
    ensures { IfOk result (λ text. text ≡ cause.now) }
{
    let mut text = List::new(alloc);
    push_text(&mut text, cause)?;
    Ok(text)
}

/// `only K edits kept`.
pub fn kept_cause(alloc: Global, kept: u32) -> Result<List<u8>, Memory>
    ensures { IfOk result (λ text. text ≡ kept_text kept) }
{
    let mut text = List::new(alloc);
    push_text(&mut text, b"only ".as_slice())?;
    push_unsigned(&mut text, u64::from(kept))?;
    push_text(&mut text, b" edits kept".as_slice())?;
    Ok(text)
}
