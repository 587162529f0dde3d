// Why notations and names of parameters are refused.
ghost use Rattle.std.specs.Prelude.{◌≡◌, ◌++◌, codes, decimal, IfOk, OnOk};
ghost use Rattle.hd_report.specs.Notations.{notation_text};

use hd_feature::NotationError;
use hd_list::{List, Memory};
use hd_num::{push_text, push_unsigned};
use std::alloc::Global;

/// The text of the cause.
pub fn notation_cause(alloc: Global, error: NotationError) -> Result<List<u8>, Memory>
    ensures { IfOk result (λ text. text ≡ notation_text error) }
{
    let mut text = List::new(alloc);
    match error {
        NotationError::BadPart(part) => push_part(
            &mut text,
            part,
            b" has not its form".as_slice(),
        )?,
        NotationError::BadPair(part) => {
            push_part(&mut text, part, b" does not go with the type".as_slice())?
        }
        NotationError::UnknownName => push_text(&mut text, b"unknown parameter".as_slice())?,
        NotationError::NeedsHeight => {
            push_text(&mut text, b"the parameter needs a height".as_slice())?
        }
        NotationError::TakesNoHeight => {
            push_text(&mut text, b"the parameter takes no height".as_slice())?
        }
    }
    Ok(text)
}

// Adds the number of a part, and what is wrong with it.
fn push_part(text: &mut List<u8>, part: u8, wrong: &[u8]) -> Result<(), Memory>
    ensures { OnOk result (text.new ≡ text.old ++ codes "part " ++ decimal part ++ wrong.now) }
{
    push_text(text, b"part ".as_slice())?;
    push_unsigned(text, u64::from(part))?;
    push_text(text, wrong)?;
    Ok(())
}
