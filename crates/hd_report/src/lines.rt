// The lines that tell whether a line is accepted.
ghost use Rattle.std.specs.Prelude.{◌≡◌, IfOk};
ghost use Rattle.hd_report.specs.Lines.{ok_line, refused_line};

use hd_list::{List, Memory};
use hd_num::{push_text, push_unsigned};
use std::alloc::Global;

/// `line N ok`.
pub fn ok_line(alloc: Global, number: u64) -> Result<List<u8>, Memory>
    ensures { IfOk result (λ text. text ≡ ok_line number) }
{
    let mut text = List::new(alloc);
    push_text(&mut text, b"line ".as_slice())?;
    push_unsigned(&mut text, number)?;
    push_text(&mut text, b" ok\n".as_slice())?;
    Ok(text)
}

/// `line N refused: CAUSE`.
pub fn refused_line(alloc: Global, number: u64, cause: &[u8]) -> Result<List<u8>, Memory>
    ensures { IfOk result (λ text. text ≡ refused_line number cause.now) }
{
    let mut text = List::new(alloc);
    push_text(&mut text, b"line ".as_slice())?;
    push_unsigned(&mut text, number)?;
    push_text(&mut text, b" refused: ".as_slice())?;
    push_text(&mut text, cause)?;
    text.push(b'\n')?;
    Ok(text)
}
