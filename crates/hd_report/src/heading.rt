// The first lines of lists that a pruning leaves.
ghost use Rattle.std.specs.Prelude.{◌≡◌, ◌++◌, OnOk};
ghost use Rattle.hd_report.specs.Heading.{counted_heading};

use crate::place::push_side;
use hd_list::{List, Memory};
use hd_map::SideName;
use hd_num::{Percent, push_percent, push_text, push_unsigned};

/// Adds a word with the blank after it, a side, a percent and a count, and the end of the line.
pub fn push_heading(
    text: &mut List<u8>,
    word: &[u8],
    side: SideName,
    percent: Percent,
    count: usize,
) -> Result<(), Memory>
    ensures { OnOk result (text.new ≡ text.old ++ counted_heading word.now side percent.thousandths count) }
{
    push_text(text, word)?;
    push_side(text, side)?;
    text.push(b' ')?;
    push_percent(text, percent)?;
    text.push(b' ')?;
    push_unsigned(text, count as u64)?;
    text.push(b'\n')?;
    Ok(())
}
