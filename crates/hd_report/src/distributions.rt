// The lines of distributions and shares.
ghost use Rattle.std.specs.Prelude.{◌≡◌, ◌++◌, IfOk, OnOk};
ghost use Rattle.std.specs.List.{flat_map};
ghost use Rattle.hd_report.specs.Distributions.{count_text, counts_text, hist_line, perc_line};

use crate::values::push_value;
use hd_list::{List, Memory};
use hd_num::{Frac, push_text, push_unsigned, push_whole};
use std::alloc::Global;

/// `hist N WORD` and the counts of the bins, each after a space, or `none` for no counts.
pub fn tell_distribution(
    alloc: Global,
    bins: u32,
    word: &[u8],
    counts: &Option<List<u64>>,
) -> Result<List<u8>, Memory>
    ensures { IfOk result (λ text. text ≡ hist_line bins word.now counts.now) }
{
    let mut text = List::new(alloc);
    push_text(&mut text, b"hist ".as_slice())?;
    push_unsigned(&mut text, u64::from(bins))?;
    text.push(b' ')?;
    push_text(&mut text, word)?;
    push_counts(&mut text, counts)?;
    text.push(b'\n')?;
    Ok(text)
}

// Adds the counts, each after a space, or `none`.
fn push_counts(text: &mut List<u8>, counts: &Option<List<u64>>) -> Result<(), Memory>
    ensures { OnOk result (text.new ≡ text.old ++ counts_text counts.now) }
{
    match counts {
        Some(counts) => push_all(text, counts.as_slice()),
        None => push_text(text, b" none".as_slice()),
    }
}

// Adds counts, each after a space.
fn push_all(text: &mut List<u8>, counts: &[u64]) -> Result<(), Memory>
    ensures { OnOk result (text.new ≡ text.old ++ flat_map count_text counts.now) }
{
    'counts: for count in counts {
        text.push(b' ')?;
        push_unsigned(text, *count)?;
    }
    Ok(())
}

/// `perc V WORD VALUE`, with `none` for no value.
pub fn tell_share(
    alloc: Global,
    above: i64,
    word: &[u8],
    value: Option<Frac>,
) -> Result<List<u8>, Memory>
    ensures { IfOk result (λ text. text ≡ perc_line above word.now value) }
{
    let mut text = List::new(alloc);
    push_text(&mut text, b"perc ".as_slice())?;
    push_whole(&mut text, above)?;
    text.push(b' ')?;
    push_text(&mut text, word)?;
    push_value(&mut text, value)?;
    Ok(text)
}
