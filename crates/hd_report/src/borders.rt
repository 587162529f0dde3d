// The lines of borders.
ghost use Rattle.std.specs.Prelude.{◌≡◌, ◌++◌, ◌<◌, All, IfOk, OnOk};
ghost use Rattle.std.specs.List.{flat_map};
ghost use Rattle.hd_map.specs.Map.{cell_count};
ghost use Rattle.hd_report.specs.Borders.{IsBorderInside, across_text, between_text, border_line, border_word, borders_text, pass_word};

use crate::heading::push_heading;
use crate::place::{push_point, push_rank};
use hd_lines::BorderLine;
use hd_list::{List, Memory};
use hd_map::{SideName, Size};
use hd_num::{Percent, push_text, push_unsigned};
use std::alloc::Global;

// So many bytes are reserved for the line of a border.
const BORDER_BYTES: usize = 64;

/// The border lines of a pruning at a percent on a grid of this size: how many there are, and a line for
/// each in their order with the two pits, the number of the pairs of neighbours across the border, the
/// column, profile and height in steps of its pass, and whether that is the saddle of the two.
pub fn list_borders(
    alloc: Global,
    side: SideName,
    size: Size,
    percent: Percent,
    lines: &[BorderLine],
) -> Result<List<u8>, Memory>
    requires { All (IsBorderInside size) lines.now }
    ensures { IfOk result (λ text. text ≡ borders_text side percent.thousandths size lines.now) }
{
    let mut text = List::with_capacity(alloc, lines.len().saturating_mul(BORDER_BYTES))?;
    push_heading(&mut text, b"lines ".as_slice(), side, percent, lines.len())?;
    push_borders(&mut text, side, size, lines)?;
    Ok(text)
}

// Adds a line for each border.
fn push_borders(
    text: &mut List<u8>,
    side: SideName,
    size: Size,
    borders: &[BorderLine],
) -> Result<(), Memory>
    requires { All (IsBorderInside size) borders.now }
    ensures { OnOk result (text.new ≡ text.old ++ flat_map (border_line side size) borders.now) }
{
    'lines: for border in borders {
        push_border(text, side, size, border)?;
    }
    Ok(())
}

// Adds the line of a border.
fn push_border(
    text: &mut List<u8>,
    side: SideName,
    size: Size,
    line: &BorderLine,
) -> Result<(), Memory>
    requires { IsBorderInside size line.now }
    ensures { OnOk result (text.new ≡ text.old ++ border_line side size line.now) }
{
    push_between(text, side, size, line)?;
    push_across(text, size, line)?;
    text.push(b'\n')?;
    Ok(())
}

// Adds what the border is, and its two pits.
fn push_between(
    text: &mut List<u8>,
    side: SideName,
    size: Size,
    line: &BorderLine,
) -> Result<(), Memory>
    requires { IsBorderInside size line.now }
    ensures { OnOk result (text.new ≡ text.old ++ between_text side size line.now) }
{
    push_text(text, border_word(side))?;
    text.push(b' ')?;
    push_point(text, size, line.a)?;
    text.push(b' ')?;
    push_point(text, size, line.b)?;
    Ok(())
}

// Adds how many pairs lie across, the pass, and whether that is the saddle of the two pits.
fn push_across(text: &mut List<u8>, size: Size, line: &BorderLine) -> Result<(), Memory>
    requires { IsBorderInside size line.now }
    ensures { OnOk result (text.new ≡ text.old ++ across_text size line.now) }
{
    push_text(text, b" pairs ".as_slice())?;
    push_unsigned(text, line.pairs)?;
    push_text(text, b" pass ".as_slice())?;
    push_rank(text, size, line.pass)?;
    text.push(b' ')?;
    push_text(text, pass_word(line.on_saddle))?;
    Ok(())
}

// What a border is called on a side.
fn border_word(side: SideName) -> &'static [u8]
    ensures { result.now ≡ border_word side }
{
    match side {
        SideName::Dales => b"ridge",
        SideName::Hills => b"course",
    }
}

// What a pass is called.
fn pass_word(on_saddle: bool) -> &'static [u8]
    ensures { result.now ≡ pass_word on_saddle }
{
    if on_saddle { b"saddle" } else { b"around" }
}
