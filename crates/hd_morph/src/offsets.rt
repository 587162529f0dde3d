// Dilations by any element, offset by offset, each over whole rows.
ghost use Rattle.std.specs.Prelude.{◌≡◌, ◌<◌, ◌≤◌, ◌+◌, ◌/◌, ◌≤ℤ◌, IfOk, IfSome, IfNone, ℕ, None, pos, neg_ℤ, length};
ghost use Rattle.hd_map.specs.Map.{IsSize, cell_count};
ghost use Rattle.hd_map.specs.Encoding.{most_between, values_of};
ghost use Rattle.hd_morph.specs.Element.{IsElement, number_at};
ghost use Rattle.hd_morph.specs.declared.filter.Filter.TheVariants.{Dilation};
ghost use Rattle.hd_morph.specs.Plain.{ArePlain, IsPlain, HasNumbersWithin, value_at, relief};
ghost use Rattle.hd_morph.specs.Raised.{ArePlainlyFiltered, AreRaisedTo, AreRaisedAcross, IsRowRaisedOnce, AreBlank, IsBlankRow, IsRowRaised, AreRaised};

use crate::Element;
use crate::plain::settle;
use crate::raise::Raise;
use hd_list::Memory;
use hd_map::{Lane, Pos, Size};

/// The dilation of heights by an element, in the memory of `room` where that suffices. It takes time
/// in proportion to the places times the numbers of the element.
pub fn dilate_by_offsets<L: Raise>(
    room: Vec<L>,
    heights: &[L],
    size: Size,
    element: &Element,
) -> Result<Vec<L>, Memory>
    requires size { IsSize size }
    requires heights { ArePlain L.code size (most_between L.code) heights.now }
    requires numbers { HasNumbersWithin L.code.most_number element.now }
    requires element { IsElement element.now }
    ensures { IfOk result (λ d. ArePlainlyFiltered L.code Dilation size element.now heights.now d.items) }
{
    let mut tops = room;
    tops.clear();
    tops.extend_from_slice(heights)?;
    raise_and_settle(&mut tops, heights, size, element);
    Ok(tops)
}

// The tops are the dilation at the return.
fn raise_and_settle<L: Raise>(tops: &mut [L], heights: &[L], size: Size, element: &Element)
    requires size { IsSize size }
    requires heights { ArePlain L.code size (most_between L.code) heights.now }
    requires numbers { HasNumbersWithin L.code.most_number element.now }
    requires element { IsElement element.now }
    requires whole { length tops.old ≡ cell_count size }
    ensures { ArePlainlyFiltered L.code Dilation size element.now heights.now tops.new }
{
    leave_out(tops);
    raise_rows(tops, heights, size, element);
    settle(tops, heights, 0);
}

// Puts at each place a number that stands for no height.
fn leave_out<L: Lane>(tops: &mut [L])
    ensures whole { length tops.new ≡ length tops.old }
    ensures blank { (k : ℕ) → value_at (values_of L.code tops.new) k ≡ None }
{
    for place in 0..tops.len() {
        tops[place] = L::missing();
    }
}

// Puts at each position the greatest of the raised heights.
fn raise_rows<L: Raise>(tops: &mut [L], heights: &[L], size: Size, element: &Element)
    requires size { IsSize size }
    requires heights { ArePlain L.code size (most_between L.code) heights.now }
    requires numbers { HasNumbersWithin L.code.most_number element.now }
    requires blank { AreBlank size (values_of L.code tops.old) }
    ensures { AreRaised size element.now (relief size (values_of L.code heights.now))
        (values_of L.code tops.new) }
{
    let points = size.points as usize;
    for y in 0..size.profiles {
        let start = y as usize * points;
        raise_row(&mut tops[start..start + points], heights, size, element, y);
    }
}

// Puts at each position of a row the greatest of the raised heights.
fn raise_row<L: Raise>(tops: &mut [L], heights: &[L], size: Size, element: &Element, y: u32)
    requires size { IsSize size }
    requires heights { ArePlain L.code size (most_between L.code) heights.now }
    requires numbers { HasNumbersWithin L.code.most_number element.now }
    requires row { y < size.profiles }
    requires blank { IsBlankRow size (values_of L.code tops.old) }
    ensures { IsRowRaised size element.now (relief size (values_of L.code heights.now)) y
        (values_of L.code tops.new) }
{
    let table = element.table();
    let width = element.width();
    for index in 0..table.len() as u32 {
        let offset = Pos {
            x: index % width,
            y: index / width,
        };
        raise_by(tops, heights, size, element, y, offset);
    }
}

// Raises the tops of a row by the heights that come from one offset of the element.
fn raise_by<L: Raise>(
    tops: &mut [L],
    heights: &[L],
    size: Size,
    element: &Element,
    y: u32,
    offset: Pos,
)
    requires size { IsSize size }
    requires heights { ArePlain L.code size (most_between L.code) heights.now }
    requires numbers { HasNumbersWithin L.code.most_number element.now }
    requires row { y < size.profiles }
    requires whole { length tops.old ≡ size.points }
    requires column { offset.x < element.now.width }
    requires table_row { offset.y < element.now.height }
    ensures { IsRowRaisedOnce size element.now (relief size (values_of L.code heights.now)) y offset
        (values_of L.code tops.old) (values_of L.code tops.new) }
{
    let Some(number) = number_of(element, offset) else {
        return;
    };
    let Some(from) = row_before(size, element, y, offset.y) else {
        return;
    };
    let points = size.points as usize;
    let start = from as usize * points;
    let reach = (element.width() / 2) as usize;
    raise_from_row(
        tops,
        &heights[start..start + points],
        reach,
        offset.x as usize,
        number,
    );
}

// Raises the tops of a row by a row of heights that an offset leads from: those of this column of
// the element, which has `reach` columns on either side of its centre.
fn raise_from_row<L: Raise>(tops: &mut [L], heights: &[L], reach: usize, column: usize, number: i64)
    requires whole { length heights.now ≡ length tops.old }
    requires heights { IsPlain L.code (most_between L.code) heights.now }
    requires least { neg_ℤ (pos L.code.most_number) ≤ℤ number }
    requires greatest { number ≤ℤ pos L.code.most_number }
    ensures { AreRaisedAcross (values_of L.code heights.now) reach column number
        (values_of L.code tops.old) (values_of L.code tops.new) }
{
    let ahead = reach.saturating_sub(column);
    let behind = column.saturating_sub(reach);
    if ahead + behind >= heights.len() {
        return;
    }
    let count = heights.len() - ahead - behind;
    raise_stretch(tops, behind, heights, ahead, count, number);
}

// Raises a stretch of the tops by a stretch of the heights.
fn raise_stretch<L: Raise>(
    tops: &mut [L],
    to: usize,
    heights: &[L],
    from: usize,
    count: usize,
    number: i64,
)
    requires to { to + count ≤ length tops.old }
    requires from { from + count ≤ length heights.now }
    requires heights { IsPlain L.code (most_between L.code) heights.now }
    requires least { neg_ℤ (pos L.code.most_number) ≤ℤ number }
    requires greatest { number ≤ℤ pos L.code.most_number }
    ensures { AreRaisedTo (values_of L.code heights.now) from count number to
        (values_of L.code tops.old) (values_of L.code tops.new) }
{
    for step in 0..count {
        let raised = heights[from + step].raised_by(number);
        tops[to + step] = tops[to + step].larger_of(raised);
    }
}

// The number of the element at an offset.
fn number_of(element: &Element, offset: Pos) -> Option<i64>
    requires column { offset.x < element.now.width }
    requires row { offset.y < element.now.height }
    ensures { result ≡ number_at element.now offset }
{
    element.table()[(offset.y * element.width() + offset.x) as usize]
}

// The row from which a row of the element leads to another one of the grid.
fn row_before(size: Size, element: &Element, y: u32, row: u32) -> Option<u32>
    requires size { IsSize size }
    requires row { y < size.profiles }
    requires table_row { row < element.now.height }
    ensures some { IfSome result (λ from. (from < size.profiles)
        × (from + row ≡ y + element.now.height / 2)) }
    ensures none { IfNone result ((from : ℕ) → from < size.profiles
        → from + row ≡ y + element.now.height / 2 → ⊥) }
{
    let down = y + element.height() / 2;
    if down < row || down - row >= size.profiles {
        return None;
    }
    Some(down - row)
}
