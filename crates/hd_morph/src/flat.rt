// Filters by elements that have one and the same number everywhere.
ghost use Rattle.std.specs.Prelude.{◌≡◌, ◌<◌, ◌/◌, ◌≤ℤ◌, ◌^◌, IfOk, IfSome, pos, neg_ℤ};
ghost use Rattle.hd_map.specs.Map.{IsSize};
ghost use Rattle.hd_map.specs.Encoding.{most_between, values_of};
ghost use Rattle.hd_morph.specs.Element.{IsElement};
ghost use Rattle.hd_morph.specs.declared.filter.Filter.TheVariants.{Dilation, Erosion};
ghost use Rattle.hd_morph.specs.Plain.{ArePlain, HasNumbersWithin, StandAlike};
ghost use Rattle.hd_morph.specs.Raised.{AreFlatlyDilated, ArePlainlyFiltered, IsFlat};

use crate::Element;
use crate::filter::Filter;
use crate::plain::{negate, settle};
use crate::raise::Raise;
use crate::round::spread_round;
use hd_list::Memory;
use hd_map::Size;
use std::alloc::Global;

/// The number of an element that has one and the same everywhere.
pub fn flat_number(element: &Element) -> Option<i64>
    ensures flat { IfSome result (λ n. IsFlat element.now (element.now.width / 2)
        (element.now.height / 2) n) }
    ensures element { IsElement element.now }
{
    let table = element.table();
    let Some(first) = table[0] else {
        return None;
    };
    for index in 0..table.len() {
        match table[index] {
            Some(number) if number == first => {}
            _ => return None,
        }
    }
    Some(first)
}

/// A filter of heights by an element that has this number everywhere. It takes time in proportion to the points,
/// times the logarithm of the element's size, and the memory of one more list, in which it works.
pub fn filtered_flatly<L: Raise>(
    alloc: Global,
    heights: &[L],
    size: Size,
    element: &Element,
    number: i64,
    filter: Filter,
) -> Result<Vec<L>, Memory>
    requires size { IsSize size }
    requires heights { ArePlain L.code size L.code.most_height heights.now }
    requires element { IsElement element.now }
    requires numbers { HasNumbersWithin L.code.most_number element.now }
    requires flat { IsFlat element.now (element.now.width / 2) (element.now.height / 2) number }
    ensures { IfOk result (λ g. ArePlainlyFiltered L.code filter size element.now heights.now g.items) }
{
    let mut tops = Vec::from_slice(alloc, heights)?;
    filter_tops(&mut tops, heights, size, element, number, filter);
    Ok(tops)
}

// The tops are the heights at the call, and what the filter makes of them at the return.
fn filter_tops<L: Raise>(
    tops: &mut [L],
    heights: &[L],
    size: Size,
    element: &Element,
    number: i64,
    filter: Filter,
)
    requires size { IsSize size }
    requires heights { ArePlain L.code size L.code.most_height heights.now }
    requires same { tops.old ≡ heights.now }
    requires element { IsElement element.now }
    requires numbers { HasNumbersWithin L.code.most_number element.now }
    requires flat { IsFlat element.now (element.now.width / 2) (element.now.height / 2) number }
    ensures { ArePlainlyFiltered L.code filter size element.now heights.now tops.new }
{
    match filter {
        Filter::Dilation => dilate_tops(tops, heights, size, element, number),
        Filter::Erosion => erode_tops(tops, heights, size, element, number),
        Filter::Opening => {
            erode_tops(tops, heights, size, element, number);
            dilate_tops(tops, heights, size, element, number);
        }
        Filter::Closing => {
            dilate_tops(tops, heights, size, element, number);
            erode_tops(tops, heights, size, element, number);
        }
    }
}

// The tops become their dilation. One stands where a height stands, and nowhere else.
fn dilate_tops<L: Raise>(tops: &mut [L], heights: &[L], size: Size, element: &Element, number: i64)
    requires size { IsSize size }
    requires tops { ArePlain L.code size (most_between L.code) tops.old }
    requires alike { StandAlike (values_of L.code heights.now) (values_of L.code tops.old) }
    requires element { IsElement element.now }
    requires numbers { HasNumbersWithin L.code.most_number element.now }
    requires flat { IsFlat element.now (element.now.width / 2) (element.now.height / 2) number }
    ensures { ArePlainlyFiltered L.code Dilation size element.now tops.old tops.new }
{
    let across = (element.width() / 2) as usize;
    let down = (element.height() / 2) as usize;
    raise_tops(tops, heights, size, across, down, number);
}

// The tops become their erosion: the negative of the dilation of the negatives by the turned element, which has the
// same number everywhere.
fn erode_tops<L: Raise>(tops: &mut [L], heights: &[L], size: Size, element: &Element, number: i64)
    requires size { IsSize size }
    requires tops { ArePlain L.code size (most_between L.code) tops.old }
    requires alike { StandAlike (values_of L.code heights.now) (values_of L.code tops.old) }
    requires element { IsElement element.now }
    requires numbers { HasNumbersWithin L.code.most_number element.now }
    requires flat { IsFlat element.now (element.now.width / 2) (element.now.height / 2) number }
    ensures { ArePlainlyFiltered L.code Erosion size element.now tops.old tops.new }
{
    let across = (element.width() / 2) as usize;
    let down = (element.height() / 2) as usize;
    negate(tops);
    raise_tops(tops, heights, size, across, down, number);
    negate(tops);
}

// The tops become their dilation by each element of `2 * across + 1` columns and `2 * down + 1` rows that has this
// number everywhere.
fn raise_tops<L: Raise>(
    tops: &mut [L],
    heights: &[L],
    size: Size,
    across: usize,
    down: usize,
    number: i64,
)
    requires size { IsSize size }
    requires tops { ArePlain L.code size (most_between L.code) tops.old }
    requires alike { StandAlike (values_of L.code heights.now) (values_of L.code tops.old) }
    requires across { across < 2 ^ 31 }
    requires down { down < 2 ^ 31 }
    requires least { neg_ℤ (pos L.code.most_number) ≤ℤ number }
    requires greatest { number ≤ℤ pos L.code.most_number }
    ensures { AreFlatlyDilated L.code size across down number tops.old tops.new }
{
    spread_round(tops, size, across, down);
    settle(tops, heights, number);
}
