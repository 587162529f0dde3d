// The heights of a map, filtered.
ghost use Rattle.std.specs.Prelude.{◌≡◌, ◌↔◌, IsTrue, IfOk, MatchOption, MatchResult, length};
ghost use Rattle.hd_map.specs.Map.{cell_count};
ghost use Rattle.hd_map.specs.Encoding.{narrow, values_of};
ghost use Rattle.hd_morph.specs.Element.{IsElement};
ghost use Rattle.hd_morph.specs.declared.filter.Filter.TheVariants.{Dilation, Erosion, Opening, Closing};
ghost use Rattle.hd_morph.specs.Answer.{IsFirstOutside, IsFilterRefusal};
ghost use Rattle.hd_morph.specs.NewHeights.{MakesNewHeights};
ghost use Rattle.hd_morph.specs.Lists.{AreFilteredFrom, AreListsOf, MakesLists};
ghost use Rattle.hd_morph.specs.Plain.{HasNumbersWithin, IsBetween, relief};
ghost use Rattle.hd_morph.specs.Listed.{AreHeightsOf, AreOfType, IsBeyond};

use crate::filter::{Filter, filtered};
use crate::flat::{filtered_flatly, flat_number};
use crate::new_heights::{Lists, NewHeights, Numbers, OldAndNew};
use crate::plain::are_between;
use crate::raise::{MOST_NARROW_NUMBER, Raise};
use crate::{Element, MorphError};
use hd_list::Memory;
use hd_map::{Grid, Lane, Pos, greatest_of, least_of, position_of};
use std::alloc::Global;

/// The dilation of a map by an element: its new heights by index.
///
/// At each present point x stands the greatest `f(x - u) + b(u)`, in steps, over all offsets u from
/// the centre of the element at which it has a number b(u) and for which x - u is a present point
/// of height f(x - u). Points that are not present keep their cell; their treatment is this
/// project's own, the rest is the dilation of ISO 16610-40.
///
/// `HeightRange` comes exactly where a new height is not in the range of the data type, with the
/// first such position by index. `Memory` may come in place of any other answer. Measured, it takes
/// 8 bytes a point, the 4 of the new heights among them, where no height is more than 2 ^ 29 steps
/// from zero and no number of the element more than 2 ^ 27, and else 16, the 8 of the new heights
/// among them.
pub fn dilated_heights<G: Grid>(
    alloc: Global,
    grid: &G,
    element: &Element,
) -> Result<NewHeights, MorphError>
    ensures { MakesNewHeights Dilation (G.map grid.now) element.now result }
{
    filtered_heights(alloc, grid, element, Filter::Dilation)
}

/// The erosion of a map by an element: its new heights by index.
///
/// At each present point x stands the least `f(x + u) - b(u)`, in steps, over all offsets u from the
/// centre of the element at which it has a number b(u) and for which x + u is a present point of
/// height f(x + u). All else is as for [`dilated_heights`].
pub fn eroded_heights<G: Grid>(
    alloc: Global,
    grid: &G,
    element: &Element,
) -> Result<NewHeights, MorphError>
    ensures { MakesNewHeights Erosion (G.map grid.now) element.now result }
{
    filtered_heights(alloc, grid, element, Filter::Erosion)
}

/// The opening of a map by an element, an erosion and then a dilation: its new heights by index.
///
/// Heights between the two are not held against the data type. All else is as for
/// [`dilated_heights`].
pub fn opened_heights<G: Grid>(
    alloc: Global,
    grid: &G,
    element: &Element,
) -> Result<NewHeights, MorphError>
    ensures { MakesNewHeights Opening (G.map grid.now) element.now result }
{
    filtered_heights(alloc, grid, element, Filter::Opening)
}

/// The closing of a map by an element, a dilation and then an erosion: its new heights by index.
///
/// Heights between the two are not held against the data type. All else is as for
/// [`dilated_heights`].
pub fn closed_heights<G: Grid>(
    alloc: Global,
    grid: &G,
    element: &Element,
) -> Result<NewHeights, MorphError>
    ensures { MakesNewHeights Closing (G.map grid.now) element.now result }
{
    filtered_heights(alloc, grid, element, Filter::Closing)
}

// The new heights of a filtered map, in 32 bits each where they fit.
fn filtered_heights<G: Grid>(
    alloc: Global,
    grid: &G,
    element: &Element,
    filter: Filter,
) -> Result<NewHeights, MorphError>
    ensures { MakesNewHeights filter (G.map grid.now) element.now result }
{
    match filtered_lists(alloc, grid, element, filter)? {
        OldAndNew::Narrow(lists) => Ok(NewHeights::new(Numbers::Narrow(lists.after))),
        OldAndNew::Wide(lists) => Ok(NewHeights::new(Numbers::Wide(lists.after))),
    }
}

/// The heights of a map by index, and what a filter makes of them, in 32 bits each where they fit.
///
/// All is as for [`dilated_heights`] and the calls beside it, but that the memory of both lists is kept.
pub fn filtered_lists<G: Grid>(
    alloc: Global,
    grid: &G,
    element: &Element,
    filter: Filter,
) -> Result<OldAndNew, MorphError>
    ensures { MakesLists filter (G.map grid.now) element.now result }
{
    if has_narrow_numbers(element) {
        if let Some(lists) = filtered_numbers::<i32, G>(alloc, grid, element, filter)? {
            return Ok(OldAndNew::Narrow(lists));
        }
    }
    match filtered_numbers::<i64, G>(alloc, grid, element, filter)? {
        Some(lists) => Ok(OldAndNew::Wide(lists)),
        None => unreachable!(),
    }
}

// Whether numbers of 32 bits do for the numbers of an element.
fn has_narrow_numbers(element: &Element) -> bool
    ensures narrow { IsTrue result ↔ HasNumbersWithin narrow.most_number element.now }
    ensures element { IsElement element.now }
{
    let table = element.table();
    for index in 0..table.len() {
        if !is_between(-MOST_NARROW_NUMBER, MOST_NARROW_NUMBER, table[index]) {
            return false;
        }
    }
    true
}

// The heights of a map and what a filter makes of them as plain numbers of one type, unless a height is beyond it.
fn filtered_numbers<L: Raise, G: Grid>(
    alloc: Global,
    grid: &G,
    element: &Element,
    filter: Filter,
) -> Result<Option<Lists<L>>, MorphError>
    requires { HasNumbersWithin L.code.most_number element.now }
    ensures { let m = G.map grid.now in MatchResult result
        (λ found. MatchOption found (IsBeyond L.code m)
        (λ lists. AreListsOf L.code filter m element.now lists.before.items lists.after.items))
        (IsFilterRefusal filter m element.now) }
{
    let Some(lists) = lists_of::<L, G>(alloc, grid, element, filter)? else {
        return Ok(None);
    };
    if let Some(at) = first_outside(grid, &lists.after) {
        return Err(MorphError::HeightRange(at));
    }
    Ok(Some(lists))
}

// The same, where heights may be outside the range of the data type.
fn lists_of<L: Raise, G: Grid>(
    alloc: Global,
    grid: &G,
    element: &Element,
    filter: Filter,
) -> Result<Option<Lists<L>>, Memory>
    requires { HasNumbersWithin L.code.most_number element.now }
    ensures { let m = G.map grid.now in IfOk result (λ found. MatchOption found (IsBeyond L.code m)
        (λ lists. AreHeightsOf L.code m lists.before.items × AreFilteredFrom L.code filter m element.now lists.after.items)) }
{
    let Some(before) = heights_of::<L, G>(alloc, grid)? else {
        return Ok(None);
    };
    let size = grid.size();
    if let Some(number) = flat_number(element) {
        let after = filtered_flatly(alloc, &before, size, element, number, filter)?;
        return Ok(Some(Lists { before, after }));
    }
    let after = filtered(alloc, before, size, element, filter)?;
    // The first list was room for others, so that no third one is needed.
    let Some(again) = heights_of::<L, G>(alloc, grid)? else {
        return Ok(None);
    };
    Ok(Some(Lists {
        before: again,
        after,
    }))
}

/// The heights of a map by index, as numbers that stand for them, unless one is too far from zero.
pub fn heights_of<L: Lane, G: Grid>(alloc: Global, grid: &G) -> Result<Option<Vec<L>>, Memory>
    ensures { let m = G.map grid.now in IfOk result (λ found. MatchOption found (IsBeyond L.code m)
        (λ heights. AreHeightsOf L.code m heights.items)) }
{
    let size = grid.size();
    let points = size.points as usize;
    let count = size.profiles * size.points;
    let mut heights = vec![in alloc; L::missing(); count as usize]?;
    for y in 0..size.profiles {
        let first = y as usize * points;
        if !grid.fill_heights(y, &mut heights[first..first + points]) {
            return Ok(None);
        }
    }
    Ok(Some(heights))
}

/// The first position whose height is outside the range of the data type. Mostly there is none, which
/// one pass without a branch tells.
pub fn first_outside<L: Raise, G: Grid>(grid: &G, numbers: &[L]) -> Option<Pos>
    requires { length numbers.now ≡ cell_count (G.map grid.now).size }
    ensures { let m = G.map grid.now in let heights = relief m.size (values_of L.code numbers.now) in
        MatchOption result (AreOfType m heights) (IsFirstOutside m heights) }
{
    let data_type = grid.data_type();
    let least = least_of(data_type);
    let greatest = greatest_of(data_type);
    if are_between(numbers, least, greatest) {
        return None;
    }
    for index in 0..numbers.len() {
        if !numbers[index].is_between(least, greatest) {
            return Some(position_of(grid.size(), index as u32));
        }
    }
    None
}

// Whether an entry of an element, if it is a number, is from a least to a greatest one.
#[inline]
fn is_between(least: i64, greatest: i64, entry: Option<i64>) -> bool
    ensures { IsTrue result ↔ IsBetween least greatest entry }
{
    match entry {
        Some(number) => least <= number && number <= greatest,
        None => true,
    }
}
