// Heights raised in a rectangle.
ghost use Rattle.std.specs.Prelude.{◌≡◌, ◌≤◌, ◌≤ℤ◌, IfOk, IfSome, MatchResult, pos, neg_ℤ};
ghost use Rattle.hd_map.specs.Map.{InGrid, IsSize};
ghost use Rattle.hd_morph.specs.Plain.{ArePlain};
ghost use Rattle.hd_morph.specs.Rectangle.{AreNumbersRaised, AreRaisedLists, IsRaiseRefusal};

use crate::MorphError;
use crate::heights::{first_outside, heights_of};
use crate::new_heights::Lists;
use crate::plain::settle;
use crate::raise::{MOST_NARROW_NUMBER, Raise};
use hd_list::Memory;
use hd_map::{Grid, Pos, Size};
use std::alloc::Global;

/// The heights of a map by index, and those with a number added to each height of a rectangle, in 32 bits each, where
/// no height is more than 2 ^ 29 steps from zero and the number not more than 2 ^ 27; else none.
///
/// `HeightRange` comes exactly where a new height is not in the range of the data type, with the first such position
/// by index. `Memory` may come in place of any other answer.
pub fn raised_lists<G: Grid>(
    alloc: Global,
    grid: &G,
    from: Pos,
    to: Pos,
    number: i64,
) -> Result<Option<Lists<i32>>, MorphError>
    requires to { InGrid (G.map grid.now).size to }
    requires columns { from.x ≤ to.x }
    requires profiles { from.y ≤ to.y }
    ensures { let m = G.map grid.now in MatchResult result
        (λ found. IfSome found (λ lists. AreRaisedLists m from to number lists.before.items lists.after.items))
        (IsRaiseRefusal m from to number) }
{
    if number < -MOST_NARROW_NUMBER || MOST_NARROW_NUMBER < number {
        return Ok(None);
    }
    let Some(before) = heights_of::<i32, G>(alloc, grid)? else {
        return Ok(None);
    };
    let after = raised(alloc, &before, grid.size(), from, to, number)?;
    if let Some(at) = first_outside(grid, &after) {
        return Err(MorphError::HeightRange(at));
    }
    Ok(Some(Lists { before, after }))
}

// The heights with a number added in the rectangle.
fn raised<L: Raise>(
    alloc: Global,
    heights: &[L],
    size: Size,
    from: Pos,
    to: Pos,
    number: i64,
) -> Result<Vec<L>, Memory>
    requires size { IsSize size }
    requires heights { ArePlain L.code size L.code.most_height heights.now }
    requires to { InGrid size to }
    requires columns { from.x ≤ to.x }
    requires profiles { from.y ≤ to.y }
    requires least { neg_ℤ (pos L.code.most_number) ≤ℤ number }
    requires greatest { number ≤ℤ pos L.code.most_number }
    ensures { IfOk result (λ g. AreNumbersRaised L.code size from to number heights.now g.items) }
{
    let mut tops = Vec::from_slice(alloc, heights)?;
    raise_within(&mut tops, heights, size, from, to, number);
    Ok(tops)
}

// The tops are the heights at the call, and these with a number added in the rectangle at the return.
fn raise_within<L: Raise>(
    tops: &mut [L],
    heights: &[L],
    size: Size,
    from: Pos,
    to: Pos,
    number: i64,
)
    requires size { IsSize size }
    requires heights { ArePlain L.code size L.code.most_height heights.now }
    requires same { tops.old ≡ heights.now }
    requires to { InGrid size to }
    requires columns { from.x ≤ to.x }
    requires profiles { from.y ≤ to.y }
    requires least { neg_ℤ (pos L.code.most_number) ≤ℤ number }
    requires greatest { number ≤ℤ pos L.code.most_number }
    ensures { AreNumbersRaised L.code size from to number heights.now tops.new }
{
    let points = size.points as usize;
    let left = from.x as usize;
    let right = to.x as usize + 1;
    for y in from.y..to.y + 1 {
        let start = y as usize * points;
        settle(
            &mut tops[start + left..start + right],
            &heights[start + left..start + right],
            number,
        );
    }
}
