// Which passes are saddles: those whose two regions no borders of lower passes join.
ghost use Rattle.std.specs.Prelude.{◌≡◌, ◌<◌, ◌≤◌, ◌^◌, true, length, All, Contains, IfOk};
ghost use Rattle.std.specs.List.Sorted.{IsPermutation, IsSortedBy};
ghost use Rattle.std.specs.Ordering.{is_lt};
ghost use Rattle.hd_lines.specs.declared.saddles.NumberedBorder.{NumberedBorder};
ghost use Rattle.hd_map.specs.Rank.{below_by};
ghost use Rattle.hd_graph.specs.Classes.{AreFalling};
ghost use Rattle.hd_lines.specs.NumberedBorders.{AreJoinedTo, AreLower, AreMarked, AreNumberedBorders, HasEnds, BordersSplitAt, is_lower};
ghost use Rattle.hd_lines.specs.FirstJoins.{AreFirstJoins};

use hd_graph::Classes;
use hd_list::Memory;
use hd_map::{Rank, Side};
use hd_steep::Border;
use std::alloc::Global;
use std::cmp::Ordering;

/// A border with its number.
#[derive(Clone, Copy)]
pub struct NumberedBorder {
    /// The number.
    pub number: usize,
    /// The one place.
    pub a: u32,
    /// The other.
    pub b: u32,
    /// The pass.
    pub at: Rank,
}

/// By border between so many regions, whether no borders of lower passes join its two.
pub fn first_joins<S: Side>(
    alloc: Global,
    borders: &[Border],
    count: usize,
) -> Result<Vec<bool>, Memory>
    requires within { All (λ l. (l.a < count) × (l.b < count)) borders.now }
    requires few { count < 2 ^ 32 }
    ensures { IfOk result (λ firsts. AreFirstJoins (below_by S.NAME) borders.now firsts.items) }
{
    let numbered = sorted::<S>(numbered_borders(alloc, borders)?);
    mark_firsts::<S>(alloc, &numbered, borders.len(), count)
}

// By number of a border between so many regions, whether no borders of lower passes join its two.
fn mark_firsts<S: Side>(
    alloc: Global,
    borders: &[NumberedBorder],
    numbers: usize,
    count: usize,
) -> Result<Vec<bool>, Memory>
    requires sorted { IsSortedBy (is_lower (below_by S.NAME)) borders.now }
    requires within { All (HasEnds count) borders.now }
    requires numbered { All (λ x. x.number < numbers) borders.now }
    requires one { (x y : NumberedBorder) → Contains borders.now x → Contains borders.now y
        → x.number ≡ y.number → x ≡ y }
    requires few { count < 2 ^ 32 }
    ensures { IfOk result (λ firsts. AreMarked (below_by S.NAME) borders.now numbers
        (length borders.now) firsts.items) }
{
    let mut firsts = vec![in alloc; false; numbers]?;
    let mut classes = Classes::new(alloc, count)?;
    let mut joined = 0;
    'borders: for border in borders {
        joined = join_lower::<S>(&mut classes, borders, joined, border.at);
        let one = classes.least_of(border.a);
        let other = classes.least_of(border.b);
        firsts[border.number] = one != other;
    }
    Ok(firsts)
}

// Joins the regions of borders whose passes are below a level, of which those before `from` are joined.
// The answer is the place of the first whose pass is not below it.
fn join_lower<S: Side>(
    classes: &mut Classes,
    borders: &[NumberedBorder],
    from: usize,
    level: Rank,
) -> usize
    requires sorted { IsSortedBy (is_lower (below_by S.NAME)) borders.now }
    requires within { All (HasEnds (length classes.old.parents.items)) borders.now }
    requires inside { from ≤ length borders.now }
    requires lower { AreLower (below_by S.NAME) borders.now from level }
    requires falling { AreFalling classes.old.parents.items }
    requires joined { AreJoinedTo borders.now from classes.old.parents.items }
    ensures inside { result ≤ length borders.now }
    ensures splits { BordersSplitAt (below_by S.NAME) borders.now result level }
    ensures falling { AreFalling classes.new.parents.items }
    ensures long { length classes.new.parents.items ≡ length classes.old.parents.items }
    ensures joined { AreJoinedTo borders.now result classes.new.parents.items }
{
    let mut place = from;
    while place < borders.len() && S::below(borders[place].at, level) {
        classes.join(borders[place].a, borders[place].b);
        place += 1;
    }
    place
}

// Borders with their numbers, in their order.
fn numbered_borders(alloc: Global, borders: &[Border]) -> Result<Vec<NumberedBorder>, Memory>
    ensures { IfOk result (λ numbered. AreNumberedBorders borders.now (length borders.now) numbered.items) }
{
    let mut numbered = Vec::with_capacity(alloc, borders.len())?;
    'borders: for (number, border) in borders.iter().enumerate() {
        numbered.push(NumberedBorder {
            number,
            a: border.a,
            b: border.b,
            at: border.pass,
        })?;
    }
    Ok(numbered)
}

// Borders in the order of their passes, the lowest first.
fn sorted<S: Side>(mut borders: Vec<NumberedBorder>) -> Vec<NumberedBorder>
    ensures sorted { IsSortedBy (is_lower (below_by S.NAME)) result.items }
    ensures same { IsPermutation borders.items result.items }
{
    borders.sort_unstable_by(|x, y| compare::<S>(x, y));
    borders
}

// Which of two borders comes first.
fn compare<S: Side>(x: &NumberedBorder, y: &NumberedBorder) -> Ordering
    ensures { is_lt result ≡ is_lower (below_by S.NAME) x.now y.now }
{
    if S::below(x.at, y.at) {
        Ordering::Less
    } else {
        Ordering::Greater
    }
}
