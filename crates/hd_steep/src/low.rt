// The lowest of some places of a row of keys, which are looked at in the order of their indexes.
ghost use Rattle.std.specs.Prelude.{◌<◌, ◌+◌, length};
ghost use Rattle.hd_map.specs.declared.types.Rank.{Rank};
ghost use Rattle.hd_steep.specs.Keys.{IsKey, ranks_in};
ghost use Rattle.hd_steep.specs.Linked.{AreIndexed, IsLowOf, lower_of_two, lowest_above, lowest_below, lowest_of_three};
ghost use Rattle.hd_steep.specs.Lowest.{lower_of};
ghost use Rattle.hd_steep.specs.Rows.{rank_in};

use crate::below::is_below_earlier;
use hd_map::{Adjacency, Lane, Side};

/// A key, and the index of its point; any index where no point is present.
#[derive(Clone, Copy)]
pub struct Low<L> {
    pub key: L,
    pub index: u32,
}

/// The lower of two, of which the second has the greater index.
#[inline(always)]
pub fn lower_key<S: Side, L: Lane>(first: Low<L>, second: Low<L>) -> Low<L>
    requires first { IsKey L.code first.key }
    requires second { IsKey L.code second.key }
    ensures { (a b : Rank) → IsLowOf L.code S.NAME a first → IsLowOf L.code S.NAME b second
        → IsLowOf L.code S.NAME (lower_of S.NAME a b) result }
{
    let is_second = is_below_earlier::<S, L>(second.key, first.key);
    Low {
        key: if is_second { second.key } else { first.key },
        index: if is_second { second.index } else { first.index },
    }
}

/// The lowest of the places above one that are beside it under a setting.
#[inline(always)]
pub fn low_above<S: Side, L: Lane>(adjacency: Adjacency, keys: &[L], first: u32, x: usize) -> Low<L>
    requires keys { AreIndexed L.code first keys.now }
    requires inside { x + 2 < length keys.now }
    ensures { IsLowOf L.code S.NAME (lowest_above adjacency S.NAME
        (ranks_in L.code S.NAME first keys.now) x) result }
{
    match adjacency {
        Adjacency::Four => low_at::<S, L>(keys, first, x + 1),
        Adjacency::Six => low_of_two::<S, L>(keys, first, x),
        Adjacency::Eight => low_of_three::<S, L>(keys, first, x),
    }
}

/// The lowest of the places below one that are beside it under a setting.
#[inline(always)]
pub fn low_below<S: Side, L: Lane>(adjacency: Adjacency, keys: &[L], first: u32, x: usize) -> Low<L>
    requires keys { AreIndexed L.code first keys.now }
    requires inside { x + 2 < length keys.now }
    ensures { IsLowOf L.code S.NAME (lowest_below adjacency S.NAME
        (ranks_in L.code S.NAME first keys.now) x) result }
{
    match adjacency {
        Adjacency::Four => low_at::<S, L>(keys, first, x + 1),
        Adjacency::Six => low_of_two::<S, L>(keys, first, x + 1),
        Adjacency::Eight => low_of_three::<S, L>(keys, first, x),
    }
}

/// The lowest of three places side by side.
#[inline(always)]
pub fn low_of_three<S: Side, L: Lane>(keys: &[L], first: u32, x: usize) -> Low<L>
    requires keys { AreIndexed L.code first keys.now }
    requires inside { x + 2 < length keys.now }
    ensures { IsLowOf L.code S.NAME (lowest_of_three S.NAME
        (ranks_in L.code S.NAME first keys.now) x) result }
{
    let two = low_of_two::<S, L>(keys, first, x);
    lower_key::<S, L>(two, low_at::<S, L>(keys, first, x + 2))
}

// The lower of two places side by side.
#[inline(always)]
fn low_of_two<S: Side, L: Lane>(keys: &[L], first: u32, x: usize) -> Low<L>
    requires keys { AreIndexed L.code first keys.now }
    requires inside { x + 1 < length keys.now }
    ensures { IsLowOf L.code S.NAME (lower_of_two S.NAME (ranks_in L.code S.NAME first keys.now) x) result }
{
    let left = low_at::<S, L>(keys, first, x);
    lower_key::<S, L>(left, low_at::<S, L>(keys, first, x + 1))
}

// What stands at a place.
#[inline(always)]
fn low_at<S: Side, L: Lane>(keys: &[L], first: u32, place: usize) -> Low<L>
    requires keys { AreIndexed L.code first keys.now }
    requires inside { place < length keys.now }
    ensures { IsLowOf L.code S.NAME (rank_in (ranks_in L.code S.NAME first keys.now) place) result }
{
    Low {
        key: keys[place],
        index: (first + place as u32).wrapping_sub(1),
    }
}
