// The new heights of a filtered map.
ghost use Rattle.std.specs.Prelude.{◌≡◌, ◌<◌, None, length, slice_index_or};
ghost use Rattle.hd_map.specs.Sets.{cell_with};

use hd_map::{Cell, Lane};
use std::marker::Model;

/// The heights as the numbers that stand for them, in 32 bits each or in 64.
#[derive(Debug, Drop)]
pub enum Numbers {
    Narrow(Vec<i32>),
    Wide(Vec<i64>),
}

/// The heights of a map before and after a filter, by index, as numbers that stand for them.
#[derive(Drop)]
pub struct Lists<L: Lane> {
    pub before: Vec<L>,
    pub after: Vec<L>,
}

/// The heights before and after a filter, in 32 bits each or in 64.
#[derive(Drop)]
pub enum OldAndNew {
    Narrow(Lists<i32>),
    Wide(Lists<i64>),
}

/// The new heights of a filtered map. Contracts see the list of them by index, with none where a
/// point keeps its cell. The type promises neither how many they are nor their range: by
/// [`dilated_heights`](crate::dilated_heights) and the calls beside it there is one entry for each point of their map, and
/// each height is in the range of its data type.
#[derive(Debug, Drop)]
pub struct NewHeights {
    numbers: Numbers,
}

impl Model for NewHeights {
    ghost use Rattle.std.specs.Prelude.{ℤ, List, Option};
    ghost use Rattle.hd_morph.specs.Numbers.{heights_in};

    ghost Value = { List (Option ℤ) };

    ghost view = { λ h. heights_in h.numbers };
}

impl NewHeights {
    ghost use Rattle.hd_morph.specs.Numbers.{heights_in};

    /// The heights for which the numbers stand.
    pub(crate) fn new(numbers: Numbers) -> NewHeights
        ensures { result ≡ heights_in numbers }
    {
        NewHeights { numbers }
    }

    /// The numbers that stand for the heights.
    #[inline]
    pub fn numbers(&self) -> &Numbers
        ensures { heights_in result.now ≡ self.now }
    {
        &self.numbers
    }

    /// The cell of a point with its new height. Where it has none, it keeps this old cell.
    #[inline]
    pub fn cell(&self, index: u32, old: Cell) -> Cell
        requires { index < length self.now }
        ensures { result ≡ cell_with (slice_index_or self.now index None) old }
    {
        let height = match &self.numbers {
            Numbers::Narrow(numbers) => numbers[index as usize].height(),
            Numbers::Wide(numbers) => numbers[index as usize].height(),
        };
        match height {
            Some(height) => Cell::Height(height),
            None => old,
        }
    }
}
