// What is gathered of the heights of the present points of a grid, one after another.
ghost use Rattle.std.specs.Prelude.{◌<◌, ◌+◌, ◌*◌, []};
ghost use Rattle.hd_map.specs.Presence.{heights_below, present_heights};

use hd_map::{Heights, Pos};

/// What is gathered of heights, one after another.
pub(crate) trait Gather {
    ghost use Rattle.std.specs.Prelude.{◌<◌, ◌++◌, ℤ, List, [], length};
    ghost use Rattle.std.specs.List.{cons_option};

    /// What is gathered.
    type Sum: Copy;

    /// Whether it is that of these heights.
    ghost is_of: { Self → List ℤ → Self.Sum → Type 0 };

    /// That of fewer than 4,194,304 heights with one more, or none.
    fn with(&self, sum: Self::Sum, height: Option<i64>) -> Self::Sum
        requires { (heights : List ℤ) × is_of self.now heights sum × (length heights < 4194304) }
        ensures { (heights : List ℤ) → is_of self.now heights sum
            → is_of self.now (heights ++ cons_option height []) result };
}

/// What is gathered of the heights of the present points of a grid, from that of no heights on.
#[inline]
pub(crate) fn gathered<T: Gather, G: Heights>(grid: &G, by: &T, none: T::Sum) -> T::Sum
    requires { T.is_of by.now [] none }
    ensures { T.is_of by.now (present_heights (G.map grid.now)) result }
{
    let mut sum = none;
    'profiles: for y in 0..grid.size().profiles {
        sum = with_profile(grid, by, sum, y);
    }
    sum
}

// What is gathered of the profiles before one, with that of this one.
#[inline]
fn with_profile<T: Gather, G: Heights>(grid: &G, by: &T, before: T::Sum, y: u32) -> T::Sum
    requires profile { y < (G.map grid.now).size.profiles }
    requires before { T.is_of by.now (heights_below (G.map grid.now)
        (y * (G.map grid.now).size.points)) before }
    ensures { T.is_of by.now (heights_below (G.map grid.now)
        ((y + 1) * (G.map grid.now).size.points)) result }
{
    let mut sum = before;
    'points: for x in 0..grid.size().points {
        sum = by.with(sum, grid.height(Pos { x, y }));
    }
    sum
}
