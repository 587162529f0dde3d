// The number of the present points of a grid, the range of their heights, and the sum of these.
ghost use Rattle.std.specs.Prelude.{◌≡◌, ◌+◌, ℕ, length};
ghost use Rattle.hd_map.specs.Presence.{present_heights};
ghost use Rattle.hd_stats.specs.Sums.{AreSmall, AreSums, sums_with};

use crate::gather::{Gather, gathered};
use hd_map::{HeightRange, Heights};

/// The number of some heights in steps, their range and their sum.
#[derive(Clone, Copy)]
pub struct Sums {
    /// How many heights there are.
    pub count: u32,
    /// The least and the greatest of them, and none where there is none.
    pub range: Option<HeightRange>,
    /// Their sum.
    pub total: i128,
}

/// The sums over the heights of the present points of a grid.
#[inline(never)]
pub fn sums_of<G: Heights>(grid: &G) -> Sums
    ensures are { AreSums (present_heights (G.map grid.now)) result }
    ensures small { AreSmall result 4194304 }
{
    let none = Sums {
        count: 0,
        range: None,
        total: 0,
    };
    gathered(grid, &Summing, none)
}

// Gathers the sums of heights.
#[derive(Drop)]
struct Summing;

impl Gather for Summing {
    ghost use Rattle.hd_stats.specs.Sums.{AreSmall, AreSums};

    type Sum = Sums;

    ghost is_of = { λ _ heights sums. AreSums heights sums × AreSmall sums (length heights) };

    #[inline]
    fn with(&self, sums: Sums, height: Option<i64>) -> Sums {
        sums_with(sums, height)
    }
}

// The sums with one more point, by its height.
#[inline]
fn sums_with(sums: Sums, height: Option<i64>) -> Sums
    requires { AreSmall sums 4194304 }
    ensures value { result ≡ sums_with sums height }
    ensures small { (n : ℕ) → AreSmall sums n → AreSmall result (n + 1) }
{
    match height {
        Some(height) => Sums {
            count: sums.count + 1,
            range: Some(HeightRange::widened(sums.range, height)),
            total: sums.total + i128::from(height),
        },
        None => sums,
    }
}
