// The values of height parameters.
ghost use Rattle.std.specs.Prelude.{◌≡◌, ◌≤◌, ◌<◌, ◌+◌, ◌*◌, ◌^◌, pos, neg_ℤ, unsigned_abs, length};
ghost use Rattle.hd_num.specs.Frac.{IsFraction};
ghost use Rattle.hd_map.specs.Presence.{present_heights};
ghost use Rattle.hd_stats.specs.Heights.{IsHeightValue, at_least, deviation, deviations};
ghost use Rattle.hd_stats.specs.Gathering.{at_least_with, deviation_by, deviations_with};
ghost use Rattle.hd_stats.specs.Sums.{AreSmall, AreSums};

use crate::gather::{Gather, gathered};
use crate::name::HeightName;
use crate::sums::{Sums, sums_of};
use hd_map::Heights;
use hd_num::Frac;

/// The value of a height parameter of ISO 25178-2 over the present points of a grid, in steps, or for
/// `Smr` as a part of the points. It is none exactly where no point is present.
pub fn height_value<G: Heights>(grid: &G, name: HeightName) -> Option<Frac>
    ensures { IsHeightValue (G.map grid.now) name result }
{
    height_value_by(grid, &sums_of(grid), name)
}

/// The same by the sums over the heights of the present points. Only `Sa` and `Smr` go over the points.
pub fn height_value_by<G: Heights>(grid: &G, sums: &Sums, name: HeightName) -> Option<Frac>
    requires are { AreSums (present_heights (G.map grid.now)) sums.now }
    requires small { AreSmall sums.now 4194304 }
    ensures { IsHeightValue (G.map grid.now) name result }
{
    let range = sums.range?;
    let value = match name {
        HeightName::Sp => above_mean(sums, range.greatest),
        HeightName::Sv => below_mean(sums, range.least),
        HeightName::Sa => mean_deviation(grid, sums),
        HeightName::Smr(c) => part_at_least(grid, sums, c),
    };
    Some(value)
}

// A height less the mean height.
fn above_mean(sums: &Sums, height: i64) -> Frac
    requires some { 0 < sums.now.count }
    requires small { AreSmall sums.now 4194304 }
    ensures { IsFraction (deviation_by sums.now height) sums.now.count result.num result.den }
{
    Frac::new(deviation(sums, height), u128::from(sums.count))
}

// The mean height less a height.
fn below_mean(sums: &Sums, height: i64) -> Frac
    requires some { 0 < sums.now.count }
    requires small { AreSmall sums.now 4194304 }
    ensures { IsFraction (neg_ℤ (deviation_by sums.now height)) sums.now.count result.num result.den }
{
    Frac::new(-deviation(sums, height), u128::from(sums.count))
}

// The mean of the absolute values of the heights less the mean height.
fn mean_deviation<G: Heights>(grid: &G, sums: &Sums) -> Frac
    requires some { 0 < sums.now.count }
    requires are { AreSums (present_heights (G.map grid.now)) sums.now }
    requires small { AreSmall sums.now 4194304 }
    ensures { IsFraction (pos (deviations (present_heights (G.map grid.now))))
        (sums.now.count * sums.now.count) result.num result.den }
{
    let count = u128::from(sums.count);
    Frac::new(deviations(grid, sums) as i128, count * count)
}

// The part of the present points that are at least as high as c.
fn part_at_least<G: Heights>(grid: &G, sums: &Sums, c: i64) -> Frac
    requires { 0 < sums.now.count }
    ensures { IsFraction (pos (at_least c (present_heights (G.map grid.now)))) sums.now.count
        result.num result.den }
{
    Frac::new(i128::from(at_least(grid, c)), u128::from(sums.count))
}

// So many times a height less the mean height, as there are heights.
#[inline]
fn deviation(sums: &Sums, height: i64) -> i128
    requires { AreSmall sums.now 4194304 }
    ensures value { result ≡ deviation_by sums.now height }
    ensures small { unsigned_abs result ≤ 2 ^ 86 }
{
    i128::from(height) * i128::from(sums.count) - sums.total
}

// The sum of the absolute values of these, over all present points.
#[inline(never)]
fn deviations<G: Heights>(grid: &G, sums: &Sums) -> u128
    requires are { AreSums (present_heights (G.map grid.now)) sums.now }
    requires small { AreSmall sums.now 4194304 }
    ensures value { result ≡ deviations (present_heights (G.map grid.now)) }
    ensures small { result ≤ 4194304 * 2 ^ 86 }
{
    gathered(grid, &Deviating { sums: *sums }, 0)
}

// Gathers the sum of the absolute values of deviations, by the sums over all heights.
#[derive(Drop)]
struct Deviating {
    sums: Sums,
    ghost small: { AreSmall sums 4194304 },
}

impl Gather for Deviating {
    ghost use Rattle.std.specs.List.{sum_by};
    ghost use Rattle.hd_stats.specs.Gathering.{deviation_by};

    type Sum = u128;

    ghost is_of = { λ by heights sum. (sum ≡ sum_by (λ h. unsigned_abs (deviation_by by.sums h)) heights) × (sum ≤ length heights * 2 ^ 86) };

    #[inline]
    fn with(&self, sum: u128, height: Option<i64>) -> u128 {
        deviations_with(sum, &self.sums, height)
    }
}

// The sum with one more point, by its height.
#[inline]
fn deviations_with(sum: u128, sums: &Sums, height: Option<i64>) -> u128
    requires small { AreSmall sums.now 4194304 }
    requires room { sum ≤ 4194304 * 2 ^ 86 }
    ensures value { result ≡ deviations_with sum sums.now height }
    ensures small { result ≤ sum + 2 ^ 86 }
{
    match height {
        Some(height) => sum + deviation(sums, height).unsigned_abs(),
        None => sum,
    }
}

// How many present points are at least as high as c.
#[inline(never)]
fn at_least<G: Heights>(grid: &G, c: i64) -> u32
    ensures { result ≡ at_least c (present_heights (G.map grid.now)) }
{
    gathered(grid, &Reaching { c }, 0)
}

// Gathers how many heights are at least c.
#[derive(Drop)]
struct Reaching {
    c: i64,
}

impl Gather for Reaching {
    type Sum = u32;

    ghost is_of = { λ by heights count. (count ≡ at_least by.c heights) × (count ≤ length heights) };

    #[inline]
    fn with(&self, count: u32, height: Option<i64>) -> u32 {
        at_least_with(count, self.c, height)
    }
}

// The count with one more point, by its height.
#[inline]
fn at_least_with(count: u32, c: i64, height: Option<i64>) -> u32
    requires { count ≤ 4194304 }
    ensures { result ≡ at_least_with count c height }
{
    match height {
        Some(height) if c <= height => count + 1,
        _ => count,
    }
}
