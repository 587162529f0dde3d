// Statistics of numbers.
ghost use Rattle.std.specs.Prelude.{◌≡◌, ◌<◌, ◌≤◌, length};
ghost use Rattle.hd_num.specs.Frac.{IsFraction};
ghost use Rattle.hd_feature.specs.Value.{greatest, least, over, total, under};

use crate::Statistic;
use hd_num::Frac;

/// A statistic of some numbers, on a surface with this number of points.
pub fn statistic_of(statistic: Statistic, values: &[i64], area: u64) -> Frac
    requires some { 0 < length values.now }
    requires area { 0 < area }
    ensures { IsFraction (over statistic values.now) (under statistic values.now area) result.num result.den }
{
    match statistic {
        Statistic::Mean => Frac::new(total(values), values.len() as u128),
        Statistic::Max => Frac::new(i128::from(greatest(values)), 1),
        Statistic::Min => Frac::new(i128::from(least(values)), 1),
        Statistic::Sum => Frac::new(total(values), 1),
        Statistic::Density => Frac::new(total(values), u128::from(area)),
    }
}

// The sum of some numbers.
fn total(values: &[i64]) -> i128
    ensures { result ≡ total values.now }
{
    let mut sum = 0i128;
    'values: for value in values {
        sum += i128::from(*value);
    }
    sum
}

/// The greatest of some numbers.
pub fn greatest(values: &[i64]) -> i64
    requires { 0 < length values.now }
    ensures { result ≡ greatest values.now }
{
    let mut greatest = values[0];
    'values: for value in values {
        greatest = greatest.max(*value);
    }
    greatest
}

/// The least of some numbers.
pub fn least(values: &[i64]) -> i64
    requires { 0 < length values.now }
    ensures { result ≡ least values.now }
{
    let mut least = values[0];
    'values: for value in values {
        least = least.min(*value);
    }
    least
}
