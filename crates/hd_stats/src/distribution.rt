// How the attributes of features are distributed.
ghost use Rattle.std.specs.Prelude.{◌≡◌, ◌≤◌, ◌<◌, All, IfOk, length};
ghost use Rattle.hd_stats.specs.Distribution.{AreCounts, IsHist, IsPerc, bin_of, greater};

use hd_feature::{Notation, Region, attributes, greatest, least};
use hd_list::{List, Memory};
use hd_num::Frac;
use std::alloc::Global;

/// How many of the attributes of the features that a notation keeps lie in each of some bins, whatever
/// its statistic, over the regions of its side after its pruning, in position order. There are 1 to 64
/// bins, which divide the way from the least to the greatest attribute evenly; an attribute on a border
/// of two bins counts in the upper one, the greatest in the last bin, and all in the first where they
/// are equal. No region has more than 4,194,304 points. None comes exactly where no region is
/// significant.
pub fn hist(
    alloc: Global,
    notation: &Notation,
    regions: &List<Region>,
    bins: u32,
) -> Result<Option<List<u64>>, Memory>
    requires regions { All (λ r. r.points ≤ 4194304) regions.now }
    requires some { 1 ≤ bins }
    requires few { bins ≤ 64 }
    ensures { IfOk result (IsHist notation.now regions.now bins) }
{
    let values = attributes(alloc, notation, regions.as_slice())?;
    if values.is_empty() {
        return Ok(None);
    }
    let counts = count_bins(alloc, values.as_slice(), bins)?;
    Ok(Some(List::from_vec(counts)))
}

/// The part of the features that a notation keeps whose attribute is greater than `above`, whatever its
/// statistic, over the regions of its side after its pruning, in position order. No region has more than
/// 4,194,304 points. None comes exactly where no region is significant.
pub fn perc(
    alloc: Global,
    notation: &Notation,
    regions: &List<Region>,
    above: i64,
) -> Result<Option<Frac>, Memory>
    requires { All (λ r. r.points ≤ 4194304) regions.now }
    ensures { IfOk result (IsPerc notation.now regions.now above) }
{
    let values = attributes(alloc, notation, regions.as_slice())?;
    if values.is_empty() {
        return Ok(None);
    }
    let count = count_greater(values.as_slice(), above);
    Ok(Some(Frac::new(i128::from(count), values.len() as u128)))
}

// By bin, how many of some values lie in it.
fn count_bins(alloc: Global, values: &[i64], bins: u32) -> Result<Vec<u64>, Memory>
    requires values { 0 < length values.now }
    requires bins { 1 ≤ bins }
    ensures { IfOk result (λ counts. AreCounts values.now bins counts.items) }
{
    let least = least(values);
    let greatest = greatest(values);
    let mut counts = vec![in alloc; 0u64; bins as usize]?;
    'values: for value in values {
        let bin = bin_of(least, greatest, bins, *value);
        counts[bin as usize] += 1;
    }
    Ok(counts)
}

// The bin of a value, of so many, where these are the least and the greatest value.
fn bin_of(least: i64, greatest: i64, bins: u32, value: i64) -> u32
    requires { 1 ≤ bins }
    ensures value { result ≡ bin_of least greatest bins value }
    ensures inside { result < bins }
{
    if least == greatest {
        return 0;
    }
    let place = u128::from(value.abs_diff(least)) * u128::from(bins);
    let bin = place / u128::from(greatest.abs_diff(least));
    u128::from(bins - 1).min(bin) as u32
}

// How many of some values are greater than a bound.
fn count_greater(values: &[i64], bound: i64) -> u64
    ensures value { result ≡ greater bound values.now }
    ensures few { result ≤ length values.now }
{
    let mut count = 0u64;
    'values: for value in values {
        if bound < *value {
            count += 1;
        }
    }
    count
}
