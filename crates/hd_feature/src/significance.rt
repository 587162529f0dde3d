// Which of the regions are significant.
ghost use Rattle.std.specs.Prelude.{◌≡◌, ◌&&◌, IfOk, nat_lt, map};
ghost use Rattle.std.specs.Ordering.{is_lt};
ghost use Rattle.hd_feature.specs.declared.region.Region.{Region};
ghost use Rattle.hd_feature.specs.Cut.{IsCut, is_ahead, is_within, key_of, significant_by};
ghost use Rattle.hd_feature.specs.Value.{is_among, is_at_least, is_at_most, is_open, is_significant};

use crate::{Kind, Region, Significance};
use hd_list::Memory;
use std::alloc::Global;
use std::cmp::Ordering;

/// What regions are compared by.
#[derive(Clone, Copy)]
pub struct RegionKey {
    /// The local height in steps.
    pub lpvh: i64,
    /// The index of the pit.
    pub index: u32,
}

/// The key of the last of the regions that a significance keeps by their number, and none where it
/// keeps all.
pub fn cut_of(
    alloc: Global,
    significance: Significance,
    regions: &[Region],
) -> Result<Option<RegionKey>, Memory>
    ensures { IfOk result (IsCut significance regions.now) }
{
    match significance {
        Significance::Top(number) | Significance::Bot(number) => last_of(alloc, number, regions),
        Significance::All | Significance::Closed(_) | Significance::Open(_) => Ok(None),
    }
}

/// Whether a region is significant, where the cut is that of the regions.
pub fn is_significant(
    kind: Kind,
    significance: Significance,
    cut: Option<RegionKey>,
    region: &Region,
) -> bool
    ensures { result ≡ significant_by kind significance cut region.now }
{
    match significance {
        Significance::All => true,
        Significance::Top(number) | Significance::Bot(number) => {
            0 < number && is_within(key_of(region), cut)
        }
        Significance::Closed(c) => !is_open(kind, c, region),
        Significance::Open(c) => is_open(kind, c, region),
    }
}

// Whether a region is open at a height.
fn is_open(kind: Kind, c: i64, region: &Region) -> bool
    ensures { result ≡ is_open kind c region.now }
{
    match kind {
        Kind::Hill | Kind::Peak => is_at_least(c, region.edge_high),
        Kind::Dale | Kind::Pit => is_at_most(c, region.edge_low),
    }
}

// Whether there is a height, and it is at least c.
fn is_at_least(c: i64, height: Option<i64>) -> bool
    ensures { result ≡ is_at_least c height }
{
    match height {
        Some(height) => c <= height,
        None => false,
    }
}

// Whether there is a height, and it is at most c.
fn is_at_most(c: i64, height: Option<i64>) -> bool
    ensures { result ≡ is_at_most c height }
{
    match height {
        Some(height) => height <= c,
        None => false,
    }
}

// The key of a region.
fn key_of(region: &Region) -> RegionKey
    ensures { result ≡ key_of region.now }
{
    RegionKey {
        lpvh: region.lpvh,
        index: region.pit.index,
    }
}

// Whether a key is ahead of another: the local height is greater, or the same and the index less.
fn is_ahead(a: RegionKey, b: RegionKey) -> bool
    ensures { result ≡ is_ahead a b }
{
    b.lpvh < a.lpvh || (a.lpvh == b.lpvh && a.index < b.index)
}

// Whether a key is not behind a cut.
fn is_within(key: RegionKey, cut: Option<RegionKey>) -> bool
    ensures { result ≡ is_within key cut }
{
    match cut {
        Some(last) => !is_ahead(last, key),
        None => true,
    }
}

// The key of the last of so many regions, and none where there are fewer.
fn last_of(alloc: Global, number: u32, regions: &[Region]) -> Result<Option<RegionKey>, Memory>
    ensures { IfOk result (λ cut. (r : Region)
        → is_among regions.now number r ≡ (nat_lt 0 number && is_within (key_of r) cut)) }
{
    let count = number as usize;
    if count == 0 || regions.len() < count {
        return Ok(None);
    }
    let mut keys = keys_of(alloc, regions)?;
    let (_, last, _) = keys.select_nth_unstable_by(count - 1, |a, b| compare(a, b));
    Ok(Some(*last))
}

// The keys of the regions.
fn keys_of(alloc: Global, regions: &[Region]) -> Result<Vec<RegionKey>, Memory>
    ensures { IfOk result (λ keys. keys.items ≡ map key_of regions.now) }
{
    let mut keys = Vec::with_capacity(alloc, regions.len())?;
    'regions: for region in regions {
        keys.push(key_of(region))?;
    }
    Ok(keys)
}

// Which of two keys is ahead.
fn compare(a: &RegionKey, b: &RegionKey) -> Ordering
    ensures { is_lt result ≡ is_ahead a.now b.now }
{
    if is_ahead(*a, *b) {
        Ordering::Less
    } else {
        Ordering::Greater
    }
}
