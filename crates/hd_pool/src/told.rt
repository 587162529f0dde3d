// What extents tell of regions.
ghost use Rattle.std.specs.Prelude.{◌≡◌, ◌<◌, ◌^◌, map, All, IfOk};
ghost use Rattle.hd_pool.specs.Told.{presence_told, presence_with, range_between, range_with, size_told, tally_told};

use hd_basin::Extent;
use hd_list::{List, Memory};
use hd_map::{HeightRange, Presence, RegionSize};
use hd_regions::Tally;
use std::alloc::Global;

/// The regions of these extents with the numbers of their points.
pub fn sizes_told(alloc: Global, extents: &[Extent]) -> Result<List<RegionSize>, Memory>
    requires { All (λ e. e.points < 2 ^ 32) extents.now }
    ensures { IfOk result (λ sizes. sizes ≡ map size_told extents.now) }
{
    let mut sizes = List::with_capacity(alloc, extents.len())?;
    'extents: for extent in extents {
        sizes.push(RegionSize {
            pit: extent.pit,
            points: extent.points as u32,
        })?;
    }
    Ok(sizes)
}

/// The tallies of the regions of these extents.
pub fn tallies_told(alloc: Global, extents: &[Extent]) -> Result<List<Tally>, Memory>
    requires { All (λ e. e.points < 2 ^ 32) extents.now }
    ensures { IfOk result (λ tallies. tallies ≡ map tally_told extents.now) }
{
    let mut tallies = List::with_capacity(alloc, extents.len())?;
    'extents: for extent in extents {
        tallies.push(Tally {
            points: extent.points as u32,
            edge: range_between(extent.edge_low, extent.edge_high),
        })?;
    }
    Ok(tallies)
}

// The range of the heights of edge points, of which there are both a least and a greatest or neither.
fn range_between(least: Option<i64>, greatest: Option<i64>) -> Option<HeightRange>
    ensures { result ≡ range_between least greatest }
{
    match (least, greatest) {
        (Some(least), Some(greatest)) => Some(HeightRange { least, greatest }),
        _ => None,
    }
}

/// How many points lie in the regions of these extents, and the range of their heights.
pub fn presence_told(extents: &[Extent]) -> Presence
    requires { All (λ e. e.points < 2 ^ 32) extents.now }
    ensures { result ≡ presence_told extents.now }
{
    let mut seen = Presence {
        count: 0,
        range: None,
    };
    'extents: for extent in extents {
        seen = presence_with(seen, extent);
    }
    seen
}

// The points that are seen, with those of one more region.
fn presence_with(seen: Presence, extent: &Extent) -> Presence
    requires { extent.now.points < 2 ^ 32 }
    ensures { result ≡ presence_with seen extent.now }
{
    Presence {
        count: seen.count.saturating_add(extent.points as u32),
        range: Some(range_with(seen.range, extent)),
    }
}

// A range with that of the heights of one more region.
fn range_with(range: Option<HeightRange>, extent: &Extent) -> HeightRange
    ensures { result ≡ range_with range extent.now }
{
    match range {
        Some(range) => HeightRange {
            least: range.least.min(extent.least),
            greatest: range.greatest.max(extent.high),
        },
        None => HeightRange {
            least: extent.least,
            greatest: extent.high,
        },
    }
}
