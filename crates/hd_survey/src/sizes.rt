// How many points the regions of a map have.
ghost use Rattle.std.specs.Prelude.{◌≡◌, ◌<◌, ◌^◌, ℕ, List as Items, Option, length, map, AllPairs, IfOk};
ghost use Rattle.hd_steep.specs.Numbering.{roots_of};
ghost use Rattle.hd_survey.specs.Regions.{AreCountsOf, CountsPoints, region_size};

use hd_list::{List, Memory};
use hd_map::{Rank, RegionSize};
use hd_steep::Regions;
use std::alloc::Global;

/// The regions with the numbers of their points, in position order of their pits.
pub fn list_sizes(alloc: Global, regions: &Regions) -> Result<List<RegionSize>, Memory>
    requires few { length regions.now.numbers < 2 ^ 32 }
    requires ordered { AllPairs (λ a b. a.index < b.index) regions.now.pits }
    ensures { IfOk result (λ sizes. sizes ≡ map (region_size (roots_of regions.now)) regions.now.pits) }
{
    let points = count_points(alloc, regions)?;
    size_pits(alloc, regions.pits(), &points)
}

/// The same, where the numbers of the points are given up once they are counted.
pub fn into_sizes(alloc: Global, regions: Regions) -> Result<List<RegionSize>, Memory>
    requires few { length regions.numbers < 2 ^ 32 }
    requires ordered { AllPairs (λ a b. a.index < b.index) regions.pits }
    ensures { IfOk result (λ sizes. sizes ≡ map (region_size (roots_of regions)) regions.pits) }
{
    let points = count_points(alloc, &regions)?;
    let pits = regions.into_pits();
    size_pits(alloc, pits.as_slice(), &points)
}

// The regions of these pits, with these numbers of points.
fn size_pits(alloc: Global, pits: &[Rank], points: &[u32]) -> Result<List<RegionSize>, Memory>
    requires { length points.now ≡ length pits.now }
    ensures { (roots : Items (Option ℕ)) → AreCountsOf roots pits.now points.now
        → IfOk result (λ sizes. sizes ≡ map (region_size roots) pits.now) }
{
    let mut sizes = List::with_capacity(alloc, pits.len())?;
    'pits: for (number, pit) in pits.iter().enumerate() {
        sizes.push(RegionSize {
            pit: *pit,
            points: points[number],
        })?;
    }
    Ok(sizes)
}

// By number of a pit, how many points lie in its region.
fn count_points(alloc: Global, regions: &Regions) -> Result<Vec<u32>, Memory>
    requires { length regions.now.numbers < 2 ^ 32 }
    ensures { IfOk result (λ points. CountsPoints regions.now points.items) }
{
    let mut points = vec![in alloc; 0u32; regions.pits().len()]?;
    'indexes: for index in 0..regions.len() {
        if let Some(number) = regions.number(index) {
            points[number as usize] += 1;
        }
    }
    Ok(points)
}
