// By point, the place of its owner among the kept pits.
ghost use Rattle.std.specs.Prelude.{◌≡◌, ◌≢◌, ◌<◌, ◌≤◌, ◌^◌, ℕ, length, map, slice_index, All, AllPairs, IfOk};
ghost use Rattle.hd_lines.specs.Places.{AreKeptPlaces, AreOwnerPlaces, IsNumbered, place_of_owner};

use hd_list::Memory;
use hd_prune::{Kept, Owned};
use hd_steep::Regions;
use std::alloc::Global;

/// By index, the place among the kept pits of the pit that owns the one in whose region the point lies, and
/// 0 where no point is present. The owners are those of the pits of the regions, in their order.
pub fn owner_places(
    alloc: Global,
    kept: &[Kept],
    owners: &[Owned],
    regions: &Regions,
) -> Result<Vec<u32>, Memory>
    requires few { length kept.now < 2 ^ 32 }
    requires whole { length owners.now ≡ length regions.now.pits }
    requires kept { All (λ k. IsNumbered regions.now k.pit.index) kept.now }
    requires owners { All (λ o. IsNumbered regions.now o.owner.index) owners.now }
    requires once { AllPairs (λ a b. slice_index regions.now.numbers a.pit.index
        ≢ slice_index regions.now.numbers b.pit.index) kept.now }
    ensures places { IfOk result (λ places. AreOwnerPlaces kept.now owners.now regions.now.numbers
        places.items) }
    ensures within { IfOk result (λ places. (room : ℕ) → 0 < room → length kept.now ≤ room
        → All (λ p. p < room) places.items) }
{
    let places = kept_places(alloc, kept, regions)?;
    let places = pit_places(alloc, owners, regions, &places)?;
    point_places(alloc, regions, &places)
}

// By number of a pit, its place among the kept pits, and 0 where it is none of them.
fn kept_places(alloc: Global, kept: &[Kept], regions: &Regions) -> Result<Vec<u32>, Memory>
    requires few { length kept.now < 2 ^ 32 }
    requires kept { All (λ k. IsNumbered regions.now k.pit.index) kept.now }
    requires once { AllPairs (λ a b. slice_index regions.now.numbers a.pit.index
        ≢ slice_index regions.now.numbers b.pit.index) kept.now }
    ensures whole { IfOk result (λ places. length places.items ≡ length regions.now.pits) }
    ensures places { IfOk result (λ places. AreKeptPlaces kept.now regions.now.numbers
        (length kept.now) places.items) }
    ensures within { IfOk result (λ places. (room : ℕ) → 0 < room → length kept.now ≤ room
        → All (λ p. p < room) places.items) }
{
    let mut places = vec![in alloc; 0u32; regions.pits().len()]?;
    'pits: for (place, one) in kept.iter().enumerate() {
        places[number_at(regions, one.pit.index)] = place as u32;
    }
    Ok(places)
}

// By number of a pit, the place of its owner, from the places of the kept pits.
fn pit_places(
    alloc: Global,
    owners: &[Owned],
    regions: &Regions,
    kept: &[u32],
) -> Result<Vec<u32>, Memory>
    requires whole { length kept.now ≡ length regions.now.pits }
    requires owners { All (λ o. IsNumbered regions.now o.owner.index) owners.now }
    ensures { IfOk result (λ places. places.items
        ≡ map (place_of_owner regions.now.numbers kept.now) owners.now) }
{
    let mut places = Vec::with_capacity(alloc, owners.len())?;
    'pits: for owned in owners {
        places.push(kept[number_at(regions, owned.owner.index)])?;
    }
    Ok(places)
}

// By index of a point, the place of the pit in whose region it lies, and 0 where no point is present.
fn point_places(alloc: Global, regions: &Regions, pits: &[u32]) -> Result<Vec<u32>, Memory>
    requires { length pits.now ≡ length regions.now.pits }
    ensures { IfOk result (λ places. places.items ≡ map (slice_index pits.now) regions.now.numbers) }
{
    let mut places = Vec::with_capacity(alloc, regions.len())?;
    'points: for index in 0..regions.len() {
        places.push(place_at(regions, pits, index))?;
    }
    Ok(places)
}

// The place of the pit in whose region the point of this index lies, and 0 where no point is present.
#[inline]
fn place_at(regions: &Regions, pits: &[u32], index: usize) -> u32
    requires whole { length pits.now ≡ length regions.now.pits }
    requires inside { index < length regions.now.numbers }
    ensures { result ≡ slice_index pits.now (slice_index regions.now.numbers index) }
{
    match regions.number(index) {
        Some(number) => pits[number as usize],
        None => 0,
    }
}

// The number of the pit in whose region the point of this index lies.
#[inline]
fn number_at(regions: &Regions, index: u32) -> usize
    requires { IsNumbered regions.now index }
    ensures number { result ≡ slice_index regions.now.numbers index }
    ensures inside { result < length regions.now.pits }
{
    match regions.number(index as usize) {
        Some(number) => number as usize,
        None => unreachable!(),
    }
}
