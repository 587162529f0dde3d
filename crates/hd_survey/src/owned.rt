// What kept pits own after pruning.
ghost use Rattle.std.specs.Prelude.{◌≡◌, ◌<◌, ◌+◌, ◌^◌, true, ℕ, List as Items, length, map, nat_eq, All, AllPairs, IfOk, slice_index_or};
ghost use Rattle.hd_map.specs.Map.{IsMap, Map, cell_count};
ghost use Rattle.hd_map.specs.declared.types.RegionSize.{RegionSize};
ghost use Rattle.hd_map.specs.declared.types.SideName.{SideName};
ghost use Rattle.hd_prune.specs.Answer.{IsPruned};
ghost use Rattle.hd_survey.specs.Owned.{AreKeptPlaces, AreOwnedTallies, ArePlacedTallies, AreSized, HavePoints, JoinsAt, is_placed, joined_of, plain_tally, sized};
ghost use Rattle.hd_regions.specs.declared.tally.Tally.{Tally};

use crate::tallies::no_tallies;
use crate::tally::joined;
use hd_list::{List, Memory};
use hd_map::RegionSize;
use hd_prune::{Kept, Owned, Pruned};
use hd_regions::Tally;
use std::alloc::Global;

/// The regions of the kept pits in position order, with all points that they own, from all regions of
/// the map. The map has `count` cells.
pub fn owned_sizes(
    alloc: Global,
    count: usize,
    pruned: &Pruned,
    sizes: &[RegionSize],
) -> Result<List<RegionSize>, Memory>
    requires { (m : Map) × (side : SideName) × (thousandths : ℕ) × IsMap m
        × IsPruned m side thousandths pruned.now.steps pruned.now.kept pruned.now.owners
        × HavePoints m side (map (λ (size : RegionSize). size.points) sizes.now) × (count ≡ cell_count m.size) }
    ensures { IfOk result (λ list. (all : Items Tally)
        × AreOwnedTallies pruned.now.kept pruned.now.owners (map plain_tally sizes.now) all
        × AreSized pruned.now.kept all (length pruned.now.kept) list) }
{
    let tallies = plain_tallies(alloc, sizes)?;
    let all = owned_tallies(alloc, count, pruned, tallies.as_slice())?;
    size_kept(alloc, pruned.kept.as_slice(), all.as_slice())
}

// The tallies of regions without regard to their edges.
fn plain_tallies(alloc: Global, sizes: &[RegionSize]) -> Result<Vec<Tally>, Memory>
    ensures { IfOk result (λ tallies. tallies.items ≡ map plain_tally sizes.now) }
{
    let mut tallies = Vec::with_capacity(alloc, sizes.len())?;
    'regions: for size in sizes {
        tallies.push(Tally {
            points: size.points,
            edge: None,
        })?;
    }
    Ok(tallies)
}

// The regions of the kept pits with these tallies.
fn size_kept(alloc: Global, kept: &[Kept], tallies: &[Tally]) -> Result<List<RegionSize>, Memory>
    requires { length tallies.now ≡ length kept.now }
    ensures { IfOk result (AreSized kept.now tallies.now (length kept.now)) }
{
    let mut list = List::with_capacity(alloc, kept.len())?;
    'pits: for (place, one) in kept.iter().enumerate() {
        list.push(RegionSize {
            pit: one.pit,
            points: tallies[place].points,
        })?;
    }
    Ok(list)
}

/// By place of a kept pit, the tallies of the regions whose pits it owns, taken together, from the
/// tallies of all regions of a map of `count` cells.
pub fn owned_tallies(
    alloc: Global,
    count: usize,
    pruned: &Pruned,
    tallies: &[Tally],
) -> Result<Vec<Tally>, Memory>
    requires { (m : Map) × (side : SideName) × (thousandths : ℕ) × IsMap m
        × IsPruned m side thousandths pruned.now.steps pruned.now.kept pruned.now.owners
        × HavePoints m side (map (λ (tally : Tally). tally.points) tallies.now) × (count ≡ cell_count m.size) }
    ensures { IfOk result (λ all. AreOwnedTallies pruned.now.kept pruned.now.owners tallies.now all.items) }
{
    let kept = pruned.kept.as_slice();
    let owners = pruned.owners.as_slice();
    let places = kept_places(alloc, count, kept)?;
    place_tallies(alloc, kept.len(), places.as_slice(), owners, tallies)
}

// By index of a kept pit, its place among them, and a place past the last for other indexes.
fn kept_places(alloc: Global, count: usize, kept: &[Kept]) -> Result<Vec<u32>, Memory>
    requires few { length kept.now < 2 ^ 32 }
    requires kept { All (λ k. k.pit.index < count) kept.now }
    requires ordered { AllPairs (λ a b. a.pit.index < b.pit.index) kept.now }
    ensures { IfOk result (λ places. AreKeptPlaces kept.now count places.items) }
{
    let mut places = vec![in alloc; kept.len() as u32; count]?;
    'pits: for (place, pit) in kept.iter().enumerate() {
        places[pit.pit.index as usize] = place as u32;
    }
    Ok(places)
}

// By place, the tallies of the pits whose owners have that place, taken together.
fn place_tallies(
    alloc: Global,
    count: usize,
    places: &[u32],
    owners: &[Owned],
    tallies: &[Tally],
) -> Result<Vec<Tally>, Memory>
    requires long { length tallies.now ≡ length owners.now }
    requires inside { All (λ o. o.owner.index < length places.now) owners.now }
    requires few { (i : ℕ) → i < count → (joined_of
        (is_placed places.now i) owners.now tallies.now).points < 2 ^ 32 }
    ensures { IfOk result (λ all. ArePlacedTallies count places.now owners.now tallies.now all.items) }
{
    let mut all = no_tallies(alloc, count)?;
    'pits: for (number, pit) in owners.iter().enumerate() {
        join_at(&mut all, places[pit.owner.index as usize], tallies[number]);
    }
    Ok(all)
}

// Joins the tally of a place with another, where there is such a place.
fn join_at(all: &mut Vec<Tally>, place: u32, tally: Tally)
    requires { (i : ℕ) (d : Tally) → i < length all.old.items → nat_eq place i ≡ true
        → (slice_index_or all.old.items i d).points + tally.points < 2 ^ 32 }
    ensures { JoinsAt all.old.items place tally all.new.items }
{
    let place = place as usize;
    if place < all.len() {
        all[place] = joined(all[place], tally);
    }
}
