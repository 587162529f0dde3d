// The borders between places, from the pairs of neighbours across them.
ghost use Rattle.std.specs.Prelude.{◌≡◌, ◌<◌, ◌≤◌, ◌+◌, ◌%◌, ◌/◌, ◌^◌, [], ℕ, length, slice_get, All, IfOk, OnOk, MatchOption, IsTrue, ◌↔◌, Some, true};
ghost use Rattle.hd_map.specs.Map.{InGrid, IsSize, Present, cell_count, place_of};
ghost use Rattle.hd_map.specs.Neighbour.{IsNear, Neighbour};
ghost use Rattle.hd_map.specs.Rank.{rank};
ghost use Rattle.hd_steep.specs.Borders.{AreBorders};
ghost use Rattle.hd_steep.specs.Chains.{AreChains};
ghost use Rattle.hd_steep.specs.Found.{AreFound, AreFoundBefore, AreFoundTo, AreIndexed, NotesPair};

use crate::border::Border;
use crate::chains::Chains;
use crate::found::Found;
use hd_list::Memory;
use hd_map::{
    Heights, Pos, Rank, Side, Size, are_beside, contains, higher_of, index_of, is_present,
    position_of, rank_of,
};
use std::alloc::Global;

/// The borders between the points of different places, each of which is less than `room`. Memory is reserved for
/// `many` of them.
pub fn borders_of<S: Side, G: Heights>(
    alloc: Global,
    grid: &G,
    places: &[u32],
    room: usize,
    many: usize,
) -> Result<Vec<Border>, Memory>
    requires whole { length places.now ≡ cell_count (G.map grid.now).size }
    requires within { All (λ p. p < room) places.now }
    requires few { room < 2 ^ 32 }
    ensures { IfOk result (λ borders. AreBorders (G.map grid.now) S.NAME places.now borders.items) }
{
    let chains = Chains::new(alloc, places, room)?;
    let mut found = Found::new(alloc, room)?;
    let mut borders = Vec::with_capacity(alloc, many)?;
    'places: for place in 0..room {
        find_borders::<S, G>(grid, places, &chains, place as u32, &mut found)?;
        found.move_to(&mut borders)?;
    }
    Ok(borders)
}

// Finds the borders of a place with greater ones.
fn find_borders<S: Side, G: Heights>(
    grid: &G,
    places: &[u32],
    chains: &Chains,
    place: u32,
    found: &mut Found,
) -> Result<(), Memory>
    requires whole { length places.now ≡ cell_count (G.map grid.now).size }
    requires within { All (λ p. p < length found.old.slots.items) places.now }
    requires few { length found.old.slots.items < 2 ^ 32 }
    requires chains { AreChains places.now (length found.old.slots.items) chains.now }
    requires inside { place < length found.old.slots.items }
    requires none { found.old.borders.items ≡ [] }
    ensures found { OnOk result (AreFound (G.map grid.now) S.NAME places.now
        (λ p. Unit {0}) place found.new) }
    ensures long { OnOk result (length found.new.slots.items ≡ length found.old.slots.items) }
{
    let mut index = chains.firsts[place as usize];
    while (index as usize) < places.len() {
        note_point::<S, G>(grid, places, place, index, found)?;
        index = chains.nexts[index as usize];
    }
    Ok(())
}

// Notes the pairs of a point of this place with its neighbours of greater places.
fn note_point<S: Side, G: Heights>(
    grid: &G,
    places: &[u32],
    place: u32,
    index: u32,
    found: &mut Found,
) -> Result<(), Memory>
    requires whole { length places.now ≡ cell_count (G.map grid.now).size }
    requires within { All (λ p. p < length found.old.slots.items) places.now }
    requires few { length found.old.slots.items < 2 ^ 32 }
    requires place { slice_get places.now index ≡ Some place }
    requires before { AreFoundBefore (G.map grid.now) S.NAME places.now place index found.old }
    ensures found { OnOk result (AreFoundBefore (G.map grid.now) S.NAME places.now place
        (index + 1) found.new) }
    ensures long { OnOk result (length found.new.slots.items ≡ length found.old.slots.items) }
{
    let size = grid.size();
    if is_surrounded(places, size, place, index) {
        return Ok(());
    }
    let at = position_of(size, index);
    if is_present(grid, at) {
        note_round::<S, G>(grid, places, place, at, found)?;
        return Ok(());
    }
    Ok(())
}

// Whether this place alone stands at an index and at the eight round it.
#[inline]
fn is_surrounded(places: &[u32], size: Size, place: u32, index: u32) -> bool
    requires whole { length places.now ≡ cell_count size }
    ensures { result ≡ true → (p q : _) → InGrid size p → InGrid size q → place_of size p ≡ index
        → IsNear p.x q.x → IsNear p.y q.y → slice_get places.now (place_of size q) ≡ Some place }
{
    let index = index as usize;
    let row = size.points as usize;
    if index <= row || places.len() <= index + row + 1 {
        return false;
    }
    stands_at_three(places, place, index - row)
        && stands_at_three(places, place, index)
        && stands_at_three(places, place, index + row)
}

// Whether this place stands at an index, before it and after it.
#[inline]
fn stands_at_three(places: &[u32], place: u32, index: usize) -> bool
    requires before { 0 < index }
    requires after { index + 1 < length places.now }
    ensures { result ≡ true → (k : ℕ) → index ≤ k + 1 → k ≤ index + 1 → slice_get places.now k ≡ Some place }
{
    places[index - 1] == place && places[index] == place && places[index + 1] == place
}

// Notes the pairs of a present point of this place with its neighbours of greater places. The nine steps are
// written out: in a loop the position at a step would be reckoned each time.
fn note_round<S: Side, G: Heights>(
    grid: &G,
    places: &[u32],
    place: u32,
    at: Pos,
    found: &mut Found,
) -> Result<(), Memory>
    requires whole { length places.now ≡ cell_count (G.map grid.now).size }
    requires within { All (λ p. p < length found.old.slots.items) places.now }
    requires few { length found.old.slots.items < 2 ^ 32 }
    requires present { Present (G.map grid.now) at }
    requires place { slice_get places.now (place_of (G.map grid.now).size at) ≡ Some place }
    requires before { AreFoundBefore (G.map grid.now) S.NAME places.now place
        (place_of (G.map grid.now).size at) found.old }
    ensures found { OnOk result (AreFoundBefore (G.map grid.now) S.NAME places.now place
        (place_of (G.map grid.now).size at + 1) found.new) }
    ensures long { OnOk result (length found.new.slots.items ≡ length found.old.slots.items) }
{
    note_step::<S, G>(grid, places, place, at, 0, found)?;
    note_step::<S, G>(grid, places, place, at, 1, found)?;
    note_step::<S, G>(grid, places, place, at, 2, found)?;
    note_step::<S, G>(grid, places, place, at, 3, found)?;
    note_step::<S, G>(grid, places, place, at, 4, found)?;
    note_step::<S, G>(grid, places, place, at, 5, found)?;
    note_step::<S, G>(grid, places, place, at, 6, found)?;
    note_step::<S, G>(grid, places, place, at, 7, found)?;
    note_step::<S, G>(grid, places, place, at, 8, found)?;
    Ok(())
}

// Notes the pair of such a point with the one at a step, where that is a neighbour of a greater place.
#[inline(always)]
fn note_step<S: Side, G: Heights>(
    grid: &G,
    places: &[u32],
    place: u32,
    at: Pos,
    step: u32,
    found: &mut Found,
) -> Result<(), Memory>
    requires whole { length places.now ≡ cell_count (G.map grid.now).size }
    requires within { All (λ p. p < length found.old.slots.items) places.now }
    requires few { length found.old.slots.items < 2 ^ 32 }
    requires present { Present (G.map grid.now) at }
    requires place { slice_get places.now (place_of (G.map grid.now).size at) ≡ Some place }
    requires step { step < 9 }
    requires before { AreFoundTo (G.map grid.now) S.NAME places.now place at step found.old }
    ensures found { OnOk result (AreFoundTo (G.map grid.now) S.NAME places.now place at
        (step + 1) found.new) }
    ensures long { OnOk result (length found.new.slots.items ≡ length found.old.slots.items) }
{
    if let Some(to) = position_beside(grid.size(), at, step) {
        note_pair::<S, G>(grid, places, place, at, to, found)?;
        return Ok(());
    }
    Ok(())
}

// The position at a step from one, if the grid has it.
#[inline(always)]
fn position_beside(size: Size, at: Pos, step: u32) -> Option<Pos>
    requires size { IsSize size }
    requires inside { InGrid size at }
    requires step { step < 9 }
    ensures { MatchOption result ((q : _) → InGrid size q → q.x + 1 ≡ at.x + step % 3
        → q.y + 1 ≡ at.y + step / 3 → ⊥)
        (λ q. InGrid size q × (q.x + 1 ≡ at.x + step % 3) × (q.y + 1 ≡ at.y + step / 3)) }
{
    let (x, y) = (at.x + step % 3, at.y + step / 3);
    if x == 0 || y == 0 {
        return None;
    }
    let to = Pos { x: x - 1, y: y - 1 };
    if contains(size, to) { Some(to) } else { None }
}

// Notes a pair of positions side by side, where they are neighbours and the place of the second is greater.
#[inline(always)]
fn note_pair<S: Side, G: Heights>(
    grid: &G,
    places: &[u32],
    place: u32,
    at: Pos,
    to: Pos,
    found: &mut Found,
) -> Result<(), Memory>
    requires whole { length places.now ≡ cell_count (G.map grid.now).size }
    requires within { All (λ p. p < length found.old.slots.items) places.now }
    requires few { length found.old.slots.items < 2 ^ 32 }
    requires indexed { AreIndexed found.old.slots.items found.old.borders.items }
    requires small { All (λ l. l.pairs < 2 ^ 63) found.old.borders.items }
    requires present { Present (G.map grid.now) at }
    requires place { slice_get places.now (place_of (G.map grid.now).size at) ≡ Some place }
    requires inside { InGrid (G.map grid.now).size to }
    requires columns { IsNear at.x to.x }
    requires profiles { IsNear at.y to.y }
    ensures notes { OnOk result (NotesPair (G.map grid.now) S.NAME places.now place at to
        found.old.borders.items found.new.borders.items) }
    ensures indexed { OnOk result (AreIndexed found.new.slots.items found.new.borders.items) }
    ensures long { OnOk result (length found.new.slots.items ≡ length found.old.slots.items) }
{
    let other = places[index_of(grid.size(), to) as usize];
    if other <= place {
        return Ok(());
    }
    if is_neighbour(grid, at, to) {
        let pass = higher_of::<S>(rank_of(grid, at), rank_of(grid, to));
        found.add::<S>(place, other, pass)?;
        return Ok(());
    }
    Ok(())
}

// Whether a position side by side with a present point is one of its neighbours.
#[inline]
fn is_neighbour<G: Heights>(grid: &G, at: Pos, to: Pos) -> bool
    requires present { Present (G.map grid.now) at }
    requires inside { InGrid (G.map grid.now).size to }
    requires columns { IsNear at.x to.x }
    requires profiles { IsNear at.y to.y }
    requires different { at ≡ to → ⊥ }
    ensures { IsTrue result ↔ Neighbour (G.map grid.now) at to }
{
    are_beside(grid.adjacency(), at, to) && is_present(grid, to)
}
