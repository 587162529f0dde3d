// The filters of a grid: all its heights at once.
ghost use Rattle.std.specs.Prelude.{◌≡◌, ◌<◌, ◌^◌, IfOk, OnOk, OnErr, MatchResult, None, Ok, length};
ghost use Rattle.hd_map.specs.Encoding.{narrow, values_of, wide};
ghost use Rattle.hd_map.specs.Map.{AreCellsOf, cell_count};
ghost use Rattle.hd_morph.specs.Answer.{with_cells};
ghost use Rattle.hd_morph.specs.NewHeights.{cells_after};
ghost use Rattle.hd_edit.specs.Board.{IsEdited, IsRefusalBy, RisesUpTo};
ghost use Rattle.hd_edit.specs.Change.{AreChanges, before_changes};
ghost use Rattle.hd_edit.specs.Entry.{IsEntry, before_entry};
ghost use Rattle.hd_edit.specs.Filtered.{AreNewFor, IsNewFor, map_after};
ghost use Rattle.hd_edit.specs.Stroke.{stroke_parts};

use crate::elements::Elements;
use crate::entry::Entry;
use crate::exchange::{Way, way_for};
use crate::notes::{NewNotes, Notes};
use crate::profile::{put_profiles, set_profiles};
use crate::{Edit, EditError};
use hd_list::Memory;
use hd_map::{Grid, Heights, Lane, is_narrow};
use hd_morph::{Filter, Lists, MorphError, Numbers, OldAndNew, filtered_lists};
use std::alloc::Global;

/// The heights of a grid, and those that a filter makes of them.
pub fn filtered<G: Grid>(
    alloc: Global,
    grid: &G,
    elements: &Elements,
    edit: &Edit,
) -> Result<OldAndNew, EditError>
    requires { stroke_parts edit.now ≡ None }
    ensures edit { let m = G.map grid.now in MatchResult result
        (λ lists. IsEdited elements.now m edit.now (Ok (map_after m lists)))
        (IsRefusalBy (IsEdited elements.now m edit.now)) }
    ensures heights { IfOk result (IsNewFor (G.map grid.now)) }
{
    match edit {
        Edit::Dilate { name } => {
            let element = elements.find(name)?;
            let lists = filtered_lists(alloc, grid, element, Filter::Dilation)?;
            Ok(lists)
        }
        Edit::Erode { name } => {
            let element = elements.find(name)?;
            let lists = filtered_lists(alloc, grid, element, Filter::Erosion)?;
            Ok(lists)
        }
        Edit::Open { name } => {
            let element = elements.find(name)?;
            let lists = filtered_lists(alloc, grid, element, Filter::Opening)?;
            Ok(lists)
        }
        Edit::Close { name } => {
            let element = elements.find(name)?;
            let lists = filtered_lists(alloc, grid, element, Filter::Closing)?;
            Ok(lists)
        }
        _ => unreachable!(),
    }
}

/// Puts new heights in, and tells what undoes that: the list of those before, which is kept and not copied, or notes.
/// Refused its memory it leaves the grid.
pub fn put_heights<G: Grid>(alloc: Global, grid: &mut G, lists: OldAndNew) -> Result<Entry, Memory>
    requires lists { IsNewFor (G.map grid.old) lists }
    requires count { G.changes grid.old < 2 ^ 62 }
    ensures memory { OnErr result (grid.new ≡ grid.old) }
    ensures map { OnOk result (G.map grid.new ≡ map_after (G.map grid.old) lists) }
    ensures before { IfOk result (λ entry. before_entry entry (G.map grid.new) ≡ G.map grid.old) }
    ensures entry { IfOk result (IsEntry (G.map grid.old)) }
    ensures origin { G.comes_from grid.old grid.new }
    ensures count { RisesUpTo (cell_count (G.map grid.old).size) (G.changes grid.old) (G.changes grid.new) }
{
    match lists {
        OldAndNew::Narrow(lists) => put_narrow(alloc, grid, lists),
        OldAndNew::Wide(lists) => put_wide(alloc, grid, lists),
    }
}

// The same of numbers of 32 bits.
fn put_narrow<G: Grid>(alloc: Global, grid: &mut G, lists: Lists<i32>) -> Result<Entry, Memory>
    requires lists { AreNewFor narrow (G.map grid.old) lists.before.items lists.after.items }
    requires count { G.changes grid.old < 2 ^ 62 }
    ensures memory { OnErr result (grid.new ≡ grid.old) }
    ensures map { let m = G.map grid.old in
        OnOk result (G.map grid.new ≡ with_cells m (cells_after m (values_of narrow lists.after.items))) }
    ensures before { IfOk result (λ entry. before_entry entry (G.map grid.new) ≡ G.map grid.old) }
    ensures entry { IfOk result (IsEntry (G.map grid.old)) }
    ensures origin { G.comes_from grid.old grid.new }
    ensures count { RisesUpTo (cell_count (G.map grid.old).size) (G.changes grid.old) (G.changes grid.new) }
{
    let Lists { before, after } = lists;
    match way_for(&before, &after) {
        Way::Leave => {
            let nothing = NewNotes::with_room(alloc, 0)?;
            Ok(Entry::Changes(nothing.into_notes()))
        }
        Way::Exchange => {
            set_profiles(grid, &after);
            Ok(Entry::Heights(Numbers::Narrow(before)))
        }
        Way::Note => {
            drop(before);
            let changes = put_and_note(alloc, grid, &after)?;
            Ok(Entry::Changes(changes))
        }
    }
}

// The same of numbers of 64 bits. A note of a height that four bytes hold takes less than one of these.
fn put_wide<G: Grid>(alloc: Global, grid: &mut G, lists: Lists<i64>) -> Result<Entry, Memory>
    requires lists { AreNewFor wide (G.map grid.old) lists.before.items lists.after.items }
    requires count { G.changes grid.old < 2 ^ 62 }
    ensures memory { OnErr result (grid.new ≡ grid.old) }
    ensures map { let m = G.map grid.old in
        OnOk result (G.map grid.new ≡ with_cells m (cells_after m (values_of wide lists.after.items))) }
    ensures before { IfOk result (λ entry. before_entry entry (G.map grid.new) ≡ G.map grid.old) }
    ensures entry { IfOk result (IsEntry (G.map grid.old)) }
    ensures origin { G.comes_from grid.old grid.new }
    ensures count { RisesUpTo (cell_count (G.map grid.old).size) (G.changes grid.old) (G.changes grid.new) }
{
    let Lists { before, after } = lists;
    match way_for(&before, &after) {
        Way::Leave => {
            let nothing = NewNotes::with_room(alloc, 0)?;
            Ok(Entry::Changes(nothing.into_notes()))
        }
        Way::Exchange if !is_narrow(grid.data_type()) => {
            set_profiles(grid, &after);
            Ok(Entry::Heights(Numbers::Wide(before)))
        }
        _ => {
            drop(before);
            let changes = put_and_note(alloc, grid, &after)?;
            Ok(Entry::Changes(changes))
        }
    }
}

// Puts the heights for which numbers stand in, and notes what the cells were that became others, in their order.
fn put_and_note<L: Lane, G: Grid>(
    alloc: Global,
    grid: &mut G,
    numbers: &[L],
) -> Result<Notes, Memory>
    requires whole { length numbers.now ≡ cell_count (G.map grid.old).size }
    requires of_type { let m = G.map grid.old in AreCellsOf m.data_type
        (cells_after m (values_of L.code numbers.now)) }
    requires count { G.changes grid.old < 2 ^ 62 }
    ensures memory { OnErr result (grid.new ≡ grid.old) }
    ensures map { let m = G.map grid.old in
        OnOk result (G.map grid.new ≡ with_cells m (cells_after m (values_of L.code numbers.now))) }
    ensures before { IfOk result (λ notes. before_changes notes (G.map grid.new) ≡ G.map grid.old) }
    ensures notes { IfOk result (AreChanges (G.map grid.old)) }
    ensures origin { G.comes_from grid.old grid.new }
    ensures count { RisesUpTo (cell_count (G.map grid.old).size) (G.changes grid.old) (G.changes grid.new) }
{
    let size = grid.size();
    // Room that is not written takes no memory, so the changes need not be counted first.
    let mut notes = NewNotes::with_room(alloc, size.profiles * size.points)?;
    let mut row = vec![in alloc; L::missing(); size.points as usize]?;
    put_profiles(grid, numbers, row.as_mut_slice(), &mut notes);
    Ok(notes.into_notes())
}

impl From<MorphError> for EditError {
    ghost use Rattle.std.specs.Prelude.{◌≡◌};
    ghost use Rattle.hd_edit.specs.Filtered.{refusal_of};

    ghost from_gives = { λ refusal error. error ≡ refusal_of refusal };

    fn from(refusal: MorphError) -> Self {
        match refusal {
            MorphError::Memory => EditError::Memory,
            MorphError::HeightRange(at) => EditError::HeightRange(at),
        }
    }
}
