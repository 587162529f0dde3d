// The profiles of a grid put in one after another, with notes of what their cells were.
ghost use Rattle.std.specs.Prelude.{◌≡◌, ◌<◌, ◌≤◌, ◌+◌, ◌-◌, ◌^◌, [], ℤ, Some, length, take, All};
ghost use Rattle.std.specs.Bool.{OnTrue, OnFalse};
ghost use Rattle.hd_map.specs.declared.types.Cell.{Cell as MapCell};
ghost use Rattle.hd_map.specs.declared.types.Cell.TheVariants.{Height};
ghost use Rattle.hd_map.specs.Encoding.{values_of};
ghost use Rattle.hd_map.specs.Map.{AreCellsOf, InGrid, IsCellOf, cell_at, cell_count, place_of};
ghost use Rattle.hd_map.specs.Sets.{cell_with, with_heights};
ghost use Rattle.hd_morph.specs.Answer.{with_cells};
ghost use Rattle.hd_morph.specs.NewHeights.{cells_after};
ghost use Rattle.hd_edit.specs.Board.{RisesUpTo};
ghost use Rattle.hd_edit.specs.Change.{IsChange, AreChanges, before_changes};
ghost use Rattle.hd_edit.specs.Profile.{AreNotedChanges, IsNotedCell, IsToldCell};

use crate::change::{Change, was_of};
use crate::notes::NewNotes;
use hd_map::{Cell, DataType, Grid, Heights, Lane, Pos, least_of};

/// Sets the heights for which numbers stand, profile by profile. Where one stands for none, the cell stays. The masks
/// stay.
pub fn set_profiles<L: Lane, G: Grid>(grid: &mut G, numbers: &[L])
    requires whole { length numbers.now ≡ cell_count (G.map grid.old).size }
    requires of_type { let m = G.map grid.old in
        AreCellsOf m.data_type (cells_after m (values_of L.code numbers.now)) }
    requires count { G.changes grid.old < 2 ^ 63 - 2 ^ 22 }
    ensures map { let m = G.map grid.old in
        G.map grid.new ≡ with_cells m (cells_after m (values_of L.code numbers.now)) }
    ensures origin { G.comes_from grid.old grid.new }
    ensures count { RisesUpTo (cell_count (G.map grid.old).size) (G.changes grid.old) (G.changes grid.new) }
{
    let size = grid.size();
    let points = size.points as usize;
    for y in 0..size.profiles {
        let first = y as usize * points;
        grid.set_heights(y, &numbers[first..first + points]);
    }
}

/// Puts the heights for which numbers stand in, profile by profile, and notes what the cells were that
/// become others. The row is room for the old heights of a profile.
pub fn put_profiles<L: Lane, G: Grid>(
    grid: &mut G,
    numbers: &[L],
    row: &mut [L],
    notes: &mut NewNotes,
)
    requires whole { length numbers.now ≡ cell_count (G.map grid.old).size }
    requires row { length row.old ≡ (G.map grid.old).size.points }
    requires of_type { let m = G.map grid.old in
        AreCellsOf m.data_type (cells_after m (values_of L.code numbers.now)) }
    requires count { G.changes grid.old < 2 ^ 62 }
    requires none { notes.old.changes ≡ [] }
    requires room { cell_count (G.map grid.old).size ≤ notes.old.room }
    ensures map { let m = G.map grid.old in
        G.map grid.new ≡ with_cells m (cells_after m (values_of L.code numbers.now)) }
    ensures before { before_changes notes.new.changes (G.map grid.new) ≡ G.map grid.old }
    ensures notes { AreChanges (G.map grid.old) notes.new.changes }
    ensures origin { G.comes_from grid.old grid.new }
    ensures count { RisesUpTo (cell_count (G.map grid.old).size) (G.changes grid.old) (G.changes grid.new) }
{
    let size = grid.size();
    let points = size.points as usize;
    for y in 0..size.profiles {
        let first = y as usize * points;
        let new = &numbers[first..first + points];
        note_profile(grid, y, new, row, notes);
        grid.set_heights(y, new);
    }
}

// Notes the cells of a profile that its new heights make others.
fn note_profile<L: Lane, G: Grid>(grid: &G, y: u32, new: &[L], row: &mut [L], notes: &mut NewNotes)
    requires profile { y < (G.map grid.now).size.profiles }
    requires columns { length new.now ≡ (G.map grid.now).size.points }
    requires row { length row.old ≡ (G.map grid.now).size.points }
    requires room { length notes.old.changes + length new.now ≤ notes.old.room }
    requires notes { All (IsChange (G.map grid.now)) notes.old.changes }
    ensures notes { let m = G.map grid.now in let becomes = with_heights m y (values_of L.code new.now) in
        AreNotedChanges m becomes (length new.now) notes.old.changes notes.new.changes }
    ensures room { notes.new.room ≡ notes.old.room }
{
    notes.start_at(y * grid.size().points);
    let told = note_told(grid, y, new, row, notes);
    note_asked(grid, y, new, told, notes);
}

// The same up to a column, which is told: as far as the old heights, in the row, tell what the cells are. The grid
// is not asked here, so that the loop keeps to the two rows.
fn note_told<L: Lane, G: Grid>(
    grid: &G,
    y: u32,
    new: &[L],
    row: &mut [L],
    notes: &mut NewNotes,
) -> usize
    requires profile { y < (G.map grid.now).size.profiles }
    requires columns { length new.now ≡ (G.map grid.now).size.points }
    requires row { length row.old ≡ (G.map grid.now).size.points }
    requires room { length notes.old.changes + length new.now ≤ notes.old.room }
    requires notes { All (IsChange (G.map grid.now)) notes.old.changes }
    ensures column { result ≤ length new.now }
    ensures notes { let m = G.map grid.now in let becomes = with_heights m y
        (take result (values_of L.code new.now)) in
        AreNotedChanges m becomes result notes.old.changes notes.new.changes }
    ensures room { notes.new.room ≡ notes.old.room }
{
    if !grid.fill_heights(y, row) {
        return 0;
    }
    let data_type = grid.data_type();
    let first = y * grid.size().points;
    for x in 0..new.len() {
        if !note_number(data_type, first + x as u32, row[x], new[x], notes) {
            return x;
        }
    }
    new.len()
}

// Notes the height at an index for which a number stands, if another number stands for another one. It tells whether
// the cell need not be asked for.
#[inline]
fn note_number<L: Lane>(
    data_type: DataType,
    index: u32,
    old: L,
    new: L,
    notes: &mut NewNotes,
) -> bool
    requires of_type { (z : ℤ) → L.code.shown old ≡ Some z → IsCellOf data_type (Height z) }
    requires room { length notes.old.changes < notes.old.room }
    ensures told { OnTrue result ((cell : MapCell) → IsToldCell (L.code.shown old) cell
        → IsNotedCell data_type index cell (cell_with (L.code.shown new) cell) notes.old.changes notes.new.changes) }
    ensures asked { OnFalse result (notes.new ≡ notes.old) }
    ensures room { notes.new.room ≡ notes.old.room }
{
    let Some(height) = new.height() else {
        return true;
    };
    let Some(was) = old.height() else {
        return false;
    };
    if was != height {
        notes.push_height(index, (was - least_of(data_type)) as u64);
    }
    true
}

// The same from a column on, where the grid tells what each cell is.
fn note_asked<L: Lane, G: Grid>(grid: &G, y: u32, new: &[L], from: usize, notes: &mut NewNotes)
    requires profile { y < (G.map grid.now).size.profiles }
    requires columns { length new.now ≡ (G.map grid.now).size.points }
    requires from { from ≤ length new.now }
    requires room { length notes.old.changes + length new.now ≤ notes.old.room + from }
    requires notes { All (IsChange (G.map grid.now)) notes.old.changes }
    ensures notes { let m = G.map grid.now in let heights = values_of L.code new.now in
        let most = length new.now - from in
        AreNotedChanges (with_heights m y (take from heights)) (with_heights m y heights) most notes.old.changes notes.new.changes }
    ensures room { notes.new.room ≡ notes.old.room }
{
    let first = y * grid.size().points;
    for x in from..new.len() {
        note_cell(
            grid,
            Pos { x: x as u32, y },
            first + x as u32,
            new[x],
            notes,
        );
    }
}

// Notes what the cell of a point is, if a number stands for another one.
fn note_cell<L: Lane, G: Grid>(grid: &G, at: Pos, index: u32, new: L, notes: &mut NewNotes)
    requires in_grid { InGrid (G.map grid.now).size at }
    requires room { length notes.old.changes < notes.old.room }
    ensures notes { let m = G.map grid.now in let cell = cell_at m at in
        IsNotedCell m.data_type index cell (cell_with (L.code.shown new) cell) notes.old.changes notes.new.changes }
    ensures room { notes.new.room ≡ notes.old.room }
{
    let Some(height) = new.height() else {
        return;
    };
    let cell = grid.cell(at);
    if cell != Cell::Height(height) {
        let was = was_of(grid.data_type(), cell);
        notes.push(Change { index, was });
    }
}
