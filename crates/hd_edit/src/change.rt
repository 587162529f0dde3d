// What a cell or a mask was before it was changed.
ghost use Rattle.std.specs.Prelude.{◌≡◌, ◌<◌, ◌≤◌, ◌+◌, ◌^◌, length, All};
ghost use Rattle.hd_map.specs.declared.types.Cell.TheVariants.{Height};
ghost use Rattle.hd_map.specs.Map.{InGrid, IsCellOf};
ghost use Rattle.hd_map.specs.Sets.{with_cell, with_mask};
ghost use Rattle.hd_edit.specs.Board.{RisesUpTo};
ghost use Rattle.hd_edit.specs.Change.{height_over, IsCellThatWas, IsChange, AreChanges, with_was, before_changes};

use crate::height_bytes::OverLeast;
use crate::notes::{NewNotes, Notes};
use hd_map::{Cell, DataType, Grid, Heights, Pos, index_of, least_of, position_of};

/// What stood at a point before it was changed.
#[derive(Clone, Copy)]
pub enum Was {
    /// The cell was the height that is this much over the least one of the data type.
    Height(OverLeast),
    /// The cell was not measured.
    Bad,
    /// The mask was this one.
    Mask(bool),
}

/// A change of one cell or mask, by what it was. It takes 12 bytes.
#[derive(Clone, Copy)]
pub struct Change {
    /// The index of the point.
    pub index: u32,
    /// What stood there.
    pub was: Was,
}

const _: () = prove!(size_of::<Change>() <= 12);

/// What a cell of the data type was.
#[inline]
pub fn was_of(data_type: DataType, cell: Cell) -> Was
    requires { IsCellOf data_type cell }
    ensures { IsCellThatWas data_type result cell }
{
    match cell {
        Cell::Height(height) => {
            let over = (height - least_of(data_type)) as u64;
            Was::Height(OverLeast::new(over))
        }
        Cell::Bad => Was::Bad,
    }
}

// The cell of the height that is this much over the least one.
#[tactic(auto, using(hd_map::proofs::DataTypes::type_limits))]
fn cell_over(data_type: DataType, over: OverLeast) -> Cell
    ensures { result ≡ Height (height_over data_type over) }
{
    Cell::Height(least_of(data_type) + over.number() as i64)
}

// Sets a cell that the grid can have.
#[inline(always)]
pub fn put_cell<G: Grid>(grid: &mut G, at: Pos, cell: Cell)
    requires in_grid { InGrid (G.map grid.old).size at }
    requires in_range { IsCellOf (G.map grid.old).data_type cell }
    requires count { G.changes grid.old < 2 ^ 63 }
    ensures map { G.map grid.new ≡ with_cell (G.map grid.old) at cell }
    ensures origin { G.comes_from grid.old grid.new }
    ensures count { RisesUpTo 1 (G.changes grid.old) (G.changes grid.new) }
{
    let _ = grid.set_cell(at, cell);
}

/// Sets a cell to another one, and notes what it was. Inlined, it reads no cell that its caller has
/// read.
#[inline(always)]
pub fn change_cell<G: Grid>(grid: &mut G, at: Pos, new: Cell, notes: &mut NewNotes)
    requires in_grid { InGrid (G.map grid.old).size at }
    requires in_range { IsCellOf (G.map grid.old).data_type new }
    requires count { G.changes grid.old < 2 ^ 63 }
    requires room { length notes.old.changes < notes.old.room }
    requires notes { All (IsChange (G.map grid.old)) notes.old.changes }
    ensures map { G.map grid.new ≡ with_cell (G.map grid.old) at new }
    ensures before { let back = before_changes notes.old.changes (G.map grid.old) in
        before_changes notes.new.changes (G.map grid.new) ≡ back }
    ensures notes { All (IsChange (G.map grid.old)) notes.new.changes }
    ensures len { length notes.new.changes ≡ length notes.old.changes + 1 }
    ensures room { notes.new.room ≡ notes.old.room }
    ensures origin { G.comes_from grid.old grid.new }
    ensures count { RisesUpTo 1 (G.changes grid.old) (G.changes grid.new) }
{
    let cell = grid.cell(at);
    let index = index_of(grid.size(), at);
    let was = was_of(grid.data_type(), cell);
    notes.push(Change { index, was });
    put_cell(grid, at, new);
}

// Sets a mask.
fn put_mask<G: Grid>(grid: &mut G, at: Pos, masked: bool)
    requires in_grid { InGrid (G.map grid.old).size at }
    requires count { G.changes grid.old < 2 ^ 63 }
    ensures map { G.map grid.new ≡ with_mask (G.map grid.old) at masked }
    ensures origin { G.comes_from grid.old grid.new }
    ensures count { RisesUpTo 1 (G.changes grid.old) (G.changes grid.new) }
{
    let _ = grid.set_mask(at, masked);
}

/// Sets a mask to another one, and notes what it was. Inlined, it reads no mask that its caller has
/// read.
#[inline(always)]
pub fn change_mask<G: Grid>(grid: &mut G, at: Pos, new: bool, notes: &mut NewNotes)
    requires in_grid { InGrid (G.map grid.old).size at }
    requires count { G.changes grid.old < 2 ^ 63 }
    requires room { length notes.old.changes < notes.old.room }
    requires notes { All (IsChange (G.map grid.old)) notes.old.changes }
    ensures map { G.map grid.new ≡ with_mask (G.map grid.old) at new }
    ensures before { let back = before_changes notes.old.changes (G.map grid.old) in
        before_changes notes.new.changes (G.map grid.new) ≡ back }
    ensures notes { All (IsChange (G.map grid.old)) notes.new.changes }
    ensures len { length notes.new.changes ≡ length notes.old.changes + 1 }
    ensures room { notes.new.room ≡ notes.old.room }
    ensures origin { G.comes_from grid.old grid.new }
    ensures count { RisesUpTo 1 (G.changes grid.old) (G.changes grid.new) }
{
    let masked = grid.masked(at);
    let index = index_of(grid.size(), at);
    let was = Was::Mask(masked);
    notes.push(Change { index, was });
    put_mask(grid, at, new);
}

// Puts back what stood at a point.
fn put_was<G: Grid>(grid: &mut G, change: Change)
    requires change { IsChange (G.map grid.old) change }
    requires count { G.changes grid.old < 2 ^ 63 }
    ensures map { G.map grid.new ≡ with_was change.was change.index (G.map grid.old) }
    ensures origin { G.comes_from grid.old grid.new }
    ensures count { RisesUpTo 1 (G.changes grid.old) (G.changes grid.new) }
{
    let at = position_of(grid.size(), change.index);
    match change.was {
        Was::Height(over) => {
            let cell = cell_over(grid.data_type(), over);
            put_cell(grid, at, cell);
        }
        Was::Bad => put_cell(grid, at, Cell::Bad),
        Was::Mask(masked) => put_mask(grid, at, masked),
    }
}

/// Undoes the changes of an edit, the last first.
pub fn put_changes_back<G: Grid>(grid: &mut G, changes: Notes)
    requires changes { AreChanges (G.map grid.old) changes }
    requires count { G.changes grid.old + length changes < 2 ^ 63 }
    ensures map { G.map grid.new ≡ before_changes changes (G.map grid.old) }
    ensures origin { G.comes_from grid.old grid.new }
    ensures count { RisesUpTo (length changes) (G.changes grid.old) (G.changes grid.new) }
{
    let mut left = changes;
    while let Some(change) = left.pop() {
        put_was(grid, change);
    }
}
