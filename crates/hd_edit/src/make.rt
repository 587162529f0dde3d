// An edit of a grid, and what undoes it.
ghost use Rattle.std.specs.Prelude.{◌≡◌, ◌<◌, ◌≤◌, ◌+◌, ◌^◌, MatchResult, IfOk, OnErr, Ok, Some, None};
ghost use Rattle.hd_map.specs.Map.{cell_count};
ghost use Rattle.hd_edit.specs.Edit.{rectangle_refusal};
ghost use Rattle.hd_edit.specs.Board.{IsEdited, IsRefusalBy, RisesUpTo};
ghost use Rattle.hd_edit.specs.Entry.{IsEntry, before_entry};
ghost use Rattle.hd_edit.specs.Stroke.{IsRectangle, IsStroked, stroke_parts};

use crate::add::raised;
use crate::elements::Elements;
use crate::entry::Entry;
use crate::filter::{filtered, put_heights};
use crate::paint::{count_changes, stroke_points};
use crate::stroke::Stroke;
use crate::{Edit, EditError};
use hd_list::Memory;
use hd_map::{Cell, Grid, Heights, Pos, Size, contains};
use std::alloc::Global;

// The corners of an edit's rectangle, and what it makes of each point of it. A filter has none.
fn parts_of(edit: &Edit) -> Option<(Pos, Pos, Stroke)>
    ensures { result ≡ stroke_parts edit.now }
{
    match edit {
        Edit::Set { at, z } => Some((*at, *at, Stroke::Put(Cell::Height(*z)))),
        Edit::Bad { at } => Some((*at, *at, Stroke::Put(Cell::Bad))),
        Edit::Add { from, to, delta } => Some((*from, *to, Stroke::Raise(*delta))),
        Edit::Mask { from, to } => Some((*from, *to, Stroke::Mask(true))),
        Edit::Unmask { from, to } => Some((*from, *to, Stroke::Mask(false))),
        Edit::Dilate { .. } => None,
        Edit::Erode { .. } => None,
        Edit::Open { .. } => None,
        Edit::Close { .. } => None,
    }
}

// Whether two corners are those of a rectangle in a grid of this size.
fn check_rectangle(size: Size, from: Pos, to: Pos) -> Result<(), EditError>
    ensures { let refusal = rectangle_refusal size from to in
        MatchResult result (λ _. IsRectangle size from to × (refusal ≡ None)) (λ error. refusal ≡ Some error) }
{
    if !contains(size, from) {
        return Err(EditError::Outside(from));
    }
    if !contains(size, to) {
        return Err(EditError::Outside(to));
    }
    if to.x < from.x || to.y < from.y {
        return Err(EditError::EmptyRect);
    }
    Ok(())
}

// Strokes a rectangle, and tells what undoes that.
fn stroke_grid<G: Grid>(
    alloc: Global,
    grid: &mut G,
    from: Pos,
    to: Pos,
    stroke: Stroke,
) -> Result<Entry, EditError>
    requires { G.changes grid.old < 2 ^ 62 }
    ensures edit { let IsOutcome = IsStroked (G.map grid.old) from to stroke in
        MatchResult result (λ _. IsOutcome (Ok (G.map grid.new))) (IsRefusalBy IsOutcome) }
    ensures refused { OnErr result (grid.new ≡ grid.old) }
    ensures before { IfOk result (λ entry. before_entry entry (G.map grid.new) ≡ G.map grid.old) }
    ensures entry { IfOk result (IsEntry (G.map grid.new)) }
    ensures size { (G.map grid.new).size ≡ (G.map grid.old).size }
    ensures data_type { (G.map grid.new).data_type ≡ (G.map grid.old).data_type }
    ensures origin { G.comes_from grid.old grid.new }
    ensures count { RisesUpTo (cell_count (G.map grid.old).size) (G.changes grid.old) (G.changes grid.new) }
{
    check_rectangle(grid.size(), from, to)?;
    if let Some(lists) = raised(alloc, grid, from, to, stroke)? {
        let entry = put_heights(alloc, grid, lists)?;
        return Ok(entry);
    }
    let count = match count_changes(grid, from, to, stroke) {
        Ok(count) => count,
        Err(at) => return Err(EditError::HeightRange(at)),
    };
    let changes = stroke_points(alloc, grid, from, to, stroke, count)?;
    Ok(Entry::Changes(changes))
}

// Filters a grid, and tells what undoes that.
fn filter_grid<G: Grid>(
    alloc: Global,
    grid: &mut G,
    elements: &Elements,
    edit: &Edit,
) -> Result<Entry, EditError>
    requires filter { stroke_parts edit.now ≡ None }
    requires count { G.changes grid.old < 2 ^ 62 }
    ensures edit { let IsOutcome = IsEdited elements.now (G.map grid.old) edit.now in
        MatchResult result (λ _. IsOutcome (Ok (G.map grid.new))) (IsRefusalBy IsOutcome) }
    ensures refused { OnErr result (grid.new ≡ grid.old) }
    ensures before { IfOk result (λ entry. before_entry entry (G.map grid.new) ≡ G.map grid.old) }
    ensures entry { IfOk result (IsEntry (G.map grid.new)) }
    ensures size { (G.map grid.new).size ≡ (G.map grid.old).size }
    ensures data_type { (G.map grid.new).data_type ≡ (G.map grid.old).data_type }
    ensures origin { G.comes_from grid.old grid.new }
    ensures count { RisesUpTo (cell_count (G.map grid.old).size) (G.changes grid.old) (G.changes grid.new) }
{
    let lists = filtered(alloc, grid, elements, edit)?;
    let entry = put_heights(alloc, grid, lists)?;
    Ok(entry)
}

/// Makes an edit, and tells what undoes it. Its memory is taken before anything is changed.
pub fn make<G: Grid>(
    alloc: Global,
    grid: &mut G,
    elements: &Elements,
    edit: &Edit,
) -> Result<Entry, EditError>
    requires { G.changes grid.old < 2 ^ 62 }
    ensures edit { let IsOutcome = IsEdited elements.now (G.map grid.old) edit.now in
        MatchResult result (λ _. IsOutcome (Ok (G.map grid.new))) (IsRefusalBy IsOutcome) }
    ensures refused { OnErr result (grid.new ≡ grid.old) }
    ensures before { IfOk result (λ entry. before_entry entry (G.map grid.new) ≡ G.map grid.old) }
    ensures entry { IfOk result (IsEntry (G.map grid.new)) }
    ensures size { (G.map grid.new).size ≡ (G.map grid.old).size }
    ensures data_type { (G.map grid.new).data_type ≡ (G.map grid.old).data_type }
    ensures origin { G.comes_from grid.old grid.new }
    ensures count { RisesUpTo (cell_count (G.map grid.old).size) (G.changes grid.old) (G.changes grid.new) }
{
    match parts_of(edit) {
        Some((from, to, stroke)) => stroke_grid(alloc, grid, from, to, stroke),
        None => filter_grid(alloc, grid, elements, edit),
    }
}

impl From<Memory> for EditError {
    ghost use Rattle.hd_edit.specs.declared.edit.EditError.TheVariants as error;

    ghost from_gives = { λ memory refusal. refusal ≡ error.Memory };

    fn from(_: Memory) -> Self {
        EditError::Memory
    }
}
