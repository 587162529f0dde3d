// The edits of a rectangle, point by point.
ghost use Rattle.std.specs.Prelude.{◌≡◌, ◌<◌, ◌≤◌, ◌+◌, ◌-◌, ◌^◌, IfOk, OnOk, OnErr, MatchResult, MatchOption, Some, length, All};
ghost use Rattle.hd_map.specs.Map.{InGrid, cell_count, cell_at, mask_at, IsCellOf};
ghost use Rattle.hd_edit.specs.Edit.{height_refusal};
ghost use Rattle.hd_edit.specs.declared.edit.EditError.TheVariants.{HeightRange};
ghost use Rattle.hd_edit.specs.Board.{RisesUpTo};
ghost use Rattle.hd_edit.specs.Change.{IsChange, AreChanges, before_changes};
ghost use Rattle.hd_edit.specs.Stroke.{next_in, IsRectangle, IsStrokeOf, stroked, stroked_at, cell_after, changes, one_if_changed, changed_points};

use crate::change::{change_cell, change_mask};
use crate::notes::{NewNotes, Notes};
use crate::stroke::{Effect, Stroke, effect_of};
use hd_list::Memory;
use hd_map::{Grid, Heights, Pos};
use std::alloc::Global;

// The position after this one in the rectangle, profile by profile; past its end it is in the
// profile below.
fn step(from: Pos, to: Pos, at: Pos) -> Pos
    requires { at.y < 2 ^ 32 - 1 }
    ensures { result ≡ next_in from to at }
{
    if at.x < to.x {
        Pos {
            x: at.x + 1,
            y: at.y,
        }
    } else {
        Pos {
            x: from.x,
            y: at.y + 1,
        }
    }
}

// Whether a stroke changes a point, and none where the new height is not of the data type.
fn changes_point<G: Grid>(grid: &G, at: Pos, stroke: Stroke) -> Option<bool>
    requires { InGrid (G.map grid.now).size at }
    ensures { let m = G.map grid.now in let new = cell_after stroke (cell_at m at) (mask_at m at) in
        MatchOption result
        (IsCellOf m.data_type new → ⊥)
        (λ b. (b ≡ changes stroke (cell_at m at) (mask_at m at)) × IsCellOf m.data_type new) }
{
    match effect_of(stroke, grid.data_type(), grid.cell(at), grid.masked(at)) {
        Some(Effect::Nothing) => Some(false),
        Some(Effect::Cell(_)) => Some(true),
        Some(Effect::Mask(_)) => Some(true),
        None => None,
    }
}

/// How many points of the rectangle the stroke changes, or the first whose new height is not of the
/// data type.
pub fn count_changes<G: Grid>(grid: &G, from: Pos, to: Pos, stroke: Stroke) -> Result<u32, Pos>
    requires { IsRectangle (G.map grid.now).size from to }
    ensures { let m = G.map grid.now in MatchResult result
        (λ count. (count ≡ changed_points m from to stroke) × IsStrokeOf m from to stroke)
        (λ at. height_refusal m (stroked m from to stroke).cells ≡ Some (HeightRange at)) }
{
    let mut count: u32 = 0;
    let mut at = from;
    while at.y <= to.y {
        let Some(changes) = changes_point(grid, at, stroke) else {
            return Err(at);
        };
        if changes {
            count += 1;
        }
        at = step(from, to, at);
    }
    Ok(count)
}

// Strokes a point, and notes what it was where that changes it.
fn stroke_point<G: Grid>(grid: &mut G, at: Pos, stroke: Stroke, notes: &mut NewNotes)
    requires in_grid { InGrid (G.map grid.old).size at }
    requires in_range { let m = G.map grid.old in
        IsCellOf m.data_type (cell_after stroke (cell_at m at) (mask_at m at)) }
    requires count { G.changes grid.old < 2 ^ 63 }
    requires room { length notes.old.changes + one_if_changed stroke (G.map grid.old) at ≤ notes.old.room }
    requires notes { All (IsChange (G.map grid.old)) notes.old.changes }
    ensures map { G.map grid.new ≡ stroked_at stroke at (G.map grid.old) }
    ensures before { let back = before_changes notes.old.changes (G.map grid.old) in
        before_changes notes.new.changes (G.map grid.new) ≡ back }
    ensures notes { All (IsChange (G.map grid.old)) notes.new.changes }
    ensures len { length notes.new.changes ≡ length notes.old.changes
        + one_if_changed stroke (G.map grid.old) at }
    ensures room { notes.new.room ≡ notes.old.room }
    ensures origin { G.comes_from grid.old grid.new }
    ensures rises { G.changes grid.old ≤ G.changes grid.new }
    ensures count { G.changes grid.new + length notes.old.changes ≤ G.changes grid.old
        + length notes.new.changes }
{
    match effect_of(stroke, grid.data_type(), grid.cell(at), grid.masked(at)) {
        Some(Effect::Cell(new)) => change_cell(grid, at, new, notes),
        Some(Effect::Mask(new)) => change_mask(grid, at, new, notes),
        _ => {}
    }
}

/// Strokes the rectangle, and tells what the points that it changes were, in their order. Refused
/// its memory it leaves the grid.
pub fn stroke_points<G: Grid>(
    alloc: Global,
    grid: &mut G,
    from: Pos,
    to: Pos,
    stroke: Stroke,
    count: u32,
) -> Result<Notes, Memory>
    requires rectangle { IsRectangle (G.map grid.old).size from to }
    requires in_range { IsStrokeOf (G.map grid.old) from to stroke }
    requires room { count ≡ changed_points (G.map grid.old) from to stroke }
    requires changes { G.changes grid.old < 2 ^ 62 }
    ensures memory { OnErr result (grid.new ≡ grid.old) }
    ensures map { OnOk result (G.map grid.new ≡ stroked (G.map grid.old) from to stroke) }
    ensures before { IfOk result (λ notes. before_changes notes (G.map grid.new) ≡ G.map grid.old) }
    ensures notes { IfOk result (AreChanges (G.map grid.old)) }
    ensures origin { G.comes_from grid.old grid.new }
    ensures count { RisesUpTo (cell_count (G.map grid.old).size) (G.changes grid.old) (G.changes grid.new) }
{
    let mut notes = NewNotes::with_room(alloc, count)?;
    let mut at = from;
    while at.y <= to.y {
        stroke_point(grid, at, stroke, &mut notes);
        at = step(from, to, at);
    }
    Ok(notes.into_notes())
}
