// A number added to the heights of a rectangle that takes much of a grid: all its heights at once.
ghost use Rattle.std.specs.Prelude.{◌≡◌, IfOk, IfSome, MatchResult, Ok};
ghost use Rattle.hd_edit.specs.Board.{IsRefusalBy};
ghost use Rattle.hd_edit.specs.Edit.{rectangle_refusal};
ghost use Rattle.hd_edit.specs.Filtered.{IsNewFor, map_after};
ghost use Rattle.hd_edit.specs.Stroke.{IsRectangle, IsStroked};

use crate::EditError;
use crate::stroke::Stroke;
use hd_map::{Grid, Heights, Pos, Size};
use hd_morph::{OldAndNew, raised_lists};
use std::alloc::Global;

/// The heights of a grid, and those that a stroke makes of them which raises the points of a rectangle of more than a
/// quarter of the grid; none for any other stroke, and where its numbers are too large.
pub fn raised<G: Grid>(
    alloc: Global,
    grid: &G,
    from: Pos,
    to: Pos,
    stroke: Stroke,
) -> Result<Option<OldAndNew>, EditError>
    requires rectangle { IsRectangle (G.map grid.now).size from to }
    requires accepted { rectangle_refusal (G.map grid.now).size from to ≡ None }
    ensures edit { let m = G.map grid.now in MatchResult result
        (λ found. IfSome found (λ lists. IsStroked m from to stroke (Ok (map_after m lists))))
        (IsRefusalBy (IsStroked m from to stroke)) }
    ensures heights { IfOk result (λ found. IfSome found (IsNewFor (G.map grid.now))) }
{
    let Stroke::Raise(delta) = stroke else {
        return Ok(None);
    };
    if !is_large(grid.size(), from, to) {
        return Ok(None);
    }
    match raised_lists(alloc, grid, from, to, delta)? {
        Some(lists) => Ok(Some(OldAndNew::Narrow(lists))),
        None => Ok(None),
    }
}

// Whether a rectangle takes more than a quarter of a grid.
fn is_large(size: Size, from: Pos, to: Pos) -> bool
    requires { IsRectangle size from to }
{
    let columns = to.x - from.x + 1;
    let profiles = to.y - from.y + 1;
    let quarter = u64::from(size.points) * u64::from(size.profiles) / 4;
    u64::from(columns) * u64::from(profiles) > quarter
}
