// What an edit makes of one point.
ghost use Rattle.std.specs.Prelude.{MatchOption};
ghost use Rattle.hd_map.specs.Map.{IsCellOf};
ghost use Rattle.hd_edit.specs.Stroke.{HasEffect, SetsTo, cell_after};

use hd_map::{Cell, DataType, is_cell_of};

/// What an edit makes of each point of its rectangle.
#[derive(Clone, Copy)]
pub enum Stroke {
    /// The cell becomes this one.
    Put(Cell),
    /// The height of a present point becomes this much greater.
    Raise(i64),
    /// The mask becomes this one.
    Mask(bool),
}

/// What is to be done at a point.
#[derive(Clone, Copy)]
pub enum Effect {
    /// The point stays.
    Nothing,
    /// The cell becomes this other one.
    Cell(Cell),
    /// The mask becomes this other one.
    Mask(bool),
}

/// What a stroke does to a point, and none where the new height is not of the data type.
#[inline]
pub fn effect_of(stroke: Stroke, data_type: DataType, cell: Cell, masked: bool) -> Option<Effect>
    requires { IsCellOf data_type cell }
    ensures { let new = cell_after stroke cell masked in
        MatchOption result (IsCellOf data_type new → ⊥) (HasEffect data_type stroke cell masked) }
{
    match stroke {
        Stroke::Put(new) => cell_effect(data_type, cell, new),
        Stroke::Raise(delta) => match cell {
            Cell::Height(height) if !masked => match height.checked_add(delta) {
                Some(sum) => cell_effect(data_type, cell, Cell::Height(sum)),
                None => None,
            },
            _ => Some(Effect::Nothing),
        },
        Stroke::Mask(new) if new != masked => Some(Effect::Mask(new)),
        Stroke::Mask(_) => Some(Effect::Nothing),
    }
}

// What makes a cell another, and none where that one is not of the data type.
#[inline]
fn cell_effect(data_type: DataType, cell: Cell, new: Cell) -> Option<Effect>
    requires { IsCellOf data_type cell }
    ensures { MatchOption result (IsCellOf data_type new → ⊥) (SetsTo data_type cell new) }
{
    if !is_cell_of(data_type, new) {
        None
    } else if new == cell {
        Some(Effect::Nothing)
    } else {
        Some(Effect::Cell(new))
    }
}
