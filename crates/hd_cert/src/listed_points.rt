// The positions that are reached, in position order.
ghost use Rattle.std.specs.Prelude.{◌≡◌, IfOk, OnOk, length};
ghost use Rattle.hd_map.specs.Map.{IsSize, InGrid, cell_count, place_of};
ghost use Rattle.hd_cert.specs.Listed.{AreListed, Lists};
ghost use Rattle.hd_cert.specs.Residues.{IsReached};

use crate::residue::Residue;
use hd_list::{List, Memory};
use hd_map::{Pos, Size, index_of, position_after};
use std::alloc::Global;

/// The positions that are reached, in position order.
pub fn listed(alloc: Global, size: Size, residues: &[Residue]) -> Result<List<Pos>, Memory>
    requires limits { IsSize size }
    requires whole { length residues.now ≡ cell_count size }
    ensures { IfOk result (AreListed size (IsReached size residues.now) (cell_count size)) }
{
    let mut found = Vec::with_capacity(alloc, residues.len())?;
    let mut at = Pos { x: 0, y: 0 };
    for index in 0..size.profiles * size.points {
        list_one(size, residues, at, &mut found)?;
        at = position_after(size, at);
    }
    Ok(List::from_vec(found))
}

// Lists a position, if it is reached.
fn list_one(size: Size, residues: &[Residue], at: Pos, found: &mut Vec<Pos>) -> Result<(), Memory>
    requires limits { IsSize size }
    requires whole { length residues.now ≡ cell_count size }
    requires at { InGrid size at }
    ensures { OnOk result (Lists size (IsReached size residues.now)
        (place_of size at) found.old.items found.new.items) }
{
    if residues[index_of(size, at) as usize] == Residue::Unreached {
        return Ok(());
    }
    found.push(at)?;
    Ok(())
}
