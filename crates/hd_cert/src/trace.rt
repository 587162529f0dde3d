// The path that always takes the first point that is nearer.
ghost use Rattle.std.specs.Prelude.{◌≡◌, IfOk, ℕ, List as Items, Option, length};
ghost use Rattle.hd_map.specs.declared.types.Pos.{Pos};
ghost use Rattle.hd_map.specs.Map.{Present, cell_count};
ghost use Rattle.hd_cert.specs.FirstNearer.{GoesNearer, IsBesideWith, IsFirst, LeadsDown};

use crate::residue::Residue;
use hd_list::{List, Memory};
use hd_map::{Heights, Pos, index_of, neighbours};
use std::alloc::Global;

/// From a point the path to another, to which steps with these residues lead down, that takes the first nearer
/// point each time.
pub fn path_down<G: Heights>(
    alloc: Global,
    grid: &G,
    residues: &[Residue],
    from: Pos,
    to: Pos,
) -> Result<List<Pos>, Memory>
    requires whole { length residues.now ≡ cell_count (G.map grid.now).size }
    requires from { Present (G.map grid.now) from }
    ensures { IfOk result (λ path. (steps : Items (Option ℕ)) (count : ℕ)
        → LeadsDown (G.map grid.now) residues.now from to steps count
        → GoesNearer (G.map grid.now) steps from count path count) }
{
    let size = grid.size();
    let mut path = vec![in alloc; from]?;
    let mut here = from;
    for gone in 0..size.profiles * size.points {
        if here == to {
            return Ok(List::from_vec(path));
        }
        let residue = residues[index_of(size, here) as usize].residue_before();
        here = first_beside(alloc, grid, residues, here, residue);
        path.push(here)?;
    }
    Ok(List::from_vec(path))
}

// The first neighbour with this residue, and the point itself where there is none.
fn first_beside<G: Heights>(
    alloc: Global,
    grid: &G,
    residues: &[Residue],
    at: Pos,
    residue: Residue,
) -> Pos
    requires whole { length residues.now ≡ cell_count (G.map grid.now).size }
    requires at { Present (G.map grid.now) at }
    ensures present { Present (G.map grid.now) result }
    ensures first { (q : Pos) → IsBesideWith (G.map grid.now) residues.now residue at q
        → IsFirst (G.map grid.now) (IsBesideWith (G.map grid.now) residues.now residue at) result }
{
    let near = neighbours(alloc, grid, at);
    let size = grid.size();
    let round = near.as_slice();
    for k in 0..round.len() {
        if residues[index_of(size, round[k]) as usize] == residue {
            return round[k];
        }
    }
    at
}
