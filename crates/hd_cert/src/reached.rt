// In how many steps points are reached, modulo 3.
ghost use Rattle.std.specs.Prelude.{IfOk};
ghost use Rattle.hd_reach.specs.Within.{LiesWithin};
ghost use Rattle.hd_cert.specs.Residues.{AreResidues};

use crate::residue::Residue;
use hd_list::Memory;
use hd_map::{Heights, Pos, Side};
use hd_reach::{Bound, flood};
use std::alloc::Global;
use std::collections::VecDeque;

/// By index the residues of the fewest steps in which points within a bound are reached from the start by way
/// of such points. It ends at the goal, if there is one: points that are further may be left unreached. It
/// takes a byte a point and four for each point that waits, and time in proportion to the points.
pub fn residues_from<S: Side, G: Heights>(
    alloc: Global,
    grid: &G,
    bound: Bound,
    start: Pos,
    goal: Option<Pos>,
) -> Result<Vec<Residue>, Memory>
    requires { LiesWithin (G.map grid.now) S.NAME bound.level bound.strict start }
    ensures { IfOk result (λ residues. AreResidues (G.map grid.now)
        (LiesWithin (G.map grid.now) S.NAME bound.level bound.strict) start goal residues.items) }
{
    let size = grid.size();
    let count = size.profiles * size.points;
    let mut residues = vec![in alloc; Residue::Unreached; count as usize]?;
    let mut queue = VecDeque::new(alloc);
    flood::<S, Residue, G>(
        grid,
        bound,
        start,
        goal,
        Residue::Zero,
        &mut residues,
        &mut queue,
    )?;
    Ok(residues)
}
