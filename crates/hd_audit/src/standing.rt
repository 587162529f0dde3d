// By index, how the points stand to the flood and to its level.
ghost use Rattle.std.specs.Prelude.{◌≡◌, ◌<◌, IfOk, None, false, length, replicate, slice_set};
ghost use Rattle.hd_map.specs.Map.{cell_count};
ghost use Rattle.hd_map.specs.declared.types.SideName.{SideName};
ghost use Rattle.hd_audit.specs.Standings.{AreStanding, passed, seen_of, standing_at};

use hd_list::Memory;
use hd_map::{Heights, Pos, is_present, position_after};
use std::alloc::Global;

/// How the point of an index stands.
#[derive(Clone, Copy, Debug)]
pub enum Standing {
    /// No point is present.
    Absent,
    /// It is neither listed nor waits, and is not below the level.
    Over,
    /// It is neither listed nor waits, and is below the level.
    Under,
    /// It is listed or waits.
    Seen,
}

const _: () = prove!(size_of::<Standing>() == 1);

/// How the points of a grid stand, in one byte each, before any is seen and without a level.
pub fn standings<G: Heights>(alloc: Global, grid: &G) -> Result<Vec<Standing>, Memory>
    ensures standing { IfOk result (λ standings. (side : SideName)
        → AreStanding (G.map grid.now) side None standings.items) }
    ensures blank { IfOk result (λ standings. seen_of standings.items
        ≡ replicate (cell_count (G.map grid.now).size) false) }
{
    let size = grid.size();
    let count = size.profiles * size.points;
    let mut standings = vec![in alloc; Standing::Absent; count as usize]?;
    let mut at = Pos { x: 0, y: 0 };
    for index in 0..count {
        if is_present(grid, at) {
            standings[index as usize] = Standing::Over;
        }
        at = position_after(size, at);
    }
    Ok(standings)
}

/// Lets the level go past the point of an index.
#[inline]
pub fn pass(standings: &mut Vec<Standing>, index: u32)
    requires { index < length standings.old.items }
    ensures { standings.new.items ≡ slice_set standings.old.items index
        (passed (standing_at standings.old.items index)) }
{
    let index = index as usize;
    standings[index] = match standings[index] {
        Standing::Over => Standing::Under,
        other => other,
    };
}
