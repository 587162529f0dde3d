// The owners of lows that are pits.
ghost use Rattle.std.specs.Prelude.{◌≡◌, IfOk, Contains};
ghost use Rattle.hd_map.specs.declared.types.Rank.{Rank};
ghost use Rattle.hd_map.specs.Region.{IsPit};
ghost use Rattle.hd_prune.specs.Pruned.{owned_by};
ghost use Rattle.hd_prune.specs.Staying.{ranks_of};
ghost use Rattle.hd_prune.specs.Taken.{IsLinked};

use crate::around::Around;
use crate::step::Owned;
use crate::taking::owner_of;
use hd_graph::Low;
use hd_list::{List, Memory};
use hd_map::{Rank, Side};
use std::alloc::Global;
use std::collections::HashMap;

/// The pits with their owners by the links.
pub fn owners<S: Side, A: Around>(
    alloc: Global,
    around: &A,
    links: &mut HashMap<u32, Rank>,
    lows: &[Low],
) -> Result<List<Owned>, Memory>
    requires pits { (p : Rank) → Contains (ranks_of lows.now) p → IsPit (A.map around.now) S.NAME p }
    requires linked { (owner : Rank → Rank) × IsLinked (A.map around.now) S.NAME owner links.old }
    ensures { IfOk result (λ owners. (owner : Rank → Rank)
        → IsLinked (A.map around.now) S.NAME owner links.old
        → owners ≡ owned_by owner (ranks_of lows.now)) }
{
    let mut owners = List::with_capacity(alloc, lows.len())?;
    for low in lows {
        let owner = owner_of::<S, A>(around, links, low.rank)?;
        owners.push(Owned {
            pit: low.rank,
            owner,
        })?;
    }
    Ok(owners)
}
