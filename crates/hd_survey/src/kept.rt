// The pits that a pruning keeps.
ghost use Rattle.std.specs.Prelude.{◌≡◌, IfOk};
ghost use Rattle.hd_map.specs.Presence.{present_heights};
ghost use Rattle.hd_map.specs.HeightRange.{range_of};
ghost use Rattle.hd_survey.specs.Findings.{AreKeptPits, ArePitMerges};

use crate::merges::PitMerges;
use hd_list::{List, Memory};
use hd_map::{HeightRange, Heights, Side};
use hd_num::Percent;
use hd_prune::{Kept, height_span, keep};
use std::alloc::Global;

/// The pits that the pruning of a map on a side keeps.
#[derive(Drop)]
pub struct KeptPits {
    /// The percent of the pruning.
    pub percent: Percent,
    /// The pits with their nearest saddles, in position order.
    pub pits: List<Kept>,
}

/// The pits that the pruning of a grid on a side at a percent keeps, by the merges of its pits. Neither the
/// steps nor the owners are found for them. The range is that of the heights of the grid.
pub fn keep_pits<S: Side, G: Heights>(
    alloc: Global,
    _grid: &G,
    merges: &PitMerges,
    percent: Percent,
    range: Option<HeightRange>,
) -> Result<KeptPits, Memory>
    requires merges { ArePitMerges (G.map _grid.now) S.NAME merges.now }
    requires range { range ≡ range_of (present_heights (G.map _grid.now)) }
    ensures pits { IfOk result (λ kept. AreKeptPits (G.map _grid.now) S.NAME percent.thousandths kept.pits) }
    ensures percent { IfOk result (λ kept. kept.percent ≡ percent) }
{
    let pits = keep::<S>(
        alloc,
        merges.lows.as_slice(),
        merges.merges.as_slice(),
        percent,
        height_span(range),
    )?;
    Ok(KeptPits { percent, pits })
}
