// The shown pruning certificate.
ghost use Rattle.std.specs.Prelude.{◌≡◌, IfOk};
ghost use Rattle.hd_audit.specs.Rules.{IsRight};
ghost use Rattle.hd_audit.specs.Shown.{IsShown};
ghost use Rattle.hd_prune.specs.Staying.{AreKeptAlone};

use crate::Audit;
use crate::limit::Limit;
use crate::listing::shown_lines;
use hd_list::{List, Memory};
use hd_map::{Heights, Side, presence_of};
use hd_num::Percent;
use hd_prune::{Kept, height_span};
use std::alloc::Global;

/// The shown pruning certificate of a grid on a side at a percent of Sz, under the setting of the grid:
/// first the kept pits, then the other points that are reached from them, each time the lowest. The kept
/// pits are those of the pruning.
pub fn make_audit<S: Side, G: Heights>(
    alloc: Global,
    grid: &G,
    percent: Percent,
    kept: &List<Kept>,
) -> Result<Audit, Memory>
    requires { AreKeptAlone (G.map grid.now) S.NAME percent.thousandths kept.now }
    ensures shown { IfOk result (λ audit. IsShown (G.map grid.now) S.NAME percent audit) }
    ensures right { IfOk result (λ audit. IsRight (G.map grid.now) audit) }
{
    let limit = Limit {
        side: S::NAME,
        percent,
        sz: height_span(presence_of(grid).range),
    };
    let lines = shown_lines::<S, G>(alloc, grid, &limit, kept.as_slice())?;
    Ok(Audit {
        side: S::NAME,
        percent,
        adjacency: grid.adjacency(),
        lines,
    })
}
