// The border lines that a pruning leaves.
ghost use Rattle.std.specs.Prelude.{◌≡◌, All, IfOk};
ghost use Rattle.hd_map.specs.HeightRange.{range_of};
ghost use Rattle.hd_map.specs.Presence.{present_heights};
ghost use Rattle.hd_survey.specs.Findings.{AreFindings};
ghost use Rattle.hd_survey.specs.Inside.{IsLineOn};
ghost use Rattle.hd_regions.specs.Lines.{ArePrunedLines};

use crate::findings::Findings;
use crate::grid_view::GridView;
use crate::pruned::pruned_pits;
use hd_lines::{BorderLine, border_lines};
use hd_list::{List, Memory};
use hd_map::{HeightRange, Heights, Side};
use hd_num::Percent;
use std::alloc::Global;

/// The border lines of the pruning of a grid on a side at a percent: for dales the ridge lines, for hills
/// the course lines of ISO 25178-2; by what was found of the side, to which the merges of the pits are
/// added. The range is that of the heights of the grid.
pub fn pruned_lines<S: Side, G: Heights>(
    alloc: Global,
    grid: &G,
    findings: &mut Findings<S>,
    percent: Percent,
    range: Option<HeightRange>,
) -> Result<List<BorderLine>, Memory>
    requires findings { AreFindings (G.map grid.now) S.NAME findings.old }
    requires range { range ≡ range_of (present_heights (G.map grid.now)) }
    ensures are { IfOk result (ArePrunedLines (G.map grid.now) S.NAME percent.thousandths) }
    ensures inside { IfOk result (All (IsLineOn (G.map grid.now).size)) }
    ensures findings { AreFindings (G.map grid.now) S.NAME findings.new }
{
    let view = GridView::<S, G>::new(alloc, grid)?;
    findings.find_merges_by(&view)?;
    let merges = findings.merges();
    let pruned = pruned_pits::<S, G, GridView<'_, S, G>>(
        alloc, grid, &view, merges, percent, range,
    )?;
    border_lines::<S, G>(alloc, grid, view.regions(), &pruned)
}
