// The change tree of a map.
ghost use Rattle.std.specs.Prelude.{All, IfOk};
ghost use Rattle.hd_graph.specs.Tells.{joins_of};
ghost use Rattle.hd_map.specs.ChangeTree.{IsChangeTree};
ghost use Rattle.hd_survey.specs.Findings.{AreFindings};
ghost use Rattle.hd_survey.specs.Inside.{IsJoinOn};

use crate::findings::Findings;
use crate::merges::PitMerges;
use hd_graph::{ChangeTree, tree_of_merges};
use hd_list::Memory;
use hd_map::{Heights, Side};
use std::alloc::Global;

/// The change tree of a grid on a side, by what was found of it, to which the merges of the pits are added.
pub fn change_tree<S: Side, G: Heights>(
    alloc: Global,
    grid: &G,
    findings: &mut Findings<S>,
) -> Result<ChangeTree, Memory>
    requires { AreFindings (G.map grid.now) S.NAME findings.old }
    ensures tree { IfOk result (λ tree. IsChangeTree (G.map grid.now) S.NAME (joins_of tree.joins)) }
    ensures inside { IfOk result (λ tree. All (IsJoinOn (G.map grid.now).size) tree.joins) }
    ensures findings { AreFindings (G.map grid.now) S.NAME findings.new }
{
    findings.find_merges(alloc, grid)?;
    let PitMerges { lows, merges, .. } = findings.merges();
    tree_of_merges::<S>(alloc, lows.as_slice(), merges.as_slice())
}
