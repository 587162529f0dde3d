// The texts of reports on a map.
ghost use Rattle.std.specs.Prelude.{◌≡◌, IfOk, List as Items, Option as Maybe};
ghost use Rattle.hd_audit.specs.declared.types.Audit.{Audit};
ghost use Rattle.hd_audit.specs.Shown.{IsShown};
ghost use Rattle.hd_audit.specs.Text.{audit_text};
ghost use Rattle.hd_map.specs.declared.types.RegionSize.{RegionSize};
ghost use Rattle.hd_map.specs.ChangeTree.{Joining, IsChangeTree};
ghost use Rattle.hd_map.specs.Presence.{present_heights};
ghost use Rattle.hd_map.specs.HeightRange.{range_of};
ghost use Rattle.hd_map.specs.Pruning.{Leaving};
ghost use Rattle.hd_lines.specs.declared.line.BorderLine.{BorderLine};
ghost use Rattle.hd_report.specs.Borders.{borders_text};
ghost use Rattle.hd_report.specs.Prunings.{prune_text};
ghost use Rattle.hd_report.specs.Regions.{regions_text};
ghost use Rattle.hd_report.specs.Trees.{tree_text};
ghost use Rattle.hd_num.specs.declared.frac.Frac.{Frac};
ghost use Rattle.hd_prune.specs.declared.step.Kept.{Kept};
ghost use Rattle.hd_prune.specs.Staying.{AreKeptAlone};
ghost use Rattle.hd_report.specs.Volumes.{AreWithVolumes, fill_text};
ghost use Rattle.hd_stats.specs.Fill.{AreFills};
ghost use Rattle.hd_survey.specs.Findings.{AreFindings};
ghost use Rattle.hd_regions.specs.Lines.{ArePrunedLines};
ghost use Rattle.hd_regions.specs.Owned.{ArePrunedRegions};
ghost use Rattle.hd_regions.specs.Regions.{AreRegionSizes};
ghost use Rattle.hd_session.specs.Info.{info_on};
ghost use Rattle.hd_engine.specs.Texts.{texts_view};

use crate::texts::Texts;
use hd_audit::{make_audit, text_of_audit};
use hd_list::{List, Memory};
use hd_map::{Grid, HeightRange, Heights, Side, presence_of};
use hd_num::Percent;
use hd_report::{
    Scales, list_borders, list_pruning, list_regions, list_tree, list_volumes, tell_info,
};
use hd_stats::fill;
use hd_survey::{Findings, change_tree, pruned_lines};
use std::alloc::Global;

/// The size, the type, the present points and the range of their heights, and the scales.
pub(crate) fn report_info<G: Grid>(
    alloc: Global,
    texts: &Texts,
    grid: &G,
) -> Result<List<u8>, Memory>
    ensures { IfOk result (λ text. text ≡ info_on (texts_view texts.now) (G.map grid.now)) }
{
    let scales = Scales {
        x: texts.x_scale.literal.as_slice(),
        y: texts.y_scale.literal.as_slice(),
        z: texts.z_scale.literal.as_slice(),
    };
    let presence = presence_of(grid);
    let text = tell_info(alloc, grid.size(), grid.data_type(), presence, &scales)?;
    Ok(text)
}

/// The regions of a side.
pub(crate) fn report_regions<S: Side, G: Heights>(
    alloc: Global,
    grid: &G,
    findings: &mut Findings<S>,
) -> Result<List<u8>, Memory>
    requires { AreFindings (G.map grid.now) S.NAME findings.old }
    ensures findings { AreFindings (G.map grid.now) S.NAME findings.new }
    ensures text { IfOk result (λ text. (regions : Items RegionSize)
        × AreRegionSizes (G.map grid.now) S.NAME regions
        × (text ≡ regions_text S.NAME (G.map grid.now).size regions)) }
{
    findings.find_sizes(alloc, grid)?;
    let text = list_regions(alloc, S::NAME, grid.size(), findings.sizes())?;
    Ok(text)
}

/// The change tree of a side.
pub(crate) fn report_tree<S: Side, G: Heights>(
    alloc: Global,
    grid: &G,
    findings: &mut Findings<S>,
) -> Result<List<u8>, Memory>
    requires { AreFindings (G.map grid.now) S.NAME findings.old }
    ensures findings { AreFindings (G.map grid.now) S.NAME findings.new }
    ensures text { IfOk result (λ text. (joins : Items Joining) × IsChangeTree (G.map grid.now) S.NAME joins
        × (text ≡ tree_text S.NAME (G.map grid.now).size joins)) }
{
    let tree = change_tree::<S, G>(alloc, grid, findings)?;
    let text = list_tree(alloc, S::NAME, grid.size(), tree.joins.as_slice())?;
    Ok(text)
}

/// The pruning of a side at a percent.
pub(crate) fn report_pruning<S: Side, G: Heights>(
    alloc: Global,
    grid: &G,
    findings: &mut Findings<S>,
    percent: Percent,
) -> Result<List<u8>, Memory>
    requires { AreFindings (G.map grid.now) S.NAME findings.old }
    ensures findings { AreFindings (G.map grid.now) S.NAME findings.new }
    ensures text { IfOk result (λ text. (steps : Items Leaving) × (kept : Items RegionSize)
        × ArePrunedRegions (G.map grid.now) S.NAME percent.thousandths steps kept
        × (text ≡ prune_text S.NAME percent.thousandths (G.map grid.now).size steps kept)) }
{
    findings.find_pruned(alloc, grid, percent)?;
    let pruned = findings.pruned();
    let text = list_pruning(
        alloc,
        S::NAME,
        grid.size(),
        percent,
        pruned.steps.as_slice(),
        pruned.kept.as_slice(),
    )?;
    Ok(text)
}

/// The border lines that the pruning of a side at a percent leaves. The range is that of the heights of the grid.
pub(crate) fn report_borders<S: Side, G: Heights>(
    alloc: Global,
    grid: &G,
    findings: &mut Findings<S>,
    percent: Percent,
    range: Option<HeightRange>,
) -> Result<List<u8>, Memory>
    requires findings { AreFindings (G.map grid.now) S.NAME findings.old }
    requires range { range ≡ range_of (present_heights (G.map grid.now)) }
    ensures findings { AreFindings (G.map grid.now) S.NAME findings.new }
    ensures text { IfOk result (λ text. (lines : Items BorderLine)
        × ArePrunedLines (G.map grid.now) S.NAME percent.thousandths lines
        × (text ≡ borders_text S.NAME percent.thousandths (G.map grid.now).size lines)) }
{
    let lines = pruned_lines::<S, G>(alloc, grid, findings, percent, range)?;
    let text = list_borders(alloc, S::NAME, grid.size(), percent, lines.as_slice())?;
    Ok(text)
}

/// The certificate of the pruning of a side at a percent. The range is that of the heights of the grid.
pub(crate) fn report_audit<S: Side, G: Heights>(
    alloc: Global,
    grid: &G,
    findings: &mut Findings<S>,
    percent: Percent,
    range: Option<HeightRange>,
) -> Result<List<u8>, Memory>
    requires findings { AreFindings (G.map grid.now) S.NAME findings.old }
    requires range { range ≡ range_of (present_heights (G.map grid.now)) }
    ensures findings { AreFindings (G.map grid.now) S.NAME findings.new }
    ensures text { IfOk result (λ text. (audit : Audit)
        × IsShown (G.map grid.now) S.NAME percent audit × (text ≡ audit_text audit)) }
{
    findings.find_kept(alloc, grid, percent, range)?;
    let kept = findings.kept();
    let audit = make_audit::<S, G>(alloc, grid, percent, &kept.pits)?;
    let text = text_of_audit(alloc, &audit)?;
    Ok(text)
}

/// The fill volumes of the pits that the pruning of a side at a percent keeps. The range is that of the heights
/// of the grid.
pub(crate) fn report_volumes<S: Side, G: Heights>(
    alloc: Global,
    grid: &G,
    findings: &mut Findings<S>,
    percent: Percent,
    range: Option<HeightRange>,
) -> Result<List<u8>, Memory>
    requires findings { AreFindings (G.map grid.now) S.NAME findings.old }
    requires range { range ≡ range_of (present_heights (G.map grid.now)) }
    ensures findings { AreFindings (G.map grid.now) S.NAME findings.new }
    ensures text { IfOk result (λ text. (kept : Items Kept) × (volumes : Items (Maybe Frac))
        × AreKeptAlone (G.map grid.now) S.NAME percent.thousandths kept
        × AreFills (G.map grid.now) S.NAME kept volumes × (fills : Items (Kept × Maybe Frac)) × AreWithVolumes kept volumes fills
        × (text ≡ fill_text S.NAME percent.thousandths (G.map grid.now).size fills)) }
{
    findings.find_kept(alloc, grid, percent, range)?;
    let kept = findings.kept();
    let volumes = fill::<S, G>(alloc, grid, &kept.pits)?;
    let text = list_volumes(
        alloc,
        S::NAME,
        grid.size(),
        percent,
        kept.pits.as_slice(),
        volumes.as_slice(),
    )?;
    Ok(text)
}
