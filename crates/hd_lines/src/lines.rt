// The border lines of a pruning.
ghost use Rattle.std.specs.Prelude.{◌≡◌, ◌<◌, ℕ, length, All, IfOk};
ghost use Rattle.hd_prune.specs.Answer.{IsPruned};
ghost use Rattle.hd_lines.specs.Lines.{AreLinesOf};
ghost use Rattle.hd_lines.specs.Listed.{AreListed};
ghost use Rattle.hd_steep.specs.Numbering.{AreNumbered};

use crate::line::BorderLine;
use crate::places::owner_places;
use crate::saddles::first_joins;
use hd_list::{List, Memory};
use hd_map::{Heights, Side};
use hd_prune::{Kept, Pruned};
use hd_steep::{Border, Regions, borders_of};
use std::alloc::Global;

// Where heights have no order, a region has some three borders with those after it.
const BORDERS_EACH: usize = 4;

/// The border lines of the pruning of a grid on a side (for dales the ridge lines, for hills the course
/// lines of ISO 25178-2): one for each two kept pits of whose points some are neighbours, by the index of
/// the first pit and then of the second. The regions are those of this grid and side.
pub fn border_lines<S: Side, G: Heights>(
    alloc: Global,
    grid: &G,
    regions: &Regions,
    pruned: &Pruned,
) -> Result<List<BorderLine>, Memory>
    requires regions { AreNumbered (G.map grid.now) S.NAME regions.now }
    requires pruned { (thousandths : ℕ) × IsPruned
        (G.map grid.now) S.NAME thousandths pruned.now.steps pruned.now.kept pruned.now.owners }
    ensures { IfOk result (AreLinesOf (G.map grid.now) S.NAME pruned.now.steps pruned.now.kept
        pruned.now.owners) }
{
    let kept = pruned.kept.as_slice();
    let borders = {
        let places = owner_places(alloc, kept, pruned.owners.as_slice(), regions)?;
        let many = kept.len().saturating_mul(BORDERS_EACH);
        borders_of::<S, G>(alloc, grid, &places, kept.len().max(1), many)?
    };
    let firsts = first_joins::<S>(alloc, &borders, kept.len())?;
    list_lines(alloc, kept, &borders, &firsts)
}

// The lines of borders between kept pits.
fn list_lines(
    alloc: Global,
    kept: &[Kept],
    borders: &[Border],
    firsts: &[bool],
) -> Result<List<BorderLine>, Memory>
    requires within { All (λ l. (l.a < length kept.now) × (l.b < length kept.now)) borders.now }
    requires firsts { length firsts.now ≡ length borders.now }
    ensures { IfOk result (AreListed kept.now borders.now firsts.now (length borders.now)) }
{
    let mut lines = List::with_capacity(alloc, borders.len())?;
    'borders: for (number, border) in borders.iter().enumerate() {
        lines.push(BorderLine {
            a: kept[border.a as usize].pit,
            b: kept[border.b as usize].pit,
            pairs: border.pairs,
            pass: border.pass,
            on_saddle: firsts[number],
        })?;
    }
    Ok(lines)
}
