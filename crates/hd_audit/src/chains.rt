// Rule 18: each pit with a parent is reached within its limit.
ghost use Rattle.std.specs.Prelude.{◌≡◌, ◌<◌, ◌↔◌, IfOk, IsTrue, None, length};
ghost use Rattle.hd_map.specs.declared.types.Rank.{Rank};
ghost use Rattle.hd_map.specs.Map.{Present, cell_count, position_at};
ghost use Rattle.hd_map.specs.Rank.{IsPoint};
ghost use Rattle.hd_map.specs.Region.{IsPit};
ghost use Rattle.hd_audit.specs.Chains.{AreTopHeights, IsTopHeight, higher_height};
ghost use Rattle.hd_audit.specs.Lines.{line_at, rank_at};
ghost use Rattle.hd_audit.specs.Rules.{ChainsWithin, IsWithin, NewPoints, ParentsEarlier};

use crate::limit::{Limit, is_height_within};
use crate::places::{cells_of, position_in};
use crate::{AuditLine, AuditLines};
use hd_check::is_pit;
use hd_list::Memory;
use hd_map::{Heights, Pos, SideName, rank_of};
use std::alloc::Global;

/// Rule 18: the first pit with a parent that the highest point on its chain of parents is not within.
pub fn first_far<G: Heights>(
    alloc: Global,
    surface: &G,
    limit: &Limit,
    lines: &AuditLines,
) -> Result<Option<Pos>, Memory>
    requires new { NewPoints (G.map surface.now) lines.now None }
    requires parents { ParentsEarlier (G.map surface.now) lines.now None }
    ensures { IfOk result (ChainsWithin (G.map surface.now) limit.now.side
        limit.now.percent.thousandths limit.now.sz lines.now) }
{
    let mut tops = vec![in alloc; 0i64; cells_of(surface) as usize]?;
    for k in 0..lines.len() {
        let line = lines.at(k);
        let top = top_of(surface, limit.side, lines, &tops, k);
        if is_far(alloc, surface, limit, line, top) {
            return Ok(Some(position_in(surface, line.index)));
        }
        tops[line.index as usize] = top;
    }
    Ok(None)
}

// Whether the point of a line with a parent is a pit that a point of this height is not within.
fn is_far<G: Heights>(alloc: Global, surface: &G, limit: &Limit, line: AuditLine, top: i64) -> bool
    requires inside { line.index < cell_count (G.map surface.now).size }
    requires present { Present (G.map surface.now) (position_at (G.map surface.now).size line.index) }
    requires top { (x : Rank) × IsPoint (G.map surface.now) x × (x.height ≡ top) }
    ensures { (x : Rank) → x.height ≡ top → IsTrue result
        ↔ ((line.parent ≡ None → ⊥) × IsPit (G.map surface.now) limit.now.side
        (rank_at (G.map surface.now) line.index)
        × (IsWithin limit.now.side limit.now.percent.thousandths limit.now.sz (rank_at (G.map surface.now) line.index) x → ⊥)) }
{
    if line.parent.is_none() {
        return false;
    }
    let at = position_in(surface, line.index);
    !is_height_within(limit, rank_of(surface, at), top) && is_pit(alloc, surface, limit.side, at)
}

// The height of the highest point on the chain of parents from a line, by the heights of those of the
// earlier lines, by index.
fn top_of<G: Heights>(
    surface: &G,
    side: SideName,
    lines: &AuditLines,
    tops: &[i64],
    k: usize,
) -> i64
    requires line { k < length lines.now }
    requires new { NewPoints (G.map surface.now) lines.now None }
    requires parents { ParentsEarlier (G.map surface.now) lines.now None }
    requires whole { length tops.now ≡ cell_count (G.map surface.now).size }
    requires tops { AreTopHeights (G.map surface.now) side lines.now tops.now k }
    ensures { IsTopHeight (G.map surface.now) side lines.now (line_at lines.now k).index result }
{
    let line = lines.at(k);
    let own = rank_of(surface, position_in(surface, line.index));
    match line.parent {
        Some(parent) => higher(side, own.height, tops[parent as usize]),
        None => own.height,
    }
}

// The height of the higher of two points.
fn higher(side: SideName, a: i64, b: i64) -> i64
    ensures { result ≡ higher_height side a b }
{
    let is_below = match side {
        SideName::Dales => a < b,
        SideName::Hills => b < a,
    };
    if is_below { b } else { a }
}
