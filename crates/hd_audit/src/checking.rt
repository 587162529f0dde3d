// The checker of pruning certificates: all rules in order.
ghost use Rattle.std.specs.Prelude.{IfOk};
ghost use Rattle.hd_check.specs.Judged.{TriedFrom};
ghost use Rattle.hd_audit.specs.Rules.{IsTried, IsVerdict, rules_of};

use crate::chains::first_far;
use crate::cuts::first_leak;
use crate::limit::Limit;
use crate::parents::{first_no_pit, first_stray, first_wrong_cut};
use crate::place_table::PlaceTable;
use crate::places::{cells_of, first_not_new, first_unlisted};
use crate::{Audit, AuditLines};
use hd_check::Verdict;
use hd_list::Memory;
use hd_map::{Heights, Under, presence_of};
use hd_prune::height_span;
use std::alloc::Global;

/// Whether a pruning certificate is right on a map: yes exactly where the rules 12 to 18 hold under the
/// side and the setting that it names, whatever the setting of the map is, else the first that fails and
/// where.
pub fn check_audit<G: Heights>(alloc: Global, surface: &G, audit: &Audit) -> Result<Verdict, Memory>
    ensures { IfOk result (IsVerdict (G.map surface.now) audit.now) }
{
    let adjacency = audit.adjacency;
    let grid = surface;
    check_under(alloc, &Under { grid, adjacency }, audit)
}

// The same under the setting of the map.
fn check_under<G: Heights>(alloc: Global, surface: &G, audit: &Audit) -> Result<Verdict, Memory>
    ensures { IfOk result (IsTried (G.map surface.now) audit.now) }
{
    let limit = Limit {
        side: audit.side,
        percent: audit.percent,
        sz: height_span(presence_of(surface).range),
    };
    try_rules(alloc, surface, &limit, &audit.lines)
}

// The rules in order.
fn try_rules<G: Heights>(
    alloc: Global,
    surface: &G,
    limit: &Limit,
    lines: &AuditLines,
) -> Result<Verdict, Memory>
    ensures { IfOk result (TriedFrom 12 (rules_of
        (G.map surface.now) limit.now.side limit.now.percent.thousandths limit.now.sz lines.now)) }
{
    let mut places = PlaceTable::new(alloc, cells_of(surface) as usize)?;
    if let Some(at) = first_not_new(surface, lines, &mut places) {
        return Ok(Verdict::No { rule: 12, at });
    }
    if let Some(at) = first_unlisted(surface, lines, &places) {
        return Ok(Verdict::No { rule: 13, at });
    }
    if let Some(at) = first_stray(surface, lines, &places) {
        return Ok(Verdict::No { rule: 14, at });
    }
    if let Some(at) = first_no_pit(alloc, surface, limit.side, lines) {
        return Ok(Verdict::No { rule: 15, at });
    }
    if let Some(at) = first_wrong_cut(surface, limit.side, lines, &places) {
        return Ok(Verdict::No { rule: 16, at });
    }
    if let Some(at) = first_leak(alloc, surface, limit, lines, &places) {
        return Ok(Verdict::No { rule: 17, at });
    }
    if let Some(at) = first_far(alloc, surface, limit, lines)? {
        return Ok(Verdict::No { rule: 18, at });
    }
    Ok(Verdict::Yes)
}
