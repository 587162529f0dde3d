// The checker: all rules in order.
ghost use Rattle.std.specs.Prelude.{◌≡◌, None};
ghost use Rattle.hd_check.specs.Certified.{level_of};
ghost use Rattle.hd_check.specs.Judged.{TriedFrom};
ghost use Rattle.hd_check.specs.Rules.{AllPresent, IsVerdict, all_rules, cut_rules};

use crate::closed::first_leak;
use crate::cut::{first_not_below, first_not_rising, wrong_part};
use crate::path::{
    first_absent, first_high, off_path, wrong_end, wrong_height, wrong_pit, wrong_step,
};
use crate::{Certificate, Verdict};
use hd_map::{Heights, Pos, Under};
use std::alloc::Global;

/// Whether a certificate is right on a map: yes exactly where all eleven rules hold under the setting
/// that it names, whatever that of the map is, else the first that fails and where. It takes no
/// memory.
pub fn check<G: Heights>(alloc: Global, surface: &G, certificate: &Certificate) -> Verdict
    ensures { IsVerdict (G.map surface.now) certificate.now result }
{
    let adjacency = certificate.adjacency;
    let grid = surface;
    try_rules(alloc, &Under { grid, adjacency }, certificate)
}

// The rules in order, under the setting of the map.
fn try_rules<G: Heights>(alloc: Global, surface: &G, certificate: &Certificate) -> Verdict
    ensures { TriedFrom 1 (all_rules (G.map surface.now) certificate.now) result }
{
    if let Some(at) = first_absent(surface, certificate) {
        return Verdict::No { rule: 1, at };
    }
    if let Some(at) = wrong_pit(alloc, surface, certificate) {
        return Verdict::No { rule: 2, at };
    }
    if let Some(at) = wrong_height(surface, certificate) {
        return Verdict::No { rule: 3, at };
    }
    if let Some(at) = wrong_end(certificate) {
        return Verdict::No { rule: 4, at };
    }
    if let Some(at) = wrong_step(surface, certificate) {
        return Verdict::No { rule: 5, at };
    }
    if let Some(at) = off_path(certificate) {
        return Verdict::No { rule: 6, at };
    }
    if let Some(at) = first_high(surface, certificate) {
        return Verdict::No { rule: 7, at };
    }
    check_cut(surface, certificate)
}

// The rules 8 to 11, where rule 1 holds.
fn check_cut<G: Heights>(surface: &G, certificate: &Certificate) -> Verdict
    requires { AllPresent (G.map surface.now) certificate.now None }
    ensures { TriedFrom 8 (cut_rules (G.map surface.now) certificate.now) result }
{
    let size = surface.size();
    let side = certificate.side;
    let level = level(certificate);
    let cut = certificate.cut.as_slice();
    if let Some(at) = first_not_rising(size, cut) {
        return Verdict::No { rule: 8, at };
    }
    if let Some(at) = wrong_part(size, cut, certificate.from, certificate.to) {
        return Verdict::No { rule: 9, at };
    }
    if let Some(at) = first_not_below(surface, side, level, cut) {
        return Verdict::No { rule: 10, at };
    }
    if let Some(at) = first_leak(surface, side, level, cut) {
        return Verdict::No { rule: 11, at };
    }
    Verdict::Yes
}

// Where the saddle of a certificate is.
fn level(certificate: &Certificate) -> Option<Pos>
    ensures { result ≡ level_of certificate.now }
{
    match certificate.saddle {
        Some((at, _)) => Some(at),
        None => None,
    }
}
