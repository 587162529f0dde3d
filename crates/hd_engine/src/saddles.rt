// The certificate of the saddle of two points' pits.
ghost use Rattle.std.specs.Prelude.{◌≡◌, IfOk, true, Option as Maybe};
ghost use Rattle.std.specs.Option.{is_some};
ghost use Rattle.hd_map.specs.declared.types.Rank.{Rank as Point};
ghost use Rattle.hd_map.specs.Map.{Present};
ghost use Rattle.hd_map.specs.Rank.{rank};
ghost use Rattle.hd_map.specs.Saddle.{SaddleIs};
ghost use Rattle.hd_check.specs.declared.types.Certificate.{Certificate as Shown};
ghost use Rattle.hd_check.specs.Text.{certificate_text};
ghost use Rattle.hd_cert.specs.Shown.{AreTwoPits, IsShownCertificate};
ghost use Rattle.hd_survey.specs.Findings.{AreFindings};
ghost use Rattle.hd_session.specs.Reply.{reply_of};
ghost use Rattle.hd_session.specs.Saddles.{IsPairReply, IsSaddleReply};

use hd_cert::{certify, certify_by_regions};
use hd_check::{Certificate, write_certificate};
use hd_list::{List, Memory};
use hd_map::{Heights, Pos, Rank, Side, contains, is_present, rank_of};
use hd_report::one_region_cause;
use hd_session::Answer;
use hd_survey::{Findings, reached_pits, saddle_between};
use std::alloc::Global;

/// The answer to `saddle`: the certificate of the pits of two points' regions on a side. A position
/// outside is refused, then one that is not present, then two points in one region.
///
/// It takes time in proportion to the points, beside the merges of the pits.
pub fn show_saddle<S: Side, G: Heights>(
    alloc: Global,
    grid: &G,
    findings: &mut Findings<S>,
    number: u64,
    a: Pos,
    b: Pos,
) -> Result<Answer, Memory>
    requires { AreFindings (G.map grid.now) S.NAME findings.old }
    ensures findings { AreFindings (G.map grid.now) S.NAME findings.new }
    ensures answer { IfOk result (λ r. IsSaddleReply (G.map grid.now) number S.NAME a b (reply_of r)) }
{
    let size = grid.size();
    if !contains(size, a) {
        return Answer::outside(alloc, number, a);
    }
    if !contains(size, b) {
        return Answer::outside(alloc, number, b);
    }
    if !is_present(grid, a) {
        return Answer::not_present(alloc, number, a);
    }
    if !is_present(grid, b) {
        return Answer::not_present(alloc, number, b);
    }
    show_pair::<S, G>(alloc, grid, findings, number, a, b)
}

// The answer for two present points.
fn show_pair<S: Side, G: Heights>(
    alloc: Global,
    grid: &G,
    findings: &mut Findings<S>,
    number: u64,
    a: Pos,
    b: Pos,
) -> Result<Answer, Memory>
    requires findings { AreFindings (G.map grid.now) S.NAME findings.old }
    requires here { Present (G.map grid.now) a }
    requires there { Present (G.map grid.now) b }
    ensures findings { AreFindings (G.map grid.now) S.NAME findings.new }
    ensures answer { IfOk result (λ r. IsPairReply (G.map grid.now) number S.NAME a b (reply_of r)) }
{
    let mut spent = 0;
    let from = findings.root(alloc, grid, a, &mut spent)?;
    let to = findings.root(alloc, grid, b, &mut spent)?;
    if from == to {
        return Answer::refused(alloc, number, one_region_cause());
    }
    let text = tell_saddle::<S, G>(alloc, grid, findings, from, to)?;
    Ok(Answer::with_text(text))
}

// The text of the certificate of two pits.
fn tell_saddle<S: Side, G: Heights>(
    alloc: Global,
    grid: &G,
    findings: &mut Findings<S>,
    from: Pos,
    to: Pos,
) -> Result<List<u8>, Memory>
    requires findings { AreFindings (G.map grid.now) S.NAME findings.old }
    requires pits { AreTwoPits (G.map grid.now) S.NAME from to }
    ensures findings { AreFindings (G.map grid.now) S.NAME findings.new }
    ensures text { IfOk result (λ text. (saddle : Maybe Point) × (c : Shown)
        × IsShownCertificate (G.map grid.now) S.NAME from to saddle c
        × (text ≡ certificate_text c)) }
{
    // Both the merges and the first certificate are found by the regions, which are then given up: a script may have no
    // other line that asks for them.
    let is_first = !findings.has_merges() && !findings.has_regions();
    if is_first {
        findings.find_regions(alloc, grid)?;
    }
    let saddle = saddle_between::<S, G>(
        alloc,
        grid,
        findings,
        rank_of(grid, from),
        rank_of(grid, to),
    )?;
    let certificate = certificate_of::<S, G>(alloc, grid, findings, from, to, saddle)?;
    if is_first {
        findings.forget_regions(grid);
    }
    let mut text = List::new(alloc);
    write_certificate(&mut text, &certificate)?;
    Ok(text)
}

// The certificate of two pits, by the region of each point where it was found. Else floods make it, which are counted as
// a walk over all points, so that the regions are found for the next one.
fn certificate_of<S: Side, G: Heights>(
    alloc: Global,
    grid: &G,
    findings: &mut Findings<S>,
    from: Pos,
    to: Pos,
    saddle: Option<Rank>,
) -> Result<Certificate, Memory>
    requires findings { AreFindings (G.map grid.now) S.NAME findings.old }
    requires merges { is_some findings.old.merges ≡ true }
    requires pits { AreTwoPits (G.map grid.now) S.NAME from to }
    requires saddle { SaddleIs (G.map grid.now) S.NAME (rank (G.map grid.now) from)
        (rank (G.map grid.now) to) saddle }
    ensures findings { findings.new ≡ findings.old }
    ensures shown { IfOk result (IsShownCertificate (G.map grid.now) S.NAME from to saddle) }
{
    if !findings.has_regions() {
        findings.count_walk(grid);
        return certify::<S, G>(alloc, grid, from, to, saddle);
    }
    let reached = reached_pits::<S, G>(alloc, grid, findings, rank_of(grid, from), saddle)?;
    let regions = findings.regions();
    certify_by_regions::<S, G>(alloc, grid, regions, reached.as_slice(), from, to, saddle)
}
