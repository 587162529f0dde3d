// The order in which rising water reaches the lows.
ghost use Rattle.std.specs.Prelude.{◌≡◌, ◌≢◌, ◌<◌, ◌^◌, ◌⊎◌, ℕ, IfOk, OnOk, Some, Contains, All, AllPairs, [], ◌∷◌, ◌++◌, true, false, length, map, slice_get, slice_set, if◌then◌else◌};
ghost use Rattle.std.specs.List.Sorted.{IsSortedBy};
ghost use Rattle.hd_map.specs.Rank.{below_by};
ghost use Rattle.hd_graph.specs.declared.line.Stop.{Stop};
ghost use Rattle.hd_graph.specs.Flood.{AreWhole, IsLineSoFar, IsStopFor, is_done};
ghost use Rattle.hd_graph.specs.Line.{IsFloodLine};
ghost use Rattle.hd_graph.specs.Links.{HasEnds, pass_of};
ghost use Rattle.hd_graph.specs.Onward.{AreOnward};
ghost use Rattle.hd_graph.specs.Order.{is_lower};

use crate::graph::{Graph, Low};
use crate::line::{FloodLine, Stop};
use crate::links::links_of;
use crate::onward::links_onward;
use crate::order::{InOrder, sorted};
use hd_list::{List, Memory};
use hd_map::{Link, Rank, Side};
use std::alloc::Global;

/// The flood line of a graph, a Prim order: each low once; each rise is a pass from a stop before, and no pass
/// from the stops before to those from here on is below it; no rise is where there is no such pass. For each two
/// stops the highest rise of the places between, as `FloodLine::between` gives it, is the least highest pass of
/// all walks between the two lows, and none exactly where there is no walk. With which low each connected part
/// begins is left open.
pub fn flood<S: Side>(alloc: Global, graph: &Graph<S>) -> Result<FloodLine<S>, Memory>
    ensures { IfOk result (IsFloodLine (below_by S.NAME) graph.now.lows graph.now.passes) }
{
    let lows = graph.lows();
    let links = sorted::<S>(alloc, links_of(alloc, lows, graph.passes())?)?;
    let onward = links_onward(alloc, &links, lows.len())?;
    let stops = visit_all::<S>(alloc, lows, &links, &onward)?;
    Ok(FloodLine::new(stops))
}

// Visits all lows, each once.
fn visit_all<S: Side>(
    alloc: Global,
    lows: &[Low],
    links: &InOrder,
    onward: &[usize],
) -> Result<List<Stop>, Memory>
    requires different { AllPairs (λ x y. x.rank.index ≢ y.rank.index) lows.now }
    requires sorted { IsSortedBy (is_lower (below_by S.NAME)) links.now }
    requires within { All (HasEnds (length lows.now)) links.now }
    requires onward { AreOnward links.now (length lows.now) onward.now }
    ensures { IfOk result (IsFloodLine (below_by S.NAME) lows.now (map (pass_of lows.now) links.now)) }
{
    let mut done = vec![in alloc; false; lows.len()]?;
    let mut stops = List::with_capacity(alloc, lows.len())?;
    for start in 0..lows.len() {
        visit_part::<S>(lows, links, onward, start, &mut done, &mut stops)?;
    }
    Ok(stops)
}

// Visits all lows that can be reached from one, where that one is not done.
fn visit_part<S: Side>(
    lows: &[Low],
    links: &InOrder,
    onward: &[usize],
    start: usize,
    done: &mut [bool],
    stops: &mut List<Stop>,
) -> Result<(), Memory>
    requires different { AllPairs (λ x y. x.rank.index ≢ y.rank.index) lows.now }
    requires sorted { IsSortedBy (is_lower (below_by S.NAME)) links.now }
    requires within { All (HasEnds (length lows.now)) links.now }
    requires onward { AreOnward links.now (length lows.now) onward.now }
    requires start { start < length lows.now }
    requires whole { AreWhole links.now done.old }
    requires line { IsLineSoFar (below_by S.NAME) lows.now
        (map (pass_of lows.now) links.now) done.old stops.old }
    ensures whole { OnOk result (AreWhole links.now done.new) }
    ensures line { OnOk result (IsLineSoFar (below_by S.NAME) lows.now
        (map (pass_of lows.now) links.now) done.new stops.new) }
    ensures done { OnOk result (is_done done.new start ≡ true) }
    ensures kept { OnOk result ((v : ℕ) → is_done done.old v ≡ true → is_done done.new v ≡ true) }
{
    if done[start] {
        return Ok(());
    }
    visit(lows, start, None, done, stops)?;
    let mut place = onward[start];
    while place < links.len() {
        let link = links.at(place);
        let low = far_end(link, done) as usize;
        if done[low] {
            place = onward[lows.len() + place];
            continue;
        }
        visit(lows, low, Some(link.at), done, stops)?;
        place = onward[low];
    }
    Ok(())
}

// The end of a link to which it leads from one that is done.
fn far_end(link: Link, done: &[bool]) -> u32
    requires { HasEnds (length done.now) link }
    ensures far { result ≡ if is_done done.now link.a then link.b else link.a }
    ensures inside { result < length done.now }
{
    if done[link.a as usize] {
        link.b
    } else {
        link.a
    }
}

// Makes a low the next stop.
fn visit(
    lows: &[Low],
    low: usize,
    rise: Option<Rank>,
    done: &mut [bool],
    stops: &mut List<Stop>,
) -> Result<(), Memory>
    requires low { low < length lows.now }
    requires within { low < length done.old }
    ensures done { OnOk result (done.new ≡ slice_set done.old low true) }
    ensures stops { OnOk result ((s : Stop) × (stops.new ≡ stops.old ++ s ∷ [])
        × IsStopFor lows.now low s × (s.rise ≡ rise)) }
{
    let Low { rank, pit } = lows[low];
    stops.push(Stop {
        low: rank,
        pit,
        rise,
    })?;
    done[low] = true;
    Ok(())
}
