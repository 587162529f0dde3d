// The change tree and the prunings of a side of a surface by its flood line, held against what a session finds.
ghost use Rattle.std.specs.Prelude.{◌≡◌};
ghost use Rattle.hd_graph.specs.Tells.{TellsSaddles};
ghost use Rattle.hd_map.specs.Pruning.{ArePits};
ghost use Rattle.hd_map.specs.Region.{AreRegions};
ghost use Rattle.hd_map.specs.Surface.{map_of};

use crate::graph::joins_of;
use crate::shared::surface;
use hd_graph::{
    FloodLine, Graph, flood, flood_line_tells_the_saddles, passes_are_crossings,
    passes_of_basins_are_a_graph, regions_are_basins,
};
use hd_list::List;
use hd_map::{DataType, Down, Rank, Side, Surface, Up, presence_of};
use hd_num::Percent;
use hd_prune::{Pruned, height_span, prune};
use hd_steep::{passes, regions};
use hd_survey::{Falls, Findings, GridView, lows_of};
use std::process::Abort;

// The flood line of the pits of a side of a surface and the passes between their regions.
fn line_of<S: Side>(
    rt: &(impl Abort + AllocGlobal),
    surface: &Surface,
    labels: &List<Option<u32>>,
    pits: &[Rank],
) -> FloodLine<S>
    requires labels { AreRegions (map_of surface.now) S.NAME labels.now }
    requires pits { ArePits (map_of surface.now) S.NAME pits.now }
    ensures { TellsSaddles (map_of surface.now) S.NAME result }
{
    let lows = lows_of(rt.alloc(), pits).expect(rt, "memory");
    let passes = passes::<S, _>(rt.alloc(), surface, labels).expect(rt, "memory");
    regions_are_basins();
    passes_are_crossings();
    passes_of_basins_are_a_graph();
    flood_line_tells_the_saddles();
    let graph = Graph::<S>::new(lows, passes);
    flood(rt.alloc(), &graph).expect(rt, "memory")
}

// The pruning at a percent by a flood line.
fn pruned_by_line<S: Side>(
    rt: &(impl Abort + AllocGlobal),
    surface: &Surface,
    _labels: &List<Option<u32>>,
    view: &GridView<'_, S, Surface>,
    line: &FloodLine<S>,
    percent: Percent,
) -> Pruned
    requires labels { AreRegions (map_of surface.now) S.NAME _labels.now }
    requires view { view.now ≡ surface.now }
    requires line { TellsSaddles (map_of surface.now) S.NAME line.now }
{
    let falls = Falls::<'_, S, Surface, GridView<'_, S, Surface>>::new(rt.alloc(), surface, view);
    let sz = height_span(presence_of(surface).range);
    prune::<S, _>(rt.alloc(), line, &falls, percent, sz).expect(rt, "memory")
}

// Compares a pruning by a flood line with the one at the same percent that a session finds, of which so many pits are
// kept.
fn expect_same<S: Side>(
    rt: &(impl Abort + AllocGlobal),
    surface: &Surface,
    percent: Percent,
    pruned: &Pruned,
    kept: usize,
) {
    let mut findings = Findings::<S>::new();
    findings
        .find_pruned(rt.alloc(), surface, percent)
        .expect(rt, "memory");
    let wanted = findings.pruned();
    assert!(rt; pruned.steps.as_slice() == wanted.steps.as_slice());
    assert!(rt; pruned.kept.as_slice().len() == kept);
    assert!(rt; wanted.kept.as_slice().len() == kept);
    for (pit, region) in pruned.kept.as_slice().iter().zip(wanted.kept.as_slice()) {
        assert!(rt; pit.pit == region.pit);
    }
}

// Compares the joins of the change tree by a flood line, for each part the index of its saddle and of its lowest pit,
// and how many pits are kept at these percents, in thousandths.
fn expect_by_line<S: Side>(
    rt: &(impl Abort + AllocGlobal),
    profiles: &str,
    joins: &[(u32, u32)],
    kept: &[(u32, usize)],
) {
    let surface = surface(rt, DataType::I16, profiles);
    let labels = regions::<S, _>(rt.alloc(), &surface).expect(rt, "memory");
    let view = GridView::<'_, S, Surface>::new(rt.alloc(), &surface).expect(rt, "memory");
    let line = line_of::<S>(rt, &surface, &labels, view.regions().pits());
    assert!(rt; joins_of(rt, &line).as_slice() == joins);
    for &(thousandths, kept) in kept {
        let percent = Percent { thousandths };
        let pruned = pruned_by_line(rt, &surface, &labels, &view, &line, percent);
        expect_same::<S>(rt, &surface, percent, &pruned, kept);
    }
}

#[test]
fn a_flood_line_gives_the_tree_and_the_prunings_of_a_session(rt: HostRuntime) {
    let two = [(1, 0), (1, 2)];
    expect_by_line::<Down>(&rt, "0 5 1", &two, &[(90_000, 1), (80_000, 2)]);
    expect_by_line::<Down>(&rt, "0 1 0 9", &two, &[(50_000, 1)]);
    expect_by_line::<Up>(&rt, "9 8 9 0", &[(1, 2), (1, 0)], &[(50_000, 1)]);
    let profiles = "7 BAD 7 BAD 7\n7 7 7 7 7";
    let joins = [(6, 0), (6, 2), (8, 0), (8, 4)];
    expect_by_line::<Down>(&rt, profiles, &joins, &[(5_000, 3)]);
    let joins = [(4, 0), (4, 2), (4, 6)];
    let kept = [(40_000, 2), (50_000, 1)];
    expect_by_line::<Down>(&rt, "0 9 1\n9 5 9\n2 9 9", &joins, &kept);
}
