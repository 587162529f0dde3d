// Graphs that are written down: their trees as the saddles and lowest pits by index, the least highest
// passes between their stops, and their merges.
ghost use Rattle.std.specs.Prelude.{◌<◌, IsTrue};
ghost use Rattle.hd_map.specs.Rank.{below_by};
ghost use Rattle.hd_tests.specs.WrittenGraphs.{are_linked, is_graph};

use crate::shared::list;
use hd_graph::{FloodLine, Graph, Low, Merge, flood, merges_by_links, merges_of, tree};
use hd_list::List;
use hd_map::{Down, Link, Pass, Rank, Side, Up};
use std::process::Abort;

macro_rules! rank {
    ($height:expr, $index:expr) => {
        Rank {
            height: $height,
            index: $index,
        }
    };
}

macro_rules! pit {
    ($height:expr, $index:expr) => {
        Low {
            rank: rank!($height, $index),
            pit: true,
        }
    };
}

macro_rules! pass {
    ($a:expr, $b:expr, $at:expr) => {
        Pass {
            a: $a,
            b: $b,
            at: $at,
        }
    };
}

macro_rules! link {
    ($a:expr, $b:expr, $at:expr) => {
        Link {
            a: $a,
            b: $b,
            at: $at,
        }
    };
}

// The graph of these lows and passes.
fn graph_of<S: Side>(rt: &(impl Abort + AllocGlobal), lows: &[Low], passes: &[Pass]) -> Graph<S>
    requires { IsTrue (is_graph (below_by S.NAME) lows.now passes.now) }
{
    Graph::new(list(rt, lows), list(rt, passes))
}

// The joins of the change tree: for each part the index of its saddle and of its lowest pit.
pub(crate) fn joins_of<S: Side>(
    rt: &(impl Abort + AllocGlobal),
    line: &FloodLine<S>,
) -> Vec<(u32, u32)> {
    let tree = tree(rt.alloc(), line).expect(rt, "memory");
    let mut joins = Vec::new(rt.alloc());
    for join in tree.joins.as_slice() {
        for part in join.parts.as_slice() {
            joins
                .push((join.saddle.index, part.index))
                .expect(rt, "memory");
        }
    }
    joins
}

// Compares the joins of a graph's flood line, and gives the line.
fn expect_joins<S: Side>(
    rt: &(impl Abort + AllocGlobal),
    graph: &Graph<S>,
    wanted: &[(u32, u32)],
) -> FloodLine<S> {
    let line = flood(rt.alloc(), graph).expect(rt, "memory");
    assert!(rt; joins_of(rt, &line).as_slice() == wanted);
    line
}

// The index of the highest rise between two places of a line.
fn rise_between<S: Side>(rt: &impl Abort, line: &FloodLine<S>, i: u32, j: u32) -> Option<u32>
    requires { i < j }
{
    assert!(rt; (j as usize) < line.stops().len());
    Some(line.between(i, j)?.index)
}

/// Heights `0 9 1 / 4 9 5 / 6 2 6` as 3x3: the way through the third dale is lower than the border.
#[test]
fn two_saddles_join_three_dales_of_a_graph(rt: HostRuntime) {
    let lows = [pit!(0, 0), pit!(1, 2), pit!(2, 7)];
    let passes = [
        pass!(rank!(0, 0), rank!(1, 2), rank!(9, 1)),
        pass!(rank!(0, 0), rank!(2, 7), rank!(4, 3)),
        pass!(rank!(1, 2), rank!(2, 7), rank!(5, 5)),
    ];
    let graph = graph_of::<Down>(&rt, &lows, &passes);
    let line = expect_joins(&rt, &graph, &[(3, 0), (3, 7), (5, 0), (5, 2)]);
    assert!(rt; line.stops().len() == 3);
    assert!(rt; rise_between(&rt, &line, 0, 1) == Some(3));
    assert!(rt; rise_between(&rt, &line, 0, 2) == Some(5));
}

/// Two parts that no pass joins, each of two pits and with the same saddle: it joins four classes. A low
/// that is no pit stands between two pits.
#[test]
fn one_saddle_joins_four_classes_of_two_parts(rt: HostRuntime) {
    let low = Low {
        rank: rank!(6, 6),
        pit: false,
    };
    let lows = [pit!(0, 0), pit!(1, 1), pit!(2, 2), low, pit!(3, 3)];
    let passes = [
        pass!(rank!(0, 0), rank!(1, 1), rank!(9, 9)),
        pass!(rank!(2, 2), rank!(6, 6), rank!(8, 8)),
        pass!(rank!(3, 3), rank!(6, 6), rank!(9, 9)),
    ];
    let graph = graph_of::<Down>(&rt, &lows, &passes);
    let line = expect_joins(&rt, &graph, &[(9, 0), (9, 1), (9, 2), (9, 3)]);
    assert!(rt; line.stops().len() == 5);
    assert!(rt; rise_between(&rt, &line, 0, 1) == Some(9));
    assert!(rt; rise_between(&rt, &line, 1, 2).is_none());
    assert!(rt; rise_between(&rt, &line, 0, 4).is_none());
}

// Compares merges, each by the numbers of its lows and the index of its pass.
fn expect_merges(
    rt: &(impl Abort + AllocGlobal),
    merges: &List<Merge>,
    wanted: &[(u32, u32, u32)],
) {
    let mut found = Vec::new(rt.alloc());
    for merge in merges.as_slice() {
        found
            .push((merge.low, merge.into, merge.at.index))
            .expect(rt, "memory");
    }
    assert!(rt; found.as_slice() == wanted);
}

// Compares the merges of lows that these links join.
fn expect_linked<S: Side>(
    rt: &(impl Abort + AllocGlobal),
    lows: &[Low],
    links: &[Link],
    wanted: &[(u32, u32, u32)],
)
    requires { IsTrue (are_linked lows.now links.now) }
{
    let links = list(rt, links).into_vec();
    let merges = merges_by_links::<S>(rt.alloc(), lows, links).expect(rt, "memory");
    expect_merges(rt, &merges, wanted);
}

/// Links name the lows by their places and come in any order. One of them joins lows that have run together.
#[test]
fn merges_are_made_of_linked_lows(rt: HostRuntime) {
    let lows = [pit!(0, 0), pit!(1, 2), pit!(2, 7)];
    let links = [
        link!(0, 1, rank!(9, 1)),
        link!(1, 2, rank!(5, 5)),
        link!(2, 0, rank!(4, 3)),
    ];
    expect_linked::<Down>(&rt, &lows, &links, &[(2, 0, 3), (1, 0, 5)]);
}

/// Five lows. Of two passes of one height that of the lesser index comes first; a higher pass between lows
/// that lower ones have joined makes no merge; and what has run together is known by its lowest low.
#[test]
fn five_lows_merge_in_the_order_of_their_passes(rt: HostRuntime) {
    let lows = [
        pit!(3, 0),
        pit!(1, 5),
        pit!(4, 10),
        pit!(2, 15),
        pit!(0, 20),
    ];
    let passes = [
        pass!(rank!(2, 15), rank!(0, 20), rank!(9, 17)),
        pass!(rank!(3, 0), rank!(4, 10), rank!(8, 8)),
        pass!(rank!(4, 10), rank!(2, 15), rank!(6, 12)),
        pass!(rank!(1, 5), rank!(4, 10), rank!(7, 7)),
        pass!(rank!(1, 5), rank!(3, 0), rank!(6, 3)),
    ];
    let graph = graph_of::<Down>(&rt, &lows, &passes);
    expect_merges(
        &rt,
        &merges_of(rt.alloc(), &graph).expect(&rt, "memory"),
        &[(0, 1, 3), (2, 3, 12), (3, 1, 7), (1, 4, 17)],
    );
}

/// The same lows, with their passes by index and as far below 0 as they were above: of two hills' passes of one
/// height that of the greater index comes first, in whichever order the passes are given.
#[test]
fn merges_are_the_same_in_each_order_of_the_passes(rt: HostRuntime) {
    let lows = [
        pit!(3, 0),
        pit!(1, 5),
        pit!(4, 10),
        pit!(2, 15),
        pit!(0, 20),
    ];
    let passes = [
        pass!(rank!(1, 5), rank!(3, 0), rank!(6, 3)),
        pass!(rank!(1, 5), rank!(4, 10), rank!(7, 7)),
        pass!(rank!(3, 0), rank!(4, 10), rank!(8, 8)),
        pass!(rank!(4, 10), rank!(2, 15), rank!(6, 12)),
        pass!(rank!(2, 15), rank!(0, 20), rank!(9, 17)),
    ];
    let graph = graph_of::<Down>(&rt, &lows, &passes);
    expect_merges(
        &rt,
        &merges_of(rt.alloc(), &graph).expect(&rt, "memory"),
        &[(0, 1, 3), (2, 3, 12), (3, 1, 7), (1, 4, 17)],
    );
    let lows = [
        pit!(-3, 0),
        pit!(-1, 5),
        pit!(-4, 10),
        pit!(-2, 15),
        pit!(0, 20),
    ];
    let passes = [
        pass!(rank!(-1, 5), rank!(-3, 0), rank!(-6, 3)),
        pass!(rank!(-1, 5), rank!(-4, 10), rank!(-7, 7)),
        pass!(rank!(-3, 0), rank!(-4, 10), rank!(-8, 8)),
        pass!(rank!(-4, 10), rank!(-2, 15), rank!(-6, 12)),
        pass!(rank!(-2, 15), rank!(0, 20), rank!(-9, 17)),
    ];
    let wanted = [(2, 3, 12), (0, 1, 3), (3, 1, 7), (1, 4, 17)];
    let graph = graph_of::<Up>(&rt, &lows, &passes);
    expect_merges(
        &rt,
        &merges_of(rt.alloc(), &graph).expect(&rt, "memory"),
        &wanted,
    );
    let turned = [
        pass!(rank!(-2, 15), rank!(0, 20), rank!(-9, 17)),
        pass!(rank!(-4, 10), rank!(-2, 15), rank!(-6, 12)),
        pass!(rank!(-3, 0), rank!(-4, 10), rank!(-8, 8)),
        pass!(rank!(-1, 5), rank!(-4, 10), rank!(-7, 7)),
        pass!(rank!(-1, 5), rank!(-3, 0), rank!(-6, 3)),
    ];
    let graph = graph_of::<Up>(&rt, &lows, &turned);
    expect_merges(
        &rt,
        &merges_of(rt.alloc(), &graph).expect(&rt, "memory"),
        &wanted,
    );
}
