// Graphs of lows and the passes between them.
ghost use Rattle.std.specs.Prelude.{◌≡◌};
ghost use Rattle.hd_map.specs.Rank.{below_by};

use hd_list::List;
use hd_map::{Pass, Rank, Side};
use std::marker::{Model, PhantomData};

/// A low of a surface on a side: a pit, or where the points of a part of the surface flow together.
#[derive(Clone, Copy, Debug, PartialEq, Eq)]
pub struct Low {
    /// Its point.
    pub rank: Rank,
    /// Whether it is a pit of the whole surface.
    pub pit: bool,
}

/// Lows and the passes between them on a side. Contracts see it as its two lists. There are at most
/// 2,147,483,647 lows, which have different indexes; each pass joins two of them and is below neither.
#[derive(Drop)]
pub struct Graph<S: Side> {
    lows: List<Low>,
    passes: List<Pass>,
    side: PhantomData<S>,
}

impl<S: Side> Model for Graph<S> {
    ghost use Rattle.hd_map.specs.Rank.{below_by};
    ghost use Rattle.hd_graph.specs.Graph.{Net, IsGraph};

    ghost Value = { Net };

    ghost view = { λ g. record { lows = g.lows; passes = g.passes } };

    ghost invariant = { λ g. IsGraph (below_by S.NAME) g.lows g.passes };
}

impl<S: Side> Graph<S> {
    ghost use Rattle.hd_graph.specs.Graph.{IsGraph};

    /// The graph of these lows and passes.
    pub fn new(lows: List<Low>, passes: List<Pass>) -> Graph<S>
        requires { IsGraph (below_by S.NAME) lows passes }
        ensures lows { result.lows ≡ lows }
        ensures passes { result.passes ≡ passes }
    {
        Graph {
            lows,
            passes,
            side: PhantomData,
        }
    }

    /// The lows.
    pub fn lows(&self) -> &[Low]
        ensures value { result.now ≡ self.now.lows }
        ensures whole { IsGraph (below_by S.NAME) self.now.lows self.now.passes }
    {
        self.lows.as_slice()
    }

    /// The passes.
    pub fn passes(&self) -> &[Pass]
        ensures { result.now ≡ self.now.passes }
    {
        self.passes.as_slice()
    }
}
