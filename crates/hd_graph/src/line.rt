// Flood lines.
ghost use Rattle.std.specs.Prelude.{◌≡◌, ◌<◌, length};
ghost use Rattle.hd_map.specs.Rank.{below_by};

use hd_list::List;
use hd_map::{Rank, Side, higher_of};
use std::marker::{Model, PhantomData};

/// A low on a flood line.
#[derive(Clone, Copy, Debug, PartialEq, Eq)]
pub struct Stop {
    /// The low.
    pub low: Rank,
    /// Whether it is a pit of the whole surface.
    pub pit: bool,
    /// On the flood line of a graph the lowest pass to a stop before it, and none where no pass leads to one.
    pub rise: Option<Rank>,
}

/// The lows of a graph in the order in which rising water reaches them on a side. Contracts see it as
/// the list of its stops. There are at most 4,294,967,295 of them, whose lows have different indexes.
#[derive(Drop)]
pub struct FloodLine<S: Side> {
    stops: List<Stop>,
    side: PhantomData<S>,
}

impl<S: Side> Model for FloodLine<S> {
    ghost use Rattle.std.specs.Prelude.{List as Items};
    ghost use Rattle.hd_graph.specs.declared.line.Stop.{Stop};
    ghost use Rattle.hd_graph.specs.Line.{IsLine};

    ghost Value = { Items Stop };

    ghost view = { λ line. line.stops };

    ghost invariant = { λ line. IsLine line.stops };
}

impl<S: Side> FloodLine<S> {
    ghost use Rattle.hd_graph.specs.Line.{EachOnce, IsLine, rise_between};

    /// The line of these stops.
    pub(crate) fn new(stops: List<Stop>) -> FloodLine<S>
        requires { IsLine stops }
        ensures { result ≡ stops }
    {
        FloodLine {
            stops,
            side: PhantomData,
        }
    }

    /// The stops, in order.
    pub fn stops(&self) -> &[Stop]
        ensures value { result.now ≡ self.now }
        ensures once { EachOnce self.now }
        ensures line { IsLine self.now }
    {
        self.stops.as_slice()
    }

    /// The highest rise of the places after `i` up to `j`, and none where one of them has none. On the
    /// flood line of a graph it is the least, over all walks between the two lows, of the highest pass
    /// on the walk, and none exactly where no walk joins them.
    pub fn between(&self, i: u32, j: u32) -> Option<Rank>
        requires order { i < j }
        requires within { j < length self.now }
        ensures { result ≡ rise_between (below_by S.NAME) self.now i j }
    {
        let stops = self.stops.as_slice();
        let mut highest = stops[j as usize].rise?;
        for k in i as usize + 1..j as usize {
            highest = higher_of::<S>(highest, stops[k].rise?);
        }
        Some(highest)
    }
}
