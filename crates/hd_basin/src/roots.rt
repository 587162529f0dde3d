// In the region of which pit the basin of each node of a pool lies.
ghost use Rattle.std.specs.Prelude.{◌≡◌};

use hd_list::List;
use hd_map::Rank;
use std::marker::Model;

/// What stands at the place of a node whose pit is not known, which is the number of no pit.
pub const UNKNOWN: u32 = u32::MAX;

/// The pits of a pool, and the pit in whose region the basin of each node lies, found once, so that none is found by a
/// way from node to node. It takes 16 bytes a pit, 8 a tile and 4 a node. Contracts see it as the pits in position
/// order, by tile the place of its first node, and by place of a node the number of its pit.
#[derive(Drop)]
pub struct Roots {
    pub(crate) pits: List<Rank>,
    pub(crate) firsts: Vec<usize>,
    pub(crate) numbers: Vec<u32>,
}

impl Model for Roots {
    ghost use Rattle.hd_basin.specs.Roots.{Rooted};

    ghost Value = { Rooted };

    ghost view = { λ r. record {
      pits = r.pits;
      firsts = r.firsts.items;
      numbers = r.numbers.items;
    } };
}

impl Roots {
    /// The pits, in position order.
    pub fn pits(&self) -> &[Rank]
        ensures { result.now ≡ self.now.pits }
    {
        self.pits.as_slice()
    }
}
