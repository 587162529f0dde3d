// The neighbours of a point that are below it.
use hd_map::Rank;

/// A map on a side, by what lies below its points. Contracts see it as the map and the name of the
/// side.
pub trait Around {
    ghost use Rattle.std.specs.Prelude.{◌<◌, ℕ, None, slice_index_or};
    ghost use Rattle.hd_map.specs.Map.{Map, IsMap};
    ghost use Rattle.hd_map.specs.declared.types.SideName.{SideName};
    ghost use Rattle.hd_map.specs.Rank.{IsPoint};
    ghost use Rattle.hd_prune.specs.Around.{IsLowerNeighbourAt};

    /// The map.
    ghost map: { Self → Map };

    /// The name of the side.
    ghost side: { Self → SideName };

    /// The `k`-th neighbour, from 0, of a present point that is below it, in the order of the side,
    /// with the pit that is its root; None past the last.
    fn around(&self, saddle: Rank, k: u32) -> Option<(Rank, Rank)>
        requires { IsPoint (map self.now) saddle }
        ensures { IsLowerNeighbourAt (map self.now) (side self.now) saddle k result };

    /// What `around` answers for each place. A point and its neighbours lie in a box of nine, so past these it answers
    /// None.
    fn all_around(&self, saddle: Rank) -> [Option<(Rank, Rank)>; 9]
        requires { IsPoint (map self.now) saddle }
        ensures { (k : ℕ) → k < 9 → IsLowerNeighbourAt (map self.now) (side self.now) saddle k
            (slice_index_or result k None) }
    {
        let mut all = [None; 9];
        for k in 0..9usize {
            all[k] = self.around(saddle, k as u32);
        }
        all
    }

    /// The map is one within the limits of maps.
    ghost whole: { (around : Self) → IsMap (map around) };
}
