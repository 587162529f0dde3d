// A side of a map, by what reports ask of it.
use crate::merges::PitMerges;
use hd_list::{List, Memory};
use hd_map::{Pos, RegionSize, Side};
use hd_regions::Tally;

/// A side of a map, by what reports ask of it. Contracts see it as the map.
pub trait SideView<S: Side> {
    ghost use Rattle.std.specs.Prelude.{IfOk};
    ghost use Rattle.hd_map.specs.Map.{IsMap, Map, Present};
    ghost use Rattle.hd_map.specs.Rank.{rank};
    ghost use Rattle.hd_map.specs.Region.{IsRoot};
    ghost use Rattle.hd_survey.specs.Findings.{ArePitMerges};
    ghost use Rattle.hd_survey.specs.Regions.{AreSizesByRoots};
    ghost use Rattle.hd_survey.specs.Tallies.{AreRegionTallies};

    /// The map.
    ghost map: { Self → Map };

    /// The pit in whose region a present point lies.
    fn root(&self, at: Pos) -> Pos
        requires { Present (map self.now) at }
        ensures present { Present (map self.now) result }
        ensures root { IsRoot (map self.now) S.NAME (rank (map self.now) at) (rank (map self.now) result) };

    /// The pits in position order, and their merges.
    fn merges(&self) -> Result<PitMerges, Memory>
        ensures { IfOk result (ArePitMerges (map self.now) S.NAME) };

    /// The regions with the numbers of their points, in position order of their pits.
    fn sizes(&self) -> Result<List<RegionSize>, Memory>
        ensures { IfOk result (AreSizesByRoots (map self.now) S.NAME) };

    /// The tallies of the regions, in position order of their pits.
    fn tallies(&self) -> Result<List<Tally>, Memory>
        ensures { IfOk result (AreRegionTallies (map self.now) S.NAME) };

    /// The map is one within the limits of maps.
    ghost whole: { (view : Self) → IsMap (map view) };
}
