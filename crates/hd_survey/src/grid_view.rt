// A side of a grid, with its regions.
ghost use Rattle.std.specs.Prelude.{◌≡◌, IfOk};
ghost use Rattle.hd_steep.specs.Numbering.{AreNumbered};
ghost use Rattle.hd_survey.specs.Findings.{ArePitMerges};
ghost use Rattle.hd_survey.specs.Regions.{AreSizesByRoots};

use crate::merges::{PitMerges, into_merges, merges_of_regions};
use crate::roots::root_at;
use crate::sizes::{into_sizes, list_sizes};
use crate::tallies::region_tallies;
use crate::view::SideView;
use hd_list::{List, Memory};
use hd_map::{Heights, Pos, RegionSize, Side};
use hd_regions::Tally;
use hd_steep::{Regions, find_regions};
use std::alloc::Global;
use std::marker::{Model, PhantomData};

/// A side of a grid, whose regions were found. Contracts see it as the grid.
#[derive(Drop)]
pub struct GridView<'a, S: Side, G: Heights> {
    alloc: Global,
    grid: &'a G,
    regions: Regions,
    side: PhantomData<S>,
}

impl<'a, S: Side, G: Heights> Model for GridView<'a, S, G> {
    ghost use Rattle.hd_steep.specs.Numbering.{AreNumbered};

    ghost Value = { G };

    ghost view = { λ v. v.grid.now };

    ghost invariant = { λ v. AreNumbered (G.map v.grid.now) S.NAME v.regions };
}

impl<'a, S: Side, G: Heights> GridView<'a, S, G> {
    /// A side of a grid. It takes 4 bytes a point and 16 a pit, and time in proportion to the points.
    pub fn new(alloc: Global, grid: &'a G) -> Result<Self, Memory>
        ensures { IfOk result (λ view. view ≡ grid.now) }
    {
        let regions = find_regions::<S, G>(alloc, grid)?;
        Ok(GridView {
            alloc,
            grid,
            regions,
            side: PhantomData,
        })
    }

    /// The regions.
    pub fn regions(&self) -> &Regions
        ensures { AreNumbered (G.map self.now) S.NAME result.now }
    {
        &self.regions
    }

    /// The regions with the numbers of their points, in position order of their pits. The view is given up, and
    /// nothing by point is kept while the list is made.
    pub fn into_sizes(self) -> Result<List<RegionSize>, Memory>
        ensures { IfOk result (AreSizesByRoots (G.map self.entry) S.NAME) }
    {
        let GridView { alloc, regions, .. } = self;
        into_sizes(alloc, regions)
    }

    /// The pits in position order, and their merges. The view is given up, and nothing by point is kept while the
    /// merges are made.
    pub fn into_merges(self) -> Result<PitMerges, Memory>
        ensures { IfOk result (ArePitMerges (G.map self.entry) S.NAME) }
    {
        let GridView {
            alloc,
            grid,
            regions,
            ..
        } = self;
        into_merges::<S, G>(alloc, grid, regions)
    }
}

impl<'a, S: Side, G: Heights> SideView<S> for GridView<'a, S, G> {
    ghost map = { λ v. G.map v };

    ghost whole = { λ v. G.whole v };

    fn root(&self, at: Pos) -> Pos {
        root_at::<S, G>(self.grid, &self.regions, at)
    }

    fn merges(&self) -> Result<PitMerges, Memory> {
        merges_of_regions::<S, G>(self.alloc, self.grid, &self.regions)
    }

    fn sizes(&self) -> Result<List<RegionSize>, Memory> {
        list_sizes(self.alloc, &self.regions)
    }

    fn tallies(&self) -> Result<List<Tally>, Memory> {
        region_tallies::<S, G>(self.alloc, self.grid, &self.regions)
    }
}
