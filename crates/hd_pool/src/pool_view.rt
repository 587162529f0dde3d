// A side of a grid, by its pool of local basins.
ghost use Rattle.std.specs.Prelude.{◌≡◌, IfOk};
ghost use Rattle.hd_map.specs.Presence.{IsPresence, present_heights};
ghost use Rattle.hd_basin.specs.InStep.{IsPoolOf};

use crate::by_index::by_index;
use crate::told::{presence_told, sizes_told, tallies_told};
use hd_basin::{Basins, Extent, Roots};
use hd_list::{List, Memory};
use hd_map::{Heights, Pos, Presence, RegionSize, Side};
use hd_regions::Tally;
use hd_survey::{PitMerges, SideView, merges_of_crossings};
use std::alloc::Global;
use std::marker::Model;

/// A side of a grid, by the pool of its local basins, which is that of the present map, and the roots of these. Contracts
/// see it as the grid.
#[derive(Drop)]
pub struct PoolView<'a, S: Side, G: Heights> {
    alloc: Global,
    grid: &'a G,
    pool: &'a Basins<S>,
    roots: Roots,
    extents: Option<List<Extent>>,
}

impl<'a, S: Side, G: Heights> Model for PoolView<'a, S, G> {
    ghost use Rattle.hd_pool.specs.View.{IsViewed};

    ghost Value = { G };

    ghost view = { λ v. v.grid.now };

    ghost invariant = { λ v. IsViewed (G.map v.grid.now) S.NAME v.pool.now v.roots v.extents };
}

impl<'a, S: Side, G: Heights> PoolView<'a, S, G> {
    /// A side of a grid, by the pool of its local basins. It takes time in proportion to the basins.
    pub fn new(alloc: Global, grid: &'a G, pool: &'a Basins<S>) -> Result<Self, Memory>
        requires { IsPoolOf (G.map grid.now) S.NAME pool.now }
        ensures { IfOk result (λ view. view ≡ grid.now) }
    {
        let roots = pool.find_roots()?;
        Ok(PoolView {
            alloc,
            grid,
            pool,
            roots,
            extents: None,
        })
    }

    /// The same side, with the extents of its regions found, for more than one call that asks for them.
    pub fn with_extents(self) -> Result<Self, Memory>
        ensures { IfOk result (λ view. view ≡ self.entry) }
    {
        let extents = self.pool.extents_by(&self.roots)?;
        let PoolView {
            alloc,
            grid,
            pool,
            roots,
            ..
        } = self;
        Ok(PoolView {
            alloc,
            grid,
            pool,
            roots,
            extents: Some(extents),
        })
    }

    /// How many points of the grid are present, and the range of their heights.
    pub fn presence(&self) -> Result<Presence, Memory>
        ensures { IfOk result (IsPresence (present_heights (G.map self.now))) }
    {
        if let Some(extents) = &self.extents {
            return Ok(presence_told(extents.as_slice()));
        }
        let extents = self.pool.extents_by(&self.roots)?;
        Ok(presence_told(extents.as_slice()))
    }
}

impl<'a, S: Side, G: Heights> SideView<S> for PoolView<'a, S, G> {
    ghost map = { λ v. G.map v };

    ghost whole = { λ v. G.whole v };

    fn root(&self, at: Pos) -> Pos {
        match self.pool.label(at) {
            Some(pit) => pit,
            None => unreachable!(),
        }
    }

    fn merges(&self) -> Result<PitMerges, Memory> {
        let links = self.pool.links(&self.roots)?;
        let links = by_index(self.alloc, links)?;
        merges_of_crossings::<S, G>(self.alloc, self.grid, self.roots.pits(), links)
    }

    fn sizes(&self) -> Result<List<RegionSize>, Memory> {
        if let Some(extents) = &self.extents {
            return sizes_told(self.alloc, extents.as_slice());
        }
        let extents = self.pool.extents_by(&self.roots)?;
        sizes_told(self.alloc, extents.as_slice())
    }

    fn tallies(&self) -> Result<List<Tally>, Memory> {
        if let Some(extents) = &self.extents {
            return tallies_told(self.alloc, extents.as_slice());
        }
        let extents = self.pool.extents_by(&self.roots)?;
        tallies_told(self.alloc, extents.as_slice())
    }
}
