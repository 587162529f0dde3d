// What reports find of a side of a map, kept for later ones.
ghost use Rattle.std.specs.Prelude.{◌≡◌, ◌↔◌, true, IsTrue, IfOk, OnOk, None, Some, ℕ};
ghost use Rattle.std.specs.Option.{is_some};
ghost use Rattle.hd_map.specs.Map.{Map, Present};
ghost use Rattle.hd_map.specs.Presence.{present_heights};
ghost use Rattle.hd_map.specs.HeightRange.{range_of};
ghost use Rattle.hd_map.specs.Rank.{rank};
ghost use Rattle.hd_map.specs.Region.{IsRoot};
ghost use Rattle.hd_prune.specs.Answer.{IsPruned};
ghost use Rattle.hd_survey.specs.Findings.{AreFeaturesAt, AreFindings, AreKeptAt, AreKeptFeatures, AreKeptPits, ArePitMerges, WasPrunedAt};

use crate::features::{KeptFeatures, features};
use crate::grid_view::GridView;
use crate::kept::{KeptPits, keep_pits};
use crate::merges::{PitMerges, merges_of_regions};
use crate::pruned::{PrunedRegions, cells_of, pruned_side, pruned_side_by, regions_left};
use crate::roots::root_at;
use crate::view::SideView;
use crate::way::end_of_way;
use hd_feature::Region;
use hd_list::{List, Memory};
use hd_map::{HeightRange, Heights, Pos, RegionSize, Side};
use hd_num::Percent;
use hd_prune::Pruned;
use hd_steep::{Regions, find_regions};
use std::alloc::Global;
use std::marker::{Model, PhantomData};

/// What reports found of a side of a map, for later ones on the same map under the same setting: the regions
/// with the numbers of their points, the merges of the pits, the pits that were kept last, the pruning that was done
/// last, the regions after a pruning by what parameters take of them, and the region of each point. It takes at most 232
/// bytes a pit, and 4 a point for these regions, which are found only where they are asked for, many points were asked, or
/// all were gone over. Contracts see it as what was found.
#[derive(Drop)]
pub struct Findings<S: Side> {
    sizes: Option<List<RegionSize>>,
    merges: Option<PitMerges>,
    kept: Option<KeptPits>,
    pruned: Option<PrunedRegions>,
    features: Option<KeptFeatures>,
    regions: Option<Regions>,
    walked: u64,
    side: PhantomData<S>,
}

impl<S: Side> Model for Findings<S> {
    ghost use Rattle.hd_survey.specs.Findings.{Found};

    ghost Value = { Found };

    ghost view = { λ f. record { sizes = f.sizes; merges = f.merges; kept = f.kept; pruned = f.pruned; features = f.features; regions = f.regions } };
}

impl<S: Side> Findings<S> {
    /// Nothing is found yet.
    pub fn new() -> Findings<S>
        ensures { (m : Map) → AreFindings m S.NAME result }
    {
        Findings {
            sizes: None,
            merges: None,
            kept: None,
            pruned: None,
            features: None,
            regions: None,
            walked: 0,
            side: PhantomData,
        }
    }

    /// Finds the regions with the numbers of their points, where they are not found.
    pub fn find_sizes<G: Heights>(&mut self, alloc: Global, grid: &G) -> Result<(), Memory>
        requires { AreFindings (G.map grid.now) S.NAME self.old }
        ensures findings { AreFindings (G.map grid.now) S.NAME self.new }
        ensures found { OnOk result (is_some self.new.sizes ≡ true) }
    {
        if self.sizes.is_none() {
            let view = GridView::<S, G>::new(alloc, grid)?;
            self.sizes = Some(view.into_sizes()?);
        }
        Ok(())
    }

    /// The same by a view of the side.
    pub fn find_sizes_by<V: SideView<S>>(&mut self, view: &V) -> Result<(), Memory>
        requires { AreFindings (V.map view.now) S.NAME self.old }
        ensures findings { AreFindings (V.map view.now) S.NAME self.new }
        ensures found { OnOk result (is_some self.new.sizes ≡ true) }
        ensures merges { self.new.merges ≡ self.old.merges }
    {
        if self.sizes.is_none() {
            self.sizes = Some(view.sizes()?);
        }
        Ok(())
    }

    /// Whether the regions with the numbers of their points were found.
    pub fn has_sizes(&self) -> bool
        ensures { result ≡ is_some self.now.sizes }
    {
        self.sizes.is_some()
    }

    /// The regions with the numbers of their points, in position order of their pits. They were found.
    pub fn sizes(&self) -> &[RegionSize]
        requires { is_some self.now.sizes ≡ true }
        ensures { self.now.sizes ≡ Some result.now }
    {
        match &self.sizes {
            Some(sizes) => sizes.as_slice(),
            None => unreachable!(),
        }
    }

    /// Finds the merges of the pits, where they are not found.
    pub fn find_merges<G: Heights>(&mut self, alloc: Global, grid: &G) -> Result<(), Memory>
        requires { AreFindings (G.map grid.now) S.NAME self.old }
        ensures findings { AreFindings (G.map grid.now) S.NAME self.new }
        ensures found { OnOk result (is_some self.new.merges ≡ true) }
    {
        if self.merges.is_some() {
            return Ok(());
        }
        let merges = self.merges_anew(alloc, grid)?;
        self.add_merges(grid, merges);
        Ok(())
    }

    /// The same by a view of the side.
    pub fn find_merges_by<V: SideView<S>>(&mut self, view: &V) -> Result<(), Memory>
        requires { AreFindings (V.map view.now) S.NAME self.old }
        ensures findings { AreFindings (V.map view.now) S.NAME self.new }
        ensures found { OnOk result (is_some self.new.merges ≡ true) }
    {
        if self.merges.is_none() {
            self.merges = Some(view.merges()?);
        }
        Ok(())
    }

    // Adds the merges of the pits.
    fn add_merges<G: Heights>(&mut self, _grid: &G, merges: PitMerges)
        requires findings { AreFindings (G.map _grid.now) S.NAME self.old }
        requires merges { ArePitMerges (G.map _grid.now) S.NAME merges }
        ensures findings { AreFindings (G.map _grid.now) S.NAME self.new }
        ensures found { is_some self.new.merges ≡ true }
    {
        self.merges = Some(merges);
    }

    /// Whether the merges of the pits were found.
    pub fn has_merges(&self) -> bool
        ensures { result ≡ is_some self.now.merges }
    {
        self.merges.is_some()
    }

    /// The pits with their merges, which were found.
    pub fn merges(&self) -> &PitMerges
        requires { is_some self.now.merges ≡ true }
        ensures { self.now.merges ≡ Some result.now }
    {
        match &self.merges {
            Some(merges) => merges,
            None => unreachable!(),
        }
    }

    /// Finds the pits that the pruning at a percent keeps, where they are not those that were found last. The range
    /// is that of the heights of the grid.
    pub fn find_kept<G: Heights>(
        &mut self,
        alloc: Global,
        grid: &G,
        percent: Percent,
        range: Option<HeightRange>,
    ) -> Result<(), Memory>
        requires findings { AreFindings (G.map grid.now) S.NAME self.old }
        requires range { range ≡ range_of (present_heights (G.map grid.now)) }
        ensures findings { AreFindings (G.map grid.now) S.NAME self.new }
        ensures found { OnOk result (AreKeptAt percent.thousandths self.new.kept) }
    {
        if self.has_kept(percent) {
            return Ok(());
        }
        // Most scripts ask for one percent. Where one asks for a second, more may follow, and the merges stay.
        if self.kept.is_some() {
            self.find_merges(alloc, grid)?;
        }
        let kept = self.kept_at(alloc, grid, percent, range)?;
        self.kept = Some(kept);
        Ok(())
    }

    // The pits that the pruning at a percent keeps, by the merges that were found, or else by some that are given up.
    fn kept_at<G: Heights>(
        &self,
        alloc: Global,
        grid: &G,
        percent: Percent,
        range: Option<HeightRange>,
    ) -> Result<KeptPits, Memory>
        requires findings { AreFindings (G.map grid.now) S.NAME self.now }
        requires range { range ≡ range_of (present_heights (G.map grid.now)) }
        ensures pits { IfOk result (λ kept. AreKeptPits
            (G.map grid.now) S.NAME percent.thousandths kept.pits) }
        ensures percent { IfOk result (λ kept. kept.percent ≡ percent) }
    {
        if let Some(merges) = &self.merges {
            return keep_pits::<S, G>(alloc, grid, merges, percent, range);
        }
        let merges = self.merges_anew(alloc, grid)?;
        keep_pits::<S, G>(alloc, grid, &merges, percent, range)
    }

    // The merges of the pits, found anew.
    fn merges_anew<G: Heights>(&self, alloc: Global, grid: &G) -> Result<PitMerges, Memory>
        requires { AreFindings (G.map grid.now) S.NAME self.now }
        ensures { IfOk result (ArePitMerges (G.map grid.now) S.NAME) }
    {
        match &self.regions {
            Some(regions) => merges_of_regions::<S, G>(alloc, grid, regions),
            None => GridView::<S, G>::new(alloc, grid)?.into_merges(),
        }
    }

    /// Whether the kept pits that were found last are those of the pruning at a percent.
    pub fn has_kept(&self, percent: Percent) -> bool
        ensures { IsTrue result ↔ AreKeptAt percent.thousandths self.now.kept }
    {
        match &self.kept {
            Some(kept) => kept.percent.thousandths == percent.thousandths,
            None => false,
        }
    }

    /// The kept pits that were found last.
    pub fn kept(&self) -> &KeptPits
        requires { is_some self.now.kept ≡ true }
        ensures { self.now.kept ≡ Some result.now }
    {
        match &self.kept {
            Some(kept) => kept,
            None => unreachable!(),
        }
    }

    /// Finds the pruning at a percent (Wolf pruning of ISO 25178-2), where it is not the one that was done last, and
    /// for it the merges of the pits and the regions.
    pub fn find_pruned<G: Heights>(
        &mut self,
        alloc: Global,
        grid: &G,
        percent: Percent,
    ) -> Result<(), Memory>
        requires { AreFindings (G.map grid.now) S.NAME self.old }
        ensures findings { AreFindings (G.map grid.now) S.NAME self.new }
        ensures found { OnOk result (WasPrunedAt percent.thousandths self.new.pruned) }
    {
        if self.has_pruned(percent) {
            return Ok(());
        }
        self.pruned = None;
        let pruned = pruned_side::<S, G>(alloc, grid, self, percent)?;
        self.keep_pruned(alloc, grid, pruned, percent)
    }

    /// The same by a view of the side. The range is that of the heights of the grid.
    pub fn find_pruned_by<G: Heights, V: SideView<S>>(
        &mut self,
        alloc: Global,
        grid: &G,
        view: &V,
        percent: Percent,
        range: Option<HeightRange>,
    ) -> Result<(), Memory>
        requires view { V.map view.now ≡ G.map grid.now }
        requires findings { AreFindings (G.map grid.now) S.NAME self.old }
        requires range { range ≡ range_of (present_heights (G.map grid.now)) }
        ensures findings { AreFindings (G.map grid.now) S.NAME self.new }
        ensures found { OnOk result (WasPrunedAt percent.thousandths self.new.pruned) }
    {
        if self.has_pruned(percent) {
            return Ok(());
        }
        self.pruned = None;
        let pruned = pruned_side_by::<S, G, V>(alloc, grid, view, self, percent, range)?;
        self.keep_pruned(alloc, grid, pruned, percent)
    }

    // Keeps a pruning with the regions that it leaves.
    fn keep_pruned<G: Heights>(
        &mut self,
        alloc: Global,
        grid: &G,
        pruned: Pruned,
        percent: Percent,
    ) -> Result<(), Memory>
        requires findings { AreFindings (G.map grid.now) S.NAME self.old }
        requires sizes { is_some self.old.sizes ≡ true }
        requires pruned { IsPruned (G.map grid.now) S.NAME percent.thousandths pruned.steps
            pruned.kept pruned.owners }
        ensures findings { AreFindings (G.map grid.now) S.NAME self.new }
        ensures found { OnOk result (WasPrunedAt percent.thousandths self.new.pruned) }
    {
        let left = regions_left::<S, G>(alloc, grid, pruned, self.sizes(), percent)?;
        self.pruned = Some(left);
        Ok(())
    }

    /// Whether the pruning that was done last is the one at a percent.
    pub fn has_pruned(&self, percent: Percent) -> bool
        ensures { IsTrue result ↔ WasPrunedAt percent.thousandths self.now.pruned }
    {
        match &self.pruned {
            Some(pruned) => pruned.percent.thousandths == percent.thousandths,
            None => false,
        }
    }

    /// The pruning that was done last.
    pub fn pruned(&self) -> &PrunedRegions
        requires { is_some self.now.pruned ≡ true }
        ensures { self.now.pruned ≡ Some result.now }
    {
        match &self.pruned {
            Some(pruned) => pruned,
            None => unreachable!(),
        }
    }

    /// Finds by a view of the side the regions after the pruning at a percent by what parameters take of them, where they are
    /// not those that were found last, and for them the merges of the pits. The range is that of the heights of the grid.
    pub fn find_features_by<G: Heights, V: SideView<S>>(
        &mut self,
        alloc: Global,
        grid: &G,
        view: &V,
        percent: Percent,
        range: Option<HeightRange>,
    ) -> Result<(), Memory>
        requires view { V.map view.now ≡ G.map grid.now }
        requires findings { AreFindings (G.map grid.now) S.NAME self.old }
        requires range { range ≡ range_of (present_heights (G.map grid.now)) }
        ensures findings { AreFindings (G.map grid.now) S.NAME self.new }
        ensures found { OnOk result (AreFeaturesAt percent.thousandths self.new.features) }
    {
        if self.has_features(percent) {
            return Ok(());
        }
        self.features = None;
        let list = features::<S, G, V>(alloc, grid, view, self, percent, range)?;
        self.keep_features(grid, list, percent);
        Ok(())
    }

    // Keeps the regions after the pruning at a percent.
    fn keep_features<G: Heights>(&mut self, _grid: &G, list: List<Region>, percent: Percent)
        requires findings { AreFindings (G.map _grid.now) S.NAME self.old }
        requires features { AreKeptFeatures (G.map _grid.now) S.NAME percent.thousandths list }
        ensures findings { AreFindings (G.map _grid.now) S.NAME self.new }
        ensures found { AreFeaturesAt percent.thousandths self.new.features }
    {
        self.features = Some(KeptFeatures { percent, list });
    }

    /// Whether the regions that were found last by what parameters take of them are those after the pruning at a percent.
    pub fn has_features(&self, percent: Percent) -> bool
        ensures { IsTrue result ↔ AreFeaturesAt percent.thousandths self.now.features }
    {
        match &self.features {
            Some(features) => features.percent.thousandths == percent.thousandths,
            None => false,
        }
    }

    /// These regions, which were found last.
    pub fn features(&self) -> &KeptFeatures
        requires { is_some self.now.features ≡ true }
        ensures { self.now.features ≡ Some result.now }
    {
        match &self.features {
            Some(features) => features,
            None => unreachable!(),
        }
    }

    /// Finds the region of each point, where it is not found. It takes 4 bytes a point.
    pub fn find_regions<G: Heights>(&mut self, alloc: Global, grid: &G) -> Result<(), Memory>
        requires { AreFindings (G.map grid.now) S.NAME self.old }
        ensures findings { AreFindings (G.map grid.now) S.NAME self.new }
        ensures found { OnOk result (is_some self.new.regions ≡ true) }
    {
        if self.regions.is_some() {
            return Ok(());
        }
        let regions = find_regions::<S, G>(alloc, grid)?;
        self.regions = Some(regions);
        Ok(())
    }

    /// Whether the region of each point was found.
    pub fn has_regions(&self) -> bool
        ensures { result ≡ is_some self.now.regions }
    {
        self.regions.is_some()
    }

    /// The region of each point, which was found.
    pub fn regions(&self) -> &Regions
        requires { is_some self.now.regions ≡ true }
        ensures { self.now.regions ≡ Some result.now }
    {
        match &self.regions {
            Some(regions) => regions,
            None => unreachable!(),
        }
    }

    /// Gives the region of each point up. The next point that is asked finds it again.
    pub fn forget_regions<G: Heights>(&mut self, grid: &G)
        requires { AreFindings (G.map grid.now) S.NAME self.old }
        ensures findings { AreFindings (G.map grid.now) S.NAME self.new }
        ensures forgotten { self.new ≡ record self.old { regions = None } }
    {
        drop(self.regions.take());
        self.count_walk(grid);
    }

    /// Counts a walk over all points of a grid, after which the next point that is asked finds the region of each.
    pub fn count_walk<G: Heights>(&mut self, grid: &G)
        ensures { self.new ≡ self.old }
    {
        self.walked = self.walked.saturating_add(cells_of(grid) as u64);
    }

    /// The pit in whose region a present point lies. The way to it is walked; once such walks together went over
    /// as many points as the grid has, the region of each point is found, and kept. What points are gone over is
    /// added to what was spent.
    pub fn root<G: Heights>(
        &mut self,
        alloc: Global,
        grid: &G,
        at: Pos,
        spent: &mut u64,
    ) -> Result<Pos, Memory>
        requires findings { AreFindings (G.map grid.now) S.NAME self.old }
        requires present { Present (G.map grid.now) at }
        ensures findings { AreFindings (G.map grid.now) S.NAME self.new }
        ensures present { IfOk result (Present (G.map grid.now)) }
        ensures root { IfOk result (λ pit. IsRoot (G.map grid.now) S.NAME (rank (G.map grid.now) at)
            (rank (G.map grid.now) pit)) }
    {
        if let Some(regions) = &self.regions {
            return Ok(root_at::<S, G>(grid, regions, at));
        }
        let before = self.walked;
        let found = end_of_way::<S, G>(alloc, grid, at, &mut self.walked);
        *spent = spent.saturating_add(self.walked.saturating_sub(before));
        if let Some(pit) = found {
            return Ok(pit);
        }
        let regions = find_regions::<S, G>(alloc, grid)?;
        let pit = root_at::<S, G>(grid, &regions, at);
        self.regions = Some(regions);
        *spent = spent.saturating_add(cells_of(grid) as u64);
        Ok(pit)
    }
}
