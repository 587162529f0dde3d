// A side of a surface in tiles, by the pool that is kept of it, against what is found without tiles.
ghost use Rattle.std.specs.Prelude.{◌≡◌, IsTrue, None, false};
ghost use Rattle.hd_map.specs.Surface.{map_of};
ghost use Rattle.hd_pool.specs.Following.{Follows, IsReady};
ghost use Rattle.hd_tiles.specs.Tile.{IsTileSide};

use crate::basin::noise;
use crate::told::{place_of, roots_of, wanted_extents};
use hd_basin::Extent;
use hd_map::{Cell, Down, Grid, HeightRange, Pos, Side, Surface, Up, is_present, position_of};
use hd_pool::{PoolView, SidePool};
use hd_survey::{Findings, PitMerges, SideView};
use hd_tiles::Tiles;
use std::process::Abort;

// A side of a surface in tiles, by its pool.
type View<'a, S> = PoolView<'a, S, Tiles<Surface>>;

// Compares the roots of all points.
fn expect_roots<S: Side>(
    rt: &impl Abort,
    tiles: &Tiles<Surface>,
    view: &PoolView<'_, S, Tiles<Surface>>,
    labels: &[Option<u32>],
)
    requires { view.now ≡ tiles.now }
{
    let size = tiles.tiling().size();
    for index in 0..size.profiles * size.points {
        let at = position_of(size, index);
        if is_present(tiles, at) {
            let root = place_of(rt, tiles.surface(), Some(view.root(at)));
            assert!(rt; labels.get(index as usize) == Some(&root));
        }
    }
}

// The index of the pass at which each pit runs together with a lower one, by the place of the pit.
fn passes_by_pit(rt: &(impl Abort + AllocGlobal), pits: &PitMerges) -> Vec<Option<u32>> {
    let mut passes = vec![in rt.alloc(); None; pits.lows.as_slice().len()].expect(rt, "memory");
    for merge in pits.merges.as_slice() {
        let pass = passes.get_mut(merge.low as usize).expect(rt, "a pit");
        *pass = Some(merge.at.index);
    }
    passes
}

// Compares the pits, and the passes of their merges with those that are found by the whole surface.
fn expect_merges<S: Side>(
    rt: &(impl Abort + AllocGlobal),
    surface: &Surface,
    view: &PoolView<'_, S, Tiles<Surface>>,
    extents: &[Extent],
) {
    let pits = view.merges().expect(rt, "memory");
    assert!(rt; pits.lows.as_slice().len() == extents.len());
    for (low, extent) in pits.lows.as_slice().iter().zip(extents) {
        assert!(rt; low.pit && low.rank == extent.pit);
    }
    let mut findings = Findings::<S>::new();
    findings
        .find_merges(rt.alloc(), surface)
        .expect(rt, "memory");
    let wanted = passes_by_pit(rt, findings.merges());
    assert!(rt; passes_by_pit(rt, &pits) == wanted);
}

// Compares the regions with the numbers of their points, and their tallies.
fn expect_regions<S: Side>(
    rt: &impl Abort,
    view: &PoolView<'_, S, Tiles<Surface>>,
    extents: &[Extent],
) {
    let sizes = view.sizes().expect(rt, "memory");
    assert!(rt; sizes.as_slice().len() == extents.len());
    for (size, extent) in sizes.as_slice().iter().zip(extents) {
        assert!(rt; size.pit == extent.pit && u64::from(size.points) == extent.points);
    }
    drop(sizes);
    expect_tallies(rt, view, extents);
}

// Compares the tallies of the regions.
fn expect_tallies<S: Side>(
    rt: &impl Abort,
    view: &PoolView<'_, S, Tiles<Surface>>,
    extents: &[Extent],
) {
    let tallies = view.tallies().expect(rt, "memory");
    assert!(rt; tallies.as_slice().len() == extents.len());
    for (tally, extent) in tallies.as_slice().iter().zip(extents) {
        assert!(rt; u64::from(tally.points) == extent.points);
        let edge = match tally.edge {
            Some(edge) => (Some(edge.least), Some(edge.greatest)),
            None => (None, None),
        };
        assert!(rt; edge == (extent.edge_low, extent.edge_high));
    }
}

// Whether the pool of a side tells a report.
fn is_served<S: Side>(
    rt: &(impl Abort + AllocGlobal),
    pool: &mut SidePool<S>,
    tiles: &Tiles<Surface>,
) -> bool
    requires { Follows (map_of tiles.now.grid) S.NAME tiles.now.tiling.side tiles.now.stamps.items pool.old }
    ensures ready { IsTrue result → IsReady (map_of tiles.now.grid) S.NAME pool.new }
    ensures let_go { result ≡ false → pool.new.pool ≡ None }
{
    pool.serves_report(rt.alloc(), tiles).expect(rt, "memory")
}

// Changes the first point.
fn set_first(rt: &impl Abort, tiles: &mut Tiles<Surface>) {
    assert!(rt; tiles.changes() < 1_000);
    tiles
        .set_cell(Pos { x: 0, y: 0 }, Cell::Height(1_000))
        .expect(rt, "a cell of the type");
}

// Compares what the pool of a side of a surface tells, which serves from the second report after a change on.
fn expect_side<S: Side>(rt: &(impl Abort + AllocGlobal), surface: Surface, side: u32)
    requires { IsTileSide side }
{
    let mut tiles = Tiles::from_surface(rt.alloc(), surface, side).expect(rt, "memory");
    let mut pool = SidePool::<S>::new();
    let serves = is_served(rt, &mut pool, &tiles);
    assert!(rt; !serves);
    set_first(rt, &mut tiles);
    let serves = is_served(rt, &mut pool, &tiles);
    assert!(rt; !serves);
    let serves = is_served(rt, &mut pool, &tiles);
    assert!(rt; serves);
    let view = pool.view(rt.alloc(), &tiles).expect(rt, "memory");
    let labels = roots_of::<S>(rt, tiles.surface());
    let extents = wanted_extents(rt, tiles.surface(), &labels);
    expect_roots(rt, &tiles, &view, &labels);
    expect_merges(rt, tiles.surface(), &view, &extents);
    expect_regions(rt, &view, &extents);
}

#[test]
fn a_pool_tells_of_a_side_what_is_found_without_tiles(rt: HostRuntime) {
    expect_side::<Down>(&rt, noise(&rt, 17, 17), 8);
    expect_side::<Up>(&rt, noise(&rt, 17, 9), 9);
    expect_side::<Down>(&rt, noise(&rt, 1, 17), 256);
}
