// The local sinks of the points of a tile, by links that are led on in place: most of them by sweeps
// that do not branch, the rest by walks.
ghost use Rattle.std.specs.Prelude.{◌≡◌, ◌≢◌, ◌<◌, ◌≤◌, ◌*◌, ◌+◌, IfOk, length, slice_index};
ghost use Rattle.hd_steep.specs.FirstLinks.{AreFirstLinks};
ghost use Rattle.hd_basin.specs.Frames.{HoldsRound, IsPartOf};
ghost use Rattle.hd_basin.specs.Links.{AreLinks, LedTo};
ghost use Rattle.hd_basin.specs.Sinks.{AreSunk, IsArea, IsSunk, no_node};

use crate::frame::{Frame, Plot};
use crate::links::{NO_LINK, links_in};
use hd_list::Memory;
use hd_map::{Heights, Side};
use hd_tiles::Tiling;
use std::alloc::Global;

/// By place of the tile the place of the local sink of each point, and `NO_LINK` where no point is
/// present.
pub fn sinks_in<S: Side, G: Heights, P: Heights>(
    alloc: Global,
    grid: &G,
    part: &P,
    frame: Frame,
    firsts: &[u32],
    plot: Plot,
) -> Result<Vec<u32>, Memory>
    requires size { plot.tiling.size ≡ (G.map grid.now).size }
    requires area { IsArea (G.map grid.now).size plot.tiling.side plot.tile plot.area }
    requires part { IsPartOf (G.map grid.now) frame (P.map part.now) }
    requires holds { HoldsRound (G.map grid.now).size plot.tiling.side plot.tile frame }
    requires firsts { AreFirstLinks (P.map part.now) S.NAME firsts.now }
    ensures { IfOk result (λ sinks. AreSunk (G.map grid.now) S.NAME plot.tiling.side plot.area sinks.items) }
{
    let mut links = links_in::<S, G, P>(alloc, grid, part, frame, firsts, plot)?;
    sweep::<S, G>(grid, plot.tiling, plot.area, &mut links);
    sweep_back::<S, G>(grid, plot.tiling, plot.area, &mut links);
    lead::<S, G>(grid, plot.tiling, plot.area, &mut links);
    Ok(links)
}

// Leads each link on by one link, from the first point to the last.
fn sweep<S: Side, G: Heights>(grid: &G, tiling: Tiling, area: Frame, links: &mut [u32])
    requires { AreLinks (G.map grid.now) S.NAME tiling.side area links.old }
    ensures { AreLinks (G.map grid.now) S.NAME tiling.side area links.new }
{
    for place in 0..links.len() {
        lead_once::<S, G>(grid, tiling, area, links, place);
    }
}

// Leads each link on by one link, from the last point to the first.
fn sweep_back<S: Side, G: Heights>(grid: &G, tiling: Tiling, area: Frame, links: &mut [u32])
    requires { AreLinks (G.map grid.now) S.NAME tiling.side area links.old }
    ensures { AreLinks (G.map grid.now) S.NAME tiling.side area links.new }
{
    for place in (0..links.len()).rev() {
        lead_once::<S, G>(grid, tiling, area, links, place);
    }
}

// Leads the link at a place on by one link.
#[inline]
fn lead_once<S: Side, G: Heights>(
    _grid: &G,
    _tiling: Tiling,
    _area: Frame,
    links: &mut [u32],
    place: usize,
)
    requires links { AreLinks (G.map _grid.now) S.NAME _tiling.side _area links.old }
    requires inside { place < length links.old }
    ensures { AreLinks (G.map _grid.now) S.NAME _tiling.side _area links.new }
{
    let link = links[place];
    let onward = if link == NO_LINK {
        place
    } else {
        link as usize
    };
    links[place] = links[onward];
}

// Leads each link to the sink.
fn lead<S: Side, G: Heights>(grid: &G, tiling: Tiling, area: Frame, links: &mut [u32])
    requires { AreLinks (G.map grid.now) S.NAME tiling.side area links.old }
    ensures { AreSunk (G.map grid.now) S.NAME tiling.side area links.new }
{
    for place in 0..links.len() {
        lead_one::<S, G>(grid, tiling, area, links, place);
    }
}

// Leads the link at a place to the sink.
#[inline]
fn lead_one<S: Side, G: Heights>(
    grid: &G,
    tiling: Tiling,
    area: Frame,
    links: &mut [u32],
    place: usize,
)
    requires before { LedTo (G.map grid.now) S.NAME tiling.side area place links.old }
    requires inside { place < length links.old }
    ensures { LedTo (G.map grid.now) S.NAME tiling.side area (place + 1) links.new }
{
    let link = links[place];
    if link != NO_LINK {
        links[place] = sink_from::<S, G>(grid, tiling, area, links, place as u32);
    }
}

// The place of the sink of the point at a place, by walking along the links.
#[inline]
fn sink_from<S: Side, G: Heights>(
    _grid: &G,
    _tiling: Tiling,
    _area: Frame,
    links: &[u32],
    start: u32,
) -> u32
    requires links { AreLinks (G.map _grid.now) S.NAME _tiling.side _area links.now }
    requires inside { start < length links.now }
    requires point { slice_index links.now start ≢ no_node }
    ensures { IsSunk (G.map _grid.now) S.NAME _tiling.side _area start result }
{
    let mut here = start;
    'walk: loop {
        let onward = links[here as usize];
        if onward == here {
            return here;
        }
        here = onward;
    }
}
