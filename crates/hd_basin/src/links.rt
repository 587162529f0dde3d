// The link of each point of a tile, to its next where that lies in the tile, and of a local sink to
// itself.
ghost use Rattle.std.specs.Prelude.{◌≡◌, ◌<◌, ◌≤◌, ◌*◌, ◌+◌, IfOk, OnOk};
ghost use Rattle.hd_steep.specs.FirstLinks.{AreFirstLinks};
ghost use Rattle.hd_basin.specs.Frames.{HoldsRound, IsPartOf};
ghost use Rattle.hd_basin.specs.Links.{AreLinksTo, IsLink};
ghost use Rattle.hd_basin.specs.Sinks.{IsArea};

use crate::frame::{Frame, Plot, is_in_frame, place_in, position_in};
use hd_list::Memory;
use hd_map::{Heights, Side};
use std::alloc::Global;

/// Stands where there is no link, since no point is present.
pub const NO_LINK: u32 = u32::MAX;

/// By place of the tile the link of each present point: the place of its next, and where that is none
/// or lies in another tile its own. They are told from the first links of a part that has the tile and
/// what is beside it, as a map of its own.
pub fn links_in<S: Side, G: Heights, P: Heights>(
    alloc: Global,
    grid: &G,
    part: &P,
    frame: Frame,
    firsts: &[u32],
    plot: Plot,
) -> Result<Vec<u32>, Memory>
    requires size { plot.tiling.size ≡ (G.map grid.now).size }
    requires area { IsArea (G.map grid.now).size plot.tiling.side plot.tile plot.area }
    requires part { IsPartOf (G.map grid.now) frame (P.map part.now) }
    requires holds { HoldsRound (G.map grid.now).size plot.tiling.side plot.tile frame }
    requires firsts { AreFirstLinks (P.map part.now) S.NAME firsts.now }
    ensures { IfOk result (λ links. AreLinksTo (G.map grid.now) S.NAME plot.tiling.side plot.area
        (plot.area.rows * plot.area.columns) links.items) }
{
    let count = plot.area.rows * plot.area.columns;
    let mut links = Vec::with_capacity(alloc, count as usize)?;
    for row in 0..plot.area.rows {
        link_row::<S, G, P>(grid, part, frame, firsts, plot, row, &mut links)?;
    }
    Ok(links)
}

// Adds the links of one profile of the tile.
fn link_row<S: Side, G: Heights, P: Heights>(
    grid: &G,
    part: &P,
    frame: Frame,
    firsts: &[u32],
    plot: Plot,
    row: u32,
    links: &mut Vec<u32>,
) -> Result<(), Memory>
    requires size { plot.tiling.size ≡ (G.map grid.now).size }
    requires area { IsArea (G.map grid.now).size plot.tiling.side plot.tile plot.area }
    requires part { IsPartOf (G.map grid.now) frame (P.map part.now) }
    requires holds { HoldsRound (G.map grid.now).size plot.tiling.side plot.tile frame }
    requires firsts { AreFirstLinks (P.map part.now) S.NAME firsts.now }
    requires row { row < plot.area.rows }
    requires before { AreLinksTo (G.map grid.now) S.NAME plot.tiling.side plot.area
        (row * plot.area.columns) links.old.items }
    ensures { OnOk result (AreLinksTo (G.map grid.now) S.NAME plot.tiling.side plot.area
        ((row + 1) * plot.area.columns) links.new.items) }
{
    for column in 0..plot.area.columns {
        let link = link_at::<S, G, P>(grid, part, frame, firsts, plot, row, column);
        links.push(link)?;
    }
    Ok(())
}

// The link of the point in a row and a column of the tile.
#[inline]
fn link_at<S: Side, G: Heights, P: Heights>(
    _grid: &G,
    _part: &P,
    frame: Frame,
    firsts: &[u32],
    plot: Plot,
    row: u32,
    column: u32,
) -> u32
    requires size { plot.tiling.size ≡ (G.map _grid.now).size }
    requires area { IsArea (G.map _grid.now).size plot.tiling.side plot.tile plot.area }
    requires part { IsPartOf (G.map _grid.now) frame (P.map _part.now) }
    requires holds { HoldsRound (G.map _grid.now).size plot.tiling.side plot.tile frame }
    requires firsts { AreFirstLinks (P.map _part.now) S.NAME firsts.now }
    requires row { row < plot.area.rows }
    requires column { column < plot.area.columns }
    ensures { IsLink (G.map _grid.now) S.NAME plot.tiling.side plot.area
        (row * plot.area.columns + column) result }
{
    let area = plot.area;
    let above = area.top + row - frame.top;
    let before = area.left + column - frame.left;
    let link = firsts[(above * frame.columns + before) as usize];
    if link == NO_LINK {
        return NO_LINK;
    }
    let at = position_in(frame, link);
    if is_in_frame(area, at) {
        place_in(area, at)
    } else {
        row * area.columns + column
    }
}
