// The nodes, the labels and the passes of a tile.
ghost use Rattle.std.specs.Prelude.{◌≡◌, ◌<◌, IfOk, Some};
ghost use Rattle.hd_tiles.specs.Tile.{tile_count};
ghost use Rattle.hd_basin.specs.Built.{IsNoded};
ghost use Rattle.hd_basin.specs.Frames.{HoldsRound, IsPartOf};

use crate::frame::{Frame, Plot, area_of};
use crate::gather::{Gathered, gather};
use crate::inside::passes_inside;
use crate::part::Part;
use crate::round::ranks_round;
use crate::sinks::sinks_in;
use hd_list::{List, Memory};
use hd_map::{Heights, Side};
use hd_steep::first_links;
use hd_tiles::Tiling;
use std::alloc::Global;

/// What is kept of a tile, still without seams, from the heights in the tile and beside it, which are also a map of their
/// own.
pub fn noded<S: Side, G: Heights, P: Heights>(
    alloc: Global,
    grid: &G,
    part: &P,
    frame: Frame,
    tiling: Tiling,
    tile: u32,
    stamp: u64,
) -> Result<Part, Memory>
    requires size { tiling.size ≡ (G.map grid.now).size }
    requires tile { tile < tile_count tiling.size tiling.side }
    requires part { IsPartOf (G.map grid.now) frame (P.map part.now) }
    requires holds { HoldsRound (G.map grid.now).size tiling.side tile frame }
    ensures noded { IfOk result (λ part. IsNoded (G.map grid.now) S.NAME tiling.side tile part) }
    ensures seen { IfOk result (λ part. part.seen ≡ Some stamp) }
{
    let area = area_of(tiling, tile);
    let plot = Plot { tiling, tile, area };
    let ranks = ranks_round::<S, G>(alloc, grid, area)?;
    let firsts = first_links::<S, P>(alloc, part, 0)?;
    let sinks = sinks_in::<S, G, P>(alloc, grid, part, frame, firsts.as_slice(), plot)?;
    let Gathered {
        nodes,
        numbers: _,
        labels,
    } = gather::<S, G>(alloc, grid, plot, ranks.as_slice(), sinks.as_slice())?;
    let joins = passes_inside::<S, G>(
        alloc,
        grid,
        plot,
        ranks.as_slice(),
        labels.as_slice(),
        nodes.as_slice(),
    )?;
    Ok(Part {
        seen: Some(stamp),
        nodes: List::from_vec(nodes),
        labels,
        joins,
        seams: List::new(alloc),
    })
}
