// The seams of a tile.
ghost use Rattle.std.specs.Prelude.{◌≡◌, ◌<◌, IfOk};
ghost use Rattle.hd_tiles.specs.Tile.{tile_count};
ghost use Rattle.hd_basin.specs.Built.{IsBuilt, IsSight};
ghost use Rattle.hd_basin.specs.Frames.{FitsGrid, HoldsRound, IsRoundOnly};
ghost use Rattle.hd_basin.specs.Parts.{IsFresh};
ghost use Rattle.hd_basin.specs.Views.{ShowSame};

use crate::frame::{Frame, area_of};
use crate::lowest::lowest_of;
use crate::part::Part;
use crate::seams::{Sight, seams_at};
use crate::stock::Stock;
use hd_list::{List, Memory};
use hd_map::{Heights, Side};
use hd_tiles::{Looked, Tiling};
use std::alloc::Global;

/// What is kept of a tile, from its nodes, its labels and its passes.
pub fn joined<S: Side, G: Heights, T: Looked>(
    alloc: Global,
    tiling: Tiling,
    parts: &Stock,
    tiles: &T,
    window: &G,
    part: Part,
    tile: u32,
    frame: Frame,
) -> Result<Part, Memory>
    requires size { tiling.size ≡ (T.map tiles.now).size }
    requires tile { tile < tile_count tiling.size tiling.side }
    requires sight { IsSight (T.map tiles.now) S.NAME tiling.side tile (T.stamps tiles.now) parts.now part }
    requires shows { ShowSame (T.map tiles.now) (G.map window.now) tiling.side tile }
    requires fits { FitsGrid (T.map tiles.now).size frame }
    requires holds { HoldsRound (T.map tiles.now).size tiling.side tile frame }
    requires only { IsRoundOnly (T.map tiles.now).size tiling.side tile frame }
    requires stale { IsFresh (T.stamps tiles.now) parts.now tile → ⊥ }
    ensures built { IfOk result (λ done. IsBuilt (T.map tiles.now) S.NAME tiling.side
        (T.stamps tiles.now) parts.now tile done) }
    ensures seen { IfOk result (λ done. done.seen ≡ part.seen) }
{
    let sight = Sight {
        tiling,
        tiles,
        parts,
        tile,
        part: &part,
        area: area_of(tiling, tile),
        frame,
        window,
    };
    let all = seams_at::<S, G, T>(alloc, &sight)?;
    let kept = lowest_of::<S>(alloc, all.as_slice())?;
    Ok(Part {
        seams: List::from_vec(kept),
        ..part
    })
}
