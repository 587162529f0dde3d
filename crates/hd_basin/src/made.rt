// What is kept of a tile that is seen anew.
ghost use Rattle.std.specs.Prelude.{◌≡◌, ◌<◌, ◌≤◌, ◌+◌, ◌*◌, IfOk, Some, true, slice_get, length};
ghost use Rattle.hd_map.specs.declared.types.Pos.{Pos};
ghost use Rattle.hd_map.specs.Map.{InGrid, place_of};
ghost use Rattle.hd_tiles.specs.Tile.{IsRound, tile_count, tile_of};
ghost use Rattle.hd_basin.specs.Basin.{IsLabel};
ghost use Rattle.hd_basin.specs.Built.{IsBuilt};
ghost use Rattle.hd_basin.specs.Parts.{IsFresh, label_of};

use crate::frame::frame_of;
use crate::inset::Inset;
use crate::joined::joined;
use crate::noded::noded;
use crate::part::Part;
use crate::stock::Stock;
use crate::window::Window;
use hd_list::Memory;
use hd_map::Side;
use hd_tiles::{Looked, Steps, Tiling};
use std::alloc::Global;
use std::sync::ledger::Ledger;

/// What is to be kept of a tile whose stamp differs.
pub fn made<S: Side, T: Looked, L: Ledger>(
    alloc: Global,
    tiling: Tiling,
    parts: &Stock,
    tiles: &T,
    looks: &mut Steps<L>,
    tile: u32,
    stamp: u64,
) -> Result<Part, Memory>
    requires size { tiling.size ≡ (T.map tiles.now).size }
    requires side { tiling.side ≡ T.tile_side tiles.now }
    requires whole { length parts.now ≡ tile_count tiling.size tiling.side }
    requires tile { tile < tile_count tiling.size tiling.side }
    requires fresh { (p : Pos) → InGrid (T.map tiles.now).size p
        → IsFresh (T.stamps tiles.now) parts.now (tile_of (T.map tiles.now).size tiling.side p)
        → IsLabel (T.map tiles.now) S.NAME tiling.side p
        (label_of (T.map tiles.now).size tiling.side parts.now p) }
    requires stamp { slice_get (T.stamps tiles.now) tile ≡ Some stamp }
    requires stale { IsFresh (T.stamps tiles.now) parts.now tile → ⊥ }
    requires leave { (p : Pos) → InGrid tiling.size p → IsRound tiling.size tiling.side tile p
        → slice_get (T.leave tiles.now) (place_of (T.map tiles.now).size p) ≡ Some true }
    ensures built { IfOk result (λ part. IsBuilt (T.map tiles.now) S.NAME tiling.side
        (T.stamps tiles.now) parts.now tile part) }
    ensures seen { IfOk result (λ part. part.seen ≡ Some stamp) }
    ensures looks { looks.new ≤ looks.old + (tiling.side + 2) * (tiling.side + 2) }
{
    let frame = frame_of(tiling, tile);
    let window = Window::look(alloc, tiles, frame, looks)?;
    let own = window.inset();
    let part = noded::<S, Window, Inset>(alloc, &window, &own, frame, tiling, tile, stamp)?;
    joined::<S, Window, T>(alloc, tiling, parts, tiles, &window, part, tile, frame)
}
