// The seams at the points of a tile.
ghost use Rattle.std.specs.Prelude.{◌≡◌, ◌<◌, ◌≤◌, ◌*◌, ◌+◌, ◌↔◌, IfOk, OnOk};
ghost use Rattle.hd_map.specs.declared.types.Pos.{Pos};
ghost use Rattle.hd_map.specs.Map.{InGrid};
ghost use Rattle.hd_map.specs.Neighbour.{IsNear};
ghost use Rattle.hd_map.specs.Rank.{rank};
ghost use Rattle.hd_basin.specs.Built.{EndIs, IsAsked, IsEnd, IsSeen, NotesPair};
ghost use Rattle.hd_basin.specs.Frames.{InFrame};
ghost use Rattle.hd_basin.specs.Seams.{AreCandidates};
ghost use Rattle.hd_basin.specs.Sinks.{at_place};

use crate::ends::{End, seam_between};
use crate::frame::{Frame, place_in, position_in};
use crate::part::{Part, Seam};
use crate::place::place_in_tile;
use crate::stock::Stock;
use hd_list::Memory;
use hd_map::{Heights, Pos, Rank, Side, are_beside, rank_of};
use hd_tiles::{Looked, Tiling};
use std::alloc::Global;

/// A tile that is seen anew, with what is known of all others.
#[derive(Drop)]
pub struct Sight<'a, G: Heights, T: Looked> {
    /// How the grid is cut into tiles.
    pub tiling: Tiling,
    /// The tiles.
    pub tiles: &'a T,
    /// What is kept of them.
    pub parts: &'a Stock,
    /// The number of the tile.
    pub tile: u32,
    /// What is to be kept of it, still without seams.
    pub part: &'a Part,
    /// Its positions.
    pub area: Frame,
    /// Its positions and those beside it.
    pub frame: Frame,
    /// The heights at these.
    pub window: &'a G,
}

// The basin of the point at a position, and none where its tile is not fresh and where no point is
// present.
fn end_at<S: Side, G: Heights, T: Looked>(sight: &Sight<G, T>, at: Pos) -> Option<End>
    requires sees { IsSeen (T.map sight.now.tiles.now) (G.map sight.now.window.now) S.NAME
        (T.stamps sight.now.tiles.now) sight.now.parts.now sight.now.part.now sight.now.tiling
        sight.now.tile sight.now.area sight.now.frame }
    requires at { InGrid (T.map sight.now.tiles.now).size at }
    ensures { EndIs (T.map sight.now.tiles.now) S.NAME sight.now.tiling.side
        (T.stamps sight.now.tiles.now)
        sight.now.parts.now at result }
{
    let number = sight.tiling.tile_of(at);
    let present = sight.tiles.stamp(number);
    let other = sight.parts.part(number as usize);
    if other.seen() != Some(present) {
        return None;
    }
    let node = other.node_at(place_in_tile(sight.tiling, at))?;
    Some(End {
        low: node.low,
        with: number,
        stamp: present,
    })
}

// Notes the seam of a point of the tile and a position beside it, if they are neighbours in two basins.
fn note_pair<S: Side, G: Heights, T: Looked>(
    sight: &Sight<G, T>,
    here: Pos,
    near: (Pos, Rank),
    end: End,
    all: &mut Vec<Seam>,
) -> Result<(), Memory>
    requires sees { IsSeen (T.map sight.now.tiles.now) (G.map sight.now.window.now) S.NAME
        (T.stamps sight.now.tiles.now) sight.now.parts.now sight.now.part.now sight.now.tiling
        sight.now.tile sight.now.area sight.now.frame }
    requires here { InFrame sight.now.area here }
    requires columns { IsNear here.x near.0.x }
    requires rows { IsNear here.y near.0.y }
    requires rank { near.1 ≡ rank (T.map sight.now.tiles.now) near.0 }
    requires end { IsEnd (T.map sight.now.tiles.now) S.NAME sight.now.tiling.side
        (T.stamps sight.now.tiles.now)
        sight.now.parts.now near.0 end }
    ensures { OnOk result (NotesPair (T.map sight.now.tiles.now) S.NAME sight.now.tiling.side
        sight.now.tile (T.stamps sight.now.tiles.now) sight.now.parts.now here near.0
        all.old.items all.new.items) }
{
    let Some(own) = sight.part.node_at(place_in(sight.area, here)) else {
        return Ok(());
    };
    if !are_beside(sight.window.adjacency(), here, near.0) {
        return Ok(());
    }
    let Some(seam) = seam_between::<S>(own.low, end, rank_of(sight.window, here), near.1) else {
        return Ok(());
    };
    all.push(seam)?;
    Ok(())
}

// Notes the seams of the point at a place of the frame and those of the tile beside it.
fn note_beside<S: Side, G: Heights, T: Looked>(
    sight: &Sight<G, T>,
    _place: u32,
    near: Pos,
    all: &mut Vec<Seam>,
) -> Result<(), Memory>
    requires sees { IsSeen (T.map sight.now.tiles.now) (G.map sight.now.window.now) S.NAME
        (T.stamps sight.now.tiles.now) sight.now.parts.now sight.now.part.now sight.now.tiling
        sight.now.tile sight.now.area sight.now.frame }
    requires near { InFrame sight.now.frame near }
    requires place { near ≡ at_place sight.now.frame _place }
    requires before { AreCandidates (T.map sight.now.tiles.now) S.NAME
        sight.now.tiling.side sight.now.tile (T.stamps sight.now.tiles.now)
        (IsAsked (T.map sight.now.tiles.now) sight.now.tiling.side sight.now.tile
        (T.stamps sight.now.tiles.now) sight.now.parts.now sight.now.frame _place) all.old.items }
    ensures { OnOk result (AreCandidates (T.map sight.now.tiles.now) S.NAME
        sight.now.tiling.side sight.now.tile (T.stamps sight.now.tiles.now)
        (IsAsked (T.map sight.now.tiles.now) sight.now.tiling.side sight.now.tile
        (T.stamps sight.now.tiles.now) sight.now.parts.now sight.now.frame
        (_place + 1)) all.new.items) }
{
    let Some(end) = end_at::<S, G, T>(sight, near) else {
        return Ok(());
    };
    let pair = (near, rank_of(sight.window, near));
    let beside = beside_in(sight.area, near);
    'places: for place in 0..beside.columns * beside.rows {
        let here = position_in(beside, place);
        note_pair::<S, G, T>(sight, here, pair, end, all)?;
    }
    Ok(())
}

// The positions of a rectangle whose columns and profiles differ by at most one from those of a position.
fn beside_in(area: Frame, at: Pos) -> Frame
    requires right { area.left + area.columns < 65536 }
    requires bottom { area.top + area.rows < 65536 }
    requires x { at.x < 65536 }
    requires y { at.y < 65536 }
    ensures each { (p : Pos)
        → InFrame result p ↔ (InFrame area p × IsNear p.x at.x × IsNear p.y at.y) }
    ensures columns { result.columns ≤ 3 }
    ensures rows { result.rows ≤ 3 }
    ensures right { result.left + result.columns < 65536 }
    ensures bottom { result.top + result.rows < 65536 }
{
    let left = area.left.max(at.x.saturating_sub(1));
    let top = area.top.max(at.y.saturating_sub(1));
    let right = (area.left + area.columns).min(at.x + 2);
    let bottom = (area.top + area.rows).min(at.y + 2);
    Frame {
        left,
        top,
        columns: right.saturating_sub(left),
        rows: bottom.saturating_sub(top),
    }
}

// Notes the seams of the points at these columns of a row of the frame, of which none is in the tile.
fn note_stretch<S: Side, G: Heights, T: Looked>(
    sight: &Sight<G, T>,
    row: u32,
    from: u32,
    to: u32,
    all: &mut Vec<Seam>,
) -> Result<(), Memory>
    requires sees { IsSeen (T.map sight.now.tiles.now) (G.map sight.now.window.now) S.NAME
        (T.stamps sight.now.tiles.now) sight.now.parts.now sight.now.part.now sight.now.tiling
        sight.now.tile sight.now.area sight.now.frame }
    requires row { row < sight.now.frame.rows }
    requires from { from ≤ to }
    requires to { to ≤ sight.now.frame.columns }
    requires before { AreCandidates (T.map sight.now.tiles.now) S.NAME
        sight.now.tiling.side sight.now.tile (T.stamps sight.now.tiles.now)
        (IsAsked (T.map sight.now.tiles.now) sight.now.tiling.side sight.now.tile
        (T.stamps sight.now.tiles.now) sight.now.parts.now sight.now.frame
        (row * sight.now.frame.columns + from)) all.old.items }
    ensures { OnOk result (AreCandidates (T.map sight.now.tiles.now) S.NAME
        sight.now.tiling.side sight.now.tile (T.stamps sight.now.tiles.now)
        (IsAsked (T.map sight.now.tiles.now) sight.now.tiling.side sight.now.tile
        (T.stamps sight.now.tiles.now) sight.now.parts.now sight.now.frame
        (row * sight.now.frame.columns + to)) all.new.items) }
{
    for column in from..to {
        let near = Pos {
            x: sight.frame.left + column,
            y: sight.frame.top + row,
        };
        let place = row * sight.frame.columns + column;
        note_beside::<S, G, T>(sight, place, near, all)?;
    }
    Ok(())
}

// Notes the seams of the points in a row of the frame. Those of the tile are left out.
fn note_row<S: Side, G: Heights, T: Looked>(
    sight: &Sight<G, T>,
    row: u32,
    all: &mut Vec<Seam>,
) -> Result<(), Memory>
    requires sees { IsSeen (T.map sight.now.tiles.now) (G.map sight.now.window.now) S.NAME
        (T.stamps sight.now.tiles.now) sight.now.parts.now sight.now.part.now sight.now.tiling
        sight.now.tile sight.now.area sight.now.frame }
    requires row { row < sight.now.frame.rows }
    requires before { AreCandidates (T.map sight.now.tiles.now) S.NAME
        sight.now.tiling.side sight.now.tile (T.stamps sight.now.tiles.now)
        (IsAsked (T.map sight.now.tiles.now) sight.now.tiling.side sight.now.tile
        (T.stamps sight.now.tiles.now) sight.now.parts.now sight.now.frame
        (row * sight.now.frame.columns)) all.old.items }
    ensures { OnOk result (AreCandidates (T.map sight.now.tiles.now) S.NAME
        sight.now.tiling.side sight.now.tile (T.stamps sight.now.tiles.now)
        (IsAsked (T.map sight.now.tiles.now) sight.now.tiling.side sight.now.tile
        (T.stamps sight.now.tiles.now) sight.now.parts.now sight.now.frame
        ((row + 1) * sight.now.frame.columns)) all.new.items) }
{
    let Frame { left, columns, .. } = sight.frame;
    let area = sight.area;
    let y = sight.frame.top + row;
    if y < area.top || area.top + area.rows <= y {
        note_stretch::<S, G, T>(sight, row, 0, columns, all)?;
        return Ok(());
    }
    let first = area.left - left;
    note_stretch::<S, G, T>(sight, row, 0, first, all)?;
    note_stretch::<S, G, T>(sight, row, first + area.columns, columns, all)?;
    Ok(())
}

/// The seams at the points of a tile with all known basins of other tiles that they meet, each pair of
/// neighbours once.
pub fn seams_at<S: Side, G: Heights, T: Looked>(
    alloc: Global,
    sight: &Sight<G, T>,
) -> Result<Vec<Seam>, Memory>
    requires { IsSeen (T.map sight.now.tiles.now) (G.map sight.now.window.now) S.NAME
        (T.stamps sight.now.tiles.now) sight.now.parts.now sight.now.part.now sight.now.tiling
        sight.now.tile sight.now.area sight.now.frame }
    ensures { IfOk result (λ all. AreCandidates (T.map sight.now.tiles.now) S.NAME
        sight.now.tiling.side sight.now.tile (T.stamps sight.now.tiles.now)
        (IsAsked (T.map sight.now.tiles.now) sight.now.tiling.side sight.now.tile
        (T.stamps sight.now.tiles.now) sight.now.parts.now sight.now.frame
        (sight.now.frame.rows * sight.now.frame.columns)) all.items) }
{
    let mut all = Vec::new(alloc);
    for row in 0..sight.frame.rows {
        note_row::<S, G, T>(sight, row, &mut all)?;
    }
    Ok(all)
}
