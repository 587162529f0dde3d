// The pits to which first links lead, and their numbers.
ghost use Rattle.std.specs.Prelude.{◌≡◌, ◌≤◌, IfOk, length};
ghost use Rattle.hd_map.specs.Map.{cell_count};
ghost use Rattle.hd_map.specs.Pruning.{ArePits};
ghost use Rattle.hd_map.specs.Region.{IsPit};
ghost use Rattle.hd_steep.specs.Links.{AreLinks, IsRootAt};
ghost use Rattle.hd_steep.specs.Numbering.{AreWrittenAtPits};

use crate::points::point_at;
use hd_list::Memory;
use hd_map::{Heights, Rank, Side};
use std::alloc::Global;

/// Heights without any order have about one pit for nine points: memory is reserved for as many.
pub const POINTS_A_PIT: usize = 8;

/// The pits in position order: the points whose links lead to themselves. It takes 16 bytes a pit, at first for one
/// of eight points.
pub fn list_pits<S: Side, G: Heights>(
    alloc: Global,
    grid: &G,
    links: &[u32],
) -> Result<Vec<Rank>, Memory>
    requires { AreLinks (G.map grid.now) S.NAME links.now }
    ensures { IfOk result (λ pits. ArePits (G.map grid.now) S.NAME pits.items) }
{
    let mut pits = Vec::with_capacity(alloc, links.len() / POINTS_A_PIT)?;
    for index in 0..links.len() {
        if links[index] as usize == index {
            pits.push(pit_at::<S, G>(grid, index as u32))?;
        }
    }
    Ok(pits)
}

// The pit of an index.
fn pit_at<S: Side, G: Heights>(grid: &G, index: u32) -> Rank
    requires { IsRootAt (G.map grid.now) S.NAME index index }
    ensures pit { IsPit (G.map grid.now) S.NAME result }
    ensures index { result.index ≡ index }
{
    point_at(grid, index)
}

/// Writes its number at the index of each pit, counted from the first one.
pub fn write_at_pits<S: Side, G: Heights>(_grid: &G, pits: &[Rank], first: u32, numbers: &mut [u32])
    requires pits { ArePits (G.map _grid.now) S.NAME pits.now }
    requires first { first ≤ cell_count (G.map _grid.now).size }
    requires whole { length numbers.old ≡ cell_count (G.map _grid.now).size }
    ensures { AreWrittenAtPits (G.map _grid.now) S.NAME pits.now first numbers.old numbers.new }
{
    for number in 0..pits.len() {
        numbers[pits[number].index as usize] = first + number as u32;
    }
}
