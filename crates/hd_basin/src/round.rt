// The ranks of the positions of a part of a grid and of those beside it, and the lowest round each
// point.
ghost use Rattle.std.specs.Prelude.{◌≡◌, ◌<◌, ◌≤◌, ◌*◌, ◌+◌, IfOk, OnOk, length};
ghost use Rattle.hd_steep.specs.Lowest.{IsAtPlace, IsLow};
ghost use Rattle.hd_basin.specs.Frames.{FitsGrid, InFrame};
ghost use Rattle.hd_basin.specs.Round.{AreRanks, low_above, low_below, low_level, low_round};

use crate::frame::Frame;
use hd_list::Memory;
use hd_map::{Adjacency, Heights, Pos, Rank, Side, contains, index_of};
use hd_steep::{lower, missing_rank};
use std::alloc::Global;

/// The ranks of the positions of a part of a grid and of those beside it, profile by profile, with
/// `missing_rank` where no point is present and past the grid.
pub fn ranks_round<S: Side, G: Heights>(
    alloc: Global,
    grid: &G,
    area: Frame,
) -> Result<Vec<Rank>, Memory>
    requires fits { FitsGrid (G.map grid.now).size area }
    requires columns { area.columns ≤ 256 }
    requires rows { area.rows ≤ 256 }
    ensures { IfOk result (λ ranks. AreRanks (G.map grid.now) S.NAME area
        ((area.rows + 2) * (area.columns + 2)) ranks.items) }
{
    let count = (area.rows + 2) * (area.columns + 2);
    let mut ranks = Vec::with_capacity(alloc, count as usize)?;
    for row in 0..area.rows + 2 {
        push_row::<S, G>(grid, area, row, &mut ranks)?;
    }
    Ok(ranks)
}

// Adds the ranks of one profile.
fn push_row<S: Side, G: Heights>(
    grid: &G,
    area: Frame,
    row: u32,
    ranks: &mut Vec<Rank>,
) -> Result<(), Memory>
    requires fits { FitsGrid (G.map grid.now).size area }
    requires columns { area.columns ≤ 256 }
    requires row { row ≤ 257 }
    requires before { AreRanks (G.map grid.now) S.NAME area (row * (area.columns + 2)) ranks.old.items }
    ensures { OnOk result (AreRanks (G.map grid.now) S.NAME area
        ((row + 1) * (area.columns + 2)) ranks.new.items) }
{
    for column in 0..area.columns + 2 {
        let rank = rank_at::<S, G>(grid, area.left + column, area.top + row);
        ranks.push(rank)?;
    }
    Ok(())
}

// The rank of the point at a place, counted from 1, if one is present there.
fn rank_at<S: Side, G: Heights>(grid: &G, place: u32, profile: u32) -> Rank
    ensures { IsLow (G.map grid.now) S.NAME (IsAtPlace profile place) result }
{
    if place == 0 || profile == 0 {
        return missing_rank::<S>();
    }
    let at = Pos {
        x: place - 1,
        y: profile - 1,
    };
    if !contains(grid.size(), at) {
        return missing_rank::<S>();
    }
    match grid.height(at) {
        Some(height) => Rank {
            height,
            index: index_of(grid.size(), at),
        },
        None => missing_rank::<S>(),
    }
}

/// The rank of the point at a position of the part, if one is present there.
#[inline]
pub fn rank_in<S: Side, G: Heights>(grid: &G, area: Frame, ranks: &[Rank], at: Pos) -> Rank
    requires ranks { AreRanks (G.map grid.now) S.NAME area ((area.rows + 2) * (area.columns + 2)) ranks.now }
    requires columns { area.columns ≤ 256 }
    requires rows { area.rows ≤ 256 }
    requires at { InFrame area at }
    ensures { IsLow (G.map grid.now) S.NAME (IsAtPlace (at.y + 1) (at.x + 1)) result }
{
    rank_beside::<S, G>(grid, area, ranks, at, 1, 1)
}

/// The rank of the point at one of the nine positions round one of the part, if one is present there.
#[inline]
pub fn rank_beside<S: Side, G: Heights>(
    _grid: &G,
    area: Frame,
    ranks: &[Rank],
    at: Pos,
    right: u32,
    down: u32,
) -> Rank
    requires ranks { AreRanks (G.map _grid.now) S.NAME area ((area.rows + 2) * (area.columns + 2)) ranks.now }
    requires columns { area.columns ≤ 256 }
    requires rows { area.rows ≤ 256 }
    requires at { InFrame area at }
    requires right { right ≤ 2 }
    requires down { down ≤ 2 }
    ensures { IsLow (G.map _grid.now) S.NAME (IsAtPlace (at.y + down) (at.x + right)) result }
{
    let row = at.y - area.top + down;
    let column = at.x - area.left + right;
    ranks[(row * (area.columns + 2) + column) as usize]
}

/// The lowest of a point and its neighbours, from the ranks in rows of this width; the first of the
/// nine round it is that of this number.
#[inline]
pub fn lowest_round<S: Side>(
    adjacency: Adjacency,
    ranks: &[Rank],
    width: usize,
    first: usize,
) -> Rank
    requires width { width ≤ 258 }
    requires inside { first + 2 * width + 2 < length ranks.now }
    ensures { result ≡ low_round S.NAME adjacency ranks.now width first }
{
    let level = first + width;
    let below = level + width;
    let one = lowest_above::<S>(adjacency, ranks[first], ranks[first + 1], ranks[first + 2]);
    let two = lowest_level::<S>(ranks[level], ranks[level + 1], ranks[level + 2]);
    let three = lowest_below::<S>(adjacency, ranks[below], ranks[below + 1], ranks[below + 2]);
    lower::<S>(lower::<S>(one, two), three)
}

// Of three ranks in the profile above a point the lowest of those beside it.
#[inline]
fn lowest_above<S: Side>(adjacency: Adjacency, left: Rank, middle: Rank, right: Rank) -> Rank
    ensures { result ≡ low_above S.NAME adjacency left middle right }
{
    match adjacency {
        Adjacency::Four => middle,
        Adjacency::Six => lower::<S>(left, middle),
        Adjacency::Eight => lowest_level::<S>(left, middle, right),
    }
}

// Of three ranks in the profile below a point the lowest of those beside it.
#[inline]
fn lowest_below<S: Side>(adjacency: Adjacency, left: Rank, middle: Rank, right: Rank) -> Rank
    ensures { result ≡ low_below S.NAME adjacency left middle right }
{
    match adjacency {
        Adjacency::Four => middle,
        Adjacency::Six => lower::<S>(middle, right),
        Adjacency::Eight => lowest_level::<S>(left, middle, right),
    }
}

// The lowest of three ranks.
#[inline]
fn lowest_level<S: Side>(left: Rank, middle: Rank, right: Rank) -> Rank
    ensures { result ≡ low_level S.NAME left middle right }
{
    lower::<S>(lower::<S>(left, middle), right)
}
