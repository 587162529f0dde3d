// The passes at points whose lower neighbours fall into several groups.
ghost use Rattle.std.specs.Prelude.{◌≡◌, ◌≤◌, ◌+◌, ◌*◌, length, take, All, IfOk, IfSome, MatchOption};
ghost use Rattle.hd_map.specs.Crossings.{AreCrossingsUnder};
ghost use Rattle.hd_map.specs.Map.{position_at};
ghost use Rattle.hd_map.specs.Rank.{rank};
ghost use Rattle.hd_steep.specs.Crossings.{AreCrossingsAt, HasPits, IsCrossingAlong, IsNumberAt, pass_of, passes_of};
ghost use Rattle.hd_steep.specs.Descending.{HasDescended};
ghost use Rattle.hd_steep.specs.Descents.{IsDescentFrom};
ghost use Rattle.hd_steep.specs.KeyRows.{IsKeyRow};
ghost use Rattle.hd_steep.specs.Keys.{IsBeyond, IsKey, on_side};
ghost use Rattle.hd_steep.specs.Links.{HasPointAt};
ghost use Rattle.hd_steep.specs.Numbering.{AreNumbered, roots_of};
ghost use Rattle.hd_steep.specs.Passes.{pass_between};

use crate::descending::Descending;
use crate::descent::Descent;
use crate::numbering::Regions;
use crate::put::put;
use crate::row::Row;
use hd_list::{List, Memory};
use hd_map::{Heights, Lane, Link, Pass, Rank, Side, SideName};
use std::alloc::Global;

// Stands where no link was put.
const SPARE: Link = Link {
    a: 0,
    b: 0,
    at: Rank {
        height: 0,
        index: 0,
    },
};

/// Passes between these regions that are enough to tell at which heights regions are joined: where
/// two of them meet, passes that are not above the meeting lead from one to the other.
///
/// The regions are those that `find_regions` gives for this grid and side. There may be several
/// passes for two regions, or none; `passes` gives one for each two that meet. Measured, it takes
/// time in proportion to the points, and memory for the passes, at first for one of three points,
/// and 281 bytes a column, or 293 where a height is more than 2 ^ 29 steps from zero; of these 192
/// are room for eight passes.
pub fn crossings<S: Side, G: Heights>(
    alloc: Global,
    grid: &G,
    regions: &Regions,
) -> Result<List<Link>, Memory>
    requires { AreNumbered (G.map grid.now) S.NAME regions.now }
    ensures passes { IfOk result (λ xs. AreCrossingsUnder (G.map grid.now) S.NAME
        (roots_of regions.now) (passes_of S.NAME regions.now.pits xs)) }
    ensures pits { IfOk result (All (HasPits regions.now.pits)) }
{
    if let Some(crossings) = found_crossings::<S, i32, G>(alloc, grid, regions)? {
        return Ok(crossings);
    }
    match found_crossings::<S, i64, G>(alloc, grid, regions)? {
        Some(crossings) => Ok(crossings),
        None => unreachable!(),
    }
}

/// The passes of crossings between these regions, each with the pits that it joins, the lower one first.
pub fn passes_of<S: Side>(
    alloc: Global,
    regions: &Regions,
    crossings: &[Link],
) -> Result<List<Pass>, Memory>
    requires { All (HasPits regions.now.pits) crossings.now }
    ensures { IfOk result (λ passes. passes ≡ passes_of S.NAME regions.now.pits crossings.now) }
{
    let mut passes = List::with_capacity(alloc, crossings.len())?;
    for crossing in crossings {
        passes.push(pass_of::<S>(regions, *crossing))?;
    }
    Ok(passes)
}

// The pass of a crossing.
#[inline]
fn pass_of<S: Side>(regions: &Regions, crossing: Link) -> Pass
    requires { HasPits regions.now.pits crossing }
    ensures { result ≡ pass_of S.NAME regions.now.pits crossing }
{
    let Link { a, b, at } = crossing;
    let pits = regions.pits();
    pass_between::<S>(pits[a as usize], pits[b as usize], at)
}

/// The pass between two pits, the lower one first.
#[inline]
pub fn pass_between<S: Side>(one: Rank, other: Rank, at: Rank) -> Pass
    ensures { result ≡ pass_between S.NAME one other at }
{
    if S::below(one, other) {
        Pass {
            a: one,
            b: other,
            at,
        }
    } else {
        Pass {
            a: other,
            b: one,
            at,
        }
    }
}

// The same by keys of one type, unless a height is too far from zero for these.
fn found_crossings<S: Side, L: Lane, G: Heights>(
    alloc: Global,
    grid: &G,
    regions: &Regions,
) -> Result<Option<List<Link>>, Memory>
    requires { AreNumbered (G.map grid.now) S.NAME regions.now }
    ensures passes { let m = G.map grid.now in IfOk result (λ found. MatchOption found (IsBeyond L.code m)
        (λ xs. AreCrossingsUnder m S.NAME (roots_of regions.now) (passes_of S.NAME regions.now.pits xs))) }
    ensures pits { IfOk result (λ found. IfSome found (All (HasPits regions.now.pits))) }
{
    let Some(mut descending) = Descending::<L>::before::<S, G>(alloc, grid, 0)? else {
        return Ok(None);
    };
    // a point has eight lower neighbours at most
    let mut room = vec![in alloc; SPARE; 8 * grid.size().points as usize]?;
    // heights without any order have about one pass for three points
    let mut crossings = Vec::with_capacity(alloc, regions.len() / 3)?;
    'profiles: for y in 0..grid.size().profiles {
        if !descending.advance::<S, G>(grid, y) {
            return Ok(None);
        }
        let count = cross_profile::<S, L, G>(grid, regions, &descending, y, &mut room);
        crossings.extend_from_slice(&room[..count])?;
    }
    Ok(Some(List::from_vec(crossings)))
}

// Finds the crossings along the descents from the points of a profile, and tells how many they are.
fn cross_profile<S: Side, L: Lane, G: Heights>(
    grid: &G,
    regions: &Regions,
    descending: &Descending<L>,
    y: u32,
    room: &mut [Link],
) -> usize
    requires regions { AreNumbered (G.map grid.now) S.NAME regions.now }
    requires descended { HasDescended L.code S.NAME (G.map grid.now) y descending.now }
    requires room { 8 * (G.map grid.now).size.points ≤ length room.old }
    ensures crosses { AreCrossingsAt (G.map grid.now) S.NAME regions.now.pits (λ u. u.y ≡ y)
        (take result room.new) }
    ensures few { result ≤ length room.old }
{
    let level = descending.level();
    let descents = descending.descents();
    let mut count = 0;
    for descent in descents {
        let crossing = crossing_along::<S, L, G>(grid, regions, level, y, *descent);
        count = put(room, count, crossing, crossing.a != crossing.b);
    }
    count
}

// The crossing along a descent from a point of a profile. Where both its ends lie in one region, it names that twice.
#[inline(always)]
fn crossing_along<S: Side, L: Lane, G: Heights>(
    _grid: &G,
    regions: &Regions,
    level: &Row<L>,
    _y: u32,
    descent: Descent,
) -> Link
    requires regions { AreNumbered (G.map _grid.now) S.NAME regions.now }
    requires level { IsKeyRow L.code S.NAME (G.map _grid.now) (_y + 1) level.now }
    requires descent { IsDescentFrom (G.map _grid.now) S.NAME (λ u. u.y ≡ _y) descent }
    ensures { IsCrossingAlong (G.map _grid.now) S.NAME regions.now.pits descent result }
{
    Link {
        a: number_of::<S, G>(_grid, regions, descent.from),
        b: number_of::<S, G>(_grid, regions, descent.to),
        at: higher_end::<S, L, G>(_grid, level, _y, descent),
    }
}

// The point of a profile from which a descent leads.
#[inline(always)]
fn higher_end<S: Side, L: Lane, G: Heights>(
    _grid: &G,
    level: &Row<L>,
    _y: u32,
    descent: Descent,
) -> Rank
    requires level { IsKeyRow L.code S.NAME (G.map _grid.now) (_y + 1) level.now }
    requires descent { IsDescentFrom (G.map _grid.now) S.NAME (λ u. u.y ≡ _y) descent }
    ensures { result ≡ rank (G.map _grid.now) (position_at (G.map _grid.now).size descent.from) }
{
    let index = descent.from;
    let column = (index - level.first) as usize;
    match height_of::<S, L>(level.keys[column + 1]) {
        Some(height) => Rank { height, index },
        None => unreachable!(),
    }
}

// The number of the pit in whose region the point of an index lies.
#[inline(always)]
fn number_of<S: Side, G: Heights>(_grid: &G, regions: &Regions, index: u32) -> u32
    requires regions { AreNumbered (G.map _grid.now) S.NAME regions.now }
    requires point { HasPointAt (G.map _grid.now) index }
    ensures { IsNumberAt (G.map _grid.now) S.NAME regions.now.pits index result }
{
    match regions.number(index as usize) {
        Some(number) => number,
        None => unreachable!(),
    }
}

// The height for which a key stands.
#[inline(always)]
fn height_of<S: Side, L: Lane>(key: L) -> Option<i64>
    requires { IsKey L.code key }
    ensures { result ≡ on_side S.NAME (L.code.shown key) }
{
    match S::NAME {
        SideName::Dales => key.negated().height(),
        SideName::Hills => key.height(),
    }
}
