// The first link of each point, to its next, and of a pit to itself. Profiles are looked at by
// threes, so that each height is read once.
ghost use Rattle.std.specs.Prelude.{◌≡◌, ◌<◌, ◌≤◌, ◌*◌, IfOk, MatchOption, length};
ghost use Rattle.hd_map.specs.declared.types.Rank.{Rank};
ghost use Rattle.hd_map.specs.Map.{most_cells};
ghost use Rattle.hd_steep.specs.FirstLinks.{AreFirstLinks, AreFirstLinksFrom};
ghost use Rattle.hd_steep.specs.KeyRows.{AreRowsRound};
ghost use Rattle.hd_steep.specs.Keys.{IsBeyond};
ghost use Rattle.hd_steep.specs.Linked.{AreLinked, AreRowsFor, IsLinkTo, IsLowOf};

use crate::low::{Low, low_above, low_below, low_of_three, lower_key};
use crate::rolling::Rows;
use hd_list::Memory;
use hd_map::{Adjacency, Heights, Lane, Side};
use std::alloc::Global;

/// Stands where there is no link, since no point is present. It is above each index.
pub const NO_LINK: u32 = u32::MAX;

/// By index the link of each present point to the lowest of itself and its neighbours, and
/// `NO_LINK` for the others. There is room for this many more.
///
/// It takes 4 bytes a point, 4 for each more, and 16 a column, or 28 a column where a height is more than 2 ^ 29
/// steps from zero.
pub fn first_links<S: Side, G: Heights>(
    alloc: Global,
    grid: &G,
    more: usize,
) -> Result<Vec<u32>, Memory>
    requires { more ≤ most_cells }
    ensures { IfOk result (λ links. AreFirstLinks (G.map grid.now) S.NAME links.items) }
{
    if let Some(links) = linked::<S, i32, G>(alloc, grid, more)? {
        return Ok(links);
    }
    match linked::<S, i64, G>(alloc, grid, more)? {
        Some(links) => Ok(links),
        None => unreachable!(),
    }
}

// The first links by keys of one type, unless a height is too far from zero for these.
fn linked<S: Side, L: Lane, G: Heights>(
    alloc: Global,
    grid: &G,
    more: usize,
) -> Result<Option<Vec<u32>>, Memory>
    requires { more ≤ most_cells }
    ensures { let m = G.map grid.now in IfOk result (λ found. MatchOption found (IsBeyond L.code m)
        (λ links. AreFirstLinks m S.NAME links.items)) }
{
    let size = grid.size();
    let width = size.points as usize;
    let Some(mut rows) = Rows::<L>::before::<S, G>(alloc, grid, 0)? else {
        return Ok(None);
    };
    let mut links = Vec::with_capacity(alloc, width * size.profiles as usize + more)?;
    let mut row = vec![in alloc; NO_LINK; width]?;
    'profiles: for y in 0..size.profiles {
        if !rows.advance::<S, G>(grid, y) {
            return Ok(None);
        }
        link_profile::<S, L, G>(grid, y, &rows, &mut row);
        links.extend_from_slice(&row)?;
    }
    Ok(Some(links))
}

// The links of a profile, from the one before, itself and the one after.
fn link_profile<S: Side, L: Lane, G: Heights>(grid: &G, _y: u32, rows: &Rows<L>, links: &mut [u32])
    requires profile { _y < (G.map grid.now).size.profiles }
    requires round { AreRowsRound L.code S.NAME (G.map grid.now) _y rows.now }
    requires links { length links.old ≡ (G.map grid.now).size.points }
    ensures { AreFirstLinksFrom (G.map grid.now) S.NAME (_y * (G.map grid.now).size.points) links.new }
{
    match grid.adjacency() {
        Adjacency::Four => link_row::<S, L>(Adjacency::Four, rows, links),
        Adjacency::Six => link_row::<S, L>(Adjacency::Six, rows, links),
        Adjacency::Eight => link_row::<S, L>(Adjacency::Eight, rows, links),
    }
}

// The link at each place of the middle row, to the lowest of those that are beside it or one. The call names the
// setting, so that the code for it does not ask for the setting at each place, and nothing branches.
#[inline(always)]
fn link_row<S: Side, L: Lane>(adjacency: Adjacency, rows: &Rows<L>, links: &mut [u32])
    requires { AreRowsFor L.code (length links.old) rows.now }
    ensures whole { length links.new ≡ length links.old }
    ensures linked { AreLinked L.code S.NAME adjacency rows.now links.new }
{
    let above: &[L] = &rows.above.keys;
    let level: &[L] = &rows.level.keys;
    let below: &[L] = &rows.below.keys;
    for x in 0..links.len() {
        let earlier = low_above::<S, L>(adjacency, above, rows.above.first, x);
        let beside = low_of_three::<S, L>(level, rows.level.first, x);
        let later = low_below::<S, L>(adjacency, below, rows.below.first, x);
        let two = lower_key::<S, L>(earlier, beside);
        let lowest = lower_key::<S, L>(two, later);
        links[x] = link_to::<S, L>(level[x + 1], lowest);
    }
}

// The link of a point to the lowest of it and those round it, if it is present.
#[inline(always)]
fn link_to<S: Side, L: Lane>(own: L, lowest: Low<L>) -> u32
    ensures { (rank : Rank) → IsLowOf L.code S.NAME rank lowest → IsLinkTo L.code S.NAME own rank result }
{
    if own.is_shown() {
        lowest.index
    } else {
        NO_LINK
    }
}
