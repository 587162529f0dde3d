// Links that lead to ends: made of first links, and made into the numbers of the pits, in place.
ghost use Rattle.std.specs.Prelude.{◌≡◌, ◌<◌, ◌≤◌, OnOk, length};
ghost use Rattle.hd_map.specs.Map.{cell_count, most_cells};
ghost use Rattle.hd_map.specs.Pruning.{ArePits};
ghost use Rattle.hd_steep.specs.Ends.{AreEndLinks, AreEnds, AreLed, AreToLast, HasEnds};
ghost use Rattle.hd_steep.specs.Links.{AreLinks};
ghost use Rattle.hd_steep.specs.Numbering.{AreNumbers};

use crate::links::NO_LINK;
use crate::pit_list::{POINTS_A_PIT, write_at_pits};
use hd_list::Memory;
use hd_map::{Heights, Rank, Side};

/// How many ends there is room for at first, where there are this many links.
pub fn room_for_ends(count: usize) -> usize
    requires { count ≤ most_cells }
    ensures { result ≤ most_cells }
{
    count / POINTS_A_PIT + 1
}

/// Leads the link of each pit to its end, and those of points that are not present to the last one. It takes 4 bytes
/// a pit.
pub fn add_ends<S: Side, G: Heights>(
    grid: &G,
    pits: &[Rank],
    links: &mut Vec<u32>,
) -> Result<(), Memory>
    requires pits { ArePits (G.map grid.now) S.NAME pits.now }
    requires links { AreLinks (G.map grid.now) S.NAME links.old.items }
    ensures { OnOk result (AreEndLinks (G.map grid.now) S.NAME pits.now links.new.items) }
{
    let count = links.len() as u32;
    let last = count + pits.len() as u32;
    write_at_pits::<S, G>(grid, pits, count, links);
    lead_absent(links, last);
    links.reserve(pits.len() + 1)?;
    push_ends(links, last)?;
    Ok(())
}

// Leads to the last end where there is no link.
fn lead_absent(links: &mut [u32], last: u32)
    ensures { AreToLast last links.old links.new }
{
    for index in 0..links.len() {
        let link = links[index];
        links[index] = if link == NO_LINK { last } else { link };
    }
}

// Adds the links of the ends.
fn push_ends(links: &mut Vec<u32>, last: u32) -> Result<(), Memory>
    requires after { length links.old.items ≤ last }
    requires room { last < 4294967295 }
    ensures { OnOk result (HasEnds last links.old.items links.new.items) }
{
    for end in links.len() as u32..last + 1 {
        links.push(end)?;
    }
    Ok(())
}

/// Makes of links that lead to ends the numbers of the pits.
pub fn number_by_ends<S: Side, G: Heights>(
    grid: &G,
    pits: &[Rank],
    links: &mut Vec<u32>,
    count: usize,
)
    requires links { AreEndLinks (G.map grid.now) S.NAME pits.now links.old.items }
    requires led { AreLed (G.map grid.now) links.old.items }
    requires count { count ≡ cell_count (G.map grid.now).size }
    ensures { AreNumbers (G.map grid.now) S.NAME pits.now links.new.items }
{
    links.truncate(count);
    count_ends::<S, G>(grid, pits, links);
}

// The same without the links of the ends.
fn count_ends<S: Side, G: Heights>(_grid: &G, _pits: &[Rank], links: &mut [u32])
    requires { AreEnds (G.map _grid.now) S.NAME _pits.now links.old }
    ensures { AreNumbers (G.map _grid.now) S.NAME _pits.now links.new }
{
    let first = links.len() as u32;
    for index in 0..links.len() {
        links[index] -= first;
    }
}
