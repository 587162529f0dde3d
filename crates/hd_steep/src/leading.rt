// Links led on to ends, in place: most of them by two sweeps, the rest by walks.
ghost use Rattle.std.specs.Prelude.{◌≡◌, ◌<◌, ◌≤◌, length, slice_index};
ghost use Rattle.hd_map.specs.Map.{cell_count};
ghost use Rattle.hd_steep.specs.Ends.{AreEndLinks, AreLed, KeepEnds, LeadsToEnd};

use hd_map::{Heights, Rank, Side};

/// Leads each link on by one link, from the first point to the last: a way against this order leads to its end by it.
pub fn sweep<S: Side, G: Heights>(_grid: &G, _pits: &[Rank], links: &mut [u32], count: usize)
    requires links { AreEndLinks (G.map _grid.now) S.NAME _pits.now links.old }
    requires count { count ≡ cell_count (G.map _grid.now).size }
    ensures { AreEndLinks (G.map _grid.now) S.NAME _pits.now links.new }
{
    for index in 0..count {
        links[index] = links[links[index] as usize];
    }
}

/// Leads the link of each point to its end: on by one link, from the last point to the first, and by a walk where that is
/// not enough.
pub fn lead_to_ends<S: Side, G: Heights>(grid: &G, pits: &[Rank], links: &mut [u32], count: usize)
    requires links { AreEndLinks (G.map grid.now) S.NAME pits.now links.old }
    requires count { count ≡ cell_count (G.map grid.now).size }
    ensures links { AreEndLinks (G.map grid.now) S.NAME pits.now links.new }
    ensures led { AreLed (G.map grid.now) links.new }
{
    for index in (0..count).rev() {
        let link = links[links[index] as usize];
        links[index] = link;
        if (link as usize) < count {
            let end = end_from::<S, G>(grid, pits, links, count, index);
            lead_to::<S, G>(grid, pits, links, count, index, end);
        }
    }
}

// The end to which the way of the point at an index leads, by walking along the links.
fn end_from<S: Side, G: Heights>(
    _grid: &G,
    _pits: &[Rank],
    links: &[u32],
    count: usize,
    start: usize,
) -> usize
    requires links { AreEndLinks (G.map _grid.now) S.NAME _pits.now links.now }
    requires count { count ≡ cell_count (G.map _grid.now).size }
    requires inside { start < count }
    ensures past { count ≤ result }
    ensures inside { result < length links.now }
    ensures end { LeadsToEnd (G.map _grid.now) S.NAME _pits.now start result }
{
    let mut here = links[start] as usize;
    'walk: while here < count {
        here = links[here] as usize;
    }
    here
}

// Leads each point on the way from an index to this end.
fn lead_to<S: Side, G: Heights>(
    _grid: &G,
    _pits: &[Rank],
    links: &mut [u32],
    count: usize,
    start: usize,
    end: usize,
)
    requires links { AreEndLinks (G.map _grid.now) S.NAME _pits.now links.old }
    requires count { count ≡ cell_count (G.map _grid.now).size }
    requires start { start < count }
    requires past { count ≤ end }
    requires inside { end < length links.old }
    requires end { LeadsToEnd (G.map _grid.now) S.NAME _pits.now start end }
    ensures links { AreEndLinks (G.map _grid.now) S.NAME _pits.now links.new }
    ensures led { count ≤ slice_index links.new start }
    ensures kept { KeepEnds (G.map _grid.now) links.old links.new }
{
    let mut here = start;
    'walk: while here < count {
        let onward = links[here] as usize;
        links[here] = end as u32;
        here = onward;
    }
}
