// Which points of a profile become others by the numbers of a row.
ghost use Rattle.std.specs.Prelude.{◌≡◌, ◌<◌, ◌≤◌, length, MatchOption};
ghost use Rattle.std.specs.Bool.{OnFalse, OnTrue};
ghost use Rattle.hd_map.specs.Encoding.{values_of};
ghost use Rattle.hd_map.specs.Map.{InGrid};
ghost use Rattle.hd_tiles.specs.Profile.{AllStay, Changes, IsFirstChange, IsLastChange, Stays};

use hd_map::{Cell, Grid, Lane, Pos};

// Whether the cell of a point becomes another by the number of its column.
#[inline]
fn changes<G: Grid, L: Lane>(grid: &G, at: Pos, row: &[L]) -> bool
    requires in_grid { InGrid (G.map grid.now).size at }
    requires columns { length row.now ≡ (G.map grid.now).size.points }
    ensures changes { OnTrue result (Changes (G.map grid.now) at.y (values_of L.code row.now) at.x) }
    ensures stays { OnFalse result (Stays (G.map grid.now) at.y (values_of L.code row.now) at.x) }
{
    match row[at.x as usize].height() {
        Some(height) => grid.cell(at) != Cell::Height(height),
        None => false,
    }
}

/// The first of some columns of a profile whose cell becomes another.
pub fn first_change<G: Grid, L: Lane>(
    grid: &G,
    y: u32,
    row: &[L],
    from: u32,
    to: u32,
) -> Option<u32>
    requires profile { y < (G.map grid.now).size.profiles }
    requires columns { length row.now ≡ (G.map grid.now).size.points }
    requires to { to ≤ (G.map grid.now).size.points }
    ensures { MatchOption result (AllStay (G.map grid.now) y (values_of L.code row.now) from to)
        (IsFirstChange (G.map grid.now) y (values_of L.code row.now) from to) }
{
    for x in from..to {
        if changes(grid, Pos { x, y }, row) {
            return Some(x);
        }
    }
    None
}

/// The last of some columns of a profile whose cell becomes another, where that of the first one does.
pub fn last_change<G: Grid, L: Lane>(grid: &G, y: u32, row: &[L], from: u32, to: u32) -> u32
    requires profile { y < (G.map grid.now).size.profiles }
    requires columns { length row.now ≡ (G.map grid.now).size.points }
    requires to { to ≤ (G.map grid.now).size.points }
    requires some { from < to }
    requires changes { Changes (G.map grid.now) y (values_of L.code row.now) from }
    ensures { IsLastChange (G.map grid.now) y (values_of L.code row.now) from to result }
{
    for passed in 0..to - from - 1 {
        let x = to - 1 - passed;
        if changes(grid, Pos { x, y }, row) {
            return x;
        }
    }
    from
}
