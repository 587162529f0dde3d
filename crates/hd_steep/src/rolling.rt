// Three profiles as rows of keys, which roll over the map.
ghost use Rattle.std.specs.Prelude.{◌<◌, ◌≤◌, ◌+◌, IfOk, MatchOption};
ghost use Rattle.std.specs.Bool.{OnTrue, OnFalse};
ghost use Rattle.hd_steep.specs.KeyRows.{AreRowsRound, AreRowsBefore, IsKeyRow};
ghost use Rattle.hd_steep.specs.Keys.{IsBeyond};

use crate::row::Row;
use hd_list::Memory;
use hd_map::{Heights, Lane, Side};
use std::alloc::Global;
use std::mem::swap;

/// Three profiles, one after the other, as rows of keys.
#[derive(Drop)]
pub struct Rows<L> {
    pub above: Row<L>,
    pub level: Row<L>,
    pub below: Row<L>,
}

impl<L: Lane> Rows<L> {
    /// The rows before those of a profile, unless a height is too far from zero.
    pub fn before<S: Side, G: Heights>(
        alloc: Global,
        grid: &G,
        y: u32,
    ) -> Result<Option<Rows<L>>, Memory>
        requires { y ≤ (G.map grid.now).size.profiles }
        ensures { let m = G.map grid.now in IfOk result (λ found. MatchOption found (IsBeyond L.code m)
            (AreRowsBefore L.code S.NAME m y)) }
    {
        let above = Row::empty(alloc, grid.size().points)?;
        let Some(level) = row_before::<S, L, G>(alloc, grid, y)? else {
            return Ok(None);
        };
        let Some(below) = row_before::<S, L, G>(alloc, grid, y + 1)? else {
            return Ok(None);
        };
        Ok(Some(Rows {
            above,
            level,
            below,
        }))
    }

    /// Goes on to the rows of a profile, and tells whether all heights are near enough to zero. Past the last one no
    /// point is present.
    pub fn advance<S: Side, G: Heights>(&mut self, grid: &G, y: u32) -> bool
        requires profile { y < (G.map grid.now).size.profiles }
        requires rows { AreRowsBefore L.code S.NAME (G.map grid.now) y self.old }
        ensures rows { OnTrue result (AreRowsRound L.code S.NAME (G.map grid.now) y self.new) }
        ensures far { OnFalse result (IsBeyond L.code (G.map grid.now)) }
    {
        swap(&mut self.above, &mut self.level);
        swap(&mut self.level, &mut self.below);
        self.below.take::<S, G>(grid, y + 1)
    }
}

// The row of the profile before this one, unless a height is too far from zero. Before the first no point is present.
fn row_before<S: Side, L: Lane, G: Heights>(
    alloc: Global,
    grid: &G,
    y: u32,
) -> Result<Option<Row<L>>, Memory>
    requires { y ≤ (G.map grid.now).size.profiles + 1 }
    ensures { let m = G.map grid.now in IfOk result (λ found. MatchOption found (IsBeyond L.code m)
        (IsKeyRow L.code S.NAME m y)) }
{
    let mut row = Row::empty(alloc, grid.size().points)?;
    if y == 0 {
        return Ok(Some(row));
    }
    if !row.take::<S, G>(grid, y - 1) {
        return Ok(None);
    }
    Ok(Some(row))
}
