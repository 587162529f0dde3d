// A profile of a map as a row of keys.
ghost use Rattle.std.specs.Prelude.{◌≡◌, ◌<◌, ◌≤◌, ◌+◌, IfOk, length};
ghost use Rattle.std.specs.Bool.{OnTrue, OnFalse};
ghost use Rattle.hd_steep.specs.KeyRows.{AreFramed, AreKeysOf, IsEmpty, IsKeyRow};
ghost use Rattle.hd_map.specs.declared.types.SideName.TheVariants.{Dales};
ghost use Rattle.hd_steep.specs.Keys.{ArePlain, AreTurned, IsBeyond};

use hd_list::Memory;
use hd_map::{Heights, Lane, Side, SideName};
use std::alloc::Global;

/// A profile as a row of keys, with an empty place on each side.
#[derive(Drop)]
pub struct Row<L> {
    /// The index of the point of its first column.
    pub first: u32,
    /// The keys by place: that of a column is one more than its own.
    pub keys: Vec<L>,
}

impl<L: Lane> Row<L> {
    /// A row of this many columns in which no point is present.
    pub fn empty(alloc: Global, points: u32) -> Result<Row<L>, Memory>
        requires { points ≤ 65535 }
        ensures first { IfOk result (λ row. row.first ≡ 0) }
        ensures keys { IfOk result (λ row. IsEmpty L.code (points + 2) row.keys.items) }
    {
        let places = points as usize + 2;
        let mut keys = Vec::with_capacity(alloc, places)?;
        for _place in 0..places {
            keys.push(L::missing())?;
        }
        Ok(Row { first: 0, keys })
    }

    /// Takes the points of a profile of the grid, and tells whether all heights are near enough to zero. Past the last
    /// profile no point is present.
    pub fn take<S: Side, G: Heights>(&mut self, grid: &G, y: u32) -> bool
        requires profile { y ≤ (G.map grid.now).size.profiles }
        requires room { AreFramed L.code (G.map grid.now).size.points self.old.keys.items }
        ensures row { OnTrue result (IsKeyRow L.code S.NAME (G.map grid.now) (y + 1) self.new) }
        ensures far { OnFalse result (IsBeyond L.code (G.map grid.now)) }
    {
        let size = grid.size();
        self.first = y * size.points;
        if y < size.profiles {
            fill_keys::<S, L, G>(grid, y, &mut self.keys)
        } else {
            fill_missing(&mut self.keys);
            true
        }
    }
}

// Writes the keys of a profile into a row, and tells whether all heights are near enough to zero.
fn fill_keys<S: Side, L: Lane, G: Heights>(grid: &G, y: u32, keys: &mut [L]) -> bool
    requires profile { y < (G.map grid.now).size.profiles }
    requires framed { AreFramed L.code (G.map grid.now).size.points keys.old }
    ensures keys { OnTrue result (AreKeysOf L.code S.NAME (G.map grid.now) y keys.new) }
    ensures far { OnFalse result (IsBeyond L.code (G.map grid.now)) }
{
    let end = keys.len() - 1;
    if !grid.fill_heights(y, &mut keys[1..end]) {
        return false;
    }
    turn_to_side::<S, L>(keys);
    true
}

// Makes heights keys of the side.
fn turn_to_side<S: Side, L: Lane>(keys: &mut [L])
    requires { ArePlain L.code keys.old }
    ensures { AreTurned L.code S.NAME keys.old keys.new }
{
    match S::NAME {
        SideName::Dales => negate(keys),
        SideName::Hills => {}
    }
}

// Makes each height its negative.
fn negate<L: Lane>(keys: &mut [L])
    requires { ArePlain L.code keys.old }
    ensures { AreTurned L.code Dales keys.old keys.new }
{
    for x in 0..keys.len() {
        keys[x] = keys[x].negated();
    }
}

// Makes a row one in which no point is present.
fn fill_missing<L: Lane>(keys: &mut [L])
    ensures { IsEmpty L.code (length keys.old) keys.new }
{
    for key in keys.iter_mut() {
        *key = L::missing();
    }
}
