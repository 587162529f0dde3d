// The descents from the points of one profile after the other.
ghost use Rattle.std.specs.Prelude.{◌≡◌, ℕ, ◌<◌, ◌≤◌, ◌+◌, ◌*◌, IfOk, MatchOption, Contains, [], length, take};
ghost use Rattle.std.specs.Bool.{OnTrue, OnFalse};
ghost use Rattle.hd_map.specs.Map.{Present};
ghost use Rattle.hd_steep.specs.Descended.{Descends, indexes_round, with_descent_if, with_descents};
ghost use Rattle.hd_steep.specs.Descending.{IsBefore, HasDescended, descents_of};
ghost use Rattle.hd_steep.specs.KeyRows.{AreRowsRound};
ghost use Rattle.hd_steep.specs.Keys.{IsBeyond};
ghost use Rattle.hd_steep.specs.LowerPlaces.{AreLowerPlaces};

use crate::descent::Descent;
use crate::lower_places::{LowerPlaces, find_several, list_marked};
use crate::places::marked;
use crate::put::put;
use crate::rolling::Rows;
use crate::row::Row;
use hd_list::Memory;
use hd_map::{Heights, Lane, Pos, Side};
use std::alloc::Global;

// Stands where no descent was put.
const SPARE: Descent = Descent { from: 0, to: 0 };

/// Three profiles that roll over the map, and the descents from the points of the one in the middle.
#[derive(Drop)]
pub struct Descending<L> {
    pub rows: Rows<L>,
    pub lower: LowerPlaces,
    /// By column whether several of the places round it are marked.
    pub several: Vec<bool>,
    /// Room for the columns of the points from which descents lead.
    pub columns: Vec<u32>,
    /// The descents, and room for more.
    pub descents: Vec<Descent>,
    /// How many descents there are.
    pub count: usize,
}

impl<L: Lane> Descending<L> {
    /// It stands before a profile, unless a height is too far from zero.
    pub fn before<S: Side, G: Heights>(
        alloc: Global,
        grid: &G,
        y: u32,
    ) -> Result<Option<Descending<L>>, Memory>
        requires { y ≤ (G.map grid.now).size.profiles }
        ensures { let m = G.map grid.now in IfOk result (λ found. MatchOption found (IsBeyond L.code m)
            (IsBefore L.code S.NAME m y)) }
    {
        let columns = grid.size().points as usize;
        let Some(rows) = Rows::before::<S, G>(alloc, grid, y)? else {
            return Ok(None);
        };
        Ok(Some(Descending {
            rows,
            lower: LowerPlaces::with_columns(alloc, columns)?,
            several: vec![in alloc; false; columns]?,
            columns: vec![in alloc; 0; columns]?,
            // a point has eight lower neighbours at most
            descents: vec![in alloc; SPARE; 8 * columns]?,
            count: 0,
        }))
    }

    /// Goes on to the descents from the points of a profile, unless a height is too far from zero.
    pub fn advance<S: Side, G: Heights>(&mut self, grid: &G, y: u32) -> bool
        requires profile { y < (G.map grid.now).size.profiles }
        requires before { IsBefore L.code S.NAME (G.map grid.now) y self.old }
        ensures descended { OnTrue result (HasDescended L.code S.NAME (G.map grid.now) y self.new) }
        ensures far { OnFalse result (IsBeyond L.code (G.map grid.now)) }
    {
        if !self.rows.advance::<S, G>(grid, y) {
            return false;
        }
        let columns = self.several.len();
        self.lower.tell::<S, L>(columns, &self.rows);
        find_several(grid.adjacency(), &self.lower, &mut self.several);
        let level = self.rows.level.keys.as_slice();
        let listed = list_marked(&self.several, level, &mut self.columns);
        let columns = &self.columns[..listed];
        let room = &mut self.descents;
        self.count = descend_columns::<S, L, G>(grid, y, &self.rows, &self.lower, columns, room);
        true
    }

    /// The profile in the middle.
    #[inline]
    pub fn level(&self) -> &Row<L>
        ensures { result.now ≡ self.now.rows.level }
    {
        &self.rows.level
    }

    /// The descents from its points.
    #[inline]
    pub fn descents(&self) -> &[Descent]
        requires { self.now.count ≤ length self.now.descents.items }
        ensures { result.now ≡ descents_of self.now }
    {
        &self.descents[..self.count]
    }
}

// Finds the descents from the points of these columns, at each of which one is present, and tells how many they are.
fn descend_columns<S: Side, L: Lane, G: Heights>(
    grid: &G,
    y: u32,
    rows: &Rows<L>,
    lower: &LowerPlaces,
    columns: &[u32],
    room: &mut [Descent],
) -> usize
    requires rows { AreRowsRound L.code S.NAME (G.map grid.now) y rows.now }
    requires lower { AreLowerPlaces L.code S.NAME (G.map grid.now).size.points rows.now lower.now }
    requires present { (x : ℕ) → Contains columns.now x → Present (G.map grid.now) (record { x = x; y = y }) }
    requires room { 8 * length columns.now ≤ length room.old }
    ensures descends { Descends (G.map grid.now) S.NAME (λ u. (u.y ≡ y) × Contains columns.now u.x)
        [] (take result room.new) }
    ensures few { result ≤ 8 * length columns.now }
{
    let mut count = 0;
    for x in columns {
        count = descend_point::<S, L, G>(grid, Pos { x: *x, y }, rows, lower, room, count);
    }
    count
}

// Adds the descents from a point to others, and tells how many there are then.
#[inline(always)]
fn descend_point<S: Side, L: Lane, G: Heights>(
    grid: &G,
    at: Pos,
    rows: &Rows<L>,
    lower: &LowerPlaces,
    room: &mut [Descent],
    count: usize,
) -> usize
    requires point { Present (G.map grid.now) at }
    requires rows { AreRowsRound L.code S.NAME (G.map grid.now) at.y rows.now }
    requires lower { AreLowerPlaces L.code S.NAME (G.map grid.now).size.points rows.now lower.now }
    requires room { count + 8 ≤ length room.old }
    ensures descends { Descends (G.map grid.now) S.NAME (λ u. u ≡ at) (take count room.old)
        (take result room.new) }
    ensures few { result ≤ count + 8 }
{
    let columns = grid.size().points as usize;
    let marks = marked(grid.adjacency(), &lower.round(columns, at.x as usize));
    descend(rows, at.x, &marks, room, count)
}

// Adds the descents from the place of a column to the marked ones of those round it. Where a place is outside of its row,
// its index is wrong, and it is not marked.
#[inline(always)]
fn descend<L: Lane>(
    rows: &Rows<L>,
    x: u32,
    marks: &[bool; 8],
    room: &mut [Descent],
    count: usize,
) -> usize
    requires above { rows.now.above.first + x < 4294967295 }
    requires level { rows.now.level.first + x < 4294967295 }
    requires below { rows.now.below.first + x < 4294967295 }
    requires room { count + 8 ≤ length room.old }
    ensures descents { take result room.new ≡ with_descents (rows.now.level.first + x)
        (indexes_round rows.now x) marks.now (take count room.old) 8 }
    ensures few { result ≤ count + 8 }
{
    let above = rows.above.first + x;
    let from = rows.level.first + x;
    let below = rows.below.first + x;
    let count = descend_if(from, above, marks[0], room, count);
    let count = descend_if(from, above + 1, marks[1], room, count);
    let count = descend_if(from, from + 1, marks[2], room, count);
    let count = descend_if(from, below + 1, marks[3], room, count);
    let count = descend_if(from, below, marks[4], room, count);
    let count = descend_if(from, below.saturating_sub(1), marks[5], room, count);
    let count = descend_if(from, from.saturating_sub(1), marks[6], room, count);
    descend_if(from, above.saturating_sub(1), marks[7], room, count)
}

// Adds the descent from one index to another, if that is marked.
#[inline(always)]
fn descend_if(from: u32, to: u32, is_marked: bool, room: &mut [Descent], count: usize) -> usize
    requires { count < length room.old }
    ensures descents { take result room.new ≡ with_descent_if from to is_marked (take count room.old) }
    ensures few { result ≤ count + 1 }
{
    put(room, count, Descent { from, to }, is_marked)
}
