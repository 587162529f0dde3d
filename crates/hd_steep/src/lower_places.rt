// By column which of the eight places round it are lower than the point there. Rows are told as a whole, without a
// branch, so that the compiler can tell many columns at once.
ghost use Rattle.std.specs.Prelude.{◌≡◌, ◌<◌, ◌≤◌, IfOk, length, take};
ghost use Rattle.hd_steep.specs.LowerPlaces.{AreEarlierBelow, AreLaterBelow, AreListedBefore, AreLowerPlaces, AreSeveral, AreWide, HasColumns, IsWide, lower_round};

use crate::below::{is_below_earlier, is_below_later};
use crate::places::{are_several, marked};
use crate::put::put;
use crate::rolling::Rows;
use hd_list::Memory;
use hd_map::{Adjacency, Lane, Side};
use std::alloc::Global;

/// By column whether the point at each of the eight places round it is below the one there.
#[derive(Drop)]
pub struct LowerPlaces {
    pub north: Vec<bool>,
    pub north_east: Vec<bool>,
    pub east: Vec<bool>,
    pub south_east: Vec<bool>,
    pub south: Vec<bool>,
    pub south_west: Vec<bool>,
    pub west: Vec<bool>,
    pub north_west: Vec<bool>,
}

impl LowerPlaces {
    /// Room for this many columns.
    pub fn with_columns(alloc: Global, columns: usize) -> Result<LowerPlaces, Memory>
        ensures { IfOk result (HasColumns columns) }
    {
        Ok(LowerPlaces {
            north: vec![in alloc; false; columns]?,
            north_east: vec![in alloc; false; columns]?,
            east: vec![in alloc; false; columns]?,
            south_east: vec![in alloc; false; columns]?,
            south: vec![in alloc; false; columns]?,
            south_west: vec![in alloc; false; columns]?,
            west: vec![in alloc; false; columns]?,
            north_west: vec![in alloc; false; columns]?,
        })
    }

    /// Tells it of the middle one of three rows, by heights alone: what comes before a point has lesser indexes, and
    /// what comes after it greater ones.
    pub fn tell<S: Side, L: Lane>(&mut self, _columns: usize, rows: &Rows<L>)
        requires columns { HasColumns _columns self.old }
        requires rows { AreWide L.code _columns rows.now }
        ensures { AreLowerPlaces L.code S.NAME _columns rows.now self.new }
    {
        let above = rows.above.keys.as_slice();
        let level = rows.level.keys.as_slice();
        let below = rows.below.keys.as_slice();
        tell_earlier::<S, L>(above, 1, level, &mut self.north);
        tell_earlier::<S, L>(above, 2, level, &mut self.north_east);
        tell_later::<S, L>(level, 2, level, &mut self.east);
        tell_later::<S, L>(below, 2, level, &mut self.south_east);
        tell_later::<S, L>(below, 1, level, &mut self.south);
        tell_later::<S, L>(below, 0, level, &mut self.south_west);
        tell_earlier::<S, L>(level, 0, level, &mut self.west);
        tell_earlier::<S, L>(above, 0, level, &mut self.north_west);
    }

    /// Which of the eight places round a column are lower, clockwise from the one above it.
    #[inline(always)]
    pub fn round(&self, _columns: usize, x: usize) -> [bool; 8]
        requires columns { HasColumns _columns self.now }
        requires column { x < _columns }
        ensures { result ≡ lower_round self.now x }
    {
        [
            self.north[x],
            self.north_east[x],
            self.east[x],
            self.south_east[x],
            self.south[x],
            self.south_west[x],
            self.west[x],
            self.north_west[x],
        ]
    }
}

// By column whether the point so much further on in a row is below the one in the middle, which comes after it.
fn tell_earlier<S: Side, L: Lane>(keys: &[L], shift: usize, level: &[L], lower: &mut [bool])
    requires shift { shift ≤ 2 }
    requires keys { IsWide L.code (length lower.old) keys.now }
    requires level { IsWide L.code (length lower.old) level.now }
    ensures { AreEarlierBelow L.code S.NAME keys.now shift level.now lower.new }
{
    let width = lower.len();
    let others = &keys[shift..shift + width];
    let owns = &level[1..1 + width];
    for x in 0..width {
        lower[x] = is_below_later::<S, L>(others[x], owns[x]);
    }
}

// The same where the one in the middle comes before it.
fn tell_later<S: Side, L: Lane>(keys: &[L], shift: usize, level: &[L], lower: &mut [bool])
    requires shift { shift ≤ 2 }
    requires keys { IsWide L.code (length lower.old) keys.now }
    requires level { IsWide L.code (length lower.old) level.now }
    ensures { AreLaterBelow L.code S.NAME keys.now shift level.now lower.new }
{
    let width = lower.len();
    let others = &keys[shift..shift + width];
    let owns = &level[1..1 + width];
    for x in 0..width {
        lower[x] = is_below_earlier::<S, L>(others[x], owns[x]);
    }
}

/// Tells by column whether several of the places round it are marked.
pub fn find_several(adjacency: Adjacency, lower: &LowerPlaces, several: &mut [bool])
    requires { HasColumns (length several.old) lower.now }
    ensures { AreSeveral adjacency lower.now several.new }
{
    match adjacency {
        Adjacency::Four => find_several_under(Adjacency::Four, lower, several),
        Adjacency::Six => find_several_under(Adjacency::Six, lower, several),
        Adjacency::Eight => find_several_under(Adjacency::Eight, lower, several),
    }
}

// The same under a setting that the call names, so that the code for it does not ask for the setting at each column.
#[inline(always)]
fn find_several_under(adjacency: Adjacency, lower: &LowerPlaces, several: &mut [bool])
    requires { HasColumns (length several.old) lower.now }
    ensures { AreSeveral adjacency lower.now several.new }
{
    let (north, north_east) = (lower.north.as_slice(), lower.north_east.as_slice());
    let (east, south_east) = (lower.east.as_slice(), lower.south_east.as_slice());
    let (south, south_west) = (lower.south.as_slice(), lower.south_west.as_slice());
    let (west, north_west) = (lower.west.as_slice(), lower.north_west.as_slice());
    for x in 0..several.len() {
        let round = [
            north[x],
            north_east[x],
            east[x],
            south_east[x],
            south[x],
            south_west[x],
            west[x],
            north_west[x],
        ];
        several[x] = are_several(&marked(adjacency, &round));
    }
}

/// Lists in their order the marked columns at which a point is present, and tells how many these are.
pub fn list_marked<L: Lane>(marks: &[bool], level: &[L], columns: &mut [u32]) -> usize
    requires marks { length marks.now < 65536 }
    requires level { IsWide L.code (length marks.now) level.now }
    requires room { length columns.old ≡ length marks.now }
    ensures listed { AreListedBefore L.code level.now marks.now (length marks.now) (take result columns.new) }
    ensures count { result ≤ length marks.now }
{
    let owns = &level[1..1 + marks.len()];
    let mut count = 0;
    for x in 0..marks.len() {
        count = put(columns, count, x as u32, marks[x] & owns[x].is_shown());
    }
    count
}
