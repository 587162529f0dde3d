// How many points of a map are present, and the range of their heights, by rows of plain numbers.
ghost use Rattle.std.specs.Prelude.{◌≡◌, ◌<◌, ◌≤◌, ◌+◌, ◌*◌, ◌^◌, ◌++◌, [], ℤ, List, Option, IfOk, length};
ghost use Rattle.std.specs.List.{cons_option};
ghost use Rattle.hd_map.specs.Encoding.{narrow};
ghost use Rattle.hd_map.specs.Lanes.{IsPlainHeight, IsRowOfHeights};
ghost use Rattle.hd_map.specs.Presence.{IsPresence, heights_below, present_heights};
ghost use Rattle.hd_map.specs.Seen.{AreSeen, or_greatest};

use crate::{HeightRange, Heights, Lane, Presence, presence_of};
use hd_list::Memory;
use std::alloc::Global;

/// How many points of a grid are present, and the range of their heights in steps, as `presence_of` gives it.
/// Where each height is near enough to zero for numbers of 32 bits, it goes over rows of these, which is faster
/// by far. It takes four bytes for each point of a profile.
pub fn presence_by_rows<G: Heights>(alloc: Global, grid: &G) -> Result<Presence, Memory>
    ensures { IfOk result (IsPresence (present_heights (G.map grid.now))) }
{
    let size = grid.size();
    let mut row = vec![in alloc; 0i32; size.points as usize]?;
    let mut seen = none_seen();
    'profiles: for y in 0..size.profiles {
        if !grid.fill_heights(y, &mut row) {
            return Ok(presence_of(grid));
        }
        seen = seen_with_row(grid, y, &row, seen);
    }
    Ok(presence_seen(seen))
}

// The points that were seen.
#[derive(Clone, Copy)]
struct Seen {
    // How many they are.
    count: u32,
    // The least of their heights, and the greatest number where there is none.
    least: i32,
    // The greatest of their heights, and the number for no height where there is none.
    greatest: i32,
}

// No points.
fn none_seen() -> Seen
    ensures seen { AreSeen [] result }
    ensures few { result.count ≡ 0 }
{
    Seen {
        count: 0,
        least: i32::MAX,
        greatest: i32::missing(),
    }
}

// The points before a profile and those of the profile, by the numbers of its row.
fn seen_with_row<G: Heights>(_grid: &G, y: u32, row: &[i32], seen: Seen) -> Seen
    requires profile { y < (G.map _grid.now).size.profiles }
    requires row { IsRowOfHeights narrow (G.map _grid.now) y row.now }
    requires seen { AreSeen (heights_below (G.map _grid.now) (y * (G.map _grid.now).size.points)) seen }
    ensures { AreSeen (heights_below (G.map _grid.now) ((y + 1) * (G.map _grid.now).size.points)) result }
{
    let mut all = seen;
    'columns: for x in 0..row.len() {
        all = seen_with(all, row[x]);
    }
    all
}

// The points that were seen and one more, by its number.
#[inline]
fn seen_with(seen: Seen, number: i32) -> Seen
    requires { seen.count < 2 ^ 31 }
    ensures { (heights : List ℤ) (height : Option ℤ) → AreSeen heights seen → IsPlainHeight narrow height number
        → AreSeen (heights ++ cons_option height []) result }
{
    Seen {
        count: seen.count + number.is_shown() as u32,
        least: seen.least.min(or_greatest(number)),
        greatest: seen.greatest.max(number),
    }
}

// The number, or the greatest one where it stands for no height.
#[inline]
fn or_greatest(number: i32) -> i32
    ensures { result ≡ or_greatest number }
{
    if number.is_shown() { number } else { i32::MAX }
}

// How many points were seen, and the range of their heights.
fn presence_seen(seen: Seen) -> Presence
    ensures { (heights : List ℤ) → AreSeen heights seen → IsPresence heights result }
{
    let range = HeightRange {
        least: seen.least as i64,
        greatest: seen.greatest as i64,
    };
    Presence {
        count: seen.count,
        range: (seen.count > 0).then_some(range),
    }
}
