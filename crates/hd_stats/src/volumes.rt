// The fill of the kept pits of a pruning.
ghost use Rattle.std.specs.Prelude.{◌≡◌, ◌<◌, ◌≤◌, ◌+◌, ◌*◌, ◌^◌, IfOk, OnOk, Some, None, ℕ, length, slice_index_or};
ghost use Rattle.std.specs.Option.{ForSome};
ghost use Rattle.hd_map.specs.Map.{InGrid, cell_count, height_at};
ghost use Rattle.hd_prune.specs.Staying.{AreKeptAlone};
ghost use Rattle.hd_stats.specs.Fill.{AreFills};
ghost use Rattle.hd_stats.specs.Volumes.{AddsPoint, AreReached, AreValues, AreVolumes, IsValueOf, difference};

use hd_list::{List, Memory};
use hd_map::{Heights, Pos, Rank, Side, index_of, position_of};
use hd_num::Frac;
use hd_prune::Kept;
use hd_reach::{Bound, flood};
use std::alloc::Global;
use std::collections::VecDeque;

/// The fill of each kept pit of a pruning of the grid on the side, in their order: the sum, over all
/// points that are reached from the pit by paths wholly below its nearest saddle, of the height
/// difference between the saddle and the point, taken positive, in steps. It is none exactly where the
/// pit has no nearest saddle. It takes time in proportion to the points of the grid.
pub fn fill<S: Side, G: Heights>(
    alloc: Global,
    grid: &G,
    kept: &List<Kept>,
) -> Result<List<Option<Frac>>, Memory>
    requires { (thousandths : ℕ) × AreKeptAlone (G.map grid.now) S.NAME thousandths kept.now }
    ensures { IfOk result (AreFills (G.map grid.now) S.NAME kept.now) }
{
    let kept = kept.as_slice();
    let reached = reached_below::<S, G>(alloc, grid, kept)?;
    let volumes = add_up(alloc, grid, kept, &reached)?;
    // Its memory is free for the values.
    drop(reached);
    let values = list_values(alloc, kept, &volumes)?;
    Ok(values)
}

// By index the number of the kept pit that reaches the point below its nearest saddle.
fn reached_below<S: Side, G: Heights>(
    alloc: Global,
    grid: &G,
    kept: &[Kept],
) -> Result<Vec<Option<u32>>, Memory>
    requires { (thousandths : ℕ) × AreKeptAlone (G.map grid.now) S.NAME thousandths kept.now }
    ensures { IfOk result (λ reached. AreReached (G.map grid.now) S.NAME kept.now
        (length kept.now) reached.items) }
{
    let size = grid.size();
    let mut reached = vec![in alloc; None; (size.profiles * size.points) as usize]?;
    let mut queue = VecDeque::new(alloc);
    'kept: for number in 0..kept.len() {
        reach_below::<S, G>(grid, kept, number, &mut reached, &mut queue)?;
    }
    Ok(reached)
}

// Notes the number of a kept pit at the points that it reaches below its nearest saddle, if it has one.
fn reach_below<S: Side, G: Heights>(
    grid: &G,
    kept: &[Kept],
    number: usize,
    reached: &mut Vec<Option<u32>>,
    queue: &mut VecDeque<u32>,
) -> Result<(), Memory>
    requires kept { (thousandths : ℕ) × AreKeptAlone (G.map grid.now) S.NAME thousandths kept.now }
    requires number { number < length kept.now }
    requires reached { AreReached (G.map grid.now) S.NAME kept.now number reached.old.items }
    ensures { OnOk result (AreReached (G.map grid.now) S.NAME kept.now (number + 1) reached.new.items) }
{
    let one = kept[number];
    let Some(saddle) = one.nearest else {
        return Ok(());
    };
    let bound = Bound {
        level: Some(saddle),
        strict: true,
    };
    let from = position_of(grid.size(), one.pit.index);
    let first = Some(number as u32);
    flood::<S, Option<u32>, G>(grid, bound, from, None, first, reached, queue)?;
    Ok(())
}

// By kept pit the sum, over the points that it reaches, of the height differences to its nearest saddle.
fn add_up<G: Heights>(
    alloc: Global,
    grid: &G,
    kept: &[Kept],
    reached: &[Option<u32>],
) -> Result<Vec<u128>, Memory>
    requires whole { length reached.now ≡ cell_count (G.map grid.now).size }
    requires numbers { (k : ℕ) → ForSome (slice_index_or reached.now k None) (λ n. n < length kept.now) }
    ensures { IfOk result (λ volumes. AreVolumes (G.map grid.now) kept.now reached.now
        (length reached.now) volumes.items) }
{
    let mut volumes = vec![in alloc; 0u128; kept.len()]?;
    'profiles: for y in 0..grid.size().profiles {
        add_profile(&mut volumes, grid, kept, reached, y);
    }
    Ok(volumes)
}

// Adds the points of a profile, where those of the profiles before it are added.
#[inline]
fn add_profile<G: Heights>(
    volumes: &mut Vec<u128>,
    grid: &G,
    kept: &[Kept],
    reached: &[Option<u32>],
    y: u32,
)
    requires profile { y < (G.map grid.now).size.profiles }
    requires whole { length reached.now ≡ cell_count (G.map grid.now).size }
    requires numbers { (k : ℕ) → ForSome (slice_index_or reached.now k None) (λ n. n < length kept.now) }
    requires before { AreVolumes (G.map grid.now) kept.now reached.now
        (y * (G.map grid.now).size.points) volumes.old.items }
    ensures { AreVolumes (G.map grid.now) kept.now reached.now
        ((y + 1) * (G.map grid.now).size.points) volumes.new.items }
{
    let size = grid.size();
    'points: for x in 0..size.points {
        let at = Pos { x, y };
        let by = reached[index_of(size, at) as usize];
        add_point(volumes, grid, kept, by, at);
    }
}

// Adds the point at a position, by the number of the kept pit that reaches it.
#[inline]
fn add_point<G: Heights>(volumes: &mut Vec<u128>, grid: &G, kept: &[Kept], by: Option<u32>, at: Pos)
    requires in_grid { InGrid (G.map grid.now).size at }
    requires whole { length volumes.old.items ≡ length kept.now }
    requires number { ForSome by (λ n. n < length kept.now) }
    requires room { (i : ℕ) → i < length kept.now → slice_index_or volumes.old.items i 0 ≤ 2 ^ 100 }
    ensures { AddsPoint kept.now by (height_at (G.map grid.now) at) volumes.old.items volumes.new.items }
{
    if let Some(number) = by {
        let height = grid.height(at);
        volumes[number as usize] += difference(kept[number as usize].nearest, height);
    }
}

// The height difference between a saddle and a point, taken positive, where both are.
fn difference(saddle: Option<Rank>, height: Option<i64>) -> u128
    ensures value { result ≡ difference saddle height }
    ensures small { result ≤ 2 ^ 64 }
{
    match (saddle, height) {
        (Some(saddle), Some(height)) => u128::from(saddle.height.abs_diff(height)),
        _ => 0,
    }
}

// The volumes of the kept pits that have a nearest saddle.
fn list_values(alloc: Global, kept: &[Kept], volumes: &[u128]) -> Result<List<Option<Frac>>, Memory>
    requires whole { length volumes.now ≡ length kept.now }
    requires small { (i : ℕ) → i < length kept.now → slice_index_or volumes.now i 0 ≤ 2 ^ 100 }
    ensures { IfOk result (AreValues kept.now volumes.now (length kept.now)) }
{
    let mut values = List::with_capacity(alloc, kept.len())?;
    'kept: for (number, one) in kept.iter().enumerate() {
        values.push(value_of(one.nearest, volumes[number]))?;
    }
    Ok(values)
}

// A volume, where there is a nearest saddle.
fn value_of(nearest: Option<Rank>, volume: u128) -> Option<Frac>
    requires { volume ≤ 2 ^ 100 }
    ensures { IsValueOf nearest volume result }
{
    match nearest {
        Some(_) => Some(Frac::new(volume as i128, 1)),
        None => None,
    }
}
