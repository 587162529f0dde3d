// The points that are reached below a saddle, by the regions of the points.
ghost use Rattle.std.specs.Prelude.{◌↔◌, IfOk, IsTrue, OnOk, true};
ghost use Rattle.hd_map.specs.Map.{InGrid, place_of};
ghost use Rattle.hd_map.specs.Rank.{rank};
ghost use Rattle.hd_steep.specs.Numbering.{AreNumbered};
ghost use Rattle.hd_steep.specs.Reached.{AreReachedPits};
ghost use Rattle.hd_cert.specs.Listed.{Lists};
ghost use Rattle.hd_cert.specs.Routes.{IsRouteCut};
ghost use Rattle.hd_reach.specs.Reached.{IsReachedLow};
ghost use Rattle.hd_reach.specs.Within.{LiesWithin};

use hd_list::{List, Memory};
use hd_map::{Heights, Pos, Rank, Side, index_of, position_after};
use hd_reach::{Bound, lies_within};
use hd_steep::Regions;
use std::alloc::Global;

/// The shown cut of a point that lies below the saddle, where it is known which pits are reached from it.
pub fn region_cut<S: Side, G: Heights>(
    alloc: Global,
    grid: &G,
    regions: &Regions,
    reached: &[bool],
    from: Pos,
    saddle: Option<Rank>,
) -> Result<List<Pos>, Memory>
    requires regions { AreNumbered (G.map grid.now) S.NAME regions.now }
    requires reached { AreReachedPits (G.map grid.now) S.NAME saddle
        (rank (G.map grid.now) from) regions.now.pits reached.now }
    requires low { LiesWithin (G.map grid.now) S.NAME saddle true from }
    ensures { IfOk result (IsRouteCut (G.map grid.now) S.NAME saddle from) }
{
    let size = grid.size();
    let mut cut = Vec::new(alloc);
    let mut at = Pos { x: 0, y: 0 };
    for index in 0..size.profiles * size.points {
        list_reached::<S, G>(grid, regions, reached, from, saddle, at, &mut cut)?;
        at = position_after(size, at);
    }
    Ok(List::from_vec(cut))
}

// Lists a position, if its point is reached below the saddle.
fn list_reached<S: Side, G: Heights>(
    grid: &G,
    regions: &Regions,
    reached: &[bool],
    from: Pos,
    saddle: Option<Rank>,
    at: Pos,
    cut: &mut Vec<Pos>,
) -> Result<(), Memory>
    requires regions { AreNumbered (G.map grid.now) S.NAME regions.now }
    requires reached { AreReachedPits (G.map grid.now) S.NAME saddle
        (rank (G.map grid.now) from) regions.now.pits reached.now }
    requires low { LiesWithin (G.map grid.now) S.NAME saddle true from }
    requires at { InGrid (G.map grid.now).size at }
    ensures { OnOk result (Lists (G.map grid.now).size
        (IsReachedLow (G.map grid.now) S.NAME saddle from)
        (place_of (G.map grid.now).size at) cut.old.items cut.new.items) }
{
    if is_reached::<S, G>(grid, regions, reached, from, saddle, at) {
        cut.push(at)?;
    }
    Ok(())
}

// Whether a point is below the saddle, and the pit of its region is reached.
#[inline(always)]
fn is_reached<S: Side, G: Heights>(
    grid: &G,
    regions: &Regions,
    reached: &[bool],
    from: Pos,
    saddle: Option<Rank>,
    at: Pos,
) -> bool
    requires regions { AreNumbered (G.map grid.now) S.NAME regions.now }
    requires reached { AreReachedPits (G.map grid.now) S.NAME saddle
        (rank (G.map grid.now) from) regions.now.pits reached.now }
    requires low { LiesWithin (G.map grid.now) S.NAME saddle true from }
    requires at { InGrid (G.map grid.now).size at }
    ensures { IsTrue result ↔ IsReachedLow (G.map grid.now) S.NAME saddle from at }
{
    let Some(number) = regions.number(index_of(grid.size(), at) as usize) else {
        return false;
    };
    if !reached[number as usize] {
        return false;
    }
    let bound = Bound {
        level: saddle,
        strict: true,
    };
    lies_within::<S, G>(grid, bound, at)
}
