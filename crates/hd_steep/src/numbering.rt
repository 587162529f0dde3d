// The regions of all points, by the numbers of their pits.
ghost use Rattle.std.specs.Prelude.{◌≡◌, ◌<◌, IfOk, length, slice_get, slice_index};
ghost use Rattle.hd_steep.specs.FirstLinks.{AreFirstLinks};
ghost use Rattle.hd_steep.specs.Numbering.{AreNumbered, number_of, root_of, roots_of};

use crate::ends::{add_ends, number_by_ends, room_for_ends};
use crate::leading::{lead_to_ends, sweep};
use crate::links::first_links;
use crate::pit_list::list_pits;
use hd_list::{List, Memory};
use hd_map::{Heights, Rank, Side};
use std::alloc::Global;
use std::marker::Model;

/// The regions of a side of a grid: its pits in position order, and by index the number of the pit in
/// whose region the point lies, counted from 0. It takes 4 bytes a point and 20 a pit.
#[derive(Drop)]
pub struct Regions {
    pits: Vec<Rank>,
    numbers: Vec<u32>,
}

impl Model for Regions {
    ghost use Rattle.hd_steep.specs.Numbering.{Numbering};

    ghost Value = { Numbering };

    ghost view = { λ r. record { pits = r.pits.items; numbers = r.numbers.items } };
}

impl Regions {
    /// The pits in position order.
    #[inline]
    pub fn pits(&self) -> &[Rank]
        ensures { result.now ≡ self.now.pits }
    {
        &self.pits
    }

    /// How many points the grid has.
    #[inline]
    pub fn len(&self) -> usize
        ensures { result ≡ length self.now.numbers }
    {
        self.numbers.len()
    }

    /// The number of the pit in whose region the point of an index lies, and none where no point is
    /// present.
    #[inline]
    pub fn number(&self, index: usize) -> Option<u32>
        requires { index < length self.now.numbers }
        ensures { result ≡ number_of self.now.pits (slice_index self.now.numbers index) }
    {
        let number = self.numbers[index];
        if (number as usize) < self.pits.len() {
            Some(number)
        } else {
            None
        }
    }

    /// The pit in whose region the point of an index lies, and none where no point is present.
    #[inline]
    pub fn pit(&self, index: usize) -> Option<Rank>
        requires { index < length self.now.numbers }
        ensures { result ≡ slice_get self.now.pits (slice_index self.now.numbers index) }
    {
        self.pits.get(self.numbers[index] as usize).copied()
    }

    /// The pits in position order. The numbers of the points are given up.
    pub fn into_pits(self) -> List<Rank>
        ensures { result ≡ self.pits }
    {
        List::from_vec(self.pits)
    }
}

/// The regions of a side of a grid.
///
/// Measured, it takes 4 bytes a point, 20 a pit, at first for one of eight points, and 16 a column,
/// or 28 a column where a height is more than 2 ^ 29 steps from zero, and time in proportion to the
/// points, however long the ways are. Dales and hills are those of ISO 25178-2; that each point has
/// one steepest way is this project's own rule.
pub fn find_regions<S: Side, G: Heights>(alloc: Global, grid: &G) -> Result<Regions, Memory>
    ensures { IfOk result (AreNumbered (G.map grid.now) S.NAME) }
{
    let size = grid.size();
    let count = size.points as usize * size.profiles as usize;
    let links = first_links::<S, G>(alloc, grid, room_for_ends(count))?;
    number_by_links::<S, G>(alloc, grid, links)
}

/// The regions of a side of a grid, to whose pits these first links lead. It takes 16 bytes a pit, at first for one
/// of eight points, and 4 for a pit more than there is room for with the links.
pub(crate) fn number_by_links<S: Side, G: Heights>(
    alloc: Global,
    grid: &G,
    links: Vec<u32>,
) -> Result<Regions, Memory>
    requires { AreFirstLinks (G.map grid.now) S.NAME links.items }
    ensures { IfOk result (AreNumbered (G.map grid.now) S.NAME) }
{
    let count = links.len();
    let pits = list_pits::<S, G>(alloc, grid, &links)?;
    let mut numbers = links;
    add_ends::<S, G>(grid, &pits, &mut numbers)?;
    sweep::<S, G>(grid, &pits, &mut numbers, count);
    lead_to_ends::<S, G>(grid, &pits, &mut numbers, count);
    number_by_ends::<S, G>(grid, &pits, &mut numbers, count);
    Ok(Regions { pits, numbers })
}

/// By index the index of the pit in whose region the point lies, and none for points that are not
/// present.
pub fn list_roots(alloc: Global, regions: &Regions) -> Result<List<Option<u32>>, Memory>
    ensures { IfOk result (λ roots. roots ≡ roots_of regions.now) }
{
    let mut roots = List::with_capacity(alloc, regions.len())?;
    for index in 0..regions.len() {
        roots.push(root_in(regions, index))?;
    }
    Ok(roots)
}

// The index of the pit in whose region the point of an index lies.
#[inline]
fn root_in(regions: &Regions, index: usize) -> Option<u32>
    requires { index < length regions.now.numbers }
    ensures { result ≡ root_of regions.now.pits (slice_index regions.now.numbers index) }
{
    match regions.pit(index) {
        Some(pit) => Some(pit.index),
        None => None,
    }
}
