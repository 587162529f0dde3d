// What answers about a side of a grid went over by the map, and when that is worth a pool.
ghost use Rattle.std.specs.Prelude.{◌≡◌, ◌<◌, ◌^◌};
ghost use Rattle.hd_pool.specs.Outlay.{are_most_touched, counted, is_worth, nothing_spent, paid, reported, touched_after};

use hd_map::Grid;
use hd_tiles::{Looked, Tiles};

/// How many steps a way goes in the time in which a pool takes in a point: measured.
const WORTH: u64 = 2;

/// What answers about a side of a grid went over by the map after changes, in steps of ways. What the first question asks, and
/// all others before a change, counts nothing.
#[derive(Clone, Copy, Debug, PartialEq, Eq)]
pub(crate) struct Outlay {
    /// How many changes there were at the first question.
    pub first: Option<u64>,
    /// How many there were when the pool was brought up last or, without one, at the last report.
    pub last: u64,
    /// How many steps answers took, less those that it takes as long to bring the pool up.
    pub steps: u64,
}

impl Outlay {
    /// Nothing was asked yet.
    pub(crate) fn new() -> Outlay
        ensures { result ≡ nothing_spent }
    {
        Outlay {
            first: None,
            last: 0,
            steps: 0,
        }
    }

    /// With one more question after so many changes, whose answer took so many steps.
    pub(crate) fn counted(self, changes: u64, steps: u64) -> Outlay
        ensures { result ≡ counted changes steps self }
    {
        let first = self.first.unwrap_or(changes);
        let more = if first < changes { steps } else { 0 };
        Outlay {
            first: Some(first),
            last: self.last,
            steps: self.steps.saturating_add(more),
        }
    }

    /// With one more report on a grid of so many points, which counts as much as its pool.
    pub(crate) fn reported(self, changes: u64, points: u64) -> Outlay
        requires { points < 2 ^ 56 }
        ensures { result ≡ reported changes points self }
    {
        let counted = self.counted(changes, WORTH * points);
        Outlay {
            first: counted.first,
            last: changes,
            steps: counted.steps,
        }
    }

    /// With the pool brought up after so many changes, which took in so many points.
    pub(crate) fn paid(self, changes: u64, points: u64) -> Outlay
        requires { points < 2 ^ 56 }
        ensures { result ≡ paid changes points self }
    {
        Outlay {
            first: Some(self.first.unwrap_or(changes)),
            last: changes,
            steps: self.steps.saturating_sub(WORTH * points),
        }
    }

    /// Whether it is worth it that the pool takes in so many points.
    pub(crate) fn is_worth(self, points: u64) -> bool
        requires { points < 2 ^ 56 }
        ensures { result ≡ is_worth points self }
    {
        WORTH * points <= self.steps
    }

    /// How many tiles were touched since the pool was brought up.
    pub(crate) fn touched<G: Grid>(self, tiles: &Tiles<G>) -> u32
        ensures { result ≡ touched_after self.last tiles.now.stamps.items }
    {
        count_touched(tiles, self.last)
    }

    /// Whether more than a fourth of the tiles were touched since, so that it takes no longer to go over the map.
    pub(crate) fn is_out_of_date<G: Grid>(self, tiles: &Tiles<G>) -> bool
        ensures { result ≡ are_most_touched self.last tiles.now.stamps.items }
    {
        u64::from(self.touched(tiles)) * 4 > u64::from(tiles.tiling().count())
    }
}

// How many tiles a change after so many touched.
fn count_touched<G: Grid>(tiles: &Tiles<G>, changes: u64) -> u32
    ensures { result ≡ touched_after changes tiles.now.stamps.items }
{
    let mut touched = 0u32;
    'tiles: for tile in 0..tiles.tiling().count() {
        if tiles.stamp(tile) > changes {
            touched += 1;
        }
    }
    touched
}
