// The basins of points, as they are known while a tile is seen anew.
ghost use Rattle.std.specs.Prelude.{◌≡◌, ◌≢◌, MatchOption};
ghost use Rattle.hd_map.specs.Passes.{higher_by};
ghost use Rattle.hd_basin.specs.Seams.{pass_between};

use crate::part::Seam;
use hd_map::{Pass, Rank, Side, higher_of};

/// The basin of a point.
#[derive(Clone, Copy, Debug, PartialEq, Eq)]
pub struct End {
    /// Its sink.
    pub low: Rank,
    /// The number of its tile.
    pub with: u32,
    /// The stamp of the tile.
    pub stamp: u64,
}

/// The seam between a basin and that of a neighbour, if they are two: at the higher of the two points.
pub fn seam_between<S: Side>(low: Rank, end: End, at: Rank, near: Rank) -> Option<Seam>
    ensures { MatchOption result (low ≡ end.low) (λ s. (low ≢ end.low)
        × (s.pass ≡ pass_between S.NAME low end.low (higher_by S.NAME at near))
        × (s.with ≡ end.with) × (s.stamp ≡ end.stamp)) }
{
    if low == end.low {
        return None;
    }
    let higher = higher_of::<S>(at, near);
    Some(Seam {
        pass: pass_between::<S>(low, end.low, higher),
        with: end.with,
        stamp: end.stamp,
    })
}

// The pass between two sinks, the lower one first.
fn pass_between<S: Side>(a: Rank, b: Rank, at: Rank) -> Pass
    ensures { result ≡ pass_between S.NAME a b at }
{
    if S::below(a, b) {
        Pass { a, b, at }
    } else {
        Pass { a: b, b: a, at }
    }
}
