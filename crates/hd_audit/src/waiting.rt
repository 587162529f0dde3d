// A point that waits to be listed, the lowest first.
ghost use Rattle.std.specs.Prelude.{◌≡◌, refl};
ghost use Rattle.std.specs.Ordering.{eq_by_cmp, as_partial_cmp};
ghost use Rattle.std.specs.Cmp.{partial_order_from_total, partial_equiv_from_equiv, on_equiv, on_total, eq_by_cmp_equiv};
ghost use Rattle.hd_map.specs.Rank.{below_by};
ghost use Rattle.hd_audit.specs.LowestFirst.{lowest_first, lowest_first-total};
ghost use Rattle.hd_audit.specs.Flooding.{rank_of_waiting};

use hd_map::{Rank, Side};
use std::cmp::Ordering;
use std::marker::PhantomData;

/// A point that waits to be listed, by its height and its index, of which the lowest on the side is the
/// greatest.
#[derive(Drop)]
pub struct Waiting<S: Side> {
    /// Its height in steps.
    pub height: i64,
    /// Its index.
    pub index: u32,
    /// The place of the line of its neighbour that was listed first.
    pub from: u32,
    /// The side.
    pub side: PhantomData<S>,
}

impl<S: Side> Waiting<S> {
    /// A point that waits behind the line at a place.
    pub fn new(point: Rank, from: u32) -> Self
        ensures rank { rank_of_waiting result ≡ point }
        ensures from { result.from ≡ from }
    {
        Waiting {
            height: point.height,
            index: point.index,
            from,
            side: PhantomData,
        }
    }

    /// Its rank.
    #[inline]
    pub fn rank(&self) -> Rank
        ensures { result ≡ rank_of_waiting self.now }
    {
        Rank {
            height: self.height,
            index: self.index,
        }
    }
}

impl<S: Side> PartialEq for Waiting<S> {
    ghost eq = { λ x y. eq_by_cmp (lowest_first (below_by S.NAME)) (rank_of_waiting x) (rank_of_waiting y) };

    ghost laws = { partial_equiv_from_equiv (on_equiv rank_of_waiting (eq_by_cmp_equiv (lowest_first-total (below_by S.NAME) S.order))) };

    fn eq(&self, other: &Waiting<S>) -> bool {
        !S::below(self.rank(), other.rank()) && !S::below(other.rank(), self.rank())
    }
}

impl<S: Side> Eq for Waiting<S> {
    ghost laws = { on_equiv rank_of_waiting (eq_by_cmp_equiv (lowest_first-total (below_by S.NAME) S.order)) };
}

impl<S: Side> PartialOrd for Waiting<S> {
    ghost partial_cmp = { as_partial_cmp (λ x y. lowest_first (below_by S.NAME) (rank_of_waiting x) (rank_of_waiting y)) };

    ghost laws = { partial_order_from_total (on_total rank_of_waiting (lowest_first-total (below_by S.NAME) S.order)) };

    fn partial_cmp(&self, other: &Waiting<S>) -> Option<Ordering> {
        Some(self.cmp(other))
    }
}

impl<S: Side> Ord for Waiting<S> {
    ghost cmp = { λ x y. lowest_first (below_by S.NAME) (rank_of_waiting x) (rank_of_waiting y) };

    ghost total = { on_total rank_of_waiting (lowest_first-total (below_by S.NAME) S.order) };

    ghost matches_partial_cmp = { λ x y. refl };

    ghost matches_eq = { λ x y. refl };

    fn cmp(&self, other: &Waiting<S>) -> Ordering {
        if S::below(other.rank(), self.rank()) {
            Ordering::Less
        } else if S::below(self.rank(), other.rank()) {
            Ordering::Greater
        } else {
            Ordering::Equal
        }
    }
}
