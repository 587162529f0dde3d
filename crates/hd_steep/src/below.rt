// Keys, which stand for heights of a side and are the greater the further below a point lies: on the side of dales a key
// is a lane of the negative of a height, on that of hills of the height.
ghost use Rattle.std.specs.Prelude.{◌≡◌, ℕ};
ghost use Rattle.hd_steep.specs.Keys.{IsKey, rank_of};
ghost use Rattle.hd_steep.specs.Lowest.{earlier_below, later_below};

use hd_map::{Lane, Side, SideName};

/// Whether the point of a key is below that of another one that has a lesser index.
#[inline(always)]
pub fn is_below_earlier<S: Side, L: Lane>(key: L, earlier: L) -> bool
    requires key { IsKey L.code key }
    requires earlier { IsKey L.code earlier }
    ensures { (i j : ℕ) → result ≡ later_below S.NAME (rank_of L.code S.NAME i key)
        (rank_of L.code S.NAME j earlier) }
{
    match S::NAME {
        SideName::Dales => key.exceeds(earlier),
        SideName::Hills => !earlier.exceeds(key),
    }
}

/// Whether the point of a key is below that of another one that has a greater index.
#[inline(always)]
pub fn is_below_later<S: Side, L: Lane>(key: L, later: L) -> bool
    requires key { IsKey L.code key }
    requires later { IsKey L.code later }
    ensures { (i j : ℕ) → result ≡ earlier_below S.NAME (rank_of L.code S.NAME i key)
        (rank_of L.code S.NAME j later) }
{
    match S::NAME {
        SideName::Dales => !later.exceeds(key),
        SideName::Hills => key.exceeds(later),
    }
}
