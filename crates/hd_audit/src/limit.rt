// When a point is within another.
ghost use Rattle.std.specs.Prelude.{◌≡◌, true};
ghost use Rattle.hd_map.specs.Rank.{IsPoint};
ghost use Rattle.hd_map.specs.Map.{IsMap, Map};
ghost use Rattle.hd_num.specs.Percent.{is_percent_less};
ghost use Rattle.hd_audit.specs.Rules.{rise_over};

use hd_map::{Rank, SideName};
use hd_num::{Percent, percent_less};

/// How far a point may be above another on a side to be within it.
#[derive(Clone, Copy, Debug)]
pub struct Limit {
    /// The side.
    pub side: SideName,
    /// The part of Sz.
    pub percent: Percent,
    /// Sz, the greatest height of the map less the least, in steps.
    pub sz: i64,
}

/// Whether a point x of a map is within its point c.
pub fn is_within(limit: &Limit, c: Rank, x: Rank) -> bool
    requires { (m : Map) × IsMap m × IsPoint m c × IsPoint m x }
    ensures { result ≡ is_percent_less (rise_over limit.now.side c x) limit.now.percent.thousandths
        limit.now.sz }
{
    is_height_within(limit, c, x.height)
}

/// Whether the points of a map that have this height are within its point c.
pub fn is_height_within(limit: &Limit, c: Rank, height: i64) -> bool
    requires { (m : Map) × IsMap m × IsPoint m c × (x : Rank) × IsPoint m x × (x.height ≡ height) }
    ensures { (x : Rank) → x.height ≡ height → result
        ≡ is_percent_less (rise_over limit.now.side c x) limit.now.percent.thousandths
        limit.now.sz }
{
    percent_less(rise_over(limit.side, c, height), limit.percent, limit.sz)
}

// How far points of this height are above c on the side, negative where they are lower.
fn rise_over(side: SideName, c: Rank, height: i64) -> i64
    requires { (m : Map) × IsMap m × IsPoint m c × (x : Rank) × IsPoint m x × (x.height ≡ height) }
    ensures { (x : Rank) → x.height ≡ height → result ≡ rise_over side c x }
{
    match side {
        SideName::Dales => height - c.height,
        SideName::Hills => c.height - height,
    }
}
