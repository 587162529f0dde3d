// Which points a flood may reach.
ghost use Rattle.std.specs.Prelude.{◌≡◌, ◌↔◌, IsTrue};
ghost use Rattle.hd_map.specs.Map.{InGrid};
ghost use Rattle.hd_reach.specs.Within.{LiesWithin, within};

use hd_map::{Heights, Pos, Rank, Side, index_of};

/// Which points a flood may reach: those within a level, or all where there is none.
#[derive(Clone, Copy)]
pub struct Bound {
    /// The level.
    pub level: Option<Rank>,
    /// Whether within means below, and not only not above.
    pub strict: bool,
}

/// Whether the point is present and lies within the level.
#[inline]
pub fn lies_within<S: Side, G: Heights>(grid: &G, bound: Bound, at: Pos) -> bool
    requires { InGrid (G.map grid.now).size at }
    ensures { IsTrue result ↔ LiesWithin (G.map grid.now) S.NAME bound.level bound.strict at }
{
    let Some(height) = grid.height(at) else {
        return false;
    };
    let index = index_of(grid.size(), at);
    rank_within::<S>(bound, Rank { height, index })
}

// Whether a rank lies within a level.
#[inline]
fn rank_within<S: Side>(bound: Bound, rank: Rank) -> bool
    ensures { result ≡ within S.NAME bound.level bound.strict rank }
{
    match bound.level {
        Some(level) => {
            if bound.strict {
                S::below(rank, level)
            } else {
                !S::below(level, rank)
            }
        }
        None => true,
    }
}
