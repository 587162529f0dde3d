// Which of two points is below the other.
ghost use Rattle.std.specs.Prelude.{◌≡◌};
ghost use Rattle.hd_map.specs.Map.{Present};
ghost use Rattle.hd_map.specs.Rank.{rank, below_by};

use hd_map::{Heights, Pos, Rank, SideName, rank_of};

/// Whether a present point is below another.
pub fn is_lower<G: Heights>(surface: &G, side: SideName, a: Pos, b: Pos) -> bool
    requires a { Present (G.map surface.now) a }
    requires b { Present (G.map surface.now) b }
    ensures { result ≡ below_by side (rank (G.map surface.now) a) (rank (G.map surface.now) b) }
{
    is_below(side, rank_of(surface, a), rank_of(surface, b))
}

/// Whether a rank is below another.
pub fn is_below(side: SideName, a: Rank, b: Rank) -> bool
    ensures { result ≡ below_by side a b }
{
    match side {
        SideName::Dales => a.height < b.height || (a.height == b.height && a.index < b.index),
        SideName::Hills => b.height < a.height || (b.height == a.height && b.index < a.index),
    }
}
