// Edge points.
ghost use Rattle.std.specs.Prelude.{◌≡◌, ◌<◌, ◌≤◌, ◌+◌, ◌*◌, true, false, length};
ghost use Rattle.std.specs.Bool.{OnTrue};
ghost use Rattle.hd_map.specs.Map.{Present};
ghost use Rattle.hd_map.specs.Rank.{rank};
ghost use Rattle.hd_map.specs.EdgePoint.{IsEdge};
ghost use Rattle.hd_basin.specs.Frames.{InFrame};
ghost use Rattle.hd_basin.specs.Round.{AreAllPoints, AreRanks, lacks_one};

use crate::frame::Frame;
use hd_map::{Heights, Pos, Rank, Side};
use hd_steep::is_missing;

/// Whether a present point is an edge point: on the border of the grid, or beside a position without a
/// present point. In both cases one of the nine ranks round it is that of no point. It may be known that
/// all ranks are those of points.
#[inline]
pub fn is_edge<S: Side, G: Heights>(
    _grid: &G,
    area: Frame,
    ranks: &[Rank],
    at: Pos,
    whole: bool,
) -> bool
    requires present { Present (G.map _grid.now) at }
    requires ranks { AreRanks (G.map _grid.now) S.NAME area ((area.rows + 2) * (area.columns + 2)) ranks.now }
    requires columns { area.columns ≤ 256 }
    requires rows { area.rows ≤ 256 }
    requires at { InFrame area at }
    requires whole { OnTrue whole (AreAllPoints S.NAME ranks.now) }
    ensures edge { result ≡ true → IsEdge (G.map _grid.now) (rank (G.map _grid.now) at) }
    ensures inner { result ≡ false → IsEdge (G.map _grid.now) (rank (G.map _grid.now) at) → ⊥ }
{
    if whole {
        return false;
    }
    let width = area.columns as usize + 2;
    let above = (at.y - area.top) as usize * width + (at.x - area.left) as usize;
    let level = above + width;
    let below = level + width;
    if lacks_one::<S>(ranks, above) {
        return true;
    }
    if lacks_one::<S>(ranks, level) {
        return true;
    }
    lacks_one::<S>(ranks, below)
}

/// Whether all ranks are those of points, as in a tile without missing points that is not at the border of
/// the grid.
pub fn are_all_points<S: Side>(ranks: &[Rank]) -> bool
    ensures { OnTrue result (AreAllPoints S.NAME ranks.now) }
{
    for rank in ranks {
        if is_missing::<S>(*rank) {
            return false;
        }
    }
    true
}

// Whether one of three ranks side by side is that of no point.
#[inline]
fn lacks_one<S: Side>(ranks: &[Rank], first: usize) -> bool
    requires { first + 2 < length ranks.now }
    ensures { result ≡ lacks_one S.NAME ranks.now first }
{
    is_missing::<S>(ranks[first])
        || is_missing::<S>(ranks[first + 1])
        || is_missing::<S>(ranks[first + 2])
}
