// The lowest of the points at some positions, which are looked at in the order of their indexes.
ghost use Rattle.std.specs.Prelude.{◌≡◌, ◌<◌, ◌+◌};
ghost use Rattle.std.specs.Ordering.{int_eq};
ghost use Rattle.hd_map.specs.Map.{InGrid, Present};
ghost use Rattle.hd_map.specs.Neighbour.{IsNear};
ghost use Rattle.hd_steep.specs.Lowest.{missing, lower_of, IsLow, IsAtPlace, IsPlaceBeside, IsRound, IsRoundIn};

use hd_map::{Heights, Pos, Rank, Side, SideName, are_beside, index_of};

/// The rank that stands where no point is present: the greatest height on the side of dales and the
/// least on that of hills, with the greatest index.
#[inline]
pub fn missing_rank<S: Side>() -> Rank
    ensures { result ≡ missing S.NAME }
{
    let height = match S::NAME {
        SideName::Dales => i64::MAX,
        SideName::Hills => i64::MIN,
    };
    Rank {
        height,
        index: u32::MAX,
    }
}

/// Whether a rank has the height of the one that stands where no point is present.
#[inline]
pub fn is_missing<S: Side>(rank: Rank) -> bool
    ensures { result ≡ int_eq rank.height (missing S.NAME).height }
{
    rank.height == missing_rank::<S>().height
}

/// The rank of the point at a position, if one is present there.
#[inline]
pub fn rank_at<S: Side, G: Heights>(grid: &G, at: Pos) -> Rank
    requires { InGrid (G.map grid.now).size at }
    ensures { IsLow (G.map grid.now) S.NAME (IsAtPlace (at.y + 1) (at.x + 1)) result }
{
    match grid.height(at) {
        Some(height) => Rank {
            height,
            index: index_of(grid.size(), at),
        },
        None => missing_rank::<S>(),
    }
}

/// The lower of two ranks, of which the second has the greater index. Their heights alone are
/// compared.
#[inline]
pub fn lower<S: Side>(first: Rank, second: Rank) -> Rank
    ensures { result ≡ lower_of S.NAME first second }
{
    let earlier = Rank {
        height: first.height,
        index: 0,
    };
    let later = Rank {
        height: second.height,
        index: 1,
    };
    if S::below(later, earlier) {
        second
    } else {
        first
    }
}

/// The lowest of a present point and its neighbours.
pub fn lowest_round<S: Side, G: Heights>(grid: &G, at: Pos) -> Rank
    requires { Present (G.map grid.now) at }
    ensures { IsLow (G.map grid.now) S.NAME (IsRound (G.map grid.now).adjacency at) result }
{
    let above = at.y.saturating_sub(1);
    let below = grid.size().profiles.min(at.y + 2);
    let mut lowest = missing_rank::<S>();
    for y in above..below {
        lowest = lower::<S>(lowest, lowest_beside::<S, G>(grid, at, y));
    }
    lowest
}

// The lowest of these in a profile.
fn lowest_beside<S: Side, G: Heights>(grid: &G, at: Pos, y: u32) -> Rank
    requires at { InGrid (G.map grid.now).size at }
    requires profile { y < (G.map grid.now).size.profiles }
    requires near { IsNear at.y y }
    ensures { IsLow (G.map grid.now) S.NAME (IsRoundIn (G.map grid.now).adjacency at (y + 1)) result }
{
    let left = at.x.saturating_sub(1);
    let right = grid.size().points.min(at.x + 2);
    let mut lowest = missing_rank::<S>();
    for x in left..right {
        lowest = lower::<S>(lowest, rank_beside::<S, G>(grid, at, Pos { x, y }));
    }
    lowest
}

// The rank of the point at a position near another one, if it is beside that under the setting and
// present.
fn rank_beside<S: Side, G: Heights>(grid: &G, at: Pos, near: Pos) -> Rank
    requires near { InGrid (G.map grid.now).size near }
    ensures { IsLow (G.map grid.now) S.NAME (IsPlaceBeside (G.map grid.now).adjacency at near) result }
{
    if are_beside(grid.adjacency(), at, near) {
        rank_at::<S, G>(grid, near)
    } else {
        missing_rank::<S>()
    }
}
