// How many points of a map are present, and the range of their heights.
ghost use Rattle.std.specs.Prelude.{◌≡◌, ◌<◌, ◌^◌};
ghost use Rattle.hd_map.specs.Presence.{IsPresence, present_heights, presence_with};

use crate::{HeightRange, Heights, Pos, position_after};

/// How many points of a map are present, and the range of their heights.
#[derive(Clone, Copy, Debug, PartialEq, Eq)]
pub struct Presence {
    /// The number of present points.
    pub count: u32,
    /// The range of their heights, or none where no point is present.
    pub range: Option<HeightRange>,
}

/// How many points of a grid are present, and the range of their heights in steps.
pub fn presence_of<G: Heights>(grid: &G) -> Presence
    ensures { IsPresence (present_heights (G.map grid.now)) result }
{
    let size = grid.size();
    let mut seen = Presence {
        count: 0,
        range: None,
    };
    let mut at = Pos { x: 0, y: 0 };
    'points: for _ in 0..size.profiles * size.points {
        seen = seen_with(seen, grid.height(at));
        at = position_after(size, at);
    }
    seen
}

// The points that were seen and one more, by its height.
#[inline]
fn seen_with(seen: Presence, height: Option<i64>) -> Presence
    requires { seen.count < 2 ^ 31 }
    ensures { result ≡ presence_with seen height }
{
    match height {
        Some(height) => Presence {
            count: seen.count + 1,
            range: Some(HeightRange::widened(seen.range, height)),
        },
        None => seen,
    }
}
