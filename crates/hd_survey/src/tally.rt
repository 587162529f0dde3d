// Counting the points of a region.
ghost use Rattle.std.specs.Prelude.{◌≡◌, ◌<◌, ◌+◌, ◌^◌};
ghost use Rattle.hd_survey.specs.Tallies.{joined, joined_ranges, tally_with};

use hd_map::HeightRange;
use hd_regions::Tally;

/// The tally of no points.
pub const NO_TALLY: Tally = Tally {
    points: 0,
    edge: None,
};

/// Counts one more point, and its height in steps where it is an edge point.
#[inline]
pub fn count_point(tally: &mut Tally, height: Option<i64>)
    requires { tally.old.points < 2 ^ 31 }
    ensures { tally.new ≡ tally_with tally.old height }
{
    tally.points += 1;
    if let Some(height) = height {
        tally.edge = Some(HeightRange::widened(tally.edge, height));
    }
}

/// The tally of two regions together.
pub fn joined(a: Tally, b: Tally) -> Tally
    requires { a.points + b.points < 2 ^ 32 }
    ensures { result ≡ joined a b }
{
    Tally {
        points: a.points + b.points,
        edge: joined_ranges(a.edge, b.edge),
    }
}

// The range of the heights of both.
fn joined_ranges(a: Option<HeightRange>, b: Option<HeightRange>) -> Option<HeightRange>
    ensures { result ≡ joined_ranges a b }
{
    match (a, b) {
        (Some(a), Some(b)) => Some(HeightRange {
            least: a.least.min(b.least),
            greatest: a.greatest.max(b.greatest),
        }),
        (Some(a), None) => Some(a),
        (None, b) => b,
    }
}
