// Local heights of kept pits in steps.
ghost use Rattle.std.specs.Prelude.{◌≡◌, ◌-ℤ◌, Some, pos};
ghost use Rattle.std.specs.Option.{ForSome};
ghost use Rattle.hd_map.specs.NearestSaddle.{local_height};
ghost use Rattle.hd_survey.specs.Features.{lpvh, whole_height};
ghost use Rattle.hd_survey.specs.Heights.{IsHeight, IsHeightRange};

use hd_map::{HeightRange, Rank, SideName};

/// The local height of a pit at its nearest saddle, and without one the whole height.
pub fn lpvh(side: SideName, range: Option<HeightRange>, pit: Rank, nearest: Option<Rank>) -> i64
    requires pit { IsHeight pit.height }
    requires nearest { ForSome nearest (λ s. IsHeight s.height) }
    requires range { ForSome range IsHeightRange }
    ensures { result ≡ lpvh side range pit nearest }
{
    match nearest {
        Some(saddle) => local_height(pit, saddle),
        None => whole_height(side, range, pit),
    }
}

// The height difference of a pit and a saddle, taken positive.
fn local_height(pit: Rank, saddle: Rank) -> i64
    requires pit { IsHeight pit.height }
    requires saddle { IsHeight saddle.height }
    ensures { result ≡ pos (local_height pit saddle) }
{
    (saddle.height - pit.height).abs()
}

// The greatest height of a map less that of a pit, for hills the height of a peak less the least.
fn whole_height(side: SideName, range: Option<HeightRange>, pit: Rank) -> i64
    requires pit { IsHeight pit.height }
    requires range { ForSome range IsHeightRange }
    ensures { result ≡ whole_height side range pit }
{
    match range {
        Some(range) => height_within(side, range, pit),
        None => 0,
    }
}

// The same where there is a range.
fn height_within(side: SideName, range: HeightRange, pit: Rank) -> i64
    requires pit { IsHeight pit.height }
    requires range { IsHeightRange range }
    ensures { result ≡ whole_height side (Some range) pit }
{
    match side {
        SideName::Dales => difference(range.greatest, pit.height),
        SideName::Hills => difference(pit.height, range.least),
    }
}

// The first height less the second.
fn difference(first: i64, second: i64) -> i64
    requires first { IsHeight first }
    requires second { IsHeight second }
    ensures { result ≡ first -ℤ second }
{
    first - second
}
