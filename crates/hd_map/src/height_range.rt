// The range of some heights.
ghost use Rattle.std.specs.Prelude.{◌≡◌};
ghost use Rattle.hd_map.specs.HeightRange.{widened};

/// The least and the greatest of some heights in steps.
#[derive(Clone, Copy, Debug, PartialEq, Eq)]
pub struct HeightRange {
    /// The least height.
    pub least: i64,
    /// The greatest height.
    pub greatest: i64,
}

impl HeightRange {
    /// The range with one more height in steps; without a range, that of this height alone.
    #[inline]
    pub fn widened(range: Option<HeightRange>, height: i64) -> HeightRange
        ensures { result ≡ widened range height }
    {
        match range {
            Some(range) => HeightRange {
                least: range.least.min(height),
                greatest: range.greatest.max(height),
            },
            None => HeightRange {
                least: height,
                greatest: height,
            },
        }
    }
}
