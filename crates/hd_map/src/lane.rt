// Heights as plain numbers. One far below every height stands for none, and stays far below when a
// number of an element is added to it, so that the larger of two numbers is right in either case.
ghost use Rattle.std.specs.Prelude.{◌≡◌, ◌≤ℤ◌, pos, neg_ℤ, is_some, Some, None, if◌then◌else◌};
ghost use Rattle.std.specs.Bool.{OnTrue};
ghost use Rattle.hd_map.specs.Encoding.{Encoding, most_filtered, narrow, wide};
ghost use Rattle.hd_map.specs.Lanes.{EncodesHeight, IsBounded, IsNegated, IsPlainHeight, IsPlainNumber, exceeds};

/// The most that a height is from zero: 2 ^ 29.
const MOST_NARROW: i64 = 536_870_912;

/// Each number that is not above it, -(2 ^ 30), stands for no height.
const FLOOR_NARROW: i32 = -1_073_741_824;

/// Stands for no height: -(3 * 2 ^ 29).
const MISSING_NARROW: i32 = -1_610_612_736;

/// The most that a height is from zero: 2 ^ 53.
const MOST_WIDE: i64 = 9_007_199_254_740_992;

/// Each number that is not above it, -(2 ^ 61), stands for no height.
const FLOOR_WIDE: i64 = -2_305_843_009_213_693_952;

/// Stands for no height: -(2 ^ 62).
const MISSING_WIDE: i64 = -4_611_686_018_427_387_904;

/// A number that stands for a height, or for none.
pub trait Lane: Copy + Drop {
    ghost code: { Encoding Self };

    /// Stands for no height.
    fn missing() -> Self
        ensures { result ≡ code.missing };

    /// The number that stands for a height, unless that is too far from zero.
    fn of_height(height: Option<i64>) -> Option<Self>
        ensures { EncodesHeight code height result };

    /// The height for which the number stands.
    fn height(self) -> Option<i64>
        ensures { result ≡ code.shown self };

    /// Whether the number stands for a height.
    fn is_shown(self) -> bool
        ensures { result ≡ is_some (code.shown self) };

    /// The negative of a height; what stands for none stays.
    fn negated(self) -> Self
        requires { IsBounded (most_filtered code) (code.shown self) }
        ensures { IsNegated code self result };

    /// Whether a number stands for a greater height than another one does; none is below each height.
    fn exceeds(self, other: Self) -> bool
        requires plain { IsPlainNumber code (most_filtered code) self }
        requires other { IsPlainNumber code (most_filtered code) other }
        ensures { result ≡ exceeds (code.shown self) (code.shown other) };

    /// The most that a height is from zero.
    fn most_height() -> i64
        ensures { result ≡ pos code.most_height };

    /// The number that stands for a height that is not too far from zero.
    fn of_near(height: i64) -> Self
        requires least { neg_ℤ (pos code.most_height) ≤ℤ height }
        requires greatest { height ≤ℤ pos code.most_height }
        ensures { IsPlainHeight code (Some height) result };
}

impl Lane for i32 {
    ghost code = { narrow };

    #[inline]
    fn missing() -> i32 {
        MISSING_NARROW
    }

    #[inline]
    fn of_height(height: Option<i64>) -> Option<i32> {
        match height {
            Some(height) if -MOST_NARROW <= height && height <= MOST_NARROW => Some(height as i32),
            Some(_) => None,
            None => Some(MISSING_NARROW),
        }
    }

    #[inline]
    fn height(self) -> Option<i64> {
        if self > FLOOR_NARROW {
            Some(self as i64)
        } else {
            None
        }
    }

    #[inline]
    fn is_shown(self) -> bool {
        self > FLOOR_NARROW
    }

    #[inline]
    fn negated(self) -> i32 {
        if self > FLOOR_NARROW {
            -self
        } else {
            MISSING_NARROW
        }
    }

    #[inline]
    fn exceeds(self, other: i32) -> bool {
        self > other
    }

    #[inline]
    fn most_height() -> i64 {
        MOST_NARROW
    }

    #[inline]
    fn of_near(height: i64) -> i32 {
        height as i32
    }
}

impl Lane for i64 {
    ghost code = { wide };

    #[inline]
    fn missing() -> i64 {
        MISSING_WIDE
    }

    #[inline]
    fn of_height(height: Option<i64>) -> Option<i64> {
        match height {
            Some(height) if -MOST_WIDE <= height && height <= MOST_WIDE => Some(height),
            Some(_) => None,
            None => Some(MISSING_WIDE),
        }
    }

    #[inline]
    fn height(self) -> Option<i64> {
        if self > FLOOR_WIDE { Some(self) } else { None }
    }

    #[inline]
    fn is_shown(self) -> bool {
        self > FLOOR_WIDE
    }

    #[inline]
    fn negated(self) -> i64 {
        if self > FLOOR_WIDE {
            -self
        } else {
            MISSING_WIDE
        }
    }

    #[inline]
    fn exceeds(self, other: i64) -> bool {
        self > other
    }

    #[inline]
    fn most_height() -> i64 {
        MOST_WIDE
    }

    #[inline]
    fn of_near(height: i64) -> i64 {
        height
    }
}

/// The number that stands for a height where one shows, and else the one for none.
#[inline]
pub(crate) fn number_of<L: Lane>(shows: bool, height: i64) -> L
    requires { OnTrue shows ((neg_ℤ (pos L.code.most_height) ≤ℤ height)
        × (height ≤ℤ pos L.code.most_height)) }
    ensures { IsPlainHeight L.code (if shows then Some height else None) result }
{
    if shows {
        L::of_near(height)
    } else {
        L::missing()
    }
}
