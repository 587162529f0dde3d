// What filters ask of plain numbers.
ghost use Rattle.std.specs.Prelude.{◌≡◌, ◌≤ℤ◌, ◌↔◌, ℤ, IsTrue, pos, neg_ℤ, Some};
ghost use Rattle.hd_map.specs.Encoding.{most_filtered};
ghost use Rattle.hd_map.specs.Lanes.{IsPlainNumber};
ghost use Rattle.hd_morph.specs.Greatest.{larger};
ghost use Rattle.hd_morph.specs.Plain.{IsBetween};
ghost use Rattle.hd_morph.specs.Raised.{IsNumberWithin, IsSettled, plus};

use hd_map::Lane;

/// The most that a number of an element is from zero: 2 ^ 27.
pub const MOST_NARROW_NUMBER: i64 = 134_217_728;

/// A number that stands for a height, or for none, and that filters raise and compare.
pub trait Raise: Lane {
    /// The larger of two numbers.
    fn larger_of(self, other: Self) -> Self
        ensures { Self.code.shown result ≡ larger (Self.code.shown self) (Self.code.shown other) };

    /// A height plus a number, and a number far below every height where there is none.
    fn raised_by(self, number: i64) -> Self
        requires plain { IsPlainNumber Self.code (most_filtered Self.code) self }
        requires least { neg_ℤ (pos Self.code.most_number) ≤ℤ number }
        requires greatest { number ≤ℤ pos Self.code.most_number }
        ensures { Self.code.shown result ≡ plus number (Self.code.shown self) };

    /// Whether the height, if the number stands for one, is from a least to a greatest one.
    fn is_between(self, least: i64, greatest: i64) -> bool
        requires { least ≤ℤ pos 0 }
        ensures { IsTrue result ↔ IsBetween least greatest (Self.code.shown self) };

    /// The number itself, a top, plus another number where a height stands, and else none.
    #[inline]
    fn settled(self, height: Self, number: i64) -> Self
        requires topped { (z : ℤ) → Self.code.shown height ≡ Some z
            → IsNumberWithin (most_filtered Self.code) (Self.code.shown self) }
        requires least { neg_ℤ (pos Self.code.most_number) ≤ℤ number }
        requires greatest { number ≤ℤ pos Self.code.most_number }
        ensures { IsSettled Self.code (Self.code.shown height) (Self.code.shown self) number result }
    {
        if height.is_shown() {
            self.raised_by(number)
        } else {
            Self::missing()
        }
    }
}

impl Raise for i32 {
    #[inline]
    fn larger_of(self, other: i32) -> i32 {
        self.max(other)
    }

    #[inline]
    fn raised_by(self, number: i64) -> i32 {
        self + number as i32
    }

    #[inline]
    fn is_between(self, least: i64, greatest: i64) -> bool {
        let low = least.max(i32::MIN as i64) as i32;
        let high = greatest.clamp(i32::MIN as i64, i32::MAX as i64) as i32;
        !self.is_shown() | ((low <= self) & (self <= high))
    }
}

impl Raise for i64 {
    #[inline]
    fn larger_of(self, other: i64) -> i64 {
        self.max(other)
    }

    #[inline]
    fn raised_by(self, number: i64) -> i64 {
        self + number
    }

    #[inline]
    fn is_between(self, least: i64, greatest: i64) -> bool {
        !self.is_shown() | ((least <= self) & (self <= greatest))
    }
}
