// What a flood marks points with.

/// What stands at a point: a blank, or the mark of a point that is reached.
pub trait FloodMark: Copy + Drop {
    ghost use Rattle.std.specs.Prelude.{◌≡◌, ◌↔◌, IsTrue};

    /// What stands at a point that is not reached.
    ghost blank: { Self };

    /// The mark of the points that are reached from one with this mark.
    ghost after: { Self → Self };

    /// Whether the point is not reached.
    fn is_blank(self) -> bool
        ensures { IsTrue result ↔ (self ≡ blank) };

    /// The mark of the points that are reached from one with this mark.
    fn after(self) -> Self
        ensures { result ≡ after self };

    /// It is no blank where this mark is none.
    ghost marks: { (x : Self) → after x ≡ blank → x ≡ blank };
}

/// The number of the start, the same at all points that it reaches.
impl FloodMark for Option<u32> {
    ghost use Rattle.std.specs.Prelude.{None};

    ghost blank = { None };

    ghost after = { λ number. number };

    #[inline]
    fn is_blank(self) -> bool {
        self.is_none()
    }

    #[inline]
    fn after(self) -> Option<u32> {
        self
    }

    ghost marks = { λ number is. is };
}
