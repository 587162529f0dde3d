// How far a height is over the least one of its data type.
ghost use Rattle.std.specs.Prelude.{◌≡◌, ◌<◌, ◌≤◌, ◌^◌};

/// How far a height is over the least one of its data type, which is less than 2 ^ 56, in seven bytes,
/// the lowest first.
// Bytes, since the alignment of a wider number would make a change take 16 or 24 of them in place of 12.
#[derive(Clone, Copy)]
pub struct OverLeast {
    bytes: [u8; 7],
}

impl OverLeast {
    ghost use Rattle.std.specs.Prelude.{MatchOption};
    ghost use Rattle.hd_edit.specs.SevenBytes.{number_of, widened};

    /// The bytes of a number.
    #[inline]
    pub fn new(number: u64) -> OverLeast
        requires { number < 2 ^ 56 }
        ensures { number_of result ≡ number }
    {
        let all = number.to_le_bytes();
        OverLeast {
            bytes: [all[0], all[1], all[2], all[3], all[4], all[5], all[6]],
        }
    }

    /// The number of which these are the bytes.
    #[inline]
    pub fn number(self) -> u64
        ensures number { result ≡ number_of self }
        ensures small { result < 2 ^ 56 }
    {
        let [a, b, c, d, e, f, g] = self.bytes;
        u64::from_le_bytes([a, b, c, d, e, f, g, 0])
    }

    /// The lowest four of the bytes, exactly where the others are 0.
    #[inline]
    pub fn low(self) -> Option<[u8; 4]>
        ensures { MatchOption result (2 ^ 32 ≤ number_of self) (λ low. widened low ≡ self) }
    {
        let [a, b, c, d, e, f, g] = self.bytes;
        if e == 0 && f == 0 && g == 0 {
            Some([a, b, c, d])
        } else {
            None
        }
    }

    /// The lowest four bytes of a number, exactly where the others are 0.
    #[inline]
    pub fn low_of(number: u64) -> Option<[u8; 4]>
        ensures { MatchOption result (2 ^ 32 ≤ number) (λ low. number_of (widened low) ≡ number) }
    {
        let low = u32::try_from(number).ok()?.to_le_bytes();
        Some([low[0], low[1], low[2], low[3]])
    }

    /// The number of which these are the lowest four bytes, and the others 0.
    #[inline]
    pub fn of_low(low: [u8; 4]) -> OverLeast
        ensures { result ≡ widened low }
    {
        let [a, b, c, d] = low;
        OverLeast {
            bytes: [a, b, c, d, 0, 0, 0],
        }
    }
}
