// Whole numbers and counts that words write.
ghost use Rattle.std.specs.Prelude.{◌≡◌};
ghost use Rattle.hd_num.specs.Whole.{count_of, whole_of_number, saturated_value, signed_number, whole_of};
ghost use Rattle.std.specs.Str.Parse.{starts_with_minus, without_leading_sign};

/// What a word is as a whole number.
#[derive(Clone, Copy, Debug, PartialEq, Eq)]
pub enum Whole {
    /// It is no whole number.
    Not,
    /// It is a whole number below -2^63 or above 2^63 - 1.
    Outside,
    /// It is this whole number.
    Is(i64),
}

/// Reads a word as a whole number: at most one `+` or `-`, then one or more digits `0` to `9`.
/// Leading zeros are allowed, and `-0` is 0.
pub fn read_whole(word: &[u8]) -> Whole
    ensures { result ≡ whole_of word.now }
{
    match read_numeral(unsigned_part(word)) {
        Some(magnitude) => narrow(is_negative(word), magnitude),
        None => Whole::Not,
    }
}

/// Reads a word as a count: one or more digits `0` to `9` whose value is at most 4,294,967,295.
/// Leading zeros are allowed. None comes exactly where the word is no such count.
pub fn read_count(word: &[u8]) -> Option<u32>
    ensures { result ≡ count_of word.now }
{
    let value = read_numeral(word)?;
    u32::try_from(value).ok()
}

/// Whether a word begins with `-`.
pub fn is_negative(word: &[u8]) -> bool
    ensures { result ≡ starts_with_minus word.now }
{
    matches!(word, [b'-', ..])
}

/// A word without the one sign, `+` or `-`, that it may begin with.
pub fn unsigned_part(word: &[u8]) -> &[u8]
    ensures { result.now ≡ without_leading_sign word.now }
{
    match word {
        [b'+' | b'-', digits @ ..] => digits,
        _ => word,
    }
}

// The value of one or more digits, or the greatest u64 where it is more.
fn read_numeral(word: &[u8]) -> Option<u64>
    ensures { result ≡ saturated_value word.now }
{
    if word.is_empty() {
        return None;
    }
    let mut value = 0u64;
    for byte in word {
        if !byte.is_ascii_digit() {
            return None;
        }
        value = value
            .saturating_mul(10)
            .saturating_add(u64::from(*byte - b'0'));
    }
    Some(value)
}

// The number of a sign and a magnitude, where it fits i64.
fn narrow(negative: bool, magnitude: u64) -> Whole
    ensures { result ≡ whole_of_number (signed_number negative magnitude) }
{
    let number = if negative {
        0i64.checked_sub_unsigned(magnitude)
    } else {
        0i64.checked_add_unsigned(magnitude)
    };
    match number {
        Some(number) => Whole::Is(number),
        None => Whole::Outside,
    }
}
