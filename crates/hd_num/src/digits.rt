// The digits at the front of a text.
ghost use Rattle.std.specs.Prelude.{◌≡◌, ◌<◌, ◌≤◌, ◌^◌, length, take, slice_index, true, false};
ghost use Rattle.std.specs.Char.{is_ascii_digit};
ghost use Rattle.std.specs.List.{list_all};
ghost use Rattle.std.specs.Str.Parse.{digits_value};

/// The digits `0` to `9` that a text begins with, at most eighteen of them: how many they are, and
/// the number that they write. It is 0 where there is none.
pub fn leading_digits(text: &[u8]) -> (usize, u64)
    ensures within { result.0 ≤ length text.now }
    ensures few { result.0 ≤ 18 }
    ensures digits { list_all is_ascii_digit (take result.0 text.now) ≡ true }
    ensures value { result.1 ≡ digits_value 10 (take result.0 text.now) }
    ensures bound { result.1 < 10 ^ 18 }
    ensures most { result.0 < 18 → result.0 < length text.now
        → is_ascii_digit (slice_index text.now result.0) ≡ false }
{
    let mut number = 0u64;
    'digits: for (place, byte) in text.iter().enumerate() {
        if place == 18 || !byte.is_ascii_digit() {
            return (place, number);
        }
        number = number * 10 + u64::from(*byte - b'0');
    }
    (text.len(), number)
}
