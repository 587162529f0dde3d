// The texts of heights, written from their ends on.
ghost use Rattle.std.specs.Prelude.{◌≡◌, ◌<◌, ◌≤◌, ◌+◌, ◌-◌, ◌^◌, ◌++◌, ◌∷◌, drop, length, replicate};
ghost use Rattle.hd_num.specs.Steps.{magnitude_text, padded, steps_text};

use itoa::write_digits;

/// Writes the text of a height of so many steps into a slice, so that it ends before a place, and tells
/// where it starts. It takes at most 40 bytes.
#[inline(always)]
pub fn write_steps(text: &mut [u8], end: usize, steps: i64, places: u8) -> usize
    requires few { places ≤ 18 }
    requires room { 40 ≤ end }
    requires within { end ≤ length text.old }
    ensures text { drop result text.new ≡ steps_text steps places ++ drop end text.old }
    ensures short { end ≤ result + 40 }
    ensures start { result ≤ end }
{
    let start = write_magnitude(text, end, steps.unsigned_abs(), places);
    if steps < 0 {
        return write_byte(text, start, b'-');
    }
    start
}

// Writes so many steps without a sign.
#[inline(always)]
fn write_magnitude(text: &mut [u8], end: usize, magnitude: u64, places: u8) -> usize
    requires few { places ≤ 18 }
    requires room { 39 ≤ end }
    requires within { end ≤ length text.old }
    ensures text { drop result text.new ≡ magnitude_text magnitude places ++ drop end text.old }
    ensures short { end ≤ result + 39 }
    ensures start { result ≤ end }
{
    if places == 0 {
        return write_digits(magnitude, text, end);
    }
    let unit = 10u64.pow(u32::from(places));
    let point = write_places(text, end, magnitude % unit, places);
    write_digits(magnitude / unit, text, point)
}

// Writes a point and a number in so many digits.
fn write_places(text: &mut [u8], end: usize, number: u64, places: u8) -> usize
    requires few { places ≤ 18 }
    requires fits { number < 10 ^ places }
    requires some { 1 ≤ places }
    requires room { 39 ≤ end }
    requires within { end ≤ length text.old }
    ensures text { drop result text.new ≡ 46 ∷ padded places number ++ drop end text.old }
    ensures start { result + places + 1 ≡ end }
{
    let digits = write_digits(number, text, end);
    let first = write_zeros(text, end - usize::from(places), digits);
    write_byte(text, first, b'.')
}

// Writes zeros from a place up to another one.
#[inline]
fn write_zeros(text: &mut [u8], from: usize, to: usize) -> usize
    requires order { from ≤ to }
    requires within { to ≤ length text.old }
    ensures text { drop from text.new ≡ replicate (to - from) 48 ++ drop to text.old }
    ensures start { result ≡ from }
{
    let mut start = to;
    'zeros: while start > from {
        start = write_byte(text, start, b'0');
    }
    start
}

/// Writes a byte before a place, and tells where it stands.
#[inline(always)]
pub fn write_byte(text: &mut [u8], end: usize, byte: u8) -> usize
    requires some { 1 ≤ end }
    requires within { end ≤ length text.old }
    ensures text { drop result text.new ≡ byte ∷ drop end text.old }
    ensures start { result + 1 ≡ end }
{
    text[end - 1] = byte;
    end - 1
}
