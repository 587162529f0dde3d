// Percents that words write, and the part of a height that a percent is.
ghost use Rattle.std.specs.Prelude.{◌≡◌, ◌<◌, ◌++◌, ◌∷◌, [], IfSome, OnOk, OnErr};
ghost use Rattle.hd_num.specs.Percent.{few_digits_of, fraction_of, fraction_text, is_percent_less, percent_of, percent_text, percent_within, thousandths_of};
ghost use Rattle.hd_num.specs.Text.{AppendsPrefix};

use crate::decimal::split_point;
use crate::{push_text, push_unsigned, read_count};
use hd_list::{List, Memory};

/// A part of a whole in thousandths of a percent.
#[derive(Clone, Copy, Debug, PartialEq, Eq)]
pub struct Percent {
    /// The thousandths of a percent: 100,000 of them are the whole.
    pub thousandths: u32,
}

/// Reads a word as a percent: one to three digits, optionally `.` and one to three digits, then
/// `%`; the value is at most 100. None comes exactly where the word has not this form.
pub fn read_percent(word: &[u8]) -> Option<Percent>
    ensures { result ≡ percent_of word.now }
{
    let (last, text) = word.split_last()?;
    if *last != b'%' {
        return None;
    }
    let whole = few_digits(split_point(text).0)?;
    let thousandths = thousandths_after_point(text)?;
    within(whole * 1000 + thousandths)
}

/// Adds a percent: its whole part without leading zeros, then, where thousandths are left, `.` and
/// their digits without trailing zeros, then `%`. Where memory is refused, a prefix of its text may
/// stand there.
pub fn push_percent(out: &mut List<u8>, p: Percent) -> Result<(), Memory>
    ensures ok { OnOk result (out.new ≡ out.old ++ percent_text p.thousandths) }
    ensures err { OnErr result (AppendsPrefix out.old out.new (percent_text p.thousandths)) }
{
    push_unsigned(out, u64::from(p.thousandths / 1000))?;
    push_fraction(out, p.thousandths % 1000)
}

/// Whether a local height is below a percent of a height: whether `local * 100000` is below
/// `thousandths * sz`, in whole numbers. Both heights are in steps.
pub fn percent_less(local: i64, percent: Percent, sz: i64) -> bool
    ensures { result ≡ is_percent_less local percent.thousandths sz }
{
    is_below(local, percent.thousandths, sz)
}

// The same, of the thousandths as a number.
fn is_below(local: i64, thousandths: u32, sz: i64) -> bool
    ensures { result ≡ is_percent_less local thousandths sz }
{
    i128::from(local) * 100_000 < i128::from(thousandths) * i128::from(sz)
}

// The percent of so many thousandths, where it is at most 100.
fn within(thousandths: u32) -> Option<Percent>
    ensures { result ≡ percent_within thousandths }
{
    if thousandths > 100_000 {
        return None;
    }
    Some(Percent { thousandths })
}

// The number that one to three digits write.
fn few_digits(text: &[u8]) -> Option<u32>
    ensures value { result ≡ few_digits_of text.now }
    ensures small { IfSome result (λ n. n < 1000) }
{
    if text.len() > 3 {
        return None;
    }
    read_count(text)
}

// The thousandths that one to three digits after a point write.
fn fraction(text: &[u8]) -> Option<u32>
    ensures value { result ≡ fraction_of text.now }
    ensures small { IfSome result (λ n. n < 100000) }
{
    let number = few_digits(text)?;
    match text.len() {
        1 => Some(number * 100),
        2 => Some(number * 10),
        _ => Some(number),
    }
}

// The thousandths after the point of a text, and 0 without a point.
fn thousandths_after_point(text: &[u8]) -> Option<u32>
    ensures value { result ≡ thousandths_of text.now }
    ensures small { IfSome result (λ n. n < 100000) }
{
    let (whole, after) = split_point(text);
    if whole.len() < text.len() {
        fraction(after)
    } else {
        Some(0)
    }
}

// Adds thousandths and the mark.
fn push_fraction(out: &mut List<u8>, thousandths: u32) -> Result<(), Memory>
    requires { thousandths < 1000 }
    ensures ok { OnOk result (out.new ≡ out.old ++ (fraction_text thousandths ++ 37 ∷ [])) }
    ensures err { OnErr result (AppendsPrefix out.old out.new (fraction_text thousandths ++ 37 ∷ [])) }
{
    let [a, b, c] = [
        b'0' + (thousandths / 100) as u8,
        b'0' + (thousandths / 10 % 10) as u8,
        b'0' + (thousandths % 10) as u8,
    ];
    if thousandths == 0 {
        push_text(out, &[b'%'])
    } else if thousandths % 100 == 0 {
        push_text(out, &[b'.', a, b'%'])
    } else if thousandths % 10 == 0 {
        push_text(out, &[b'.', a, b, b'%'])
    } else {
        push_text(out, &[b'.', a, b, c, b'%'])
    }
}
