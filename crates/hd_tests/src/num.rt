// What no clause says: the outcomes that the rules give for words and texts from outside.
ghost use Rattle.std.specs.Prelude.{◌<◌, ◌≤◌};

use crate::shared::{Outcome, expect_bytes, expect_rows, shown, text_of};
use hd_list::List;
use hd_num::{
    Frac, Percent, leading_digits, percent_less, push_frac, push_steps, push_text, push_unsigned,
    push_whole, read_count, read_decimal, read_percent, read_whole, reduced_fraction_is_no_greater,
    trim,
};
use std::process::Abort;

// What is no word of a line: neither a whole number nor a count.
struct NoWord;

impl Outcome for NoWord {
    fn of<R: Abort + AllocGlobal>(rt: &R, input: &str) -> String {
        let text = input.as_bytes();
        shown(rt, &(read_whole(text), read_count(text)))
    }
}

const NO_WORDS: &str = " => (Not, None)
1  => (Not, None)
 1 => (Not, None)";

#[test]
fn numbers_are_printed(rt: HostRuntime) {
    let mut out = List::new(rt.alloc());
    for n in [0, 7, -7, i64::MAX, i64::MIN] {
        push_whole(&mut out, n).expect(&rt, "memory");
        push_text(&mut out, b" ").expect(&rt, "memory");
    }
    push_unsigned(&mut out, u64::MAX).expect(&rt, "memory");
    expect_bytes(
        &rt,
        out.as_slice(),
        b"0 7 -7 9223372036854775807 -9223372036854775808 18446744073709551615",
    );
}

// The text of a height of decimals.
fn steps_text(rt: &(impl Abort + AllocGlobal), steps: i64, places: u8) -> List<u8>
    requires { places ≤ 18 }
{
    let mut out = List::new(rt.alloc());
    push_steps(&mut out, steps, places).expect(rt, "memory");
    out
}

#[test]
fn heights_of_decimals_are_printed(rt: HostRuntime) {
    let rows = [
        (7, 0, "7"),
        (-5, 2, "-0.05"),
        (50, 2, "0.50"),
        (-9_007_199_254_740_992, 18, "-0.009007199254740992"),
        (i64::MIN, 3, "-9223372036854775.808"),
        (1_000_000_000_000_000_000, 18, "1.000000000000000000"),
    ];
    for (steps, places, wanted) in rows {
        assert!(rt; places <= 18);
        let text = steps_text(&rt, steps, places);
        expect_bytes(&rt, text.as_slice(), wanted.as_bytes());
    }
}

// The sign, the digits and the exponent of a word as a decimal.
struct DecimalNumber;

impl Outcome for DecimalNumber {
    fn of<R: Abort + AllocGlobal>(rt: &R, input: &str) -> String {
        let read = read_decimal(rt.alloc(), input.as_bytes()).expect(rt, "memory");
        let Some(read) = read else {
            return shown(rt, &"none");
        };
        expect_bytes(rt, read.literal.as_slice(), input.as_bytes());
        shown(rt, &(read.negative, read.digits, read.exponent))
    }
}

const DECIMALS: &str = "1e-6 => (false, 1, -6)
1.0E-006 => (false, 10, -7)
-1 => (true, 1, 0)
+.5 => (false, 5, -1)
5. => (false, 5, 0)
-0.0 => (true, 0, -1)
00012.50e+3 => (false, 1250, 1)
7e999 => (false, 7, 999)
1.2e-999 => (false, 12, -1000)
99999999999999999999999999999999999999 => (false, 99999999999999999999999999999999999999, 0)
000000000000000000000000000000000000000 => \"none\"
0.00000000000000000000000000000000000000 => \"none\"
 => \"none\"
- => \"none\"
. => \"none\"
e5 => \"none\"
1e => \"none\"
1e+ => \"none\"
1e1000 => \"none\"
1e0001 => \"none\"
1e-+1 => \"none\"
1.2.3 => \"none\"
1,5 => \"none\"
--1 => \"none\"";

// A text without the blanks round it.
struct Trimmed;

impl Outcome for Trimmed {
    fn of<R: Abort + AllocGlobal>(rt: &R, input: &str) -> String {
        let mut inner = List::new(rt.alloc());
        push_text(&mut inner, trim(input.as_bytes())).expect(rt, "memory");
        text_of(rt, inner)
    }
}

const TEXTS: &str = " =>\x20
 \t\r =>\x20
a b => a b
\t a \r => a
\x0Ba\x00 => \x0Ba\x00";

// The digits at the front of a text: their number, and their value.
struct LeadingDigits;

impl Outcome for LeadingDigits {
    fn of<R: Abort + AllocGlobal>(rt: &R, input: &str) -> String {
        shown(rt, &leading_digits(input.as_bytes()))
    }
}

const DIGITS: &str = "0120 7 => (4, 120)
x1 => (0, 0)
1234567890123456789 => (18, 123456789012345678)";

// Compares the text of a fraction.
fn expect_fraction(rt: &(impl Abort + AllocGlobal), n: i128, d: u128, wanted: &str)
    requires { 0 < d }
{
    let mut out = List::new(rt.alloc());
    push_frac(&mut out, Frac::new(n, d)).expect(rt, "memory");
    expect_bytes(rt, out.as_slice(), wanted.as_bytes());
}

#[test]
fn fractions_are_reduced(rt: HostRuntime) {
    let rows = [
        (0, 12, "0/1"),
        (6, 4, "3/2"),
        (-6, 4, "-3/2"),
        (12, 4, "3/1"),
        (1, 7, "1/7"),
        (i128::MIN, 1 << 127, "-1/1"),
        (
            i128::MAX,
            u128::MAX,
            "170141183460469231731687303715884105727/340282366920938463463374607431768211455",
        ),
    ];
    for (n, d, wanted) in rows {
        assert!(rt; 0 < d);
        expect_fraction(&rt, n, d, wanted);
    }
}

#[test]
fn fractions_are_added(rt: HostRuntime) {
    reduced_fraction_is_no_greater();
    let sum = Frac::new(1, 6).add(Frac::new(-1, 10));
    assert!(rt; (sum.num(), sum.den()) == (1, 15));
}

#[test]
fn words_and_texts_are_read(rt: HostRuntime) {
    expect_rows::<NoWord>(&rt, NO_WORDS);
    expect_rows::<DecimalNumber>(&rt, DECIMALS);
    expect_rows::<Trimmed>(&rt, TEXTS);
    expect_rows::<LeadingDigits>(&rt, DIGITS);
}

#[test]
fn a_local_height_is_below_a_percent_strictly(rt: HostRuntime) {
    let cases = [
        (4, 90_000, 5, true),
        (4, 80_000, 5, false),
        (0, 0, 5, false),
        (0, 1, 1, true),
        (i64::MAX, 100_000, i64::MAX, false),
        (i64::MAX - 1, 100_000, i64::MAX, true),
    ];
    assert!(rt; read_percent(b"5.5%") == Some(Percent { thousandths: 5_500 }));
    for (local, thousandths, sz, less) in cases {
        assert!(rt;
            percent_less(local, Percent { thousandths }, sz) == less,
            "{local} of {sz}"
        );
    }
}
