// Fractions in lowest terms.
ghost use Rattle.std.specs.Prelude.{◌≡◌, ◌<◌, ◌≤◌, ◌*◌, ◌^◌, ◌++◌, ◌∷◌, ℕ, ℤ, pos, decimal, false, true, unsigned_abs, OnOk, OnErr};
ghost use Rattle.std.specs.Int.{IsGcd};
ghost use Rattle.hd_num.specs.Frac.{IsReduced, IsFraction, sum_over_product, frac_text};
ghost use Rattle.hd_num.specs.Text.{AppendsPrefix};
ghost use Rattle.hd_num.specs.Whole.{signed_number};

use crate::push_text;
use hd_list::{List, Memory};
use itoa::Buffer;

/// A fraction in lowest terms. Where its value is 0, the denominator is 1.
#[derive(Clone, Copy, Debug, PartialEq, Eq)]
pub struct Frac {
    num: i128,
    den: u128,
    ghost reduced: { IsReduced num den },
}

impl Frac {
    /// The reduced fraction of `n` over `d`. `d` is not 0.
    pub fn new(n: i128, d: u128) -> Frac
        requires { 0 < d }
        ensures { IsFraction n d result.num result.den }
    {
        let size = n.unsigned_abs();
        let divisor = common_divisor(size, d);
        Frac {
            num: signed(n < 0, size / divisor),
            den: d / divisor,
        }
    }

    /// The numerator, which has the sign.
    pub fn num(self) -> i128
        ensures { result ≡ self.num }
    {
        self.num
    }

    /// The denominator, which is not 0.
    pub fn den(self) -> u128
        ensures value { result ≡ self.den }
        ensures positive { 0 < result }
        ensures zero { self.num ≡ pos 0 → result ≡ 1 }
    {
        self.den
    }

    /// The sum of two fractions. Each numerator times the other denominator has an absolute value below
    /// 2^126, and the denominators have a product below 2^127.
    pub fn add(self, other: Frac) -> Frac
        requires own { unsigned_abs self.num * other.den < 2 ^ 126 }
        requires other { unsigned_abs other.num * self.den < 2 ^ 126 }
        requires dens { self.den * other.den < 2 ^ 127 }
        ensures { IsFraction (sum_over_product self.num self.den other.num other.den)
            (self.den * other.den) result.num result.den }
    {
        let first = self.num * other.den as i128;
        let second = other.num * self.den as i128;
        Frac::new(first + second, self.den * other.den)
    }
}

/// Two reduced fractions of the same number are the same.
pub fn reduced_fraction_is_determined()
    ensures { (n : ℤ) (d : ℕ) (a : ℤ) (b : ℕ) (a' : ℤ) (b' : ℕ) → 0 < d
        → IsFraction n d a b → IsFraction n d a' b' → (a ≡ a') × (b ≡ b') }
{}

/// A reduced fraction has no greater numerator and no greater denominator than it is made of, whatever
/// the signs.
pub fn reduced_fraction_is_no_greater()
    ensures { (n : ℤ) (d : ℕ) (a : ℤ) (b : ℕ) → 0 < d
        → IsFraction n d a b → (unsigned_abs a ≤ unsigned_abs n) × (b ≤ d) }
{}

/// Adds a fraction: the numerator, `/` and the denominator. Where memory is refused, a prefix of its
/// text may stand there.
pub fn push_frac(out: &mut List<u8>, f: Frac) -> Result<(), Memory>
    ensures ok { OnOk result (out.new ≡ out.old ++ frac_text f.num f.den) }
    ensures err { OnErr result (AppendsPrefix out.old out.new (frac_text f.num f.den)) }
{
    push_text(out, Buffer::new().format(f.num).as_bytes())?;
    push_over(out, f.den)
}

// Adds `/` and a denominator.
fn push_over(out: &mut List<u8>, den: u128) -> Result<(), Memory>
    ensures ok { OnOk result (out.new ≡ out.old ++ 47 ∷ decimal den) }
    ensures err { OnErr result (AppendsPrefix out.old out.new (47 ∷ decimal den)) }
{
    push_text(out, b"/")?;
    push_text(out, Buffer::new().format(den).as_bytes())
}

// The greatest common divisor of two numbers.
fn common_divisor(a: u128, b: u128) -> u128
    ensures { IsGcd a b result }
{
    let mut larger = a;
    let mut smaller = b;
    'steps: while smaller != 0 {
        let rest = larger % smaller;
        larger = smaller;
        smaller = rest;
    }
    larger
}

// The number with a minus or without. It fits i128.
fn signed(negative: bool, magnitude: u128) -> i128
    requires positive { negative ≡ false → magnitude < 2 ^ 127 }
    requires minus { negative ≡ true → magnitude ≤ 2 ^ 127 }
    ensures { result ≡ signed_number negative magnitude }
{
    if negative {
        0i128.saturating_sub_unsigned(magnitude)
    } else {
        magnitude as i128
    }
}
