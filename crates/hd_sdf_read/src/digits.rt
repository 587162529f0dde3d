// Numbers of few digits, by sixteen bytes at once.
ghost use Rattle.std.specs.Prelude.{◌≡◌, ◌≤◌, ℕ, List, IfSome, length, map, nat_le, take};
ghost use Rattle.std.specs.Int.Digits.{AllBelowBase, number_from_digits};
ghost use Rattle.std.specs.Simd.Lanes.{mask_l, number_l};
ghost use Rattle.hd_sdf_read.specs.WholeTokens.{AreDigits};

use std::simd::prelude::*;

/// How many digits a text begins with, and the number that they write, where they are from one to eight.
#[inline(always)]
pub fn block_digits(text: &[u8]) -> Option<(usize, u64)>
    requires { 16 ≤ length text.now }
    ensures { IfSome result (λ parts. AreDigits text.now parts.0 parts.1) }
{
    let digits = u8x16::from_slice(text) - u8x16::splat(b'0');
    let others = no_digits(digits);
    let count = others.trailing_zeros();
    if count == 0 || count > 8 {
        return None;
    }
    let first = u64x2::from_le_bytes(digits).to_array()[0];
    Some((count as usize, value_of_first(first, count)))
}

// A bit for each number that is no digit's.
#[inline(always)]
fn no_digits(numbers: u8x16) -> u64
    requires { length numbers ≡ 16 }
    ensures { result ≡ mask_l (map (λ n. nat_le 10 n) numbers) }
{
    numbers.simd_ge(u8x16::splat(10)).to_bitmask()
}

// The number that the first digits of eight write, the first of them in the lowest byte.
#[inline(always)]
fn value_of_first(digits: u64, count: u32) -> u64
    requires some { 1 ≤ count }
    requires few { count ≤ 8 }
    ensures { (ds : List ℕ) → length ds ≡ 8 → AllBelowBase 256 ds → AllBelowBase 10 (take count ds)
        → digits ≡ number_l 256 ds → result ≡ number_from_digits 10 (take count ds) }
{
    value_of_eight(digits << (64 - 8 * count))
}

// The number that eight digits write, the first of them in the lowest byte.
#[inline(always)]
fn value_of_eight(digits: u64) -> u64
    ensures { (ds : List ℕ) → length ds ≡ 8 → AllBelowBase 10 ds → digits ≡ number_l 256 ds
        → result ≡ number_from_digits 10 ds }
{
    let pairs = digits.wrapping_mul(1 + (10 << 8)) >> 8;
    let fours = (pairs & 0xff_00ff_00ff_00ff).wrapping_mul(1 + (100 << 16)) >> 16;
    (fours & 0xffff_0000_ffff).wrapping_mul(1 + (10_000 << 32)) >> 32
}
