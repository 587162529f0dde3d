// The tokens of the data.
ghost use Rattle.std.specs.Prelude.{◌≡◌, ◌≤◌, length, take};
ghost use Rattle.std.specs.List.{position_or_len};
ghost use Rattle.hd_num.specs.Lines.{without_end, without_start};
ghost use Rattle.hd_sdf_read.specs.Tokens.{is_gap, is_not_space, after_token, token_of};

use std::simd::prelude::*;

/// The first token of a text, or nothing, and the text after it.
#[tactic(auto, unfolding(crate::specs::Tokens::token_of, crate::specs::Tokens::after_token))]
pub fn next_token(text: &[u8]) -> (&[u8], &[u8])
    ensures token { result.0.now ≡ token_of text.now }
    ensures rest { result.1.now ≡ after_token text.now }
{
    let text = skip_gaps(text);
    text.split_at(token_len(text))
}

/// A text without the blanks and LFs at its front.
pub fn skip_gaps(text: &[u8]) -> &[u8]
    ensures { result.now ≡ without_start is_gap text.now }
{
    let mut rest = text;
    'gaps: while let Some(byte) = rest.first() {
        if !is_gap(*byte) {
            return rest;
        }
        rest = skip_spaces(&rest[1..]);
    }
    rest
}

// A text without the spaces at its front; those among its last 15 bytes may stay.
#[inline(always)]
fn skip_spaces(text: &[u8]) -> &[u8]
    ensures same { without_start is_gap result.now ≡ without_start is_gap text.now }
    ensures few { length result.now ≤ length text.now }
{
    match text.first() {
        Some(b' ') => skip_blocks(text),
        _ => text,
    }
}

// The same, 16 bytes at a time.
fn skip_blocks(text: &[u8]) -> &[u8]
    ensures same { without_start is_gap result.now ≡ without_start is_gap text.now }
    ensures few { length result.now ≤ length text.now }
{
    let mut rest = text;
    'spaces: while rest.len() >= 16 {
        let count = leading_spaces(rest);
        if count < 16 {
            return &rest[count..];
        }
        rest = &rest[16..];
    }
    rest
}

// How many spaces stand before the first other byte of the first 16 bytes of a text.
#[inline(always)]
fn leading_spaces(text: &[u8]) -> usize
    requires { 16 ≤ length text.now }
    ensures { result ≡ position_or_len is_not_space (take 16 text.now) }
{
    let others = u8x16::from_slice(text)
        .simd_ne(u8x16::splat(b' '))
        .to_bitmask();
    if others == 0 {
        16
    } else {
        others.trailing_zeros() as usize
    }
}

/// A text without the blanks and LFs at its end.
pub fn drop_gaps(text: &[u8]) -> &[u8]
    ensures { result.now ≡ without_end is_gap text.now }
{
    let mut end = text.len();
    'bytes: while end > 0 && is_gap(text[end - 1]) {
        end -= 1;
    }
    &text[..end]
}

/// How many bytes stand before the first blank or LF.
pub fn token_len(text: &[u8]) -> usize
    ensures { result ≡ position_or_len is_gap text.now }
{
    'bytes: for (place, byte) in text.iter().enumerate() {
        if is_gap(*byte) {
            return place;
        }
    }
    text.len()
}

/// Whether a byte is a blank or an LF.
pub fn is_gap(byte: u8) -> bool
    ensures { result ≡ is_gap byte }
{
    byte == b' ' || byte == b'\t' || byte == b'\r' || byte == b'\n'
}
