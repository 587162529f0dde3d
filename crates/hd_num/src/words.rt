// The words of a line.
ghost use Rattle.std.specs.Prelude.{◌≡◌, ◌≤◌, ◌∷◌, [], All, IfOk, MatchOption, length, map};
ghost use Rattle.hd_num.specs.Lines.{IsPieceEnd, is_blank, words_of};
ghost use Rattle.hd_num.specs.Span.{IsBefore, IsPart, text_at};
ghost use Rattle.std.specs.List.{AllPairs};

use crate::Span;
use bstr::ByteSlice;
use hd_list::{List, Memory};
use std::alloc::Global;

/// The words of a line in order, each at its place: the longest runs of bytes that are not blanks.
/// A blank is a space, a tab or a carriage return.
pub fn split_words(alloc: Global, line: &[u8]) -> Result<List<Span>, Memory>
    ensures words { IfOk result (λ words. map (text_at line.now) words ≡ words_of line.now) }
    ensures parts { IfOk result (λ words. All (IsPart line.now) words) }
    ensures apart { IfOk result (λ words. AllPairs IsBefore words) }
{
    let mut words = List::new(alloc);
    let mut start = 0;
    'pieces: while start < line.len() {
        let end = word_end(line, start);
        if start < end {
            words.push(Span { start, end })?;
        }
        start = end + 1;
    }
    Ok(words)
}

/// The first word of a line, and the line after it, or None where the line has no word. It takes no
/// memory.
pub fn first_word(line: &[u8]) -> Option<(&[u8], &[u8])>
    ensures { MatchOption result (words_of line.now ≡ [])
        (λ found. words_of line.now ≡ found.0.now ∷ words_of found.1.now) }
{
    let mut start = 0;
    'pieces: while start < line.len() {
        let end = word_end(line, start);
        if start < end {
            return Some((&line[start..end], &line[(end + 1).min(line.len())..]));
        }
        start = end + 1;
    }
    None
}

// The index of the first blank from an index on, or the length of the line.
fn word_end(line: &[u8], from: usize) -> usize
    requires { from ≤ length line.now }
    ensures { IsPieceEnd is_blank line.now from result }
{
    let rest = &line[from..];
    match rest.find_byteset(b" \t\r") {
        Some(count) => from + count,
        None => line.len(),
    }
}
