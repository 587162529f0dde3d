// The lines of a text.
ghost use Rattle.std.specs.Prelude.{◌≡◌, ◌≤◌, ◌↔◌, [], length, drop, IsNone, IfNone, IfSome};
ghost use Rattle.hd_num.specs.Lines.{IsLineAt, IsPieceEnd, is_line_feed, lines_of};

use crate::Span;
use bstr::ByteSlice;

/// The line that begins at an index, at most the length of the text, and the index where the next one
/// begins. A line ends before a line feed; a last one may end with the text. A carriage return belongs
/// to its line. None comes exactly where the index is the length of the text.
pub fn next_line(bytes: &[u8], from: usize) -> Option<(Span, usize)>
    requires { from ≤ length bytes.now }
    ensures end { IsNone result ↔ (from ≡ length bytes.now) }
    ensures none { IfNone result (lines_of (drop from bytes.now) ≡ []) }
    ensures line { IfSome result (λ found. IsLineAt bytes.now from found.0 found.1) }
{
    if from == bytes.len() {
        return None;
    }
    let end = line_end(bytes, from);
    let next = (end + 1).min(bytes.len());
    Some((Span { start: from, end }, next))
}

// The index of the first line feed from an index on, or the length of the text.
fn line_end(bytes: &[u8], from: usize) -> usize
    requires { from ≤ length bytes.now }
    ensures { IsPieceEnd is_line_feed bytes.now from result }
{
    let rest = &bytes[from..];
    match rest.find_byte(b'\n') {
        Some(count) => from + count,
        None => bytes.len(),
    }
}
