// Tokens whose parts come in pieces.
ghost use Rattle.std.specs.Prelude.{◌≡◌, ◌<◌, ◌++◌, ℕ, List as Items, IfOk, MatchOption, false, length, slice_index};
ghost use Rattle.std.specs.List.{list_any};
ghost use Rattle.hd_num.specs.Lines.{without_start};
ghost use Rattle.hd_sdf_read.specs.Tokens.{is_gap};
ghost use Rattle.hd_sdf_read.specs.TokenPieces.{IsCut, JoinGiven};

use crate::part_token::PartToken;
use crate::token::{skip_gaps, token_len};
use hd_list::Memory;

/// What has come of a token with the next piece.
pub enum Joined<'a> {
    /// A part of it.
    Part(PartToken),
    /// All its bytes, and the text from the gap on that ends it.
    Whole(PartToken, &'a [u8]),
}

/// What has come of a token with the next piece; gaps before its first byte are left out.
pub fn join(token: PartToken, text: &[u8]) -> Result<Joined<'_>, Memory>
    ensures { IfOk result (JoinGiven token.text text.now) }
{
    let text = behind(&token, text);
    match split_gap(text) {
        None => Ok(Joined::Part(token.joined(text)?)),
        Some((end, rest)) => Ok(Joined::Whole(token.joined(end)?, rest)),
    }
}

// The next piece, without the gaps at its front where no byte of the token has come.
fn behind<'a>(token: &PartToken, text: &'a [u8]) -> &'a [u8]
    ensures same { (more : Items ℕ) → without_start is_gap (token.now.text ++ (text.now ++ more))
        ≡ without_start is_gap (token.now.text ++ (result.now ++ more)) }
    ensures begins { length token.now.text ≡ 0 → 0 < length result.now
        → is_gap (slice_index result.now 0) ≡ false }
{
    if token.text.as_slice().is_empty() {
        skip_gaps(text)
    } else {
        text
    }
}

/// The bytes at the front of a text that are no gaps, if a gap follows them, and the text from the
/// gap on.
pub fn split_gap(text: &[u8]) -> Option<(&[u8], &[u8])>
    ensures { MatchOption result (list_any is_gap text.now ≡ false)
        (λ parts. IsCut text.now parts.0.now parts.1.now) }
{
    let end = token_len(text);
    if end < text.len() {
        Some(text.split_at(end))
    } else {
        None
    }
}
