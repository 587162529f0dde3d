// What the words of a line give, where they have their form.
ghost use Rattle.std.specs.Prelude.{◌≡◌, All, map};
ghost use Rattle.hd_num.specs.Lines.{words_of};
ghost use Rattle.hd_num.specs.Span.{IsPart, text_at};
ghost use Rattle.hd_audit.specs.Reading.{count_or_none, head_form, head_of, point_form};

use crate::AuditLine;
use hd_check::{adjacency_of, part, side_of};
use hd_map::{Adjacency, SideName};
use hd_num::{Percent, Span, first_word, read_count, read_percent};

/// What the first line of a certificate names.
#[derive(Clone, Copy, Debug)]
pub struct AuditHead {
    pub side: SideName,
    pub percent: Percent,
    pub adjacency: Adjacency,
}

/// The side, the percent and the setting of `pruning S P N`.
pub fn head_words(line: &[u8], words: &[Span]) -> Option<AuditHead>
    requires { All (IsPart line.now) words.now }
    ensures { result ≡ head_form (map (text_at line.now) words.now) }
{
    let [name, side, percent, adjacency] = words else {
        return None;
    };
    head_of(
        part(line, *name),
        part(line, *side),
        part(line, *percent),
        part(line, *adjacency),
    )
}

// The side, the percent and the setting of these four words.
fn head_of(name: &[u8], side: &[u8], percent: &[u8], adjacency: &[u8]) -> Option<AuditHead>
    ensures { result ≡ head_of name.now side.now percent.now adjacency.now }
{
    if name != b"pruning".as_slice() {
        return None;
    }
    let side = side_of(side)?;
    let percent = read_percent(percent)?;
    let adjacency = adjacency_of(adjacency)?;
    Some(AuditHead {
        side,
        percent,
        adjacency,
    })
}

/// The point of the line `INDEX PARENT CUT`.
pub fn point_in(line: &[u8]) -> Option<AuditLine>
    ensures { result ≡ point_form (words_of line.now) }
{
    let (index, rest) = first_word(line)?;
    let (parent, rest) = first_word(rest)?;
    let (cut, rest) = first_word(rest)?;
    if first_word(rest).is_some() {
        return None;
    }
    let index = read_count(index)?;
    let parent = count_or_none(parent)?;
    let cut = count_or_none(cut)?;
    Some(AuditLine { index, parent, cut })
}

// The count that a word writes, or none for `-`.
fn count_or_none(word: &[u8]) -> Option<Option<u32>>
    ensures { result ≡ count_or_none word.now }
{
    if word == b"-".as_slice() {
        return Some(None);
    }
    let count = read_count(word)?;
    Some(Some(count))
}
