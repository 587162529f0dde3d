// What the words of a line give, where they have their form.
ghost use Rattle.std.specs.Prelude.{◌≡◌, All, map};
ghost use Rattle.hd_num.specs.Span.{IsPart, text_at};
ghost use Rattle.hd_check.specs.Reading.{adjacency_of, count_form, end_form, end_point_form, head_form, head_of, none_of, point_form, saddle_form, saddle_of_words, saddle_words, side_of};
ghost use Rattle.hd_num.specs.Whole.{i64_of, whole_of};

use crate::lines::part;
use hd_map::{Adjacency, Pos, SideName};
use hd_num::{Span, Whole, read_count, read_whole};

/// What the first line of a certificate names.
#[derive(Clone, Copy, Debug)]
pub struct CertificateHead {
    pub side: SideName,
    pub adjacency: Adjacency,
}

/// The side and the setting of `certificate S N`.
pub fn head_words(line: &[u8], words: &[Span]) -> Option<CertificateHead>
    requires { All (IsPart line.now) words.now }
    ensures { result ≡ head_form (map (text_at line.now) words.now) }
{
    let [name, side, adjacency] = words else {
        return None;
    };
    head_of(part(line, *name), part(line, *side), part(line, *adjacency))
}

// The side and the setting of these three words.
fn head_of(name: &[u8], side: &[u8], adjacency: &[u8]) -> Option<CertificateHead>
    ensures { result ≡ head_of name.now side.now adjacency.now }
{
    if name != b"certificate".as_slice() {
        return None;
    }
    let side = side_of(side)?;
    let adjacency = adjacency_of(adjacency)?;
    Some(CertificateHead { side, adjacency })
}

/// The setting that a word names.
pub fn adjacency_of(word: &[u8]) -> Option<Adjacency>
    ensures { result ≡ adjacency_of word.now }
{
    match word {
        b"4" => Some(Adjacency::Four),
        b"6" => Some(Adjacency::Six),
        b"8" => Some(Adjacency::Eight),
        _ => None,
    }
}

/// The side that a word names.
pub fn side_of(word: &[u8]) -> Option<SideName>
    ensures { result ≡ side_of word.now }
{
    match word {
        b"D" => Some(SideName::Dales),
        b"H" => Some(SideName::Hills),
        _ => None,
    }
}

// The point of `X Y`.
fn point_words(line: &[u8], words: &[Span]) -> Option<Pos>
    requires { All (IsPart line.now) words.now }
    ensures { result ≡ point_form (map (text_at line.now) words.now) }
{
    let [x, y] = words else {
        return None;
    };
    let x = read_count(part(line, *x))?;
    let y = read_count(part(line, *y))?;
    Some(Pos { x, y })
}

/// The point of `KEY X Y`.
pub fn end_point_words(key: &[u8], line: &[u8], words: &[Span]) -> Option<Pos>
    requires { All (IsPart line.now) words.now }
    ensures { result ≡ end_point_form key.now (map (text_at line.now) words.now) }
{
    let [name, point @ ..] = words else {
        return None;
    };
    if part(line, *name) == key {
        point_words(line, point)
    } else {
        None
    }
}

/// The saddle of `saddle X Y HEIGHT`, and that there is none of `saddle none`.
pub fn saddle_words(line: &[u8], words: &[Span]) -> Option<Option<(Pos, i64)>>
    requires { All (IsPart line.now) words.now }
    ensures { result ≡ saddle_form (map (text_at line.now) words.now) }
{
    let [name, saddle @ ..] = words else {
        return None;
    };
    if part(line, *name) == b"saddle".as_slice() {
        saddle_or_none(line, saddle)
    } else {
        None
    }
}

// The saddle of `X Y HEIGHT`, and that there is none of `none`.
fn saddle_or_none(line: &[u8], words: &[Span]) -> Option<Option<(Pos, i64)>>
    requires { All (IsPart line.now) words.now }
    ensures { result ≡ saddle_words (map (text_at line.now) words.now) }
{
    match words {
        [word] => none_word(part(line, *word)),
        [x, y, height] => saddle_of(part(line, *x), part(line, *y), part(line, *height)),
        _ => None,
    }
}

// That there is no saddle, of `none`.
fn none_word(word: &[u8]) -> Option<Option<(Pos, i64)>>
    ensures { result ≡ none_of word.now }
{
    if word == b"none".as_slice() {
        Some(None)
    } else {
        None
    }
}

// The saddle of these three words.
fn saddle_of(x: &[u8], y: &[u8], height: &[u8]) -> Option<Option<(Pos, i64)>>
    ensures { result ≡ saddle_of_words x.now y.now height.now }
{
    let x = read_count(x)?;
    let y = read_count(y)?;
    let height = whole_word(height)?;
    Some(Some((Pos { x, y }, height)))
}

// The whole number that a word writes, where it fits i64.
fn whole_word(word: &[u8]) -> Option<i64>
    ensures { result ≡ i64_of (whole_of word.now) }
{
    match read_whole(word) {
        Whole::Is(z) => Some(z),
        Whole::Not | Whole::Outside => None,
    }
}

/// The number of `KEY N`.
pub fn count_words(key: &[u8], line: &[u8], words: &[Span]) -> Option<u32>
    requires { All (IsPart line.now) words.now }
    ensures { result ≡ count_form key.now (map (text_at line.now) words.now) }
{
    let [name, count] = words else {
        return None;
    };
    if part(line, *name) == key {
        read_count(part(line, *count))
    } else {
        None
    }
}

/// Whether the line is `end`.
pub fn end_words(line: &[u8], words: &[Span]) -> Option<()>
    requires { All (IsPart line.now) words.now }
    ensures { result ≡ end_form (map (text_at line.now) words.now) }
{
    let [name] = words else {
        return None;
    };
    if part(line, *name) == b"end".as_slice() {
        Some(())
    } else {
        None
    }
}
