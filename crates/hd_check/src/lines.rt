// The lines of a text, each by its words.
ghost use Rattle.std.specs.Prelude.{◌≡◌};
ghost use Rattle.hd_num.specs.Span.{IsPart, text_at};
ghost use Rattle.hd_check.specs.Places.{IsPlace, Takes, TakesLine};

use crate::CertificateError;
use hd_list::List;
use hd_num::{Span, next_line, split_words};
use std::alloc::Global;

/// Where a line of a text begins, and its number, from 1.
#[derive(Clone, Copy)]
pub struct LinePlace {
    /// The index of its first byte.
    pub from: usize,
    /// Its number.
    pub number: u64,
}

/// A line, its words, and where the next one begins.
#[derive(Drop)]
pub struct CertificateLine {
    pub span: Span,
    pub words: List<Span>,
    pub next: LinePlace,
}

/// The line at a place, and the place where the next one begins. `BadLine` comes where the text ends
/// there.
pub fn line_at(bytes: &[u8], place: LinePlace) -> Result<(Span, LinePlace), CertificateError>
    requires { IsPlace bytes.now place }
    ensures { TakesLine bytes.now place result }
{
    let Some((span, next)) = next_line(bytes, place.from) else {
        return Err(CertificateError::BadLine(place.number));
    };
    let next = LinePlace {
        from: next,
        number: place.number + 1,
    };
    Ok((span, next))
}

/// The line at a place, by its words. `BadLine` comes where the text ends there.
pub fn take_line(
    alloc: Global,
    bytes: &[u8],
    place: LinePlace,
) -> Result<CertificateLine, CertificateError>
    requires { IsPlace bytes.now place }
    ensures { Takes bytes.now place result }
{
    let (span, next) = line_at(bytes, place)?;
    let words = split_words(alloc, &bytes[span.start..span.end])?;
    Ok(CertificateLine { span, words, next })
}

/// The bytes of a part of a text.
pub fn part(text: &[u8], span: Span) -> &[u8]
    requires { IsPart text.now span }
    ensures { result.now ≡ text_at text.now span }
{
    &text[span.start..span.end]
}
