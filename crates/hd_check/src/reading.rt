// Reading a certificate, line by line.
ghost use Rattle.std.specs.Prelude.{◌≡◌, ◌⊎◌, Err};
ghost use Rattle.hd_check.specs.Places.{Gives, IsPlace, lines_at};
ghost use Rattle.hd_check.specs.Reading.{blank_lines_in, certificate_of, count_form, counted_in, end_in, end_point_form, head_form, line_as, path_in, point_form, points_in, saddle_form};

use crate::lines::{LinePlace, line_at, part, take_line};
use crate::points::point_in;
use crate::words::{
    CertificateHead, count_words, end_point_words, end_words, head_words, saddle_words,
};
use crate::{Certificate, CertificateError};
use hd_list::List;
use hd_map::Pos;
use std::alloc::Global;

/// The certificate that a text holds: `certificate S N`, `from X Y`, `to X Y`, then
/// `saddle X Y HEIGHT`, `path N` and N lines `X Y`, or `saddle none`, then `cut M` and M lines
/// `X Y`, then `end`; after it only lines without words.
///
/// `BadLine` comes exactly where a line has not its form in its place, with the number of the first
/// such line; where the text ends too early, with one more than the number of its lines.
pub fn read_certificate(alloc: Global, bytes: &[u8]) -> Result<Certificate, CertificateError>
    ensures { (result ≡ Err CertificateError.Memory) ⊎ (result ≡ certificate_of bytes.now) }
{
    let start = LinePlace { from: 0, number: 1 };
    let (head, place) = head_line(alloc, bytes, start)?;
    let (from, place) = end_point_line(alloc, bytes, b"from", place)?;
    let (to, place) = end_point_line(alloc, bytes, b"to", place)?;
    let (saddle, place) = saddle_line(alloc, bytes, place)?;
    let (path, place) = path_lines(alloc, bytes, saddle, place)?;
    let (cut, place) = counted_lines(alloc, bytes, b"cut", place)?;
    last_lines(alloc, bytes, place)?;
    Ok(Certificate {
        side: head.side,
        adjacency: head.adjacency,
        from,
        to,
        saddle,
        path,
        cut,
    })
}

// Reads `certificate S N`.
fn head_line(
    alloc: Global,
    bytes: &[u8],
    place: LinePlace,
) -> Result<(CertificateHead, LinePlace), CertificateError>
    requires { IsPlace bytes.now place }
    ensures { Gives bytes.now result (line_as head_form (lines_at bytes.now place)) }
{
    let line = take_line(alloc, bytes, place)?;
    match head_words(part(bytes, line.span), line.words.as_slice()) {
        Some(head) => Ok((head, line.next)),
        None => Err(CertificateError::BadLine(place.number)),
    }
}

// Reads `KEY X Y`.
fn end_point_line(
    alloc: Global,
    bytes: &[u8],
    key: &[u8],
    place: LinePlace,
) -> Result<(Pos, LinePlace), CertificateError>
    requires { IsPlace bytes.now place }
    ensures { Gives bytes.now result (line_as (end_point_form key.now) (lines_at bytes.now place)) }
{
    let line = take_line(alloc, bytes, place)?;
    match end_point_words(key, part(bytes, line.span), line.words.as_slice()) {
        Some(at) => Ok((at, line.next)),
        None => Err(CertificateError::BadLine(place.number)),
    }
}

// Reads `saddle X Y HEIGHT` or `saddle none`.
fn saddle_line(
    alloc: Global,
    bytes: &[u8],
    place: LinePlace,
) -> Result<(Option<(Pos, i64)>, LinePlace), CertificateError>
    requires { IsPlace bytes.now place }
    ensures { Gives bytes.now result (line_as saddle_form (lines_at bytes.now place)) }
{
    let line = take_line(alloc, bytes, place)?;
    match saddle_words(part(bytes, line.span), line.words.as_slice()) {
        Some(saddle) => Ok((saddle, line.next)),
        None => Err(CertificateError::BadLine(place.number)),
    }
}

// Reads `path N` and its points, where there is a saddle.
fn path_lines(
    alloc: Global,
    bytes: &[u8],
    saddle: Option<(Pos, i64)>,
    place: LinePlace,
) -> Result<(List<Pos>, LinePlace), CertificateError>
    requires { IsPlace bytes.now place }
    ensures { Gives bytes.now result (path_in saddle (lines_at bytes.now place)) }
{
    if saddle.is_some() {
        counted_lines(alloc, bytes, b"path", place)
    } else {
        Ok((List::new(alloc), place))
    }
}

// Reads `KEY N` and N points.
fn counted_lines(
    alloc: Global,
    bytes: &[u8],
    key: &[u8],
    place: LinePlace,
) -> Result<(List<Pos>, LinePlace), CertificateError>
    requires { IsPlace bytes.now place }
    ensures { Gives bytes.now result (counted_in key.now (lines_at bytes.now place)) }
{
    let (count, place) = count_line(alloc, bytes, key, place)?;
    point_lines(alloc, bytes, count, place)
}

// Reads `KEY N`.
fn count_line(
    alloc: Global,
    bytes: &[u8],
    key: &[u8],
    place: LinePlace,
) -> Result<(u32, LinePlace), CertificateError>
    requires { IsPlace bytes.now place }
    ensures { Gives bytes.now result (line_as (count_form key.now) (lines_at bytes.now place)) }
{
    let line = take_line(alloc, bytes, place)?;
    match count_words(key, part(bytes, line.span), line.words.as_slice()) {
        Some(count) => Ok((count, line.next)),
        None => Err(CertificateError::BadLine(place.number)),
    }
}

// Reads so many points.
fn point_lines(
    alloc: Global,
    bytes: &[u8],
    count: u32,
    start: LinePlace,
) -> Result<(List<Pos>, LinePlace), CertificateError>
    requires { IsPlace bytes.now start }
    ensures { Gives bytes.now result (points_in count (lines_at bytes.now start)) }
{
    let mut points = List::new(alloc);
    let mut place = start;
    'points: for k in 0..count {
        let (at, next) = point_line(bytes, place)?;
        points.push(at)?;
        place = next;
    }
    Ok((points, place))
}

// Reads `X Y`. It takes no memory.
fn point_line(bytes: &[u8], place: LinePlace) -> Result<(Pos, LinePlace), CertificateError>
    requires { IsPlace bytes.now place }
    ensures { Gives bytes.now result (line_as point_form (lines_at bytes.now place)) }
{
    let (span, next) = line_at(bytes, place)?;
    match point_in(part(bytes, span)) {
        Some(at) => Ok((at, next)),
        None => Err(CertificateError::BadLine(place.number)),
    }
}

// Reads `end` and the lines without words that follow it, up to the end of the text.
fn last_lines(
    alloc: Global,
    bytes: &[u8],
    place: LinePlace,
) -> Result<((), LinePlace), CertificateError>
    requires { IsPlace bytes.now place }
    ensures { Gives bytes.now result (end_in (lines_at bytes.now place)) }
{
    let line = take_line(alloc, bytes, place)?;
    match end_words(part(bytes, line.span), line.words.as_slice()) {
        Some(()) => blank_lines(alloc, bytes, line.next),
        None => Err(CertificateError::BadLine(place.number)),
    }
}

// Reads lines without words up to the end of the text.
fn blank_lines(
    alloc: Global,
    bytes: &[u8],
    start: LinePlace,
) -> Result<((), LinePlace), CertificateError>
    requires { IsPlace bytes.now start }
    ensures { Gives bytes.now result (blank_lines_in start.number (lines_at bytes.now start).lines) }
{
    let mut place = start;
    'lines: while place.from < bytes.len() {
        let line = take_line(alloc, bytes, place)?;
        if !line.words.as_slice().is_empty() {
            return Err(CertificateError::BadLine(place.number));
        }
        place = line.next;
    }
    Ok(((), place))
}
