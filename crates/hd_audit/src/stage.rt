// How far a pruning certificate is read, line by line.
ghost use Rattle.std.specs.Prelude.{◌≤◌, ◌<◌, ◌+◌, ◌^◌, IfOk, length};
ghost use Rattle.hd_num.specs.Lines.{words_of};
ghost use Rattle.hd_audit.specs.Stages.{ReadsOn, Takes, TakesPlain, words_in};

use crate::plain::plain_line;
use crate::words::{AuditHead, head_words, point_in};
use crate::{Audit, AuditLines};
use hd_check::{CertificateError, count_words, end_words, part};
use hd_list::Memory;
use hd_num::{first_word, next_line, split_words};
use std::alloc::Global;

/// What the lines of a certificate say that are read.
#[derive(Debug, Drop)]
pub enum Stage {
    /// No line is read.
    Nothing,
    /// The first line is.
    Head(AuditHead),
    /// The number of the points is, and some of them.
    Points(Points),
    /// All lines are, up to `end`.
    End(Audit),
}

/// Some points of a certificate.
#[derive(Debug, Drop)]
pub struct Points {
    /// What the first line names.
    pub head: AuditHead,
    /// Those that are read.
    pub lines: AuditLines,
    /// How many are to come.
    pub left: u32,
}

/// Reads on in all lines of a text, of which the first has this number: how far the certificate is
/// read then, and the number of the line after them.
///
/// `BadLine` comes with the number of the first line that has not its form in its place.
pub fn take_lines(
    alloc: Global,
    stage: Stage,
    number: u64,
    text: &[u8],
) -> Result<(Stage, u64), CertificateError>
    requires { number + length text.now < 2 ^ 64 }
    ensures text { ReadsOn stage number (words_in text.now) result }
    ensures number { IfOk result (λ read. read.1 ≤ number + length text.now) }
{
    let mut stage = stage;
    let mut number = number;
    let mut rest = text;
    'lines: while let Some((span, next)) = next_line(rest, 0) {
        let taken = take_line(alloc, stage, number, part(rest, span))?;
        match take_plain(taken, number + 1, &rest[next..]) {
            Ok((taken, after, behind)) => {
                stage = taken;
                number = after;
                rest = behind;
            }
            Err(Memory) => return Err(CertificateError::Memory),
        }
    }
    Ok((stage, number))
}

// Reads on in the lines at the front of a text that are plain lines of points: how far the certificate is
// read then, the number of the line after them, and the text from it on.
fn take_plain(stage: Stage, number: u64, text: &[u8]) -> Result<(Stage, u64, &[u8]), Memory>
    requires { number + length text.now < 2 ^ 64 }
    ensures { IfOk result (λ read. TakesPlain stage number text.now read.0 read.1 read.2.now) }
{
    match stage {
        Stage::Points(points) => match take_plain_points(points, number, text) {
            Ok((points, number, rest)) => Ok((Stage::Points(points), number, rest)),
            Err(Memory) => Err(Memory),
        },
        other => Ok((other, number, text)),
    }
}

// The same among the points.
fn take_plain_points(
    points: Points,
    number: u64,
    text: &[u8],
) -> Result<(Points, u64, &[u8]), Memory>
    requires { number + length text.now < 2 ^ 64 }
    ensures { IfOk result (λ read. TakesPlain (Stage.Points points) number text.now
        (Stage.Points read.0) read.1 read.2.now) }
{
    let Points { head, lines, left } = points;
    let mut lines = lines;
    let mut left = left;
    let mut number = number;
    let mut rest = text;
    'points: while left > 0 {
        let Some((line, behind)) = plain_line(rest) else {
            return Ok((Points { head, lines, left }, number, rest));
        };
        lines.push(line)?;
        left -= 1;
        number += 1;
        rest = behind;
    }
    Ok((Points { head, lines, left }, number, rest))
}

// Reads on in the next line, which has this number.
fn take_line(
    alloc: Global,
    stage: Stage,
    number: u64,
    line: &[u8],
) -> Result<Stage, CertificateError>
    ensures { Takes stage number (words_of line.now) result }
{
    match stage {
        Stage::Nothing => take_head(alloc, number, line),
        Stage::Head(head) => take_count(alloc, head, number, line),
        Stage::Points(points) => take_point(alloc, points, number, line),
        Stage::End(audit) => take_blank(audit, number, line),
    }
}

// Reads `pruning S P N`.
fn take_head(alloc: Global, number: u64, line: &[u8]) -> Result<Stage, CertificateError>
    ensures { Takes Stage.Nothing number (words_of line.now) result }
{
    let words = split_words(alloc, line)?;
    match head_words(line, words.as_slice()) {
        Some(head) => Ok(Stage::Head(head)),
        None => Err(CertificateError::BadLine(number)),
    }
}

// Reads `points M`.
fn take_count(
    alloc: Global,
    head: AuditHead,
    number: u64,
    line: &[u8],
) -> Result<Stage, CertificateError>
    ensures { Takes (Stage.Head head) number (words_of line.now) result }
{
    let words = split_words(alloc, line)?;
    let Some(left) = count_words(b"points", line, words.as_slice()) else {
        return Err(CertificateError::BadLine(number));
    };
    let lines = AuditLines::new(alloc);
    Ok(Stage::Points(Points { head, lines, left }))
}

// Reads `INDEX PARENT CUT`, or what comes after the last point.
fn take_point(
    alloc: Global,
    points: Points,
    number: u64,
    line: &[u8],
) -> Result<Stage, CertificateError>
    ensures { Takes (Stage.Points points) number (words_of line.now) result }
{
    let Points { head, lines, left } = points;
    if left == 0 {
        return take_end(alloc, head, lines, number, line);
    }
    let Some(point) = point_in(line) else {
        return Err(CertificateError::BadLine(number));
    };
    let mut lines = lines;
    lines.push(point)?;
    let left = left - 1;
    Ok(Stage::Points(Points { head, lines, left }))
}

// Reads `end`.
fn take_end(
    alloc: Global,
    head: AuditHead,
    lines: AuditLines,
    number: u64,
    line: &[u8],
) -> Result<Stage, CertificateError>
    ensures { Takes (Stage.Points (record { head = head; lines = lines; left = 0 })) number
        (words_of line.now) result }
{
    let words = split_words(alloc, line)?;
    match end_words(line, words.as_slice()) {
        Some(()) => Ok(Stage::End(Audit {
            side: head.side,
            percent: head.percent,
            adjacency: head.adjacency,
            lines,
        })),
        None => Err(CertificateError::BadLine(number)),
    }
}

// Reads a line without words.
fn take_blank(audit: Audit, number: u64, line: &[u8]) -> Result<Stage, CertificateError>
    ensures { Takes (Stage.End audit) number (words_of line.now) result }
{
    if first_word(line).is_some() {
        return Err(CertificateError::BadLine(number));
    }
    Ok(Stage::End(audit))
}
