// How far a text is read that comes in pieces.
ghost use Rattle.std.specs.Prelude.{◌≡◌, ◌<◌, ◌≤◌, ◌+◌, ◌^◌, [], IfOk, None, length};
ghost use Rattle.hd_sdf_read.specs.FileOf.{file_of};
ghost use Rattle.hd_sdf_read.specs.Grammar.{body_in};
ghost use Rattle.hd_sdf_read.specs.States.{Begins, Feeds, FeedsBehind, StaysRefused, continued, number_of, refusal_in};
ghost use Rattle.hd_sdf_read.specs.Reads.{Gives};

use crate::body::Body;
use crate::header::{Header, version_joined, version_of_line};
use crate::heading::Heading;
use crate::part_body::{ended_body, feed_body, new_body};
use crate::part_line::{PartLine, split_line};
use crate::required_keys::read_required_keys;
use crate::sdf::build;
use crate::{SdfError, SdfFile};
use std::alloc::Global;

/// What has come of a text.
#[derive(Drop)]
pub enum State {
    /// A part of line 1.
    Version(PartLine),
    /// Some lines of the header, and a part of the next.
    Header(Header, PartLine),
    /// The header, and a part of what is behind it.
    Body(Heading, Body),
    /// An offence.
    Refused(SdfError),
}

/// Reads on in the next piece.
pub fn feed(alloc: Global, state: State, piece: &[u8]) -> Result<State, SdfError>
    requires { number_of state + length piece.now < 2 ^ 63 + 1 }
    ensures text { Feeds state piece.now result }
    ensures number { IfOk result (λ s. number_of s ≤ number_of state + length piece.now) }
    ensures accepted { IfOk result (λ s. refusal_in s ≡ None) }
    ensures again { StaysRefused (refusal_in state) result }
{
    match state {
        State::Version(line) => feed_version(alloc, line, piece),
        State::Header(header, line) => feed_header(alloc, header, line, piece),
        State::Body(heading, body) => feed_part(alloc, heading, body, piece),
        State::Refused(refusal) => Err(refusal),
    }
}

// The same in line 1.
fn feed_version(alloc: Global, line: PartLine, text: &[u8]) -> Result<State, SdfError>
    requires { length text.now < 2 ^ 63 }
    ensures text { Feeds (State.Version line) text.now result }
    ensures number { IfOk result (λ s. number_of s ≤ 1 + length text.now) }
    ensures accepted { IfOk result (λ s. refusal_in s ≡ None) }
{
    let Some((end, rest)) = split_line(text) else {
        return match line.joined(text)? {
            Some(line) => Ok(State::Version(line)),
            None => Err(SdfError::BadVersion),
        };
    };
    match version_joined(line, end)? {
        Some(version) => feed_header(
            alloc,
            Header::new(alloc, version),
            PartLine::new(alloc),
            rest,
        ),
        None => Err(SdfError::BadVersion),
    }
}

// The same in the header.
fn feed_header(
    alloc: Global,
    mut header: Header,
    mut line: PartLine,
    text: &[u8],
) -> Result<State, SdfError>
    requires { header.number + length text.now < 2 ^ 63 + 1 }
    ensures text { Feeds (State.Header header line) text.now result }
    ensures number { IfOk result (λ s. number_of s ≤ header.number + length text.now) }
    ensures accepted { IfOk result (λ s. refusal_in s ≡ None) }
{
    let mut rest = text;
    'lines: while let Some((end, after)) = split_line(rest) {
        match header.take_joined(alloc, line, end) {
            Ok(true) => return feed_behind(alloc, header, after),
            Ok(false) => {}
            Err(refusal) => return Err(refusal),
        }
        line = PartLine::new(alloc);
        rest = after;
    }
    match line.joined(rest)? {
        Some(line) => Ok(State::Header(header, line)),
        None => Err(SdfError::BadHeaderLine(header.number)),
    }
}

// The same behind the end of the header.
fn feed_behind(alloc: Global, header: Header, text: &[u8]) -> Result<State, SdfError>
    ensures text { FeedsBehind header text.now result }
    ensures number { IfOk result (λ s. number_of s ≡ 0) }
    ensures accepted { IfOk result (λ s. refusal_in s ≡ None) }
{
    let (heading, body) = match begin(alloc, header, text.len()) {
        Ok(parts) => parts,
        Err(refusal) => return Err(refusal),
    };
    feed_part(alloc, heading, body, text)
}

// The header with what its keys say, and nothing behind it yet. So many bytes are at hand.
fn begin(alloc: Global, header: Header, bytes: usize) -> Result<(Heading, Body), SdfError>
    ensures { Begins header result }
{
    let frame = match read_required_keys(alloc, header.entries.as_slice()) {
        Ok(frame) => frame,
        Err(refusal) => return Err(refusal),
    };
    let body = new_body(alloc, frame.size, frame.data_type, bytes)?;
    Ok((Heading { header, frame }, body))
}

// The same in the data and the trailer.
fn feed_part(alloc: Global, heading: Heading, body: Body, text: &[u8]) -> Result<State, SdfError>
    ensures text { Feeds (State.Body heading body) text.now result }
    ensures number { IfOk result (λ s. number_of s ≡ 0) }
    ensures accepted { IfOk result (λ s. refusal_in s ≡ None) }
{
    match feed_body(alloc, body, text) {
        Ok(body) => Ok(State::Body(heading, body)),
        Err(refusal) => Err(refusal),
    }
}

/// The file of a text that ends here.
pub fn ended(alloc: Global, state: State) -> Result<SdfFile, SdfError>
    requires { number_of state < 2 ^ 63 + 1 }
    ensures text { Gives file_of result (continued state []) }
    ensures again { StaysRefused (refusal_in state) result }
{
    match state {
        State::Version(line) => match version_of_line(line.text.as_slice()) {
            Some(_) => Err(SdfError::HeaderEnds),
            None => Err(SdfError::BadVersion),
        },
        State::Header(header, line) => ended_header(alloc, header, line),
        State::Body(heading, body) => ended_file(alloc, heading, body),
        State::Refused(refusal) => Err(refusal),
    }
}

// The same in the header: the last line may have no LF.
fn ended_header(alloc: Global, mut header: Header, line: PartLine) -> Result<SdfFile, SdfError>
    requires { header.number < 2 ^ 63 + 1 }
    ensures { Gives file_of result (continued (State.Header header line) []) }
{
    if line.text.as_slice().is_empty() {
        return Err(SdfError::HeaderEnds);
    }
    let ends = match header.take_line(alloc, line.text.as_slice()) {
        Ok(ends) => ends,
        Err(refusal) => return Err(refusal),
    };
    if ends {
        return ended_behind(alloc, header);
    }
    Err(SdfError::HeaderEnds)
}

// The same behind the end of the header.
fn ended_behind(alloc: Global, header: Header) -> Result<SdfFile, SdfError>
    ensures { Gives file_of result (body_in header.version header.entries []) }
{
    let (heading, body) = match begin(alloc, header, 0) {
        Ok(parts) => parts,
        Err(refusal) => return Err(refusal),
    };
    ended_file(alloc, heading, body)
}

// The same in the data and the trailer.
fn ended_file(alloc: Global, heading: Heading, body: Body) -> Result<SdfFile, SdfError>
    ensures { Gives file_of result (continued (State.Body heading body) []) }
{
    let (surface, trailer) = match ended_body(alloc, body) {
        Ok(parts) => parts,
        Err(refusal) => return Err(refusal),
    };
    let Heading { header, frame, .. } = heading;
    let version = header.version;
    Ok(build(
        alloc,
        version,
        header.entries.as_slice(),
        frame,
        surface,
        trailer,
    )?)
}
