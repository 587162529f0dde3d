// What stands behind a header, in pieces: the data and the trailer.
ghost use Rattle.std.specs.Prelude.{◌≡◌, ◌≤◌, ℕ, List as Items, [], IfOk, true, false, length};
ghost use Rattle.hd_map.specs.Cells.{cells_in, wide_cells_in};
ghost use Rattle.hd_map.specs.Map.{IsSize, cell_count};
ghost use Rattle.hd_sdf_read.specs.Bodies.{surveyed};
ghost use Rattle.hd_sdf_read.specs.BodyOn.{DecimalsGoOn, FeedsBody, GoesOn, body_on};
ghost use Rattle.hd_sdf_read.specs.Views.{surveyed_view};
ghost use Rattle.hd_sdf_read.specs.Scaling.{data_of, IsScaled};
ghost use Rattle.hd_sdf_read.specs.File.{is_trailer};
ghost use Rattle.hd_sdf_read.specs.Keys.{has_decimals};
ghost use Rattle.hd_sdf_read.specs.Reads.{Gives};

use crate::SdfError;
use crate::body::{Body, DecimalPart, WholePart};
use crate::decimal_data::{read_decimals_on, take_decimal};
use crate::joining::{Joined, join};
use crate::keys::has_decimals;
use crate::part_token::PartToken;
use crate::part_trailer::PartTrailer;
use crate::scaled::Scaled;
use crate::token::next_token;
use crate::whole_data::{read_on, take_word};
use hd_list::{List, Memory};
use hd_map::{Cells, DataType, Heights, Size, Surface, Wide};
use std::alloc::Global;

/// Nothing behind a header yet. Memory is taken for as many data as a piece of so many bytes can
/// hold, and for no more than the size says.
pub fn new_body(
    alloc: Global,
    size: Size,
    data_type: DataType,
    bytes: usize,
) -> Result<Body, Memory>
    requires { IsSize size }
    ensures { IfOk result (λ body. (more : Items ℕ) → surveyed size data_type more ≡ body_on body more) }
{
    // A datum and the gap after it take two bytes at least.
    let room = (size.profiles as usize * size.points as usize).min(bytes / 2 + 1);
    if has_decimals(data_type) {
        let scaled = Scaled::with_capacity(alloc, data_type, room)?;
        return Ok(Body::Decimals(DecimalPart {
            size,
            data_type,
            scaled,
            token: PartToken::new(alloc),
        }));
    }
    let cells = Cells::with_capacity(alloc, data_type, room)?;
    Ok(Body::Whole(WholePart {
        size,
        cells,
        token: PartToken::new(alloc),
    }))
}

/// Reads on in the next piece.
pub fn feed_body(alloc: Global, body: Body, piece: &[u8]) -> Result<Body, SdfError>
    ensures { FeedsBody body piece.now result }
{
    match body {
        Body::Whole(part) => feed_whole(alloc, part, piece),
        Body::Decimals(part) => feed_decimals(alloc, part, piece),
        Body::End(surface, token) => feed_end(alloc, surface, token, piece),
        Body::Trailer(surface, trailer) => feed_trailer(surface, trailer, piece),
    }
}

// The same in whole numbers.
fn feed_whole(alloc: Global, part: WholePart, text: &[u8]) -> Result<Body, SdfError>
    ensures { FeedsBody (Body.Whole part) text.now result }
{
    let WholePart { size, cells, token } = part;
    match join(token, text)? {
        Joined::Part(token) => Ok(Body::Whole(WholePart { size, cells, token })),
        Joined::Whole(word, rest) => match take_word(cells, size, word.text.as_slice()) {
            Ok(cells) => go_on(alloc, size, cells, rest),
            Err(refusal) => Err(refusal),
        },
    }
}

// The same behind a whole number.
fn go_on(alloc: Global, size: Size, cells: Cells, text: &[u8]) -> Result<Body, SdfError>
    requires limits { IsSize size }
    requires whole { has_decimals cells.data_type ≡ false }
    requires few { length (cells_in cells) ≤ cell_count size }
    ensures { GoesOn size cells text.now result }
{
    let (cells, rest) = match read_on(cells, size, text) {
        Ok(parts) => parts,
        Err(refusal) => return Err(refusal),
    };
    if cells.len() < size.profiles as usize * size.points as usize {
        let (token, _) = next_token(rest);
        let token = PartToken::new(alloc).joined(token)?;
        return Ok(Body::Whole(WholePart { size, cells, token }));
    }
    feed_end(
        alloc,
        Surface::new(size, cells),
        PartToken::new(alloc),
        rest,
    )
}

// The same in decimals.
fn feed_decimals(alloc: Global, part: DecimalPart, text: &[u8]) -> Result<Body, SdfError>
    ensures { FeedsBody (Body.Decimals part) text.now result }
{
    let DecimalPart {
        size,
        data_type,
        scaled,
        token,
    } = part;
    match join(token, text)? {
        Joined::Part(token) => Ok(Body::Decimals(DecimalPart {
            size,
            data_type,
            scaled,
            token,
        })),
        Joined::Whole(word, rest) => {
            match take_decimal(alloc, data_type, scaled, size, word.text.as_slice()) {
                Ok(scaled) => go_on_decimals(alloc, size, data_type, scaled, rest),
                Err(refusal) => Err(refusal),
            }
        }
    }
}

// The same behind a decimal.
fn go_on_decimals(
    alloc: Global,
    size: Size,
    data_type: DataType,
    scaled: Scaled,
    text: &[u8],
) -> Result<Body, SdfError>
    requires limits { IsSize size }
    requires kept { IsScaled scaled data_type (data_of scaled) }
    requires few { length (wide_cells_in scaled.cells) ≤ cell_count size }
    ensures { DecimalsGoOn size data_type scaled text.now result }
{
    let (scaled, rest) = match read_decimals_on(alloc, data_type, scaled, size, text) {
        Ok(parts) => parts,
        Err(refusal) => return Err(refusal),
    };
    if scaled.len() < size.profiles as usize * size.points as usize {
        let (token, _) = next_token(rest);
        let token = PartToken::new(alloc).joined(token)?;
        return Ok(Body::Decimals(DecimalPart {
            size,
            data_type,
            scaled,
            token,
        }));
    }
    let surface = Surface::Wide(Wide::new(size, scaled.into_cells()));
    feed_end(alloc, surface, PartToken::new(alloc), rest)
}

// The same behind all data.
fn feed_end(
    alloc: Global,
    surface: Surface,
    token: PartToken,
    text: &[u8],
) -> Result<Body, SdfError>
    ensures { FeedsBody (Body.End surface token) text.now result }
{
    match join(token, text)? {
        Joined::Part(token) => Ok(Body::End(surface, token)),
        Joined::Whole(word, rest) => {
            if word.text.as_slice() == b"*".as_slice() {
                return feed_trailer(surface, PartTrailer::new(alloc), rest);
            }
            Err(SdfError::TooManyData(count_of(surface.size()) + 1))
        }
    }
}

// The same in the trailer.
fn feed_trailer(surface: Surface, trailer: PartTrailer, text: &[u8]) -> Result<Body, SdfError>
    ensures { FeedsBody (Body.Trailer surface trailer) text.now result }
{
    match trailer.fed(text) {
        Ok(trailer) => Ok(Body::Trailer(surface, trailer)),
        Err(refusal) => Err(refusal),
    }
}

// How many points a size has.
fn count_of(size: Size) -> u64
    requires { IsSize size }
    ensures { result ≡ cell_count size }
{
    size.profiles as u64 * size.points as u64
}

/// The surface and the trailer of a text that ends here.
pub fn ended_body(alloc: Global, body: Body) -> Result<(Surface, List<u8>), SdfError>
    ensures text { Gives surveyed_view result (body_on body []) }
    ensures form { IfOk result (λ parts. is_trailer parts.1 ≡ true) }
{
    match body {
        Body::Whole(part) => end_whole(alloc, part),
        Body::Decimals(part) => end_decimals(alloc, part),
        Body::End(surface, token) => end_token(alloc, surface, token),
        Body::Trailer(surface, trailer) => Ok((surface, trailer.ended())),
    }
}

// The same in whole numbers.
fn end_whole(alloc: Global, part: WholePart) -> Result<(Surface, List<u8>), SdfError>
    ensures text { Gives surveyed_view result (body_on (Body.Whole part) []) }
    ensures form { IfOk result (λ parts. is_trailer parts.1 ≡ true) }
{
    let WholePart { size, cells, token } = part;
    if token.text.as_slice().is_empty() {
        return Err(SdfError::TooFewData(cells.len() as u64));
    }
    let cells = match take_word(cells, size, token.text.as_slice()) {
        Ok(cells) => cells,
        Err(refusal) => return Err(refusal),
    };
    if cells.len() < size.profiles as usize * size.points as usize {
        return Err(SdfError::TooFewData(cells.len() as u64));
    }
    Ok((Surface::new(size, cells), List::new(alloc)))
}

// The same in decimals.
fn end_decimals(alloc: Global, part: DecimalPart) -> Result<(Surface, List<u8>), SdfError>
    ensures text { Gives surveyed_view result (body_on (Body.Decimals part) []) }
    ensures form { IfOk result (λ parts. is_trailer parts.1 ≡ true) }
{
    let DecimalPart {
        size,
        data_type,
        scaled,
        token,
    } = part;
    if token.text.as_slice().is_empty() {
        return Err(SdfError::TooFewData(scaled.len() as u64));
    }
    let scaled = match take_decimal(alloc, data_type, scaled, size, token.text.as_slice()) {
        Ok(scaled) => scaled,
        Err(refusal) => return Err(refusal),
    };
    if scaled.len() < size.profiles as usize * size.points as usize {
        return Err(SdfError::TooFewData(scaled.len() as u64));
    }
    let surface = Surface::Wide(Wide::new(size, scaled.into_cells()));
    Ok((surface, List::new(alloc)))
}

// The same behind all data.
fn end_token(
    alloc: Global,
    surface: Surface,
    token: PartToken,
) -> Result<(Surface, List<u8>), SdfError>
    ensures text { Gives surveyed_view result (body_on (Body.End surface token) []) }
    ensures form { IfOk result (λ parts. is_trailer parts.1 ≡ true) }
{
    let word = token.text.as_slice();
    if word.is_empty() {
        return Ok((surface, List::new(alloc)));
    }
    if word == b"*".as_slice() {
        return Ok((surface, List::new(alloc)));
    }
    Err(SdfError::TooManyData(count_of(surface.size()) + 1))
}
