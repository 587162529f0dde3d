// Why a surface file is refused, as it is told.
ghost use Rattle.std.specs.Prelude.{◌≡◌, ◌++◌, IfOk, OnOk};
ghost use Rattle.hd_run.specs.Refusals.{at_datum, at_line, missing_key, refusal_text, surface_cause};
ghost use Rattle.hd_run.specs.declared.stop.Refusal.TheVariants.{Surface};

use hd_list::{List, Memory};
use hd_num::{push_text, push_unsigned};
use hd_sdf_read::SdfError;
use std::alloc::Global;

/// The line `surface refused: CAUSE`.
pub fn surface_line(alloc: Global, error: SdfError) -> Result<List<u8>, Memory>
    ensures { IfOk result (λ text. text ≡ refusal_text (Surface error)) }
{
    let mut text = List::new(alloc);
    push_text(&mut text, b"surface refused: ".as_slice())?;
    push_cause(&mut text, error)?;
    push_text(&mut text, b"\n".as_slice())?;
    Ok(text)
}

// Adds why a surface file is refused.
fn push_cause(out: &mut List<u8>, error: SdfError) -> Result<(), Memory>
    ensures { OnOk result (out.new ≡ out.old ++ surface_cause error) }
{
    match error {
        SdfError::Memory => push_text(out, b"".as_slice()),
        SdfError::BadVersion => push_text(out, b"line 1: bad version".as_slice()),
        SdfError::BadHeaderLine(line) => push_at_line(out, line, b": bad header line".as_slice()),
        SdfError::KeyTwice(line) => push_at_line(out, line, b": key twice".as_slice()),
        SdfError::BadValue(line) => push_at_line(out, line, b": bad value".as_slice()),
        SdfError::HeaderEnds => push_text(out, b"the header does not end".as_slice()),
        SdfError::MissingKey(key) => push_text(out, missing_key(key)),
        SdfError::Unsupported(line) => push_at_line(out, line, b": not supported".as_slice()),
        SdfError::TooLarge => push_text(out, b"too many points".as_slice()),
        SdfError::BadDatum(datum) => push_at_datum(out, datum, b" is not whole or BAD".as_slice()),
        SdfError::BadDecimal(datum) => push_at_datum(
            out,
            datum,
            b" is not a decimal or BAD".as_slice(),
        ),
        SdfError::DatumRange(datum) => push_at_datum(out, datum, b" is out of range".as_slice()),
        SdfError::TooFewData(count) => push_too_few(out, count),
        SdfError::TooManyData(datum) => push_at_datum(out, datum, b" is one too many".as_slice()),
        SdfError::TrailerTooLong => push_text(out, b"trailer too long".as_slice()),
        SdfError::TooManyKeys(line) => push_at_line(out, line, b": too many keys".as_slice()),
    }
}

// Adds a cause at a line, with its number.
fn push_at_line(out: &mut List<u8>, line: u64, cause: &[u8]) -> Result<(), Memory>
    ensures { OnOk result (out.new ≡ out.old ++ at_line line cause.now) }
{
    push_text(out, b"line ".as_slice())?;
    push_unsigned(out, line)?;
    push_text(out, cause)
}

// Adds a cause at a datum, with its number.
fn push_at_datum(out: &mut List<u8>, datum: u64, cause: &[u8]) -> Result<(), Memory>
    ensures { OnOk result (out.new ≡ out.old ++ at_datum datum cause.now) }
{
    push_text(out, b"datum ".as_slice())?;
    push_unsigned(out, datum)?;
    push_text(out, cause)
}

// Adds how many data there are.
fn push_too_few(out: &mut List<u8>, count: u64) -> Result<(), Memory>
    ensures { OnOk result (out.new ≡ out.old ++ surface_cause (SdfError.TooFewData count)) }
{
    push_text(out, b"only ".as_slice())?;
    push_unsigned(out, count)?;
    push_text(out, b" data".as_slice())
}

// Which required key is missing, by its number from 1.
fn missing_key(key: u8) -> &'static [u8]
    ensures { result.now ≡ missing_key key }
{
    match key {
        1 => b"key NumPoints is missing",
        2 => b"key NumProfiles is missing",
        3 => b"key Xscale is missing",
        4 => b"key Yscale is missing",
        5 => b"key Zscale is missing",
        _ => b"key DataType is missing",
    }
}
