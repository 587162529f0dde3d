// A whole file.
ghost use Rattle.std.specs.Prelude.{◌≡◌, ◌<◌, IfOk, true};
ghost use Rattle.hd_map.specs.Surface.{map_of};
ghost use Rattle.hd_sdf_read.specs.Entries.{extra_entries, text_of};
ghost use Rattle.hd_sdf_read.specs.File.{AreGood, is_trailer};
ghost use Rattle.hd_sdf_read.specs.FileOf.{file_of};
ghost use Rattle.hd_sdf_read.specs.Grammar.{file_in, file_with, resolution_of};
ghost use Rattle.hd_sdf_read.specs.Kept.{IsKept, IsOrigin};
ghost use Rattle.hd_sdf_read.specs.RequiredKeys.{HasDecimals};
ghost use Rattle.hd_sdf_read.specs.Views.{required_keys_view};
ghost use Rattle.hd_sdf_read.specs.Reads.{Gives};

use crate::entries::value_of;
use crate::keys::form_of;
use crate::required_keys::{RequiredKeys, decimal_at};
use crate::{Extra, SdfError, SdfFile, SdfReader, Version};
use hd_list::{List, Memory};
use hd_map::Surface;
use hd_num::Decimal;
use std::alloc::Global;

/// Reads a text in the ASCII form of ISO 25178-71 (SDF).
///
/// The first line names the version. Then come the keys of the header with their values, in any
/// order and without regard to case, comments and empty lines, and the line `*`. Then come the
/// data, profile by profile, broken into lines anywhere: `BAD` or a whole number each, and for the
/// types 3 and 7 `BAD` or a decimal. A `*` or the end of the text ends them, and what follows the `*`
/// is the trailer. Decimals are read exactly: a step is a unit of the last of the greatest number of
/// decimal places among them, where zeros count as written.
///
/// Memory is taken for the list of the header's keys, for the texts that the file keeps and for its
/// cells, and for no more cells than the bytes that are left can hold.
///
/// # Errors
///
/// The first offence from the front, with its line, datum or key. `Memory` may come in place of any
/// other answer.
pub fn read_sdf(alloc: Global, bytes: &[u8]) -> Result<SdfFile, SdfError>
    ensures { Gives file_of result (file_in bytes.now) }
{
    let mut reader = SdfReader::new(alloc)?;
    if let Err(refusal) = reader.feed(alloc, bytes) {
        drop(reader);
        return Err(refusal);
    }
    reader.finish(alloc)
}

/// The file of its parts.
pub fn build(
    alloc: Global,
    version: Version,
    entries: &[Extra],
    frame: RequiredKeys,
    surface: Surface,
    trailer: List<u8>,
) -> Result<SdfFile, Memory>
    requires entries { AreGood entries.now }
    requires decimals { HasDecimals (required_keys_view frame) }
    requires trailer { is_trailer trailer ≡ true }
    ensures { IfOk result (λ f. file_of f ≡ file_with version entries.now (required_keys_view frame)
        (map_of surface) trailer) }
{
    let kept = kept_of(alloc, entries)?;
    let RequiredKeys {
        size: _,
        data_type: _,
        x_scale,
        y_scale,
        z_scale,
    } = frame;
    Ok(SdfFile {
        version,
        manufac_id: kept.origin.manufac_id,
        create_date: kept.origin.create_date,
        mod_date: kept.origin.mod_date,
        x_scale,
        y_scale,
        z_scale,
        z_resolution: kept.z_resolution,
        extra: kept.extra,
        surface,
        trailer,
    })
}

// What a file keeps of its header beside the required keys.
#[derive(Drop)]
struct KeptHeader {
    origin: Origin,
    z_resolution: Decimal,
    extra: List<Extra>,
}

// What the entries of a header say beside the required keys.
fn kept_of(alloc: Global, entries: &[Extra]) -> Result<KeptHeader, Memory>
    ensures { IfOk result (λ kept. IsKept kept entries.now) }
{
    let origin = origin_of(alloc, entries)?;
    let z_resolution = resolution_of(alloc, entries)?;
    let extra = extra_entries(alloc, entries)?;
    Ok(KeptHeader {
        origin,
        z_resolution,
        extra,
    })
}

// Who made a file, and when.
#[derive(Drop)]
struct Origin {
    manufac_id: List<u8>,
    create_date: List<u8>,
    mod_date: List<u8>,
}

// The texts of the keys that say it.
fn origin_of(alloc: Global, entries: &[Extra]) -> Result<Origin, Memory>
    ensures { IfOk result (λ origin. IsOrigin origin entries.now) }
{
    Ok(Origin {
        manufac_id: text_of(alloc, entries, b"ManufacID")?,
        create_date: text_of(alloc, entries, b"CreateDate")?,
        mod_date: text_of(alloc, entries, b"ModDate")?,
    })
}

// The text of a key, or nothing.
fn text_of(alloc: Global, entries: &[Extra], key: &[u8]) -> Result<List<u8>, Memory>
    ensures { IfOk result (λ text. text ≡ text_of key.now entries.now) }
{
    match value_of(entries, key) {
        Some(value) => List::from_slice(alloc, value),
        None => Ok(List::new(alloc)),
    }
}

// The resolution, or -1 where it is absent.
fn resolution_of(alloc: Global, entries: &[Extra]) -> Result<Decimal, Memory>
    ensures { IfOk result (λ resolution. resolution ≡ resolution_of entries.now) }
{
    match decimal_at(alloc, entries, b"Zresolution")? {
        Some(resolution) => Ok(resolution),
        None => Ok(Decimal {
            negative: true,
            digits: 1,
            exponent: 0,
            literal: List::from_slice(alloc, b"-1")?,
        }),
    }
}

// The entries whose keys are not known.
fn extra_entries(alloc: Global, entries: &[Extra]) -> Result<List<Extra>, Memory>
    ensures { IfOk result (λ extra. extra ≡ extra_entries entries.now) }
{
    let mut extra = List::new(alloc);
    'entries: for entry in entries {
        if form_of(entry.key.as_slice()).is_none() {
            extra.push(copied(alloc, entry)?)?;
        }
    }
    Ok(extra)
}

// A copy of an entry.
fn copied(alloc: Global, entry: &Extra) -> Result<Extra, Memory>
    ensures { IfOk result (λ extra. extra ≡ entry.now) }
{
    Ok(Extra {
        key: List::from_slice(alloc, entry.key.as_slice())?,
        value: List::from_slice(alloc, entry.value.as_slice())?,
    })
}
