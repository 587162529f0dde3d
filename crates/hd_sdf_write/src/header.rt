// The header of a file.
ghost use Rattle.std.specs.Prelude.{◌≡◌, ◌++◌, OnOk, decimal};
ghost use Rattle.hd_sdf_write.specs.Canonical.{encoding_lines, entry_line, header_lines, line, name_lines, scale_lines, version_text};
ghost use Rattle.hd_sdf_write.specs.Texts.{file_with};

use crate::entry_lines::{push_entry, push_extra, push_line};
use crate::texts::SdfTexts;
use hd_list::{List, Memory};
use hd_map::Grid;
use hd_num::push_unsigned;
use hd_sdf_read::Version;
use std::alloc::Global;

/// Adds the header of the file of these texts and a grid.
pub fn push_header<G: Grid>(
    alloc: Global,
    out: &mut List<u8>,
    texts: &SdfTexts<'_>,
    grid: &G,
) -> Result<(), Memory>
    ensures { OnOk result (out.new ≡ out.old ++ header_lines (file_with texts.now (G.map grid.now))) }
{
    push_version(out, texts.version)?;
    push_names(alloc, out, texts, grid)?;
    push_scales(out, texts, grid)?;
    push_encoding(alloc, out, texts, grid)?;
    push_extra(out, texts.extra)?;
    push_line(out, b"*")
}

// Adds line 1.
fn push_version(out: &mut List<u8>, version: Version) -> Result<(), Memory>
    ensures { OnOk result (out.new ≡ out.old ++ line (version_text version)) }
{
    match version {
        Version::Bcr => push_line(out, b"aBCR-1.0"),
        Version::Iso => push_line(out, b"aISO-1.0"),
    }
}

// Adds the lines of the names, the dates and the size.
fn push_names<G: Grid>(
    alloc: Global,
    out: &mut List<u8>,
    texts: &SdfTexts<'_>,
    grid: &G,
) -> Result<(), Memory>
    ensures { OnOk result (out.new ≡ out.old ++ name_lines (file_with texts.now (G.map grid.now))) }
{
    let size = grid.size();
    push_entry(out, b"ManufacID", texts.manufac_id)?;
    push_entry(out, b"CreateDate", texts.create_date)?;
    push_entry(out, b"ModDate", texts.mod_date)?;
    push_number(alloc, out, b"NumPoints", size.points)?;
    push_number(alloc, out, b"NumProfiles", size.profiles)
}

// Adds the line of a key whose value is a whole number.
fn push_number(alloc: Global, out: &mut List<u8>, key: &[u8], number: u32) -> Result<(), Memory>
    ensures { OnOk result (out.new ≡ out.old ++ entry_line key.now (decimal number)) }
{
    let mut value = List::new(alloc);
    push_unsigned(&mut value, u64::from(number))?;
    push_entry(out, key, value.as_slice())
}

// Adds the lines of the scales and the resolution.
fn push_scales<G: Grid>(out: &mut List<u8>, texts: &SdfTexts<'_>, _grid: &G) -> Result<(), Memory>
    ensures { OnOk result (out.new ≡ out.old ++ scale_lines (file_with texts.now (G.map _grid.now))) }
{
    push_entry(out, b"Xscale", texts.x_scale.literal.as_slice())?;
    push_entry(out, b"Yscale", texts.y_scale.literal.as_slice())?;
    push_entry(out, b"Zscale", texts.z_scale.literal.as_slice())?;
    push_entry(out, b"Zresolution", texts.z_resolution.literal.as_slice())
}

// Adds the lines of how the data are written.
fn push_encoding<G: Grid>(
    alloc: Global,
    out: &mut List<u8>,
    _texts: &SdfTexts<'_>,
    grid: &G,
) -> Result<(), Memory>
    ensures { OnOk result (out.new ≡ out.old ++ encoding_lines (file_with _texts.now (G.map grid.now))) }
{
    push_entry(out, b"Compression", b"0")?;
    push_number(alloc, out, b"DataType", grid.data_type().code())?;
    push_entry(out, b"CheckType", b"0")
}
