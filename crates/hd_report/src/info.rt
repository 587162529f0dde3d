// The lines that tell the size, the type and the heights of a map, and the scales of its file.
ghost use Rattle.std.specs.Prelude.{◌≡◌, ◌++◌, IfOk, OnOk, Some};
ghost use Rattle.std.specs.Fmt.{signed_decimal};
ghost use Rattle.hd_report.specs.Info.{code_text, info_text, places_line, places_lines, present_line, range_line, scales_line, size_line, type_line};

use hd_list::{List, Memory};
use hd_map::{DataType, HeightRange, Presence, Size};
use hd_num::{push_text, push_unsigned, push_whole};
use std::alloc::Global;

/// The scales of a file, as it writes them.
#[derive(Clone, Copy)]
pub struct Scales<'a> {
    /// The distance of two columns in metres.
    pub x: &'a [u8],
    /// The distance of two profiles in metres.
    pub y: &'a [u8],
    /// A height step in metres.
    pub z: &'a [u8],
}

/// The lines of `info`: the size, the type's code, for a type of decimals its places, how many points are present,
/// the range of their heights in steps, and the three scales.
pub fn tell_info(
    alloc: Global,
    size: Size,
    data_type: DataType,
    presence: Presence,
    scales: &Scales<'_>,
) -> Result<List<u8>, Memory>
    ensures { IfOk result (λ text. text ≡ info_text size data_type presence scales.now.x.now
        scales.now.y.now scales.now.z.now) }
{
    let mut text = List::new(alloc);
    push_text(&mut text, b"info\n".as_slice())?;
    push_size(&mut text, size)?;
    push_type(&mut text, data_type)?;
    push_places(&mut text, data_type)?;
    push_present(&mut text, presence.count)?;
    push_range(&mut text, presence.range)?;
    push_scales(&mut text, scales)?;
    Ok(text)
}

// Adds the line of the size.
fn push_size(text: &mut List<u8>, size: Size) -> Result<(), Memory>
    ensures { OnOk result (text.new ≡ text.old ++ size_line size) }
{
    push_text(text, b"size ".as_slice())?;
    push_unsigned(text, u64::from(size.points))?;
    text.push(b' ')?;
    push_unsigned(text, u64::from(size.profiles))?;
    text.push(b'\n')?;
    Ok(())
}

// Adds the line of the type.
fn push_type(text: &mut List<u8>, data_type: DataType) -> Result<(), Memory>
    ensures { OnOk result (text.new ≡ text.old ++ type_line data_type) }
{
    push_text(text, b"type ".as_slice())?;
    push_text(text, code_text(data_type))?;
    text.push(b'\n')?;
    Ok(())
}

// The code of a type.
fn code_text(data_type: DataType) -> &'static [u8]
    ensures { result.now ≡ code_text data_type }
{
    match data_type {
        DataType::U8 => b"0",
        DataType::U16 => b"1",
        DataType::U32 => b"2",
        DataType::I8 => b"4",
        DataType::I16 => b"5",
        DataType::I32 => b"6",
        DataType::Single { .. } => b"3",
        DataType::Double { .. } => b"7",
    }
}

// Adds the line of the places of a type of decimals.
fn push_places(text: &mut List<u8>, data_type: DataType) -> Result<(), Memory>
    ensures { OnOk result (text.new ≡ text.old ++ places_lines data_type) }
{
    match data_type {
        DataType::Single { places } | DataType::Double { places } => push_count(text, places),
        _ => Ok(()),
    }
}

// Adds the line of so many places.
fn push_count(text: &mut List<u8>, places: u8) -> Result<(), Memory>
    ensures { OnOk result (text.new ≡ text.old ++ places_line places) }
{
    push_text(text, b"places ".as_slice())?;
    push_unsigned(text, u64::from(places))?;
    text.push(b'\n')?;
    Ok(())
}

// Adds the line that tells how many points are present.
fn push_present(text: &mut List<u8>, count: u32) -> Result<(), Memory>
    ensures { OnOk result (text.new ≡ text.old ++ present_line count) }
{
    push_text(text, b"present ".as_slice())?;
    push_unsigned(text, u64::from(count))?;
    text.push(b'\n')?;
    Ok(())
}

// Adds the line of the range.
fn push_range(text: &mut List<u8>, range: Option<HeightRange>) -> Result<(), Memory>
    ensures { OnOk result (text.new ≡ text.old ++ range_line range) }
{
    match range {
        Some(range) => push_ends(text, range)?,
        None => push_text(text, b"range none\n".as_slice())?,
    }
    Ok(())
}

// Adds the line of a least and a greatest height.
fn push_ends(text: &mut List<u8>, range: HeightRange) -> Result<(), Memory>
    ensures { OnOk result (text.new ≡ text.old ++ range_line (Some range)) }
{
    push_height(text, b"range ".as_slice(), range.least)?;
    push_height(text, b" ".as_slice(), range.greatest)?;
    text.push(b'\n')?;
    Ok(())
}

// Adds a text and a height after it.
fn push_height(text: &mut List<u8>, before: &[u8], height: i64) -> Result<(), Memory>
    ensures { OnOk result (text.new ≡ text.old ++ before.now ++ signed_decimal height) }
{
    push_text(text, before)?;
    push_whole(text, height)?;
    Ok(())
}

// Adds the line of the scales.
fn push_scales(text: &mut List<u8>, scales: &Scales<'_>) -> Result<(), Memory>
    ensures { OnOk result (text.new ≡ text.old
        ++ scales_line scales.now.x.now scales.now.y.now scales.now.z.now) }
{
    push_text(text, b"scales ".as_slice())?;
    push_text(text, scales.x)?;
    text.push(b' ')?;
    push_text(text, scales.y)?;
    text.push(b' ')?;
    push_text(text, scales.z)?;
    text.push(b'\n')?;
    Ok(())
}
