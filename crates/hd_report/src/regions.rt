// The lines of regions, and of the region that a point lies in.
ghost use Rattle.std.specs.Prelude.{◌≡◌, ◌++◌, ◌<◌, All, IfOk, OnOk};
ghost use Rattle.std.specs.List.{flat_map};
ghost use Rattle.hd_map.specs.Map.{cell_count};
ghost use Rattle.hd_report.specs.Regions.{label_text, many_word, one_word, region_line, regions_text};

use crate::place::{push_place, push_rank, push_side};
use hd_list::{List, Memory};
use hd_map::{Pos, RegionSize, SideName, Size};
use hd_num::{push_text, push_unsigned};
use std::alloc::Global;

// So many bytes are reserved for the line of a region.
const REGION_BYTES: usize = 24;

/// The number of these regions of a grid of this size, and a line for each in their order with its
/// pit's column, profile and height in steps, and the number of its points.
pub fn list_regions(
    alloc: Global,
    side: SideName,
    size: Size,
    regions: &[RegionSize],
) -> Result<List<u8>, Memory>
    requires { All (λ region. region.pit.index < cell_count size) regions.now }
    ensures { IfOk result (λ text. text ≡ regions_text side size regions.now) }
{
    let mut text = List::with_capacity(alloc, regions.len().saturating_mul(REGION_BYTES))?;
    push_many(&mut text, side)?;
    push_unsigned(&mut text, regions.len() as u64)?;
    text.push(b'\n')?;
    push_regions(&mut text, side, size, regions)?;
    Ok(text)
}

// `dales ` or `hills `.
fn push_many(text: &mut List<u8>, side: SideName) -> Result<(), Memory>
    ensures { OnOk result (text.new ≡ text.old ++ many_word side) }
{
    match side {
        SideName::Dales => push_text(text, b"dales ".as_slice()),
        SideName::Hills => push_text(text, b"hills ".as_slice()),
    }
}

// `dale ` or `hill `.
fn push_one(text: &mut List<u8>, side: SideName) -> Result<(), Memory>
    ensures { OnOk result (text.new ≡ text.old ++ one_word side) }
{
    match side {
        SideName::Dales => push_text(text, b"dale ".as_slice()),
        SideName::Hills => push_text(text, b"hill ".as_slice()),
    }
}

/// Adds a line for each region.
pub fn push_regions(
    text: &mut List<u8>,
    side: SideName,
    size: Size,
    regions: &[RegionSize],
) -> Result<(), Memory>
    requires { All (λ region. region.pit.index < cell_count size) regions.now }
    ensures { OnOk result (text.new ≡ text.old ++ flat_map (region_line side size) regions.now) }
{
    'lines: for region in regions {
        push_region(text, side, size, *region)?;
    }
    Ok(())
}

// Adds the line of a region.
fn push_region(
    text: &mut List<u8>,
    side: SideName,
    size: Size,
    region: RegionSize,
) -> Result<(), Memory>
    requires { region.pit.index < cell_count size }
    ensures { OnOk result (text.new ≡ text.old ++ region_line side size region) }
{
    push_one(text, side)?;
    push_rank(text, size, region.pit)?;
    text.push(b' ')?;
    push_unsigned(text, u64::from(region.points))?;
    text.push(b'\n')?;
    Ok(())
}

/// `label S X Y in PX PY`: a point, and the pit of its region.
pub fn tell_label(alloc: Global, side: SideName, at: Pos, pit: Pos) -> Result<List<u8>, Memory>
    ensures { IfOk result (λ text. text ≡ label_text side at pit) }
{
    let mut text = List::new(alloc);
    push_text(&mut text, b"label ".as_slice())?;
    push_side(&mut text, side)?;
    text.push(b' ')?;
    push_place(&mut text, at)?;
    push_text(&mut text, b" in ".as_slice())?;
    push_place(&mut text, pit)?;
    text.push(b'\n')?;
    Ok(text)
}
