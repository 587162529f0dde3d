// The lines of fill volumes.
ghost use Rattle.std.specs.Prelude.{◌≡◌, ◌++◌, ◌<◌, List as Items, Option as Maybe, All, length, IfOk, OnOk};
ghost use Rattle.std.specs.List.{zip};
ghost use Rattle.hd_map.specs.Map.{cell_count};
ghost use Rattle.hd_report.specs.Volumes.{AreWithVolumes, fill_text, volume_line, volume_lines};

use crate::heading::push_heading;
use crate::place::push_point;
use crate::values::push_value;
use hd_list::{List, Memory};
use hd_map::{Rank, SideName, Size};
use hd_num::{Frac, Percent, push_text};
use hd_prune::Kept;
use std::alloc::Global;

/// The fill volumes of the pits that a pruning at a percent keeps, on a grid of this size: how many
/// there are, and a line for each in their order with its column and profile and its volume in steps
/// times points, or `none`.
pub fn list_volumes(
    alloc: Global,
    side: SideName,
    size: Size,
    percent: Percent,
    kept: &[Kept],
    volumes: &[Option<Frac>],
) -> Result<List<u8>, Memory>
    requires inside { All (λ k. k.pit.index < cell_count size) kept.now }
    requires each { length volumes.now ≡ length kept.now }
    ensures { IfOk result (λ text. (fills : Items (Kept × Maybe Frac))
        × AreWithVolumes kept.now volumes.now fills
        × (text ≡ fill_text side percent.thousandths size fills)) }
{
    let mut text = List::new(alloc);
    push_heading(&mut text, b"fill ".as_slice(), side, percent, kept.len())?;
    push_volumes(&mut text, size, kept, volumes)?;
    Ok(text)
}

// Adds a line for each kept pit.
fn push_volumes(
    text: &mut List<u8>,
    size: Size,
    kept: &[Kept],
    volumes: &[Option<Frac>],
) -> Result<(), Memory>
    requires inside { All (λ k. k.pit.index < cell_count size) kept.now }
    requires each { length volumes.now ≡ length kept.now }
    ensures { OnOk result (text.new ≡ text.old ++ volume_lines size (zip kept.now volumes.now)) }
{
    'lines: for (number, one) in kept.iter().enumerate() {
        push_volume(text, size, one.pit, volumes[number])?;
    }
    Ok(())
}

// Adds `volume X Y VALUE`.
fn push_volume(
    text: &mut List<u8>,
    size: Size,
    pit: Rank,
    volume: Option<Frac>,
) -> Result<(), Memory>
    requires { pit.index < cell_count size }
    ensures { OnOk result (text.new ≡ text.old ++ volume_line size pit volume) }
{
    push_text(text, b"volume ".as_slice())?;
    push_point(text, size, pit)?;
    push_value(text, volume)?;
    Ok(())
}
