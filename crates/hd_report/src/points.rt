// Why nothing is told of a point or of two.
ghost use Rattle.std.specs.Prelude.{◌≡◌, IfOk};
ghost use Rattle.hd_report.specs.Points.{not_present_text, one_region_text, outside_text};

use crate::place::push_place;
use hd_list::{List, Memory};
use hd_map::Pos;
use hd_num::push_text;
use std::alloc::Global;

/// `X Y is outside`.
pub fn outside_cause(alloc: Global, at: Pos) -> Result<List<u8>, Memory>
    ensures { IfOk result (λ text. text ≡ outside_text at) }
{
    let mut text = List::new(alloc);
    push_place(&mut text, at)?;
    push_text(&mut text, b" is outside".as_slice())?;
    Ok(text)
}

/// `X Y is not present`.
pub fn not_present_cause(alloc: Global, at: Pos) -> Result<List<u8>, Memory>
    ensures { IfOk result (λ text. text ≡ not_present_text at) }
{
    let mut text = List::new(alloc);
    push_place(&mut text, at)?;
    push_text(&mut text, b" is not present".as_slice())?;
    Ok(text)
}

/// `both points are in one region`.
pub fn one_region_cause() -> &'static [u8]
    ensures { result.now ≡ one_region_text }
{
    b"both points are in one region"
}
