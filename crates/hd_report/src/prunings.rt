// The lines of a pruning.
ghost use Rattle.std.specs.Prelude.{◌≡◌, ◌++◌, ◌<◌, All, length, IfOk, OnOk};
ghost use Rattle.std.specs.List.{flat_map};
ghost use Rattle.hd_map.specs.Map.{cell_count};
ghost use Rattle.hd_prune.specs.Pruned.{leaving_of, leavings_of};
ghost use Rattle.hd_report.specs.Prunings.{IsStepInside, prune_heading, prune_text, step_line};

use crate::place::{push_point, push_side};
use crate::regions::push_regions;
use hd_list::{List, Memory};
use hd_map::{RegionSize, SideName, Size};
use hd_num::{Percent, push_percent, push_text, push_unsigned, push_whole};
use hd_prune::Step;
use std::alloc::Global;

// So many bytes are reserved for the line of a pit, kept or gone.
const PIT_BYTES: usize = 32;

/// A pruning at a percent on a grid of this size: how many pits leave and how many are kept, a line for
/// each step in order, and a line for each region of a kept pit in their order with the pit's column,
/// profile and height in steps, and the number of the points that it owns.
pub fn list_pruning(
    alloc: Global,
    side: SideName,
    size: Size,
    percent: Percent,
    steps: &[Step],
    kept: &[RegionSize],
) -> Result<List<u8>, Memory>
    requires steps { All (λ step. IsStepInside size (leaving_of step)) steps.now }
    requires kept { All (λ region. region.pit.index < cell_count size) kept.now }
    ensures { IfOk result (λ text. text ≡ prune_text side percent.thousandths size
        (leavings_of steps.now) kept.now) }
{
    let pits = steps.len().saturating_add(kept.len());
    let mut text = List::with_capacity(alloc, pits.saturating_mul(PIT_BYTES))?;
    push_heading(&mut text, side, percent, steps.len(), kept.len())?;
    push_steps(&mut text, size, steps)?;
    push_regions(&mut text, side, size, kept)?;
    Ok(text)
}

// Adds `prune S P STEPS KEPT`.
fn push_heading(
    text: &mut List<u8>,
    side: SideName,
    percent: Percent,
    steps: usize,
    kept: usize,
) -> Result<(), Memory>
    ensures { OnOk result (text.new ≡ text.old ++ prune_heading side percent.thousandths steps kept) }
{
    push_text(text, b"prune ".as_slice())?;
    push_side(text, side)?;
    text.push(b' ')?;
    push_percent(text, percent)?;
    text.push(b' ')?;
    push_unsigned(text, steps as u64)?;
    text.push(b' ')?;
    push_unsigned(text, kept as u64)?;
    text.push(b'\n')?;
    Ok(())
}

// Adds a line for each step.
fn push_steps(text: &mut List<u8>, size: Size, steps: &[Step]) -> Result<(), Memory>
    requires { All (λ step. IsStepInside size (leaving_of step)) steps.now }
    ensures { OnOk result (text.new ≡ text.old
        ++ flat_map (λ step. step_line size (leaving_of step)) steps.now) }
{
    'lines: for step in steps {
        push_step(text, size, *step)?;
    }
    Ok(())
}

// Adds the line of a step.
fn push_step(text: &mut List<u8>, size: Size, step: Step) -> Result<(), Memory>
    requires { IsStepInside size (leaving_of step) }
    ensures { OnOk result (text.new ≡ text.old ++ step_line size (leaving_of step)) }
{
    push_text(text, b"step ".as_slice())?;
    push_point(text, size, step.pit)?;
    push_text(text, b" local ".as_slice())?;
    push_whole(text, step.local)?;
    push_text(text, b" saddle ".as_slice())?;
    push_point(text, size, step.saddle)?;
    push_text(text, b" into ".as_slice())?;
    push_point(text, size, step.into)?;
    text.push(b'\n')?;
    Ok(())
}
