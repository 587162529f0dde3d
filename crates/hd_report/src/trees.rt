// The lines of a change tree.
ghost use Rattle.std.specs.Prelude.{◌≡◌, ◌++◌, ◌<◌, All, IfOk, OnOk};
ghost use Rattle.std.specs.List.{flat_map};
ghost use Rattle.hd_graph.specs.Tells.{joins_of};
ghost use Rattle.hd_map.specs.Map.{cell_count};
ghost use Rattle.hd_report.specs.Trees.{IsJoinInside, join_line, joining_of, part_text, saddle_text, tree_text};

use crate::place::{push_point, push_rank, push_side};
use hd_graph::Join;
use hd_list::{List, Memory};
use hd_map::{Rank, SideName, Size};
use hd_num::{push_text, push_unsigned};
use std::alloc::Global;

// So many bytes are reserved for the line of a saddle.
const JOIN_BYTES: usize = 36;

/// The number of the saddles of a change tree on a grid of this size, and a line for each in their
/// order with its column, profile and height in steps, and the pits that it joins.
pub fn list_tree(
    alloc: Global,
    side: SideName,
    size: Size,
    joins: &[Join],
) -> Result<List<u8>, Memory>
    requires { All (λ join. IsJoinInside size (joining_of join)) joins.now }
    ensures { IfOk result (λ text. text ≡ tree_text side size (joins_of joins.now)) }
{
    let mut text = List::with_capacity(alloc, joins.len().saturating_mul(JOIN_BYTES))?;
    push_text(&mut text, b"tree ".as_slice())?;
    push_side(&mut text, side)?;
    text.push(b' ')?;
    push_unsigned(&mut text, joins.len() as u64)?;
    text.push(b'\n')?;
    push_joins(&mut text, size, joins)?;
    Ok(text)
}

// Adds a line for each saddle.
fn push_joins(text: &mut List<u8>, size: Size, joins: &[Join]) -> Result<(), Memory>
    requires { All (λ join. IsJoinInside size (joining_of join)) joins.now }
    ensures { OnOk result (text.new ≡ text.old
        ++ flat_map (λ join. join_line size (joining_of join)) joins.now) }
{
    'lines: for join in joins {
        push_join(text, size, join)?;
    }
    Ok(())
}

// Adds the line of a saddle.
fn push_join(text: &mut List<u8>, size: Size, join: &Join) -> Result<(), Memory>
    requires { IsJoinInside size (joining_of join.now) }
    ensures { OnOk result (text.new ≡ text.old ++ join_line size (joining_of join.now)) }
{
    let parts = join.parts.as_slice();
    push_saddle(text, size, join.saddle, parts.len())?;
    push_parts(text, size, parts)?;
    text.push(b'\n')?;
    Ok(())
}

// Adds a saddle, and how many pits it joins.
fn push_saddle(text: &mut List<u8>, size: Size, saddle: Rank, count: usize) -> Result<(), Memory>
    requires { saddle.index < cell_count size }
    ensures { OnOk result (text.new ≡ text.old ++ saddle_text size saddle count) }
{
    push_text(text, b"saddle ".as_slice())?;
    push_rank(text, size, saddle)?;
    text.push(b' ')?;
    push_unsigned(text, count as u64)?;
    Ok(())
}

// Adds the pits that a saddle joins.
fn push_parts(text: &mut List<u8>, size: Size, parts: &[Rank]) -> Result<(), Memory>
    requires { All (λ part. part.index < cell_count size) parts.now }
    ensures { OnOk result (text.new ≡ text.old ++ flat_map (part_text size) parts.now) }
{
    'parts: for part in parts {
        text.push(b' ')?;
        push_point(text, size, *part)?;
    }
    Ok(())
}
