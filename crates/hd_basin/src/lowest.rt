// The lowest seam of each two basins.
ghost use Rattle.std.specs.Prelude.{◌≡◌, IfOk, OnOk, map};
ghost use Rattle.std.specs.Bool.{OnTrue};
ghost use Rattle.std.specs.BTreeMap.{IsOrdered, get};
ghost use Rattle.hd_basin.specs.Seams.{KeepLowest};
ghost use Rattle.hd_basin.specs.Lowest.{HasLowest, IsCovered, NotesAfter, NotesLower, is_lower, pair_cmp};

use crate::part::Seam;
use hd_list::Memory;
use hd_map::Side;
use std::alloc::Global;
use std::collections::BTreeMap;

/// Of the seams with the same ends one of the lowest.
pub fn lowest_of<S: Side>(alloc: Global, all: &[Seam]) -> Result<Vec<Seam>, Memory>
    ensures { IfOk result (λ kept. KeepLowest S.NAME all.now kept.items) }
{
    let mut lowest = BTreeMap::new(alloc);
    let mut last = None;
    for seam in all {
        last = note_after::<S>(&mut lowest, last, *seam)?;
    }
    let kept = list_values(alloc, &lowest)?;
    Ok(kept)
}

// Notes a seam after the one that was noted last, unless that shows that it is not needed: along the border
// of a tile seams of the same ends often follow one another. Tells which seam was noted last.
fn note_after<S: Side>(
    lowest: &mut BTreeMap<(u32, u32), Seam>,
    last: Option<Seam>,
    seam: Seam,
) -> Result<Option<Seam>, Memory>
    ensures { IfOk result (NotesAfter S.NAME (get pair_cmp lowest.old)
        (get pair_cmp lowest.new) last seam) }
{
    if is_covered::<S>(last, seam) {
        return Ok(last);
    }
    note::<S>(lowest, seam)?;
    Ok(Some(seam))
}

// Whether a seam has the ends of another one and is not lower.
#[inline]
fn is_covered<S: Side>(last: Option<Seam>, seam: Seam) -> bool
    ensures { OnTrue result (IsCovered S.NAME last seam) }
{
    let Some(known) = last else {
        return false;
    };
    if known.pass.a.index != seam.pass.a.index {
        return false;
    }
    if known.pass.b.index != seam.pass.b.index {
        return false;
    }
    if S::below(seam.pass.at, known.pass.at) {
        return false;
    }
    true
}

// Notes a seam, where none of the same ends is known that is as low.
fn note<S: Side>(lowest: &mut BTreeMap<(u32, u32), Seam>, seam: Seam) -> Result<(), Memory>
    ensures { OnOk result (NotesLower S.NAME (get pair_cmp lowest.old) (get pair_cmp lowest.new) seam) }
{
    let key = (seam.pass.a.index, seam.pass.b.index);
    let known = lowest.get(&key).copied();
    if !is_lower::<S>(known, seam) {
        return Ok(());
    }
    lowest.insert(key, seam)?;
    Ok(())
}

// Whether a seam is lower than what is known.
#[inline]
fn is_lower<S: Side>(known: Option<Seam>, seam: Seam) -> bool
    ensures { result ≡ is_lower S.NAME known seam }
{
    match known {
        Some(known) => S::below(seam.pass.at, known.pass.at),
        None => true,
    }
}

// The values of a map.
fn list_values(alloc: Global, lowest: &BTreeMap<(u32, u32), Seam>) -> Result<Vec<Seam>, Memory>
    ensures values { IfOk result (λ seams. seams.items ≡ map (λ e. e.1) lowest.now.entries) }
    ensures ordered { IsOrdered pair_cmp lowest.now }
{
    let mut seams = Vec::with_capacity(alloc, lowest.len())?;
    'entries: for (_key, seam) in lowest {
        seams.push(*seam)?;
    }
    Ok(seams)
}
