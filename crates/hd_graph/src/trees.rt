// Change trees.
ghost use Rattle.std.specs.Prelude.{◌≡◌, ◌<◌, ◌++◌, ◌∷◌, [], All, AllPairs, IfOk, OnOk, length, true};
ghost use Rattle.hd_map.specs.ChangeTree.{IsTree, IsChangeTree};
ghost use Rattle.hd_map.specs.Map.{IsMap, Map};
ghost use Rattle.hd_map.specs.Order.{IsNotAbove};
ghost use Rattle.hd_map.specs.Rank.{below_by};
ghost use Rattle.hd_graph.specs.Parts.{AreGrouped, AreTwoLows, join_of, left_of, opens_join, right_of, rise_of, rises_of, rise_parts, with_low, with_part};
ghost use Rattle.hd_graph.specs.Tells.{AreMergesOf, IsPitOn, IsSaddleOn, TellsSaddles, joins_of};

use crate::graph::Low;
use crate::line::FloodLine;
use crate::merges::Merge;
use crate::parts::{Part, Rise};
use crate::pits::{MergedPits, merges_of_pits};
use hd_list::{List, Memory};
use hd_map::{Rank, Side};
use std::alloc::Global;

/// A saddle of two pits, and the classes of pits that it joins.
#[derive(Debug, Drop)]
pub struct Join {
    /// The saddle.
    pub saddle: Rank,
    /// The lowest pit of each class, in the side's order.
    pub parts: List<Rank>,
}

/// The change tree of the pits of a surface on a side, after ISO 25178-2.
#[derive(Debug, Drop)]
pub struct ChangeTree {
    /// The joins, in the side's order of their saddles.
    pub joins: List<Join>,
}

/// The change tree of the stops that are pits: for each saddle of two of them, as
/// `FloodLine::between` gives it, the lowest pits of the classes that it joins. Where the line tells
/// the pits of a map and their saddles, it is the change tree of the map.
pub fn tree<S: Side>(alloc: Global, line: &FloodLine<S>) -> Result<ChangeTree, Memory>
    ensures of_line { IfOk result (λ tree. IsTree (below_by S.NAME) (IsSaddleOn (below_by S.NAME) line.now)
        (IsPitOn line.now) (joins_of tree.joins)) }
    ensures of_map { IfOk result (λ tree. (m : Map) → TellsSaddles m S.NAME line.now
        → IsChangeTree m S.NAME (joins_of tree.joins)) }
{
    let MergedPits { pits, merges } = merges_of_pits::<S>(alloc, line)?;
    let joins = group::<S>(alloc, pits.as_slice(), merges.as_slice())?;
    Ok(ChangeTree {
        joins: List::from_vec(joins),
    })
}

/// The change tree of a map, by its pits and their merges: a merge joins the classes of its two pits, which are the
/// lowest of them.
pub fn tree_of_merges<S: Side>(
    alloc: Global,
    lows: &[Low],
    merges: &[Merge],
) -> Result<ChangeTree, Memory>
    requires { (m : Map) × AreMergesOf m S.NAME lows.now merges.now }
    ensures { IfOk result (λ tree. (m : Map) → IsMap m → AreMergesOf m S.NAME lows.now merges.now
        → IsChangeTree m S.NAME (joins_of tree.joins)) }
{
    let joins = List::from_vec(group::<S>(alloc, lows, merges)?);
    Ok(ChangeTree { joins })
}

// The parts that the merges join, those of one saddle put together, each once.
fn group<S: Side>(alloc: Global, lows: &[Low], merges: &[Merge]) -> Result<Vec<Join>, Memory>
    requires each { All (AreTwoLows (below_by S.NAME) lows.now) merges.now }
    requires rising { AllPairs (λ x y. IsNotAbove (below_by S.NAME) x.at y.at) merges.now }
    ensures { IfOk result (λ joins. AreGrouped (below_by S.NAME)
        (rise_parts (rises_of lows.now merges.now)) (joins_of joins.items)) }
{
    let mut joins = Vec::with_capacity(alloc, merges.len())?;
    for merge in merges {
        add_merge_parts::<S>(alloc, &mut joins, rise_of(lows, *merge))?;
    }
    Ok(joins)
}

// A merge as a rise between the classes of its pits.
fn rise_of(lows: &[Low], merge: Merge) -> Rise
    requires low { merge.low < length lows.now }
    requires into { merge.into < length lows.now }
    ensures { result ≡ rise_of lows.now merge }
{
    Rise {
        saddle: merge.at,
        left: lows[merge.into as usize].rank,
        right: lows[merge.low as usize].rank,
    }
}

// Adds the parts on the two sides of the rise of a merge. Mostly they are a join of their own.
fn add_merge_parts<S: Side>(alloc: Global, joins: &mut Vec<Join>, rise: Rise) -> Result<(), Memory>
    requires { below_by S.NAME rise.left rise.right ≡ true }
    ensures { OnOk result (joins_of joins.new.items
        ≡ with_part (below_by S.NAME) (right_of rise)
        (with_part (below_by S.NAME) (left_of rise) (joins_of joins.old.items))) }
{
    if !opens_join::<S>(joins, rise.saddle) {
        return add_rise_parts::<S>(alloc, joins, rise);
    }
    let mut parts = List::with_capacity(alloc, 2)?;
    parts.push(rise.left)?;
    parts.push(rise.right)?;
    joins.push(Join {
        saddle: rise.saddle,
        parts,
    })?;
    Ok(())
}

// Whether a part at this saddle becomes a join of its own.
fn opens_join<S: Side>(joins: &[Join], saddle: Rank) -> bool
    ensures { result ≡ opens_join (below_by S.NAME) saddle (joins_of joins.now) }
{
    match joins.last() {
        Some(last) => S::below(last.saddle, saddle),
        None => true,
    }
}

// Adds the parts on the two sides of a rise.
fn add_rise_parts<S: Side>(alloc: Global, joins: &mut Vec<Join>, rise: Rise) -> Result<(), Memory>
    ensures { OnOk result (joins_of joins.new.items
        ≡ with_part (below_by S.NAME) (right_of rise)
        (with_part (below_by S.NAME) (left_of rise) (joins_of joins.old.items))) }
{
    let saddle = rise.saddle;
    let low = rise.left;
    add_part::<S>(alloc, joins, Part { saddle, low })?;
    let low = rise.right;
    add_part::<S>(alloc, joins, Part { saddle, low })?;
    Ok(())
}

// Adds the part to the last join, where that is not below its saddle, and else a join of its own.
fn add_part<S: Side>(alloc: Global, joins: &mut Vec<Join>, part: Part) -> Result<(), Memory>
    ensures { OnOk result (joins_of joins.new.items
        ≡ with_part (below_by S.NAME) part (joins_of joins.old.items)) }
{
    if let Some(last) = joins.pop() {
        if !S::below(last.saddle, part.saddle) {
            let Join { saddle, parts } = last;
            let parts = add_low::<S>(parts, part.low)?;
            joins.push(Join { saddle, parts })?;
            return Ok(());
        }
        joins.push(last)?;
        return add_join(alloc, joins, part);
    }
    add_join(alloc, joins, part)
}

// Adds a join of the part alone, with room for a second one.
fn add_join(alloc: Global, joins: &mut Vec<Join>, part: Part) -> Result<(), Memory>
    ensures { OnOk result (joins_of joins.new.items ≡ joins_of joins.old.items ++ join_of part ∷ []) }
{
    let mut parts = List::with_capacity(alloc, 2)?;
    parts.push(part.low)?;
    joins.push(Join {
        saddle: part.saddle,
        parts,
    })?;
    Ok(())
}

// The lows with one more, in order and each once.
fn add_low<S: Side>(lows: List<Rank>, low: Rank) -> Result<List<Rank>, Memory>
    ensures { IfOk result (λ more. more ≡ with_low (below_by S.NAME) low lows) }
{
    let mut lows = lows.into_vec();
    let mut at = 0;
    while at < lows.len() && S::below(lows[at], low) {
        at += 1;
    }
    if at < lows.len() && !S::below(low, lows[at]) {
        return Ok(List::from_vec(lows));
    }
    lows.insert(at, low)?;
    Ok(List::from_vec(lows))
}
