// A tile of a stock, to be read.
ghost use Rattle.std.specs.Prelude.{◌≡◌, ◌<◌, Some, length, slice_get};
ghost use Rattle.hd_basin.specs.Parts.{NumberIs, node_at};
ghost use Rattle.hd_basin.specs.Stock.{HaveNodes, part_of};

use crate::Node;
use crate::kept::Kept;
use crate::part::{Join, Seam};
use slab::Slab;
use std::marker::Model;

/// A tile of a stock, to be read. Contracts see it as the tile's part.
#[derive(Drop)]
pub struct Shown<'a> {
    nodes: &'a Slab<Node>,
    kept: &'a Kept,
}

impl<'a> Model for Shown<'a> {
    ghost use Rattle.hd_basin.specs.declared.part.Part.{Part};

    ghost Value = { Part };

    ghost use Rattle.hd_basin.specs.Stock.{HaveNodes, part_of};

    ghost view = { λ s. part_of s.nodes.now s.kept.now };

    ghost invariant = { λ s. HaveNodes s.nodes.now s.kept.now.keys.items };
}

impl<'a> Shown<'a> {
    /// The tile of which this is stored, with the nodes under its keys.
    pub fn new(nodes: &'a Slab<Node>, kept: &'a Kept) -> Shown<'a>
        requires { HaveNodes nodes.now kept.now.keys.items }
        ensures { result ≡ part_of nodes.now kept.now }
    {
        Shown { nodes, kept }
    }

    /// The stamp that the tile was seen with, and none where it was not seen yet.
    pub fn seen(&self) -> Option<u64>
        ensures { result ≡ self.now.seen }
    {
        self.kept.seen
    }

    /// How many nodes it has.
    pub fn count(&self) -> usize
        ensures { result ≡ length self.now.nodes }
    {
        self.kept.keys.len()
    }

    /// The node of a number.
    pub fn node(&self, number: usize) -> Node
        requires { number < length self.now.nodes }
        ensures { slice_get self.now.nodes number ≡ Some result }
    {
        self.nodes[self.kept.keys[number]]
    }

    /// The node of a number, and none where there is no such node.
    pub fn find(&self, number: u32) -> Option<Node>
        ensures { result ≡ slice_get self.now.nodes number }
    {
        match self.kept.keys.get(number as usize) {
            Some(key) => self.nodes.get(*key).copied(),
            None => None,
        }
    }

    /// The number of the node that the label at a place of the tile names, and none where there is no label.
    pub fn number_at(&self, place: u32) -> Option<usize>
        ensures { NumberIs self.now place result }
    {
        let label = *self.kept.labels.get(place as usize)? as usize;
        if label < self.kept.keys.len() {
            Some(label)
        } else {
            None
        }
    }

    /// The node that the label at a place of the tile names, and none where there is no label.
    pub fn node_at(&self, place: u32) -> Option<Node>
        ensures { result ≡ node_at (Some self.now) place }
    {
        match self.kept.labels.get(place as usize) {
            Some(label) => self.find(*label),
            None => None,
        }
    }

    /// The passes between two of its basins.
    pub fn joins(&self) -> &[Join]
        ensures { result.now ≡ self.now.joins }
    {
        self.kept.joins.as_slice()
    }

    /// The passes to basins of tiles that had been seen before it.
    pub fn seams(&self) -> &[Seam]
        ensures { result.now ≡ self.now.seams }
    {
        self.kept.seams.as_slice()
    }
}
