// The nodes of all tiles in one slab.
ghost use Rattle.std.specs.Prelude.{◌≡◌, ◌<◌, All, IfOk, OnErr, OnOk, Some, length, slice_get, slice_set};
ghost use Rattle.hd_basin.specs.Stock.{ArePut, AreTakenOut, IsUnseen, seen_of};

use crate::Node;
use crate::kept::Kept;
use crate::part::Part;
use crate::shown::Shown;
use hd_list::Memory;
use slab::Slab;
use std::alloc::Global;
use std::marker::Model;

/// The nodes of all tiles in one slab, each under a key that its tile lists, with all else that is kept of the
/// tiles. No key of a node that was taken out stays. Contracts see it as the list of the tiles' parts.
#[derive(Drop)]
pub struct Stock {
    nodes: Slab<Node>,
    tiles: Vec<Kept>,
}

impl Model for Stock {
    ghost use Rattle.std.specs.Prelude.{List, map};
    ghost use Rattle.hd_basin.specs.declared.part.Part.{Part};

    ghost Value = { List Part };

    ghost use Rattle.hd_basin.specs.Stock.{AreStocked, part_of};

    ghost view = { λ s. map (part_of s.nodes) s.tiles.items };

    ghost invariant = { λ s. AreStocked s.nodes s.tiles.items };
}

impl Stock {
    /// So many tiles, none of which was seen.
    pub fn new(alloc: Global, count: u32) -> Result<Stock, Memory>
        ensures count { IfOk result (λ stock. length stock ≡ count) }
        ensures unseen { IfOk result (λ stock. All IsUnseen stock) }
    {
        let mut tiles = Vec::new(alloc);
        for _tile in 0..count {
            tiles.push(Kept::unseen(alloc))?;
        }
        Ok(Stock {
            nodes: Slab::new(alloc),
            tiles,
        })
    }

    /// How many tiles there are.
    pub fn count(&self) -> usize
        ensures { result ≡ length self.now }
    {
        self.tiles.len()
    }

    /// The stamp that a tile was seen with, and none where it was not seen and where there is no such tile.
    pub fn seen(&self, tile: u32) -> Option<u64>
        ensures { result ≡ seen_of (slice_get self.now tile) }
    {
        match self.tiles.get(tile as usize) {
            Some(kept) => kept.seen,
            None => None,
        }
    }

    /// What is kept of a tile.
    pub fn part(&self, tile: usize) -> Shown<'_>
        requires { tile < length self.now }
        ensures { slice_get self.now tile ≡ Some result }
    {
        Shown::new(&self.nodes, &self.tiles[tile])
    }

    /// Keeps this of a tile. The nodes that it had are taken out, and its new ones stand under keys of their own.
    /// Where memory is refused, all stays as it was.
    pub fn replace(&mut self, alloc: Global, tile: u32, part: Part) -> Result<(), Memory>
        requires { tile < length self.old }
        ensures ok { OnOk result (self.new ≡ slice_set self.old tile part) }
        ensures err { OnErr result (self.new ≡ self.old) }
    {
        let Part {
            seen,
            nodes,
            labels,
            joins,
            seams,
        } = part;
        let keys = put_in(alloc, &mut self.nodes, nodes.as_slice())?;
        take_out(&mut self.nodes, self.tiles[tile as usize].keys.as_slice());
        self.tiles[tile as usize] = Kept {
            seen,
            keys,
            labels,
            joins,
            seams,
        };
        Ok(())
    }
}

// Puts nodes under keys that are free. Where memory is refused, none is put in.
fn put_in(alloc: Global, slab: &mut Slab<Node>, nodes: &[Node]) -> Result<Vec<usize>, Memory>
    ensures ok { IfOk result (λ keys. ArePut slab.old slab.new keys.items nodes.now) }
    ensures err { OnErr result (slab.new.slots ≡ slab.old.slots) }
{
    let mut keys = Vec::with_capacity(alloc, nodes.len())?;
    slab.reserve(nodes.len())?;
    'nodes: for node in nodes {
        let key = slab.insert_reserved(*node);
        keys.push_reserved(key);
    }
    Ok(keys)
}

// Takes the nodes under these keys out.
fn take_out(slab: &mut Slab<Node>, keys: &[usize])
    ensures { AreTakenOut slab.old slab.new keys.now }
{
    'keys: for key in keys {
        let _node = slab.try_remove(*key);
    }
}
