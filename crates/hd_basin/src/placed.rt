// The nodes of all tiles by their places, and the numbers of the pits among them.
ghost use Rattle.std.specs.Prelude.{◌≡◌, ◌≢◌, ◌<◌, ◌^◌, ◌++◌, ◌∷◌, [], ℕ, List, AllPairs, Contains, IfOk, OnOk, length, map};
ghost use Rattle.std.specs.Ordering.{is_lt};
ghost use Rattle.hd_basin.specs.declared.node.Node.{Node};
ghost use Rattle.hd_basin.specs.Placed.{AreListed, AreNumbered, AreNumberedPits, IsListing, comes_first, pit_of};
ghost use Rattle.hd_basin.specs.Roots.{all_nodes};

use crate::Node;
use crate::roots::{Roots, UNKNOWN};
use crate::shown::Shown;
use crate::stock::Stock;
use hd_list::{List, Memory};
use hd_map::Rank;
use std::alloc::Global;
use std::cmp::Ordering;

/// A pit, and the place of its node.
#[derive(Clone, Copy, Debug, PartialEq, Eq)]
pub struct PlacedPit {
    /// The pit.
    pub pit: Rank,
    /// The place of its node.
    pub place: usize,
}

/// The places of the nodes of all tiles.
#[derive(Drop)]
pub struct Listing {
    /// By tile the place of its first node.
    pub firsts: Vec<usize>,
    /// The pits, with the places of their nodes.
    pub pits: Vec<PlacedPit>,
    /// By place of a node its number, which is not known yet.
    pub numbers: Vec<u32>,
}

/// The pits, each with its number at the place of its node. No other node has a number.
pub fn number_pits(alloc: Global, stock: &Stock) -> Result<Roots, Memory>
    requires apart { AllPairs (λ (n u : Node). n.low.index ≢ u.low.index) (all_nodes stock.now) }
    requires few { (n : Node) → Contains (all_nodes stock.now) n → n.low.index < 2 ^ 31 }
    ensures { IfOk result (AreNumberedPits stock.now) }
{
    let Listing {
        firsts,
        mut pits,
        mut numbers,
    } = listing_of(alloc, stock)?;
    pits.sort_unstable_by(|a, b| compare_indexes(a, b));
    let pits = number_in_order(alloc, &pits, &mut numbers)?;
    Ok(Roots {
        pits,
        firsts,
        numbers,
    })
}

// The places of the nodes of all tiles.
fn listing_of(alloc: Global, stock: &Stock) -> Result<Listing, Memory>
    ensures { IfOk result (IsListing stock.now) }
{
    let mut firsts = Vec::new(alloc);
    let mut pits = Vec::new(alloc);
    let mut numbers = Vec::new(alloc);
    let tiles = stock.count();
    'tiles: for tile in 0..tiles {
        let part = stock.part(tile);
        firsts.push(numbers.len())?;
        list_tile(&mut pits, &mut numbers, &part)?;
    }
    Ok(Listing {
        firsts,
        pits,
        numbers,
    })
}

// Lists the nodes of a tile after others.
fn list_tile(pits: &mut Vec<PlacedPit>, numbers: &mut Vec<u32>, part: &Shown) -> Result<(), Memory>
    ensures { OnOk result ((nodes : List Node) → AreListed nodes pits.old.items numbers.old.items
        → AreListed (nodes ++ part.now.nodes) pits.new.items numbers.new.items) }
{
    let count = part.count();
    'numbers: for number in 0..count {
        list_node(pits, numbers, part.node(number))?;
    }
    Ok(())
}

// Lists one node after others.
fn list_node(pits: &mut Vec<PlacedPit>, numbers: &mut Vec<u32>, node: Node) -> Result<(), Memory>
    ensures { OnOk result ((nodes : List Node) → AreListed nodes pits.old.items numbers.old.items
        → AreListed (nodes ++ node ∷ []) pits.new.items numbers.new.items) }
{
    if node.flows.is_none() {
        pits.push(PlacedPit {
            pit: node.low,
            place: numbers.len(),
        })?;
    }
    numbers.push(UNKNOWN)?;
    Ok(())
}

// Which of two pits comes first in position order.
fn compare_indexes(a: &PlacedPit, b: &PlacedPit) -> Ordering
    ensures { is_lt result ≡ comes_first a.now b.now }
{
    if a.pit.index < b.pit.index {
        Ordering::Less
    } else {
        Ordering::Greater
    }
}

// Gives each of these pits its number.
fn number_in_order(
    alloc: Global,
    placed: &[PlacedPit],
    numbers: &mut Vec<u32>,
) -> Result<List<Rank>, Memory>
    requires inside { (p : PlacedPit) → Contains placed.now p → p.place < length numbers.old.items }
    requires few { length placed.now < 2 ^ 32 }
    requires apart { AllPairs (λ (p q : PlacedPit). p.place ≢ q.place) placed.now }
    ensures pits { IfOk result (λ pits. pits ≡ map pit_of placed.now) }
    ensures numbers { OnOk result (AreNumbered placed.now numbers.old.items numbers.new.items) }
{
    let mut pits = List::with_capacity(alloc, placed.len())?;
    'numbers: for number in 0..placed.len() {
        let pit = placed[number];
        pits.push(pit.pit)?;
        numbers[pit.place] = number as u32;
    }
    Ok(pits)
}
