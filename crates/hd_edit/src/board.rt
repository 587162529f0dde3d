// A board: a grid that edits work on.
ghost use Rattle.std.specs.Prelude.{◌≡◌, ◌≢◌, ◌<◌, ◌≤◌, ◌+◌, ◌-◌, ◌^◌, ◌∷◌, ◌++◌, [], IfOk, OnOk, OnErr, length, map, is_ok, if◌then◌else◌};
ghost use Rattle.hd_map.specs.Sets.{under};
ghost use Rattle.hd_edit.specs.Elements.{elements_with, line_of};
ghost use Rattle.hd_edit.specs.Board.{BoardState, IsEdited, Applies, kept_after, Undoes, RisesUpTo};

use crate::elements::Elements;
use crate::entry::{Entry, put_back};
use crate::make::make;
use crate::{Edit, EditError, ElementLine, LogEnds};
use circular_buffer::HeapCircularBuffer;
use hd_list::{List, Memory};
use hd_map::{Adjacency, Grid};
use hd_morph::Element;
use std::alloc::Global;
use std::marker::Model;

/// How many edits can be undone.
const LOG_PLACES: usize = 32;

/// A grid with the log of its last 32 edits, and the elements of its filters. Contracts see the log
/// as the maps before these edits, and the elements as their tables in the order of first naming.
#[derive(Drop)]
pub struct Board<G: Grid> {
    alloc: Global,
    grid: G,
    elements: Elements,
    log: HeapCircularBuffer<Entry>,
}

impl<G: Grid> Model for Board<G> {
    ghost use Rattle.hd_edit.specs.Board.{BoardState};
    ghost use Rattle.hd_edit.specs.Log.{earlier_maps, IsLog};

    ghost Value = { BoardState G };

    ghost view = { λ board. record {
      grid = board.grid;
      earlier = earlier_maps board.log.items (G.map board.grid);
      elements = board.elements;
    } };

    ghost invariant = { λ board. IsLog (G.map board.grid) board.log };
}

impl<G: Grid> Board<G> {
    /// A board of this grid, with no earlier map and no element.
    pub fn new(alloc: Global, grid: G) -> Result<Board<G>, Memory>
    where
        G: Drop,
        ensures { IfOk result (λ board. board ≡ record { grid = grid; earlier = []; elements = [] }) }
    {
        let log = HeapCircularBuffer::with_capacity(alloc, LOG_PLACES)?;
        let elements = Elements::new(alloc);
        Ok(Board {
            alloc,
            grid,
            elements,
            log,
        })
    }

    /// The grid with the present map.
    pub fn grid(&self) -> &G
        ensures { result.now ≡ self.now.grid }
    {
        &self.grid
    }

    /// How many earlier maps are kept: one for each of the last 32 accepted edits that were not
    /// undone.
    pub fn kept(&self) -> u32
        ensures kept { result ≡ length self.now.earlier }
        ensures places { result ≤ 32 }
    {
        self.log.len() as u32
    }

    /// Takes an element in. A known name keeps its place and takes the new table, and a new name
    /// goes last.
    ///
    /// `Memory` comes where the element is refused its memory; then nothing is changed.
    pub fn define(&mut self, element: Element) -> Result<(), Memory>
        ensures defined { OnOk result (self.new
            ≡ record self.old { elements = elements_with self.old.elements element }) }
        ensures refused { OnErr result (self.new ≡ self.old) }
    {
        self.elements.define(self.alloc, element)?;
        Ok(())
    }

    /// The names and sizes of the elements, in the order of first naming.
    pub fn elements(&self) -> Result<List<ElementLine>, Memory>
        ensures { IfOk result (λ lines. lines ≡ map line_of self.now.elements) }
    {
        self.elements.lines(self.alloc)
    }

    /// Makes an edit. Accepted, the map before it is kept, also where it changes nothing, and the
    /// oldest of 33 is dropped. Refused, it changes nothing.
    ///
    /// `Memory` comes where the edit is refused its memory, before anything is changed. `Outside`
    /// comes exactly where a position is not in the grid, and names the first; else `EmptyRect`
    /// exactly where the second corner has a lesser column or profile than the first; else
    /// `HeightRange` exactly where a new height is not in the range of the data type, and names the
    /// first such position by index. Of a filter, `NoElement` comes exactly where there is no element
    /// of the name, else `HeightRange` as before.
    pub fn apply(&mut self, edit: &Edit) -> Result<(), EditError>
        requires { G.changes self.old.grid < 2 ^ 62 }
        ensures edit { let m = G.map self.old.grid in
            Applies (IsEdited self.old.elements m edit.now) result m (G.map self.new.grid) }
        ensures earlier { let earlier = self.old.earlier in
            self.new.earlier ≡ (if is_ok result then kept_after earlier (G.map self.old.grid) else earlier) }
        ensures elements { self.new.elements ≡ self.old.elements }
        ensures refused { OnErr result (self.new ≡ self.old) }
        ensures origin { G.comes_from self.old.grid self.new.grid }
        ensures count { RisesUpTo (2 ^ 27) (G.changes self.old.grid) (G.changes self.new.grid) }
    {
        let entry = make(self.alloc, &mut self.grid, &self.elements, edit)?;
        self.log.push_back(entry);
        Ok(())
    }

    /// Goes back over this many kept edits, which are then gone. It takes no memory.
    ///
    /// `LogEnds` comes exactly where fewer are kept; then nothing is changed.
    pub fn undo(&mut self, n: u64) -> Result<(), LogEnds>
        requires { G.changes self.old.grid < 2 ^ 62 }
        ensures undo { let old = self.old in let new = self.new in
            Undoes n result old.earlier (G.map old.grid) new.earlier (G.map new.grid) }
        ensures elements { self.new.elements ≡ self.old.elements }
        ensures refused { OnErr result (self.new ≡ self.old) }
        ensures origin { G.comes_from self.old.grid self.new.grid }
        ensures count { RisesUpTo (2 ^ 27) (G.changes self.old.grid) (G.changes self.new.grid) }
    {
        let kept = self.kept();
        if n > u64::from(kept) {
            return Err(LogEnds { kept });
        }
        for _step in 0..n {
            self.undo_last();
        }
        Ok(())
    }

    /// Sets which points are neighbours, on the present map and on each earlier one, and nothing else.
    /// It is no edit: nothing more is kept, and an undo leaves the setting. It takes no memory.
    pub fn set_adjacency(&mut self, adjacency: Adjacency)
        requires { G.changes self.old.grid < 2 ^ 62 }
        ensures map { G.map self.new.grid ≡ under adjacency (G.map self.old.grid) }
        ensures earlier { self.new.earlier ≡ map (under adjacency) self.old.earlier }
        ensures elements { self.new.elements ≡ self.old.elements }
        ensures origin { G.comes_from self.old.grid self.new.grid }
        ensures count { RisesUpTo 1 (G.changes self.old.grid) (G.changes self.new.grid) }
    {
        self.grid.set_adjacency(adjacency);
    }

    // Goes back over the last kept edit.
    fn undo_last(&mut self)
        requires kept { self.old.earlier ≢ [] }
        requires count { G.changes self.old.grid < 2 ^ 63 - 2 ^ 22 }
        ensures earlier { self.old.earlier ≡ self.new.earlier ++ G.map self.new.grid ∷ [] }
        ensures elements { self.new.elements ≡ self.old.elements }
        ensures origin { G.comes_from self.old.grid self.new.grid }
        ensures count { RisesUpTo (2 ^ 22) (G.changes self.old.grid) (G.changes self.new.grid) }
    {
        if let Some(entry) = self.log.pop_back() {
            put_back(&mut self.grid, entry);
        }
    }
}
