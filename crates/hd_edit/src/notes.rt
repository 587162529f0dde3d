// What an edit changed, as it is kept for an undo.
ghost use Rattle.std.specs.Prelude.{◌≡◌, ◌<◌, ◌+◌, ◌^◌, ◌++◌, ◌∷◌, [], IfOk, MatchOption, length};
ghost use Rattle.hd_edit.specs.declared.change.Was.TheVariants.{Height};
ghost use Rattle.hd_edit.specs.Notes.{IsLow, IsNotedHeight, IsShortlyAfter};
ghost use Rattle.hd_edit.specs.SevenBytes.{widened};

use crate::change::{Change, Was};
use crate::height_bytes::OverLeast;
use hd_list::Memory;
use std::alloc::Global;
use std::marker::Model;

/// A height that a cell was, by how many indexes the point is after the one noted before it. It takes 6
/// bytes.
#[derive(Clone, Copy)]
pub struct HeightNote {
    // How many indexes the point is after the one before it.
    distance: u16,
    // How far the height is over the least one of the data type, in four bytes, the lowest first.
    over: [u8; 4],
}

const _: () = prove!(size_of::<HeightNote>() <= 6);

/// The changes of an edit as they are kept, the last of which was made last. A change takes 6 bytes, up to
/// the first that is not of a height less than 2 ^ 32 over the least one, or is further than 65,535 indexes
/// from the change before it; from there on each takes 12. Contracts see it as the changes.
#[derive(Drop)]
pub struct Notes {
    // The indexes of the first and of the last height noted.
    first: u32,
    last: u32,
    heights: Vec<HeightNote>,
    // The changes after those of the heights noted.
    others: Vec<Change>,
}

impl Model for Notes {
    ghost use Rattle.std.specs.Prelude.{◌≡◌, ◌++◌, List as Items};
    ghost use Rattle.hd_edit.specs.declared.change.Change.{Change as NotedChange};
    ghost use Rattle.hd_edit.specs.Notes.{BeginsUnfit, changes_after, last_after};

    ghost Value = { Items NotedChange };

    ghost view = { λ n. changes_after n.first n.heights.items ++ n.others.items };

    ghost invariant = { λ n.
        (n.last ≡ last_after n.first n.heights.items) × BeginsUnfit n.last n.others.items };
}

impl Notes {
    /// Takes the last change.
    pub fn pop(&mut self) -> Option<Change>
        ensures { MatchOption result (self.old ≡ []) (λ change. self.old ≡ self.new ++ change ∷ []) }
    {
        if let Some(change) = self.others.pop() {
            return Some(change);
        }
        let note = self.heights.pop()?;
        let index = self.last;
        self.last -= u32::from(note.distance);
        Some(Change {
            index,
            was: Was::Height(OverLeast::of_low(note.over)),
        })
    }
}

/// Notes in the making. Memory for all of them is taken before the first: 18 bytes for each, of which 6 or 12
/// are then written. Contracts see the changes that are noted, and for how many there is room.
#[derive(Drop)]
pub struct NewNotes {
    // As in `Notes`; both lists have the same room.
    first: u32,
    last: u32,
    heights: Vec<HeightNote>,
    others: Vec<Change>,
}

impl Model for NewNotes {
    ghost use Rattle.std.specs.Prelude.{◌≡◌, ◌++◌, vec_capacity};
    ghost use Rattle.hd_edit.specs.NewNotes.{NewNotesState};
    ghost use Rattle.hd_edit.specs.Notes.{BeginsUnfit, changes_after, last_after};

    ghost Value = { NewNotesState };

    ghost view = { λ n. record {
      changes = changes_after n.first n.heights.items ++ n.others.items;
      room = vec_capacity n.heights;
    } };

    ghost invariant = { λ n.
        (n.last ≡ last_after n.first n.heights.items) × (vec_capacity n.others ≡ vec_capacity n.heights)
        × BeginsUnfit n.last n.others.items };
}

impl NewNotes {
    /// No notes, with room for this many, 18 bytes each.
    pub fn with_room(alloc: Global, count: u32) -> Result<NewNotes, Memory>
        ensures { IfOk result (λ notes. notes ≡ record { changes = []; room = count }) }
    {
        let heights = Vec::with_capacity(alloc, count as usize)?;
        let others = Vec::with_capacity(alloc, count as usize)?;
        Ok(NewNotes {
            first: 0,
            last: 0,
            heights,
            others,
        })
    }

    /// Lets the distances of the notes begin at an index, where there is no note yet.
    pub fn start_at(&mut self, index: u32)
        ensures { self.new ≡ self.old }
    {
        if self.heights.is_empty() && self.others.is_empty() {
            self.first = index;
            self.last = index;
        }
    }

    /// Notes a change after those before it, as a height exactly where that can be.
    #[inline]
    pub fn push(&mut self, change: Change)
        requires { length self.old.changes < self.old.room }
        ensures changes { self.new.changes ≡ self.old.changes ++ change ∷ [] }
        ensures room { self.new.room ≡ self.old.room }
    {
        self.start_at(change.index);
        if let Was::Height(over) = change.was {
            if let Some(low) = over.low() {
                self.push_low(change.index, low);
                return;
            }
        }
        self.push_other(change);
    }

    /// Notes after the changes before it that a cell was the height this much over the least one.
    #[inline]
    pub fn push_height(&mut self, index: u32, over: u64)
        requires room { length self.old.changes < self.old.room }
        requires over { over < 2 ^ 56 }
        ensures changes { IsNotedHeight index over self.old.changes self.new.changes }
        ensures room { self.new.room ≡ self.old.room }
    {
        if let Some(low) = OverLeast::low_of(over) {
            self.push_low(index, low);
            return;
        }
        let was = Was::Height(OverLeast::new(over));
        self.push_other(Change { index, was });
    }

    // Notes a height that four bytes tell, in 6 bytes exactly where that can be.
    #[inline]
    fn push_low(&mut self, index: u32, over: [u8; 4])
        requires { length self.old.changes < self.old.room }
        ensures changes { self.new.changes
            ≡ self.old.changes ++ (record { index = index; was = Height (widened over) }) ∷ [] }
        ensures room { self.new.room ≡ self.old.room }
    {
        let was = Was::Height(OverLeast::of_low(over));
        if !self.others.is_empty() {
            self.others.push_reserved(Change { index, was });
            return;
        }
        let Some(distance) = distance(self.last, index) else {
            self.others.push_reserved(Change { index, was });
            return;
        };
        self.heights.push_reserved(HeightNote { distance, over });
        self.last = index;
    }

    // Notes a change that is not of a height which four bytes tell.
    #[inline]
    fn push_other(&mut self, change: Change)
        requires room { length self.old.changes < self.old.room }
        requires other { IsLow change.was → ⊥ }
        ensures changes { self.new.changes ≡ self.old.changes ++ change ∷ [] }
        ensures room { self.new.room ≡ self.old.room }
    {
        self.others.push_reserved(change);
    }

    /// The notes as they are kept. The memory that they do not use is given back.
    pub fn into_notes(self) -> Notes
        ensures { result ≡ self.changes }
    {
        let NewNotes {
            first,
            last,
            mut heights,
            mut others,
        } = self;
        heights.shrink_to_fit();
        others.shrink_to_fit();
        Notes {
            first,
            last,
            heights,
            others,
        }
    }
}

// How many indexes one is after another, exactly where a note can tell that.
#[inline]
fn distance(last: u32, index: u32) -> Option<u16>
    ensures { MatchOption result (IsShortlyAfter last index → ⊥) (λ distance. last + distance ≡ index) }
{
    u16::try_from(index.checked_sub(last)?).ok()
}
