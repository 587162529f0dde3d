// The borders of one place, while its pairs of neighbours are noted.
ghost use Rattle.std.specs.Prelude.{◌≡◌, ◌<◌, ◌++◌, ◌^◌, [], List as Items, length, All, IfOk, OnOk};
ghost use Rattle.std.specs.List.Sorted.{IsNonDecreasingBy, IsPermutation};
ghost use Rattle.hd_map.specs.Rank.{below_by};
ghost use Rattle.hd_steep.specs.declared.border.Border.{Border};
ghost use Rattle.hd_steep.specs.Found.{Adds, AreIndexed, with_pair};

use crate::border::Border;
use hd_list::Memory;
use hd_map::{Rank, Side};
use std::alloc::Global;

/// The borders of one place with greater ones, as they are found.
#[derive(Drop)]
pub struct Found {
    /// By a greater place, where the border with it stands in the list, if there is one.
    pub slots: Vec<u32>,
    /// The borders.
    pub borders: Vec<Border>,
}

impl Found {
    /// No borders, of places that are less than `room`.
    pub fn new(alloc: Global, room: usize) -> Result<Found, Memory>
        ensures long { IfOk result (λ found. length found.slots.items ≡ room) }
        ensures none { IfOk result (λ found. found.borders.items ≡ []) }
    {
        let slots = vec![in alloc; 0u32; room]?;
        Ok(Found {
            slots,
            borders: Vec::new(alloc),
        })
    }

    /// Notes one more pair across the border of two places, whose higher point this is.
    #[inline]
    pub fn add<S: Side>(&mut self, a: u32, b: u32, higher: Rank) -> Result<(), Memory>
        requires inside { b < length self.old.slots.items }
        requires room { length self.old.slots.items < 2 ^ 32 }
        requires indexed { AreIndexed self.old.slots.items self.old.borders.items }
        requires few { All (λ l. l.pairs < 2 ^ 63) self.old.borders.items }
        ensures adds { OnOk result (Adds (below_by S.NAME) a b higher self.old.borders.items
            self.new.borders.items) }
        ensures indexed { OnOk result (AreIndexed self.new.slots.items self.new.borders.items) }
        ensures long { length self.new.slots.items ≡ length self.old.slots.items }
    {
        let slot = self.slots[b as usize] as usize;
        if slot < self.borders.len() && self.borders[slot].b == b {
            self.borders[slot] = with_pair::<S>(self.borders[slot], higher);
            return Ok(());
        }
        self.slots[b as usize] = self.borders.len() as u32;
        self.borders.push(Border {
            a,
            b,
            pairs: 1,
            pass: higher,
        })?;
        Ok(())
    }

    /// Moves the borders to the end of a list, in the order of their greater places.
    pub fn move_to(&mut self, list: &mut Vec<Border>) -> Result<(), Memory>
        ensures moved { OnOk result ((sorted : Items Border)
            × IsPermutation self.old.borders.items sorted × IsNonDecreasingBy (λ l. l.b) sorted
            × (list.new.items ≡ list.old.items ++ sorted)) }
        ensures none { OnOk result (self.new.borders.items ≡ []) }
        ensures slots { self.new.slots ≡ self.old.slots }
    {
        self.borders.sort_unstable_by_key(|border| border.b);
        list.extend_from_slice(&self.borders)?;
        self.borders.clear();
        Ok(())
    }
}

// The border with one more pair.
#[inline]
fn with_pair<S: Side>(border: Border, higher: Rank) -> Border
    requires { border.pairs < 2 ^ 63 }
    ensures { result ≡ with_pair (below_by S.NAME) border higher }
{
    Border {
        pairs: border.pairs + 1,
        pass: if S::below(higher, border.pass) {
            higher
        } else {
            border.pass
        },
        ..border
    }
}
