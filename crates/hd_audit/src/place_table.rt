// By index, the place of a line.
ghost use Rattle.std.specs.Prelude.{◌≡◌, ◌<◌, IfOk, None, Some, length, replicate, slice_set};
ghost use Rattle.hd_audit.specs.Places.{place_at};

use hd_list::Memory;
use std::alloc::Global;
use std::marker::Model;

/// By index, the place of a line, or none. It takes four bytes an index.
#[derive(Drop)]
pub struct PlaceTable {
    // One more than the place, and 0 for none.
    numbers: Vec<u32>,
}

impl Model for PlaceTable {
    ghost use Rattle.std.specs.Prelude.{ℕ, List, Option, map};
    ghost use Rattle.hd_audit.specs.Places.{place_of_number};

    ghost Value = { List (Option ℕ) };

    ghost view = { λ table. map place_of_number table.numbers.items };
}

impl PlaceTable {
    /// No places, for so many indexes.
    pub fn new(alloc: Global, count: usize) -> Result<PlaceTable, Memory>
        ensures { IfOk result (λ table. table ≡ replicate count None) }
    {
        Ok(PlaceTable {
            numbers: vec![in alloc; 0u32; count]?,
        })
    }

    /// The place at an index, if there is one.
    #[inline]
    pub fn place_at(&self, index: u32) -> Option<u32>
        ensures { result ≡ place_at self.now index }
    {
        let number = self.numbers.get(index as usize)?;
        number.checked_sub(1)
    }

    /// Puts a place at an index.
    #[inline]
    pub fn put(&mut self, index: u32, place: u32)
        requires inside { index < length self.old }
        requires few { place < 4294967295 }
        ensures { self.new ≡ slice_set self.old index (Some place) }
    {
        self.numbers[index as usize] = place + 1;
    }

    /// Takes the place at an index away.
    #[inline]
    pub fn clear(&mut self, index: u32)
        requires { index < length self.old }
        ensures { self.new ≡ slice_set self.old index None }
    {
        self.numbers[index as usize] = 0;
    }
}
