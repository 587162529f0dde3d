// The indexes of each place, one after the other.
ghost use Rattle.std.specs.Prelude.{◌<◌, ◌^◌, length, All, IfOk};
ghost use Rattle.hd_steep.specs.Chains.{AreChains};

use hd_list::Memory;
use std::alloc::Global;

/// The indexes of each place, in order.
#[derive(Drop)]
pub struct Chains {
    /// By place the least index at which it stands, and the number of indexes where there is none.
    pub firsts: Vec<u32>,
    /// By index the next one at which the same place stands, and the number of indexes where there is none.
    pub nexts: Vec<u32>,
}

impl Chains {
    /// The chains of these places by index, each of which is less than `room`.
    pub fn new(alloc: Global, places: &[u32], room: usize) -> Result<Chains, Memory>
        requires within { All (λ p. p < room) places.now }
        requires few { length places.now < 2 ^ 32 }
        ensures { IfOk result (AreChains places.now room) }
    {
        let mut firsts = vec![in alloc; places.len() as u32; room]?;
        let mut nexts = vec![in alloc; 0u32; places.len()]?;
        let mut index = places.len();
        while index > 0 {
            index -= 1;
            let place = places[index] as usize;
            nexts[index] = firsts[place];
            firsts[place] = index as u32;
        }
        Ok(Chains { firsts, nexts })
    }
}
