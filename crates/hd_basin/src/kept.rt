// What is stored of one tile, with its nodes by their keys.
ghost use Rattle.std.specs.Prelude.{◌≡◌, None, []};

use crate::part::{Join, Seam};
use hd_list::List;
use std::alloc::Global;

/// What is stored of one tile. It is the tile's part, with the keys of the nodes in their place.
#[derive(Drop)]
pub struct Kept {
    /// The stamp that the tile was seen with, and none where it was not seen yet.
    pub seen: Option<u64>,
    /// By the number of a node, the key that it stands under.
    pub keys: Vec<usize>,
    /// For each position of the tile, profile by profile, the number of a node, as in a part.
    pub labels: Vec<u32>,
    /// The passes between two of its basins.
    pub joins: List<Join>,
    /// The passes to basins of tiles that had been seen before it.
    pub seams: List<Seam>,
}

impl Kept {
    /// What is stored of a tile that was not seen.
    pub fn unseen(alloc: Global) -> Kept
        ensures seen { result.seen ≡ None }
        ensures keys { result.keys.items ≡ [] }
        ensures labels { result.labels.items ≡ [] }
        ensures joins { result.joins ≡ [] }
        ensures seams { result.seams ≡ [] }
    {
        Kept {
            seen: None,
            keys: Vec::new(alloc),
            labels: Vec::new(alloc),
            joins: List::new(alloc),
            seams: List::new(alloc),
        }
    }
}
