//! The least highest pass between two lows of a graph, over all walks, the change tree of those lows
//! that are pits, and the merges of lows as the water rises.
//!
//! `Memory` comes from every call that was refused memory it asked for; the doc of a call says so only where
//! it says what else holds then.
#![tactic(auto)]

mod classes;
mod flooding;
mod graph;
mod joined;
mod laws;
mod line;
mod links;
mod merges;
mod onward;
mod order;
mod parts;
mod pass_heights;
mod pits;
mod saddles;
mod trees;

pub use classes::Classes;
pub use flooding::flood;
pub use graph::{Graph, Low};
pub use joined::joined_lows;
pub use laws::{
    flood_line_tells_the_saddles, least_highest_pass_is_the_saddle, merges_rest_on_the_passes,
    merges_tell_the_saddles, passes_are_crossings, passes_of_basins_are_a_graph,
    regions_are_basins,
};
pub use line::{FloodLine, Stop};
pub use merges::{Merge, merges_by_links, merges_of};
pub use pits::{MergedPits, merges_of_pits};
pub use saddles::saddle_of_merges;
pub use trees::{ChangeTree, Join, tree, tree_of_merges};
