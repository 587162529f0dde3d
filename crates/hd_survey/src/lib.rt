//! What reports are made of: the regions of a map on a side with their points, its pits with their merges
//! and their change tree, the pruning of the pits, and the values of parameters.
//!
//! `Memory` comes from every call that was refused memory it asked for; the doc of a call says so only where
//! it says what else holds then.
#![tactic(auto)]

mod edges;
mod falls;
mod features;
mod findings;
mod grid_view;
mod kept;
mod lines;
mod local_heights;
mod merges;
mod owned;
mod pits;
mod pruned;
mod roots;
mod saddles;
mod sizes;
mod survey;
mod tallies;
mod tally;
mod tree;
mod values;
mod view;
mod way;

pub use falls::Falls;
pub use features::KeptFeatures;
pub use findings::Findings;
pub use grid_view::GridView;
pub use kept::KeptPits;
pub use lines::pruned_lines;
pub use merges::{PitMerges, merges_of_crossings};
pub use pits::lows_of;
pub use pruned::PrunedRegions;
pub use saddles::{reached_pits, saddle_between};
pub use survey::Survey;
pub use tree::change_tree;
pub use values::{notation_regions, notation_value, parameter_value};
pub use view::SideView;
