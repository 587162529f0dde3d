//! The regions of a map and those that a pruning leaves, as reports tell them: what their lists are, the border lines
//! between them, what feature parameters take of them and the values of these, and that a map determines them all.
#![tactic(auto)]

mod laws;
mod tally;

pub use laws::{
    features_are_determined, kept_pits_are_determined, pruned_lines_are_determined,
    pruned_regions_are_determined, region_sizes_are_determined, values_are_determined,
};
pub use tally::Tally;
