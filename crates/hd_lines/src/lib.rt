//! Ridge and course lines of ISO 25178-2: the borders between the regions that a pruning leaves.
//!
//! `Memory` comes from every call that was refused memory it asked for; the doc of a call says so only where
//! it says what else holds then.
#![tactic(auto)]

mod laws;
mod line;
mod lines;
mod places;
mod saddles;

pub use laws::{
    border_lines_are_determined, nearest_saddles_are_passes, passes_are_not_below_saddles,
};
pub use line::BorderLine;
pub use lines::border_lines;
