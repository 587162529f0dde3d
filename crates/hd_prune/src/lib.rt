//! Wolf pruning of the pits of a surface, after ISO 25178-2.
//!
//! `Memory` comes from every call that was refused memory it asked for; the doc of a call says so only where
//! it says what else holds then.
#![tactic(auto)]

mod around;
mod keeping;
mod laws;
mod leaving;
mod order;
mod pruning;
mod span;
mod step;
mod taking;

pub use around::Around;
pub use keeping::keep;
pub use laws::{pruning_exists, pruning_is_nested, pruning_keeps_what_is_not_undercut};
pub use pruning::{Pruned, prune, prune_by_merges};
pub use span::height_span;
pub use step::{Kept, Owned, Step};
