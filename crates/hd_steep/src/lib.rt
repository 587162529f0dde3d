//! The steepest way from each point of a map to the pit whose region it lies in, on either side, and
//! the passes between these regions.
//!
//! `Memory` comes from every call that was refused memory it asked for; the doc of a call says so only where
//! it says what else holds then.
#![tactic(auto)]

mod below;
mod border;
mod chains;
mod crossing;
mod descending;
mod descent;
mod ends;
mod found;
mod laws;
mod leading;
mod links;
mod low;
mod lower_places;
mod lowest;
mod numbering;
mod pairs;
mod passing;
mod pit_list;
mod places;
mod points;
mod put;
mod rolling;
mod row;
mod steep;

pub use border::Border;
pub use crossing::{crossings, passes_of};
pub use laws::{
    next_is_determined, pit_is_its_own_root, regions_are_determined, root_is_determined,
};
pub use links::first_links;
pub use lowest::{is_missing, lower, missing_rank};
pub use numbering::{Regions, find_regions};
pub use pairs::borders_of;
pub use passing::passes;
pub use steep::{next, regions, root};
