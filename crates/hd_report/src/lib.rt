//! The texts that the lines of a script print: reports, and the causes of refusals.
//!
//! `Memory` comes from every call that was refused memory it asked for; the doc of a call says so only where
//! it says what else holds then.
#![tactic(auto)]

mod borders;
mod distributions;
mod edits;
mod elements;
mod forms;
mod heading;
mod info;
mod lines;
mod notations;
mod place;
mod points;
mod prunings;
mod regions;
mod trees;
mod values;
mod volumes;

pub use borders::list_borders;
pub use distributions::{tell_distribution, tell_share};
pub use edits::{edit_cause, kept_cause};
pub use elements::{element_cause, list_elements};
pub use forms::form_cause;
pub use info::{Scales, tell_info};
pub use lines::{ok_line, refused_line};
pub use notations::notation_cause;
pub use points::{not_present_cause, one_region_cause, outside_cause};
pub use prunings::list_pruning;
pub use regions::{list_regions, tell_label};
pub use trees::list_tree;
pub use values::{tell_feature, tell_height, tell_parameter};
pub use volumes::list_volumes;
