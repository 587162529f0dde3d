//! Further values of a surface, after ISO 25178-2: height parameters, how the attributes of its features
//! are distributed, and what fills its pruned regions.
//!
//! `Memory` comes from every call that was refused memory it asked for; the doc of a call says so only where
//! it says what else holds then.
#![tactic(auto)]

mod distribution;
mod gather;
mod heights;
mod laws;
mod name;
mod sums;
mod volumes;

pub use distribution::{hist, perc};
pub use heights::{height_value, height_value_by};
pub use laws::{
    counts_add_up, filled_points_are_apart, filled_points_are_owned, further_values_are_determined,
    heights_alone_serve_distributions,
};
pub use name::{HeightName, height_name};
pub use sums::{Sums, sums_of};
pub use volumes::fill;
