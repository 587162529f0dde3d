//! Reads surfaces in the ASCII form of ISO 25178-71 (SDF).
#![tactic(auto)]

mod body;
mod datum;
mod decimal_data;
mod decimals;
mod digits;
mod entries;
mod error;
mod file;
mod header;
mod heading;
mod joining;
mod keys;
mod part_body;
mod part_line;
mod part_token;
mod part_trailer;
mod reader;
mod required_keys;
mod scaled;
mod sdf;
mod short_words;
mod state;
mod token;
mod whole_data;

pub use error::SdfError;
pub use file::{Extra, SdfFile, Version};
pub use reader::SdfReader;
pub use sdf::read_sdf;
