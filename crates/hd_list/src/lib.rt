//! Lists, numbers in the order of their keys, and the want of memory.
//!
//! `Memory` comes from every call that was refused memory it asked for; the doc of a call says so only where
//! it says what else holds then.
#![tactic(auto)]

mod by_key;
mod list;

pub use by_key::{Keys, numbers_by_key};
pub use list::{List, Memory};
