//! What a start reaches within a level, by one flood that marks each point that it reaches.
//!
//! `Memory` comes from every call that was refused memory it asked for; the doc of a call says so only where
//! it says what else holds then.
#![tactic(auto)]

mod bound;
mod breadth;
mod mark;

pub use bound::{Bound, lies_within};
pub use breadth::flood;
pub use mark::FloodMark;
