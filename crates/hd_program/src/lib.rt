//! The work of the program over any session: what its words and its inputs come to, and how it ends.
#![tactic(auto)]

mod status;
mod texts;
mod work;

pub use status::{Status, exit_of};
pub use work::perform;
