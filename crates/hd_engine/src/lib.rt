//! A session on a surface: the answer to each line of a script.
//!
//! `Memory` comes from every call that was refused memory it asked for; the doc of a call says so only where
//! it says what else holds then.
#![tactic(auto)]

mod by_pool;
mod copies;
mod file_pieces;
mod labels;
mod parts;
mod reports;
mod saddles;
mod session;
mod surveyed;
mod texts;
mod values;
mod workpiece;

pub use hd_session::{Answer, FilePieces};
pub use session::Session;
