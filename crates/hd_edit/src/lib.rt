//! Edits of a measured surface, on a board that keeps what they work on.
//!
//! `Memory` comes from every call that was refused memory it asked for; the doc of a call says so only where
//! it says what else holds then.
#![tactic(auto)]

mod add;
mod board;
mod change;
mod edit;
mod elements;
mod entry;
mod exchange;
mod filter;
mod height_bytes;
mod laws;
mod make;
mod notes;
mod paint;
mod profile;
mod stroke;

pub use board::Board;
pub use edit::{Edit, EditError, LogEnds};
pub use elements::ElementLine;
pub use laws::{
    edit_is_determined, edits_keep_maps, logs_keep_maps, undos_go_back, undos_keep_maps,
};
