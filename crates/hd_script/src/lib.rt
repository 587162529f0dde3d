//! The lines of a script: the command of a line, or why it has none.
//!
//! `Memory` comes from every call that was refused memory it asked for; the doc of a call says so only where
//! it says what else holds then.
#![tactic(auto)]

mod command;
mod command_table;
mod command_words;
mod element;
mod filters;
mod line;
mod parameters;
mod prunings;
mod words;

pub use command::{Command, LineError};
pub use line::read_line;
