//! Writes surfaces in the ASCII form of ISO 25178-71 (SDF), in one canonical text.
//!
//! `Memory` comes from every call that was refused memory it asked for; the doc of a call says so only where
//! it says what else holds then.
#![tactic(auto)]

mod cells;
mod entry_lines;
mod header;
mod laws;
mod pieces;
mod rest;
mod steps;
mod texts;
mod unwritten;
mod write;

pub use laws::{canonical_text_reads_back, canonical_text_stays, masks_are_not_written};
pub use pieces::SdfPieces;
pub use texts::SdfTexts;
pub use write::write_sdf;
