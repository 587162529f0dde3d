//! Demos: a surface and edits that are made of a number, and what is told of them.
//!
//! `Memory` comes from every call that was refused memory it asked for; the doc of a call says so only where
//! it says what else holds then.
#![tactic(auto)]

mod demo;
mod generator;
mod summary;

pub use demo::demo_text;
