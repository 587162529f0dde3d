//! A grid in square tiles. Each tile has a stamp that rises with every change in it or beside it, and
//! looks at the points are counted.
//!
//! `Memory` comes from every call that was refused memory it asked for; the doc of a call says so only where
//! it says what else holds then.
#![tactic(auto)]

mod change;
mod looked;
mod steps;
mod tiles;
mod tiling;
mod touch;

pub use looked::Looked;
pub use steps::Steps;
pub use tiles::Tiles;
pub use tiling::Tiling;
