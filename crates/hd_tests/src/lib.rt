//! Tests of the libraries through their public calls, and what they are made from.
#![tactic(auto)]

#[cfg(test)]
mod adapters;
#[cfg(test)]
mod audit;
#[cfg(test)]
mod base;
#[cfg(test)]
mod basin;
#[cfg(test)]
mod board;
#[cfg(test)]
mod by_key;
#[cfg(test)]
mod by_line;
#[cfg(test)]
mod check;
#[cfg(test)]
mod followed;
#[cfg(test)]
mod graph;
#[cfg(test)]
mod layouts;
#[cfg(test)]
mod map;
#[cfg(test)]
mod num;
#[cfg(test)]
mod pools;
#[cfg(test)]
mod prune;
#[cfg(test)]
mod sdf;
#[cfg(test)]
mod shared;
#[cfg(test)]
mod stats;
#[cfg(test)]
mod steep;
mod surfaces;
#[cfg(test)]
mod tiles;
#[cfg(test)]
mod told;

pub use surfaces::surface_of;
