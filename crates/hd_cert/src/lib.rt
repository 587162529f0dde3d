//! The saddle certificate of two pits: the shortest path over their saddle, and the points reached from
//! the first below it, found by two floods, or by one where the regions of the points are known.
//!
//! `Memory` comes from every call that was refused memory it asked for; the doc of a call says so only where
//! it says what else holds then.
#![tactic(auto)]

mod laws;
mod listed_points;
mod making;
mod reached;
mod region_cut;
mod residue;
mod trace;

pub use laws::{shown_certificate_is_determined, shown_certificate_is_right};
pub use making::{certify, certify_by_regions};
