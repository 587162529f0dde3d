//! A side of a grid, seen by its pool of local basins: what reports ask of it is read off the basins, and no point
//! of the grid is looked at. Of a grid in tiles the pool is kept from one report to the next, where that pays.
//!
//! `Memory` comes from every call that was refused memory it asked for; the doc of a call says so only where
//! it says what else holds then.
#![tactic(auto)]

mod by_index;
mod outlay;
mod pool_view;
mod side_pool;
mod told;

pub use pool_view::PoolView;
pub use side_pool::SidePool;
