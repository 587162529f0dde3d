//! A measured surface on a grid of whole-number heights: its points, their neighbours and ranks,
//! and the definitions that everything above rests on (specs/).
//!
//! `Memory` comes from every call that was refused memory it asked for; the doc of a call says so only where
//! it says what else holds then.
#![tactic(auto)]

mod by_rows;
mod cells;
mod grid;
mod height_range;
mod lane;
mod laws;
mod mark;
mod narrow;
mod near;
mod packing;
mod presence;
mod pruning_law;
mod range;
mod side;
mod surface;
mod types;
mod under;
mod wide;
mod wide_cells;

pub use by_rows::presence_by_rows;
pub use cells::Cells;
pub use grid::{
    Grid, Heights, contains, height, index_of, is_present, position_after, position_of, rank_of,
};
pub use height_range::HeightRange;
pub use lane::Lane;
pub use laws::{
    change_tree_is_determined, saddle_exists_where_there_is_a_path, saddle_is_determined,
    saddle_is_not_above_the_higher_of_two, saddle_is_the_same_both_ways,
    saddle_of_two_pits_is_above_both,
};
pub use mark::Mark;
pub use narrow::{Narrow, is_narrow};
pub use near::{are_beside, beside_at, neighbours, neighbours_by};
pub use packing::over_least;
pub use presence::{Presence, presence_of};
pub use pruning_law::pruning_is_determined;
pub use range::{greatest_of, is_cell_of, least_of};
pub use side::{Down, Side, Up, higher_of};
pub use surface::Surface;
pub use types::{
    Adjacency, Cell, DataType, Link, MapError, Pass, Pos, Rank, RegionSize, SideName, Size,
};
pub use under::Under;
pub use wide::Wide;
pub use wide_cells::WideCells;
