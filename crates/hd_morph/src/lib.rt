//! Dilation, erosion, opening and closing of a measured surface by an element, with the laws that
//! their definitions keep.
//!
//! Heights are worked on as plain numbers by index, of 32 bits where they fit and else of 64, so that
//! each pass is over whole rows without a test for missing points. Measured, the time that an element
//! with one and the same number everywhere takes hardly grows with its size.
//!
//! `Memory` comes from every call that was refused memory it asked for; the doc of a call says so only where
//! it says what else holds then.
#![tactic(auto)]

mod cells;
mod element;
mod errors;
mod filter;
mod flat;
mod heights;
mod laws;
mod new_heights;
mod offsets;
mod plain;
mod raise;
mod rectangle;
mod round;
mod window;

pub use cells::{close, dilate, erode, open};
pub use element::Element;
pub use errors::{ElementError, MorphError};
pub use filter::Filter;
pub use heights::{
    closed_heights, dilated_heights, eroded_heights, filtered_lists, heights_of, opened_heights,
};
pub use laws::{
    accepted_cells_make_a_map, dilation_and_erosion_are_adjoint, filter_is_determined,
    filtered_again_is_the_same,
};
pub use new_heights::{Lists, NewHeights, Numbers, OldAndNew};
pub use rectangle::raised_lists;
