//! Feature parameters of the regions of a surface, after ISO 25178-2: the notation, the named
//! parameters, and the value of a notation.
//!
//! `Memory` comes from every call that was refused memory it asked for; the doc of a call says so only where
//! it says what else holds then.
#![tactic(auto)]

mod laws;
mod names;
mod needs;
mod notation;
mod parts;
mod reading;
mod region;
mod significance;
mod statistic;
mod value;

pub use laws::{heights_alone_serve, mean_height_is_small};
pub use names::{named, without_height};
pub use needs::heights_serve;
pub use notation::{Attribute, Kind, Notation, NotationError, Parameter, Significance, Statistic};
pub use reading::{read_notation, read_without_statistic};
pub use region::Region;
pub use statistic::{greatest, least};
pub use value::{attributes, evaluate};
