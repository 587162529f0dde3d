//! A pool of the local basins of a map in tiles, which follows the changes of the map tile by tile.
//!
//! `Memory` comes from every call that was refused memory it asked for; the doc of a call says so only where
//! it says what else holds then.
#![tactic(auto)]

mod adding;
mod basins;
mod between;
mod edge;
mod ends;
mod extent;
mod extents;
mod flows;
mod frame;
mod gather;
mod graph;
mod inset;
mod inside;
mod joined;
mod kept;
mod laws;
mod links;
mod lowest;
mod made;
mod meetings;
mod node;
mod noded;
mod part;
mod place;
mod placed;
mod roots;
mod round;
mod seams;
mod shown;
mod sinks;
mod spot;
mod stock;
mod window;

pub use basins::Basins;
pub use extent::Extent;
pub use laws::{graph_of_basins_tells_the_saddles, pool_stays_in_step};
pub use node::{Node, NodeKey};
pub use roots::Roots;
