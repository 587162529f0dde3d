//! Saddle certificates: their text, the eleven rules that make one right, and a checker of them that
//! takes no memory. On any map a right certificate names the saddle of its two pits.
//!
//! `Memory` comes from every call that was refused memory it asked for; the doc of a call says so only where
//! it says what else holds then.
#![tactic(auto)]

mod checking;
mod closed;
mod cut;
mod laws;
mod lines;
mod order;
mod path;
mod points;
mod reading;
mod types;
mod words;
mod writing;

pub use checking::check;
pub use laws::{
    right_certificate_tells_the_saddle, verdict_is_determined, written_certificate_reads_back,
};
pub use lines::part;
pub use order::{is_below, is_lower};
pub use path::{are_neighbours, is_pit, is_point};
pub use reading::read_certificate;
pub use types::{Certificate, CertificateError, Verdict};
pub use words::{adjacency_of, count_words, end_words, side_of};
pub use writing::{push_count, write_certificate};
