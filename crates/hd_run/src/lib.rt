//! Runs of scripts on a surface, and checks of certificates against one: reading both inputs,
//! answering and writing, saving, and the refusal of an input.
#![tactic(auto)]

mod answers;
mod causes;
mod certificate_reader;
mod certificates;
mod check;
mod inputs;
mod limits;
mod running;
mod save;
mod stop;
mod texts;

pub use check::check_certificate;
pub use running::run;
pub use stop::{Refusal, Stop};
