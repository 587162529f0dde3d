//! What a session on a surface is: the state that the lines of a script work on, what each line is answered, that a
//! script determines its answers, and the calls of a session.
//!
//! `Memory` comes from every call that was refused memory it asked for; the doc of a call says so only where
//! it says what else holds then.
#![tactic(auto)]

mod answer;
mod file_pieces;
mod laws;
mod session;

pub use answer::Answer;
pub use file_pieces::FilePieces;
pub use laws::{
    answer_is_determined, answer_keeps_a_state, answers_are_determined,
    printed_certificate_is_right, printed_pruning_certificate_is_right,
};
pub use session::SurfaceSession;
