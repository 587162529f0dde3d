//! Numbers, lines and words of a text, and the text of numbers.
//!
//! `Memory` comes from every call that was refused memory it asked for; the doc of a call says so only where
//! it says what else holds then.
#![tactic(auto)]

mod blanks;
mod decimal;
mod digits;
mod frac;
mod lines;
mod percent;
mod print;
mod span;
mod steps;
mod whole;
mod words;

pub use blanks::trim;
pub use decimal::{Decimal, is_decimal, read_decimal};
pub use digits::leading_digits;
pub use frac::{Frac, push_frac, reduced_fraction_is_determined, reduced_fraction_is_no_greater};
pub use lines::next_line;
pub use percent::{Percent, percent_less, push_percent, read_percent};
pub use print::{push_text, push_unsigned, push_whole};
pub use span::Span;
pub use steps::push_steps;
pub use whole::{Whole, is_negative, read_count, read_whole, unsigned_part};
pub use words::{first_word, split_words};
