//! Pruning certificates: the kept pits of a pruning, shown by all points in the order in which a flood
//! from these pits reaches them. They can be made, written, read, at once or in pieces, and checked on any
//! map, where a right one names exactly the pits that the pruning keeps.
//!
//! `Memory` comes from every call that was refused memory it asked for; the doc of a call says so only where
//! it says what else holds then.
#![tactic(auto)]

mod chains;
mod checking;
mod cuts;
mod front;
mod height_keys;
mod laws;
mod limit;
mod line_list;
mod listing;
mod making;
mod order;
mod parents;
mod part;
mod place_table;
mod places;
mod plain;
mod reader;
mod reading;
mod stage;
mod standing;
mod types;
mod waiting;
mod words;
mod writing;

pub use checking::check_audit;
pub use laws::{
    pruning_verdict_is_determined, right_pruning_certificate_names_the_kept_pits,
    shown_pruning_certificate_is_determined, shown_pruning_certificate_is_right,
    written_pruning_certificate_reads_back,
};
pub use line_list::AuditLines;
pub use making::make_audit;
pub use reader::AuditReader;
pub use reading::read_audit;
pub use types::{Audit, AuditLine};
pub use writing::{text_of_audit, write_audit};
