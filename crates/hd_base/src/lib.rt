//! The traits through which the program reads and writes.
//!
//! A source or a sink counts its faults, so that a caller can tell which of them a call has met.
//! Those in memory tell each byte; those over readers and writers of the library tell what these do.
//!
//! `Memory` comes from every call that was refused memory it asked for; the doc of a call says so only where
//! it says what else holds then.
#![tactic(auto)]

mod access;
mod faults;
mod file_sink;
mod file_source;
mod mem_sink;
mod mem_source;
mod new_file;
mod outputs;
mod schedule;
mod set_owner;
mod sink;
mod source;
mod stdout_sink;

pub use file_sink::FileSink;
pub use file_source::FileSource;
pub use hd_list::{List, Memory};
pub use mem_sink::MemSink;
pub use mem_source::MemSource;
pub use set_owner::SetOwner;
pub use sink::{Sink, WriteFault, write_all};
pub use source::{Failed, ReadError, Source, read_all};
pub use stdout_sink::StdoutSink;
