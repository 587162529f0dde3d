// What is told on the standard error where a run fails. No status hangs on whether it can be written.
use hd_top::Status;
use std::io;

/// Of each source and sink of a run the error of its last fault, and of the files their names.
#[derive(Drop)]
pub(crate) struct LastFaults<'a> {
    pub(crate) surface: Option<(io::Error, Option<&'a str>)>,
    pub(crate) script: Option<(io::Error, Option<&'a str>)>,
    pub(crate) out: Option<io::Error>,
    pub(crate) saved: Option<(io::Error, Option<&'a str>)>,
}

/// Tells what failed, where the status is a fault or want of memory: one line.
pub(crate) fn tell_failure(rt: &impl Eprint, status: Status, faults: &LastFaults) {
    match status {
        Status::Memory => tell_memory(rt),
        Status::ReadFault => tell_file(rt, "read", faults.surface.or(faults.script)),
        Status::WriteFault => match faults.out {
            Some(error) => {
                eprintln!(rt; "hilldale: cannot write the standard output: {error}").ok();
            }
            None => tell_file(rt, "write", faults.saved),
        },
        _ => {}
    }
}

/// Tells that memory was refused.
pub(crate) fn tell_memory(rt: &impl Eprint) {
    eprintln!(rt; "hilldale: not enough memory").ok();
}

/// Tells that some word is no text.
pub(crate) fn tell_no_text(rt: &impl Eprint) {
    eprintln!(rt; "hilldale: a word is not UTF-8").ok();
}

// Tells which file failed, and the word of the system for it.
fn tell_file(rt: &impl Eprint, what: &str, fault: Option<(io::Error, Option<&str>)>) {
    let Some((error, name)) = fault else {
        return;
    };
    let name = name.unwrap_or("a file");
    eprintln!(rt; "hilldale: cannot {what} {name:?}: {error}").ok();
}
