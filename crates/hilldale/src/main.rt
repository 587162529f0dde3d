//! The program `hilldale`: measured surfaces, edited and reported on by scripts, their certificates
//! checked, and demos.
//!
//! What a run writes and saves is proved to be what its words and the bytes that its sources tell
//! come to, as far as no sink fails and memory is there.
#![tactic(auto)]

mod messages;

use hd_base::{FileSink, FileSource, StdoutSink};
use hd_list::Memory;
use hd_top::{Status, exit_of, top};
use messages::{LastFaults, tell_failure, tell_memory, tell_no_text};
use std::fs::File;
use std::io::ErrorKind;
use std::process::ExitCode;
use std::rt::{Env, Files};
use std::{env, io};

fn main(rt: HostRuntime) -> ExitCode {
    // A standard stream that is closed is taken by a folder, which can be neither read nor written.
    // Else the next file would stand for it.
    let _held = (folder(&rt), folder(&rt), folder(&rt));
    exit_of(status_of_run(&rt))
}

// An open folder.
fn folder<R: Files>(files: &R) -> Option<R::File> {
    File::open(files, "/").ok()
}

// Runs the program on the words, the files and the standard output of the system.
fn status_of_run(rt: &HostRuntime) -> Status {
    let Ok(words) = given_words(rt) else {
        tell_memory(rt);
        return Status::Memory;
    };
    let Ok(mut out) = StdoutSink::new(rt.alloc(), io::writer(rt)) else {
        tell_memory(rt);
        return Status::Memory;
    };
    let mut surface = FileSource::new(rt.alloc(), rt);
    let mut script = FileSource::new(rt.alloc(), rt);
    let mut saved = FileSink::new(rt.alloc(), rt);
    let status = top(
        rt.alloc(),
        words.as_slice(),
        &mut surface,
        &mut script,
        &mut out,
        &mut saved,
    );
    let faults = LastFaults {
        surface: surface.last_fault(),
        script: script.last_fault(),
        out: out.last_fault(),
        saved: saved.last_fault(),
    };
    tell_failure(rt, status, &faults);
    status
}

// The words after the program's name; none where some of them are no text.
fn given_words(rt: &(impl Env + Eprint + AllocGlobal)) -> Result<Vec<String>, Memory> {
    match env::args(rt) {
        Ok(given) => Ok(given.skip(1).collect(rt.alloc())?),
        Err(error) if error.kind() == ErrorKind::OutOfMemory => Err(Memory),
        Err(_) => {
            tell_no_text(rt);
            Ok(Vec::new(rt.alloc()))
        }
    }
}
