// What the program does with its inputs in memory.
ghost use Rattle.std.specs.Prelude.{◌≡◌, map, string_bytes, IfOk};
ghost use Rattle.hilldale_c.specs.Call as spec;

use crate::bytes_sink::BytesSink;
use crate::bytes_source::BytesSource;
use crate::words::{check_words, run_words, save_words};
use hd_list::Memory;
use hd_top::{Status, top};
use std::alloc::Global;

/// A status, the text that is printed, and the one that is saved.
#[derive(Drop)]
pub(crate) struct Answer {
    pub(crate) status: Status,
    pub(crate) out: Vec<u8>,
    pub(crate) saved: Vec<u8>,
}

/// Runs a script on a surface file.
pub(crate) fn run(alloc: Global, surface: &[u8], script: &[u8], tile: u32) -> Result<Answer, Memory>
    ensures { IfOk result (λ a.
        spec.IsOutcomeAs (spec.run_words tile) surface.now script.now a.status a.out.items a.saved.items) }
{
    let words = run_words(alloc, tile)?;
    performed(alloc, words.as_slice(), surface, script)
}

/// Runs a script on a surface file, and saves the edited one.
pub(crate) fn run_and_save(
    alloc: Global,
    surface: &[u8],
    script: &[u8],
    tile: u32,
) -> Result<Answer, Memory>
    ensures { IfOk result (λ a.
        spec.IsOutcomeAs (spec.save_words tile) surface.now script.now a.status a.out.items a.saved.items) }
{
    let words = save_words(alloc, tile)?;
    performed(alloc, words.as_slice(), surface, script)
}

/// Checks a certificate of a surface file.
pub(crate) fn check(alloc: Global, surface: &[u8], certificate: &[u8]) -> Result<Answer, Memory>
    ensures { IfOk result (λ a.
        spec.IsOutcomeAs spec.check_words surface.now certificate.now a.status a.out.items a.saved.items) }
{
    let words = check_words(alloc)?;
    performed(alloc, words.as_slice(), surface, certificate)
}

// Runs the program by its words on a surface and a second input.
fn performed(
    alloc: Global,
    words: &[String],
    surface: &[u8],
    second: &[u8],
) -> Result<Answer, Memory>
    ensures { IfOk result (λ a. spec.IsOutcomeAs (map string_bytes words.now) surface.now second.now
        a.status a.out.items a.saved.items) }
{
    let mut surface = BytesSource::new(surface);
    let mut second = BytesSource::new(second);
    let mut out = BytesSink::new(alloc);
    let mut saved = BytesSink::new(alloc);
    let status = top(
        alloc,
        words,
        &mut surface,
        &mut second,
        &mut out,
        &mut saved,
    );
    // A source never fails, and a sink for want of memory alone.
    if is_stopped(status) {
        return Err(Memory);
    }
    Ok(Answer {
        status,
        out: out.bytes,
        saved: saved.bytes,
    })
}

// Whether a run stopped before its outcome was written.
fn is_stopped(status: Status) -> bool
    ensures { result ≡ spec.is_stopped status }
{
    matches!(
        status,
        Status::ReadFault | Status::WriteFault | Status::Memory
    )
}
