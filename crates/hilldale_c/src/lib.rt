//! hilldale for C and what calls it: the work of `hilldale run` and of `hilldale check` on bytes in memory.
//!
//! The calls keep nothing from one to the next, and open no file. `lab/native/hilldale.h` is their page for callers.
#![tactic(auto)]

ghost use Rattle.std.specs.Prelude.{◌≡◌};
ghost use Rattle.hilldale_c.specs.Call.{Gives, GivesBoth, check_words, room, run_words, save_words};

mod answer;
mod bytes_sink;
mod bytes_source;
mod hand_out;
mod words;

use answer::{check, run, run_and_save};
use hand_out::{hand_out, hand_out_both};
use std::alloc::Global;

/// Answers the lines of a script on a surface file, in tiles of a side of 8 to 256 points.
///
/// The code is that of `hilldale run SURFACE SCRIPT --tile N`, and the text what this prints: `needed` is how many bytes it
/// has, and its first bytes go to the front of `out`, as far as there is room. The code is 2 where the tile has another
/// side, 3 where the surface is refused, 8 where the script is too long, 1 where some line is refused, and else 0. For want
/// of memory it is 7, and nothing is handed out.
#[unsafe(no_mangle)]
pub extern "C" fn hilldale_run(
    alloc: Global,
    surface: &[u8],
    script: &[u8],
    tile: u32,
    out: &mut [u8],
    needed: &mut u64,
) -> u8
    ensures { Gives (run_words tile) surface.now script.now result (room out.old out.new needed.new) }
{
    hand_out(run(alloc, surface, script, tile), out, needed)
}

/// Answers the lines of a script on a surface file, and gives the surface file that they leave.
///
/// The code is that of `hilldale run SURFACE SCRIPT --tile N --save OUT`, the text what this prints, and `saved` gets what
/// this saves; each is handed out as by `hilldale_run`. Where nothing is saved `saved_needed` is 0.
#[unsafe(no_mangle)]
pub extern "C" fn hilldale_run_and_save(
    alloc: Global,
    surface: &[u8],
    script: &[u8],
    tile: u32,
    out: &mut [u8],
    needed: &mut u64,
    saved: &mut [u8],
    saved_needed: &mut u64,
) -> u8
    ensures { GivesBoth (save_words tile) surface.now script.now result (room out.old out.new needed.new)
        (room saved.old saved.new saved_needed.new) }
{
    let answer = run_and_save(alloc, surface, script, tile);
    hand_out_both(answer, out, needed, saved, saved_needed)
}

/// Checks a certificate of a surface file.
///
/// The code is that of `hilldale check SURFACE CERT`, and the text what this prints, handed out as by `hilldale_run`. The
/// code is 3 where the surface is refused, 8 where the certificate is too long, 4 where it is refused, and else 0. For want
/// of memory it is 7, and nothing is handed out.
#[unsafe(no_mangle)]
pub extern "C" fn hilldale_check(
    alloc: Global,
    surface: &[u8],
    certificate: &[u8],
    out: &mut [u8],
    needed: &mut u64,
) -> u8
    ensures { Gives check_words surface.now certificate.now result (room out.old out.new needed.new) }
{
    hand_out(check(alloc, surface, certificate), out, needed)
}
