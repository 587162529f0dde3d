// The command whose form the words have, judged without taking memory.
ghost use Rattle.std.specs.Prelude.{◌≡◌, [], ◌∷◌, map, is_some, string_bytes};
ghost use Rattle.std.specs.Option.{option_copied, option_map, option_to_list};
ghost use Rattle.hd_words.specs.Forms.{check_form, dales_form, demo_form, form_named, form_of, run_form, save_of, tile_of};
ghost use Rattle.hd_words.specs.Requests.{command_for};
ghost use Rattle.hd_words.specs.WordSteps.{found_so_far};

use crate::demo::Demo;
use crate::found::{FoundNames, FoundWords, found_in, is_option};
use crate::limits::{GREATEST_TILE, LEAST_TILE, USUAL_TILE};
use hd_num::read_count;

/// A command of the program, with the numbers that its words give.
#[derive(Clone, Copy, Debug)]
pub enum Command {
    /// `dales SURFACE`.
    Dales,
    /// `run SURFACE SCRIPT`.
    Run {
        /// The side of a tile, in points.
        tile: u32,
    },
    /// `check SURFACE CERT`.
    Check,
    /// `demo W H NUMBER EDITS`.
    Demo(Demo),
}

/// The command whose form the words have: `dales SURFACE`, or `run SURFACE SCRIPT`, which may have
/// `--tile SIDE` or `--tile=SIDE`, and `--save NAME` or `--save=NAME`, each at most once, or
/// `check SURFACE CERT`, or `demo W H NUMBER EDITS`, which may have `--tile` as `run` has. The word
/// `--` ends the options. None comes exactly where the words have none of these forms.
pub fn command_of(words: &[String]) -> Option<Command>
    ensures { result ≡ option_map command_for (form_of (map string_bytes words.now)) }
{
    let (name, rest) = words.split_first()?;
    let found = found_in(rest)?;
    command_named(name.as_str(), found)
}

// The command of a name, where what was found has its form.
fn command_named(name: &str, found: FoundWords<'_>) -> Option<Command>
    ensures { result ≡ option_map command_for (form_named name.now (found_so_far found.entry)) }
{
    if name == "dales" {
        dales_command(found)
    } else if name == "run" {
        run_command(found)
    } else if name == "check" {
        check_command(found)
    } else if name == "demo" {
        demo_command(found)
    } else {
        None
    }
}

// The command `dales`, where what was found has its form.
fn dales_command(found: FoundWords<'_>) -> Option<Command>
    ensures { result ≡ option_map command_for (dales_form (found_so_far found.entry)) }
{
    match (found.names, found.tile, found.save) {
        (FoundNames::One(surface), None, None) if !surface.is_empty() => Some(Command::Dales),
        _ => None,
    }
}

// The command `run`, where what was found has its form.
fn run_command(found: FoundWords<'_>) -> Option<Command>
    ensures { result ≡ option_map command_for (run_form (found_so_far found.entry)) }
{
    match found.names {
        FoundNames::Two(surface, script) => {
            if surface.is_empty() || script.is_empty() || !is_savable(found.save) {
                return None;
            }
            let tile = tile_side(found.tile)?;
            Some(Command::Run { tile })
        }
        _ => None,
    }
}

// The command `check`, where what was found has its form.
fn check_command(found: FoundWords<'_>) -> Option<Command>
    ensures { result ≡ option_map command_for (check_form (found_so_far found.entry)) }
{
    match (found.names, found.tile, found.save) {
        (FoundNames::Two(surface, certificate), None, None) => {
            if surface.is_empty() || certificate.is_empty() {
                return None;
            }
            Some(Command::Check)
        }
        _ => None,
    }
}

// The command `demo`, where what was found has its form.
fn demo_command(found: FoundWords<'_>) -> Option<Command>
    ensures { result ≡ option_map command_for (demo_form (found_so_far found.entry)) }
{
    match (found.names, found.save) {
        (FoundNames::Four(points, profiles, number, edits), None) => {
            let tile = tile_side(found.tile)?;
            let demo = Demo::read(
                points.as_bytes(),
                profiles.as_bytes(),
                number.as_bytes(),
                edits.as_bytes(),
                tile,
            )?;
            Some(Command::Demo(demo))
        }
        _ => None,
    }
}

// Whether a name to save under is not empty and begins with no `-`, where one is given.
fn is_savable(value: Option<&str>) -> bool
    ensures { result ≡ is_some (save_of (option_to_list (option_copied value.entry))) }
{
    match value {
        None => true,
        Some(name) => !is_option(name) && !name.is_empty(),
    }
}

// The side of a tile: the usual one where none is given, else a number of one to three digits from
// 8 to 256.
fn tile_side(value: Option<&str>) -> Option<u32>
    ensures { result ≡ tile_of (option_to_list (option_copied value.entry)) }
{
    match value {
        None => Some(USUAL_TILE),
        Some(digits) => given_side(digits.as_bytes()),
    }
}

// The side of a tile that is given.
fn given_side(digits: &[u8]) -> Option<u32>
    ensures { result ≡ tile_of (digits.now ∷ []) }
{
    if digits.len() > 3 {
        return None;
    }
    let side = read_count(digits)?;
    if (LEAST_TILE..=GREATEST_TILE).contains(&side) {
        Some(side)
    } else {
        None
    }
}
