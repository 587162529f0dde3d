// What the words ask for, by the names and the values of options that `clap` finds in them.
ghost use Rattle.std.specs.Prelude.{◌≡◌, IfOk, IsSome, Some, map, string_bytes};
ghost use Rattle.std.specs.Option.{option_map};
ghost use Rattle.clap.specs.Matches.{first_value, found_of};
ghost use Rattle.hd_words.specs.CommandLines.{Asks, HasForm, HasGiven};
ghost use Rattle.hd_words.specs.Forms.{form_of};
ghost use Rattle.hd_words.specs.Requests.{Check, IsWithinLimits, Request, Run, check_request_of, command_for, request_of, run_request_of};

use crate::command::Command;
use crate::command_lines::{CommandLine, parse};
use crate::demo::Demo;
use crate::limits::USUAL_TILE;
use clap::ArgMatches;
use hd_list::Memory;
use std::alloc::Global;

/// What the words ask for.
#[derive(Clone, Copy, Debug)]
pub enum Job<'a> {
    /// Answers to lines.
    Run(RunJob<'a>),
    /// The check of a certificate.
    Check(CheckJob<'a>),
    /// A demo.
    Demo(Demo),
}

/// A surface, the script to run or none, the side of a tile, and the name to save under or none.
#[derive(Clone, Copy, Debug)]
pub struct RunJob<'a> {
    /// The name of the surface.
    pub surface: &'a str,
    /// The name of the script, where one is to run.
    pub script: Option<&'a str>,
    /// The side of a tile, in points.
    pub tile: u32,
    /// The name under which the file is saved, where it is.
    pub save: Option<&'a str>,
}

/// A surface, and a certificate of it.
#[derive(Clone, Copy, Debug)]
pub struct CheckJob<'a> {
    /// The name of the surface.
    pub surface: &'a str,
    /// The name of the certificate.
    pub certificate: &'a str,
}

/// What words ask for, by their command. It fails for want of memory alone.
pub fn job_of<'a>(alloc: Global, command: Command, words: &'a [String]) -> Result<Job<'a>, Memory>
    requires { option_map command_for (form_of (map string_bytes words.now)) ≡ Some command }
    ensures form { IfOk result (λ job. form_of (map string_bytes words.now) ≡ Some (request_of job)) }
    ensures limits { IfOk result (λ job. IsWithinLimits (request_of job)) }
{
    match command {
        Command::Dales => {
            let matches = matches_of(alloc, CommandLine::Dales, words)?;
            Ok(Job::Run(dales_job(&matches)))
        }
        Command::Run { tile } => {
            let matches = matches_of(alloc, CommandLine::Run, words)?;
            Ok(Job::Run(run_job(&matches, tile)))
        }
        Command::Check => {
            let matches = matches_of(alloc, CommandLine::Check, words)?;
            Ok(Job::Check(check_job(&matches)))
        }
        Command::Demo(demo) => Ok(Job::Demo(demo)),
    }
}

// What `clap` finds in words that have the form of a command.
fn matches_of<'a>(
    alloc: Global,
    line: CommandLine,
    words: &'a [String],
) -> Result<ArgMatches<'a>, Memory>
    requires { HasForm line (map string_bytes words.now) }
    ensures { IfOk result (HasGiven line (map string_bytes words.now)) }
{
    match parse(alloc, line, words) {
        Ok(matches) => Ok(matches),
        Err(_) => Err(Memory),
    }
}

// What `dales` asks for.
fn dales_job<'a>(matches: &ArgMatches<'a>) -> RunJob<'a>
    requires { (request : Request) × Asks CommandLine.Dales matches.now request }
    ensures { (request : Request) → Asks CommandLine.Dales matches.now request
        → Run (run_request_of result) ≡ request }
{
    RunJob {
        surface: name_in(matches, "SURFACE"),
        script: None,
        tile: USUAL_TILE,
        save: None,
    }
}

// What `run` asks for, with tiles of this side.
fn run_job<'a>(matches: &ArgMatches<'a>, tile: u32) -> RunJob<'a>
    requires { (request : Request) × Asks CommandLine.Run matches.now request }
    ensures { (request : Request) → Asks CommandLine.Run matches.now request
        → command_for request ≡ Command.Run tile → Run (run_request_of result) ≡ request }
{
    RunJob {
        surface: name_in(matches, "SURFACE"),
        script: Some(name_in(matches, "SCRIPT")),
        tile,
        save: matches.get_str("save"),
    }
}

// What `check` asks for.
fn check_job<'a>(matches: &ArgMatches<'a>) -> CheckJob<'a>
    requires { (request : Request) × Asks CommandLine.Check matches.now request }
    ensures { (request : Request) → Asks CommandLine.Check matches.now request
        → Check (check_request_of result) ≡ request }
{
    CheckJob {
        surface: name_in(matches, "SURFACE"),
        certificate: name_in(matches, "CERT"),
    }
}

// The name under an id.
fn name_in<'a>(matches: &ArgMatches<'a>, id: &str) -> &'a str
    requires { IsSome (first_value (found_of matches.now) id.now) }
    ensures { first_value (found_of matches.now) id.now ≡ Some result.now }
{
    matches.get_str(id).unwrap()
}
