// The command lines that `clap` reads.
ghost use Rattle.std.specs.Prelude.{◌≡◌, false, IfErr, IfOk, codes, map, string_bytes};
ghost use Rattle.clap.specs.Words.{app_of, kind_of, rule_of};
ghost use Rattle.hd_words.specs.CommandLines.{HasForm, HasGiven, app_for, app_of_two, name_rule, option_rule, plain_app};

use clap::error::ErrorKind;
use clap::{Arg, ArgAction, ArgMatches, Command, Error};
use std::alloc::{AllocError, Global};

/// A command whose names and option values `clap` finds.
#[derive(Clone, Copy)]
pub enum CommandLine {
    /// `dales SURFACE`.
    Dales,
    /// `run SURFACE SCRIPT`.
    Run,
    /// `check SURFACE CERT`.
    Check,
}

/// What `clap` finds in words that have the form of a command. It fails for want of memory alone.
pub fn parse<'a>(
    alloc: Global,
    line: CommandLine,
    words: &'a [String],
) -> Result<ArgMatches<'a>, Error>
    requires { HasForm line (map string_bytes words.now) }
    ensures given { IfOk result (HasGiven line (map string_bytes words.now)) }
    ensures memory { IfErr result (λ error. kind_of error ≡ ErrorKind.OutOfMemory) }
{
    command_line(alloc, line)?.try_get_matches_from(words)
}

// The command line of a command.
fn command_line<'a>(alloc: Global, line: CommandLine) -> Result<Command<'a>, AllocError>
    ensures { IfOk result (λ command. app_of command ≡ app_for line) }
{
    match line {
        CommandLine::Dales => dales_line(alloc),
        CommandLine::Run => run_line(alloc),
        CommandLine::Check => check_line(alloc),
    }
}

// The command line of `dales`.
fn dales_line<'a>(alloc: Global) -> Result<Command<'a>, AllocError>
    ensures { IfOk result (λ command. app_of command ≡ app_for CommandLine.Dales) }
{
    plain_command(alloc, "dales").arg(name_arg(alloc, "SURFACE"))
}

// The command line of `run`.
fn run_line<'a>(alloc: Global) -> Result<Command<'a>, AllocError>
    ensures { IfOk result (λ command. app_of command ≡ app_for CommandLine.Run) }
{
    two_names_line(alloc, "run", "SURFACE", "SCRIPT")?
        .arg(option_arg(alloc, "tile"))?
        .arg(option_arg(alloc, "save"))
}

// The command line of `check`.
fn check_line<'a>(alloc: Global) -> Result<Command<'a>, AllocError>
    ensures { IfOk result (λ command. app_of command ≡ app_for CommandLine.Check) }
{
    two_names_line(alloc, "check", "SURFACE", "CERT")
}

// A command line that takes two names.
fn two_names_line<'a>(
    alloc: Global,
    name: &'a str,
    first: &'a str,
    second: &'a str,
) -> Result<Command<'a>, AllocError>
    ensures { IfOk result (λ command. app_of command
        ≡ app_of_two name.entry.now first.entry.now second.entry.now) }
{
    plain_command(alloc, name)
        .arg(name_arg(alloc, first))?
        .arg(name_arg(alloc, second))
}

// A command without the flags that `clap` adds.
fn plain_command<'a>(alloc: Global, name: &'a str) -> Command<'a>
    ensures { app_of result ≡ plain_app name.entry.now }
{
    Command::new(alloc, name)
        .disable_help_flag(true)
        .disable_version_flag(true)
}

// The argument of a name.
fn name_arg<'a>(alloc: Global, id: &'a str) -> Arg<'a>
    ensures rule { rule_of result ≡ name_rule id.entry.now }
    ensures own { result.global ≡ false }
{
    Arg::new(alloc, id).action(ArgAction::Set)
}

// The argument of an option with a value.
fn option_arg<'a>(alloc: Global, id: &'a str) -> Arg<'a>
    ensures rule { rule_of result ≡ option_rule id.entry.now }
    ensures own { result.global ≡ false }
{
    Arg::new(alloc, id).long(id).action(ArgAction::Set)
}
