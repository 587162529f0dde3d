// The command of a name and the words after it, by the table of the commands.
ghost use Rattle.std.specs.Prelude.{◌≡◌, ◌⊎◌, ◌<◌, ◌^◌, Err, All, IfOk, length, map};
ghost use Rattle.hd_num.specs.Span.{IsPart, text_at};
ghost use Rattle.hd_script.specs.CommandTable.{commands, later_commands, pruning_commands, read_by, report_commands, value_commands};
ghost use Rattle.hd_script.specs.Whole.{IsWhole};

use crate::command_words::{
    add_words, bad_words, label_words, mask_words, neighbours_words, no_words, saddle_words,
    set_words, tree_words, undo_words,
};
use crate::element::element_words;
use crate::filters::{FilterWord, filter_words};
use crate::parameters::{feature_words, height_words, hist_words, param_words, perc_words};
use crate::prunings::{PruningReport, pruning_words};
use crate::{Command, LineError};
use hd_num::Span;
use std::alloc::Global;

/// The command that the words after a name make.
#[tactic(auto, unfolding(crate::specs::CommandTable::commands))]
pub fn read_command(
    alloc: Global,
    name: &[u8],
    line: &[u8],
    words: &[Span],
) -> Result<Command, LineError>
    requires parts { All (IsPart line.now) words.now }
    requires few { length words.now < 2 ^ 16 }
    ensures value { (result ≡ Err LineError.Memory)
        ⊎ (result ≡ read_by commands name.now (map (text_at line.now) words.now)) }
    ensures whole { IfOk result IsWhole }
{
    if name == b"set".as_slice() {
        set_words(line, words)
    } else if name == b"bad".as_slice() {
        bad_words(line, words)
    } else if name == b"add".as_slice() {
        add_words(line, words)
    } else if name == b"mask".as_slice() {
        mask_words(line, words, true)
    } else if name == b"unmask".as_slice() {
        mask_words(line, words, false)
    } else {
        read_later_command(alloc, name, line, words)
    }
}

// The command that the words make after the name of a later command.
#[tactic(auto, unfolding(crate::specs::CommandTable::later_commands))]
fn read_later_command(
    alloc: Global,
    name: &[u8],
    line: &[u8],
    words: &[Span],
) -> Result<Command, LineError>
    requires parts { All (IsPart line.now) words.now }
    requires few { length words.now < 2 ^ 16 }
    ensures value { (result ≡ Err LineError.Memory)
        ⊎ (result ≡ read_by later_commands name.now (map (text_at line.now) words.now)) }
    ensures whole { IfOk result IsWhole }
{
    if name == b"dilate".as_slice() {
        filter_words(alloc, line, words, FilterWord::Dilate)
    } else if name == b"erode".as_slice() {
        filter_words(alloc, line, words, FilterWord::Erode)
    } else if name == b"open".as_slice() {
        filter_words(alloc, line, words, FilterWord::Open)
    } else if name == b"close".as_slice() {
        filter_words(alloc, line, words, FilterWord::Close)
    } else if name == b"undo".as_slice() {
        undo_words(line, words)
    } else if name == b"element".as_slice() {
        element_words(alloc, line, words)
    } else if name == b"elements".as_slice() {
        no_words(line, words, Command::Elements)
    } else if name == b"neighbours".as_slice() {
        neighbours_words(line, words)
    } else {
        read_report_command(alloc, name, line, words)
    }
}

// The command that the words make after the name of a report on a map.
#[tactic(auto, unfolding(crate::specs::CommandTable::report_commands))]
fn read_report_command(
    alloc: Global,
    name: &[u8],
    line: &[u8],
    words: &[Span],
) -> Result<Command, LineError>
    requires parts { All (IsPart line.now) words.now }
    ensures value { (result ≡ Err LineError.Memory)
        ⊎ (result ≡ read_by report_commands name.now (map (text_at line.now) words.now)) }
    ensures whole { IfOk result IsWhole }
{
    if name == b"info".as_slice() {
        no_words(line, words, Command::Info)
    } else if name == b"dales".as_slice() {
        no_words(line, words, Command::Dales)
    } else if name == b"hills".as_slice() {
        no_words(line, words, Command::Hills)
    } else if name == b"label".as_slice() {
        label_words(line, words)
    } else if name == b"saddle".as_slice() {
        saddle_words(line, words)
    } else if name == b"tree".as_slice() {
        tree_words(line, words)
    } else {
        read_pruning_command(alloc, name, line, words)
    }
}

// The command that the words make after the name of a report on a pruning.
#[tactic(auto, unfolding(crate::specs::CommandTable::pruning_commands))]
fn read_pruning_command(
    alloc: Global,
    name: &[u8],
    line: &[u8],
    words: &[Span],
) -> Result<Command, LineError>
    requires parts { All (IsPart line.now) words.now }
    ensures value { (result ≡ Err LineError.Memory)
        ⊎ (result ≡ read_by pruning_commands name.now (map (text_at line.now) words.now)) }
    ensures whole { IfOk result IsWhole }
{
    if name == b"prune".as_slice() {
        pruning_words(line, words, PruningReport::Steps)
    } else if name == b"lines".as_slice() {
        pruning_words(line, words, PruningReport::Borders)
    } else if name == b"audit".as_slice() {
        pruning_words(line, words, PruningReport::Certificate)
    } else if name == b"fill".as_slice() {
        pruning_words(line, words, PruningReport::Volumes)
    } else {
        read_value_command(alloc, name, line, words)
    }
}

// The command that the words make after the name of a value.
#[tactic(auto, unfolding(crate::specs::CommandTable::value_commands))]
fn read_value_command(
    alloc: Global,
    name: &[u8],
    line: &[u8],
    words: &[Span],
) -> Result<Command, LineError>
    requires parts { All (IsPart line.now) words.now }
    ensures value { (result ≡ Err LineError.Memory)
        ⊎ (result ≡ read_by value_commands name.now (map (text_at line.now) words.now)) }
    ensures whole { IfOk result IsWhole }
{
    if name == b"param".as_slice() {
        param_words(alloc, line, words)
    } else if name == b"feature".as_slice() {
        feature_words(alloc, line, words)
    } else if name == b"height".as_slice() {
        height_words(alloc, line, words)
    } else if name == b"hist".as_slice() {
        hist_words(alloc, line, words)
    } else if name == b"perc".as_slice() {
        perc_words(alloc, line, words)
    } else {
        Err(LineError::UnknownCommand)
    }
}
