// The reports on a pruning, whose words are a side and a percent.
ghost use Rattle.std.specs.Prelude.{◌≡◌, All, IfOk, map};
ghost use Rattle.hd_num.specs.Span.{IsPart, text_at};
ghost use Rattle.hd_script.specs.Prunings.{command_of};
ghost use Rattle.hd_script.specs.CommandWords.{pruning_words};
ghost use Rattle.hd_script.specs.Whole.{IsWhole};

use crate::words::{percent_word, side_word, text};
use crate::{Command, LineError};
use hd_map::SideName;
use hd_num::{Percent, Span};

/// What is told of a pruning.
#[derive(Clone, Copy)]
pub enum PruningReport {
    /// The steps and the kept regions.
    Steps,
    /// The border lines.
    Borders,
    /// The certificate.
    Certificate,
    /// The fill volumes of the kept pits.
    Volumes,
}

// The command of a report on the pruning of a side at a percent.
fn command_of(report: PruningReport, side: SideName, percent: Percent) -> Command
    ensures value { result ≡ command_of report side percent }
    ensures whole { IsWhole result }
{
    match report {
        PruningReport::Steps => Command::Prune { side, percent },
        PruningReport::Borders => Command::Lines { side, percent },
        PruningReport::Certificate => Command::Audit { side, percent },
        PruningReport::Volumes => Command::Fill { side, percent },
    }
}

/// `prune S P`, `lines S P`, `audit S P` or `fill S P`.
pub fn pruning_words(
    line: &[u8],
    words: &[Span],
    report: PruningReport,
) -> Result<Command, LineError>
    requires { All (IsPart line.now) words.now }
    ensures value { result ≡ pruning_words (command_of report) (map (text_at line.now) words.now) }
    ensures whole { IfOk result IsWhole }
{
    let [side, percent] = words else {
        return Err(LineError::WordCount);
    };
    let side = side_word(2, text(line, *side))?;
    let percent = percent_word(3, text(line, *percent))?;
    Ok(command_of(report, side, percent))
}
