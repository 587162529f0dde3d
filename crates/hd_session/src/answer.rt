// The answer to a line.
ghost use Rattle.std.specs.Prelude.{◌≡◌, IfOk};
ghost use Rattle.hd_report.specs.Lines.{ok_line};
ghost use Rattle.hd_report.specs.Points.{not_present_text, outside_text};
ghost use Rattle.hd_session.specs.Reply.{accepted_with, refused_for, reply_of};

use hd_list::{List, Memory};
use hd_map::Pos;
use hd_report::{not_present_cause, ok_line, outside_cause, refused_line};
use std::alloc::Global;

/// The answer to a line of a script.
#[derive(Debug, Drop)]
pub struct Answer {
    /// Whether the line was accepted. A line that is skipped is.
    pub accepted: bool,
    /// What is printed for the line: whole lines, each with its LF, or nothing.
    pub text: List<u8>,
}

impl Answer {
    /// The answer that accepts a line with this text.
    pub fn with_text(text: List<u8>) -> Answer
        ensures { reply_of result ≡ accepted_with text }
    {
        Answer {
            accepted: true,
            text,
        }
    }

    /// The answer `line N ok`.
    pub fn ok(alloc: Global, number: u64) -> Result<Answer, Memory>
        ensures { IfOk result (λ answer. reply_of answer ≡ accepted_with (ok_line number)) }
    {
        let text = ok_line(alloc, number)?;
        Ok(Answer::with_text(text))
    }

    /// The answer `line N refused: CAUSE`.
    pub fn refused(alloc: Global, number: u64, cause: &[u8]) -> Result<Answer, Memory>
        ensures { IfOk result (λ answer. reply_of answer ≡ refused_for number cause.now) }
    {
        let text = refused_line(alloc, number, cause)?;
        Ok(Answer {
            accepted: false,
            text,
        })
    }

    /// The answer that refuses a position outside the map.
    pub fn outside(alloc: Global, number: u64, at: Pos) -> Result<Answer, Memory>
        ensures { IfOk result (λ answer. reply_of answer ≡ refused_for number (outside_text at)) }
    {
        let cause = outside_cause(alloc, at)?;
        Answer::refused(alloc, number, cause.as_slice())
    }

    /// The answer that refuses a position that is not present.
    pub fn not_present(alloc: Global, number: u64, at: Pos) -> Result<Answer, Memory>
        ensures { IfOk result (λ answer. reply_of answer ≡ refused_for number (not_present_text at)) }
    {
        let cause = not_present_cause(alloc, at)?;
        Answer::refused(alloc, number, cause.as_slice())
    }
}
