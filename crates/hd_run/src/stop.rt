// Why a run or a check stops before its end.
ghost use Rattle.std.specs.Prelude.{◌≡◌, IfOk};
ghost use Rattle.hd_run.specs.Refusals.{refusal_text};

use crate::causes::surface_line;
use crate::certificates::{rule_line, unreadable_line};
use crate::texts::{SECOND_TOO_LONG, SURFACE_TOO_LONG};
use hd_list::{List, Memory};
use hd_map::Pos;
use hd_sdf_read::SdfError;
use std::alloc::Global;

/// Why a run or a check stops before its end.
#[derive(Clone, Copy, Debug, PartialEq, Eq)]
pub enum Stop {
    /// Want of memory.
    Memory,
    /// A source failed.
    ReadFault,
    /// A sink failed.
    WriteFault,
    /// An input is refused.
    Refused(Refusal),
}

/// Why an input is refused.
#[derive(Clone, Copy, Debug, PartialEq, Eq)]
pub enum Refusal {
    /// The surface file has more bytes than its limit.
    SurfaceTooLong,
    /// The surface's bytes are no file of the grammar.
    Surface(SdfError),
    /// The script or the certificate has more bytes than its limit.
    SecondTooLong,
    /// The certificate's line with this number, from 1, is the first that has not its form.
    Unreadable(u64),
    /// A rule of certificates fails, and those before it hold.
    RuleFails {
        /// The number of the rule, from 1 to 18.
        rule: u8,
        /// The position where it fails.
        at: Pos,
    },
}

impl Refusal {
    /// The line that tells it, or `Memory` where the line is refused its memory.
    #[tactic(auto, unfolding(crate::specs::Texts::too_long_text, crate::specs::Texts::second_too_long_text))]
    pub fn text(self, alloc: Global) -> Result<List<u8>, Memory>
        ensures { IfOk result (λ text. text ≡ refusal_text self) }
    {
        match self {
            Refusal::SurfaceTooLong => List::from_slice(alloc, SURFACE_TOO_LONG.as_bytes()),
            Refusal::Surface(error) => surface_line(alloc, error),
            Refusal::SecondTooLong => List::from_slice(alloc, SECOND_TOO_LONG.as_bytes()),
            Refusal::Unreadable(line) => unreadable_line(alloc, line),
            Refusal::RuleFails { rule, at } => rule_line(alloc, rule, at),
        }
    }
}
