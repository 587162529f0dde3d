// A saddle certificate, why a text holds none, and what the checker says of one.
ghost use Rattle.std.specs.Prelude.{◌≡◌};
ghost use Rattle.hd_check.specs.declared.types.CertificateError.TheVariants.{Memory as out_of_memory};

use hd_list::{List, Memory};
use hd_map::{Adjacency, Pos, SideName};
use thiserror::Error;

/// What is said to show that a point is the saddle of two pits, or that no path joins them.
#[derive(Debug, Drop)]
pub struct Certificate {
    /// The side whose order is meant.
    pub side: SideName,
    /// The setting of the neighbours that is meant.
    pub adjacency: Adjacency,
    /// The first pit.
    pub from: Pos,
    /// The second pit.
    pub to: Pos,
    /// The position of the saddle and its height in steps, and none where no path joins the pits.
    pub saddle: Option<(Pos, i64)>,
    /// The points of a path from the first pit to the second, and none without a saddle.
    pub path: List<Pos>,
    /// The points that are reached from the first pit below the saddle, by index.
    pub cut: List<Pos>,
}

/// Why no certificate was read, of saddles or of prunings.
#[derive(Debug, PartialEq, Eq, Drop, Error)]
pub enum CertificateError {
    /// Want of memory. The text may be a certificate's or not.
    #[error("out of memory")]
    Memory,
    /// The line with this number, from 1, is the first that has not its form in its place. Where
    /// the text ends too early, it is one more than the number of lines.
    #[error("line {0} has not its form")]
    BadLine(u64),
}

impl From<Memory> for CertificateError {
    ghost from_gives = { λ _ error. error ≡ out_of_memory };

    fn from(_: Memory) -> Self {
        CertificateError::Memory
    }
}

/// What the checker says of a certificate.
#[derive(Clone, Copy, Debug, PartialEq, Eq)]
pub enum Verdict {
    /// All rules hold.
    Yes,
    /// A rule fails, and those before it hold.
    No {
        /// The number of the rule: from 1 on for a saddle certificate, from 12 on for a pruning certificate.
        rule: u8,
        /// The position where it fails.
        at: Pos,
    },
}
