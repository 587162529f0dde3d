// What a line asks for, and its refusals.
ghost use Rattle.std.specs.Prelude.{◌≡◌};
ghost use Rattle.hd_script.specs.declared.command.LineError.TheVariants.{Memory as out_of_memory};

use hd_edit::Edit;
use hd_list::{List, Memory};
use hd_map::{Adjacency, Pos, SideName};
use hd_num::Percent;
use thiserror::Error;

/// What a line of a script asks for.
#[derive(Debug, Drop)]
pub enum Command {
    /// An edit of the map.
    Do(Edit),
    /// To go back over this many edits.
    Undo(u64),
    /// To define the element of a name: its width and height, and its entries row by row.
    Element {
        name: List<u8>,
        width: u32,
        height: u32,
        table: List<Option<i64>>,
    },
    /// The list of the elements.
    Elements,
    /// To set which points are neighbours.
    Neighbours(Adjacency),
    /// The size, the type, the heights and the scales.
    Info,
    /// The list of the dales.
    Dales,
    /// The list of the hills.
    Hills,
    /// The pit in whose region of a side a point lies.
    Label {
        side: SideName,
        at: Pos,
    },
    /// The certificate of the saddle of the pits of two points on a side.
    Saddle {
        side: SideName,
        a: Pos,
        b: Pos,
    },
    /// The change tree of a side.
    Tree {
        side: SideName,
    },
    /// The pruning of a side at a percent.
    Prune {
        side: SideName,
        percent: Percent,
    },
    /// The border lines that the pruning of a side at a percent leaves.
    Lines {
        side: SideName,
        percent: Percent,
    },
    /// The certificate of the pruning of a side at a percent.
    Audit {
        side: SideName,
        percent: Percent,
    },
    /// The fill volumes of the pits that the pruning of a side at a percent keeps.
    Fill {
        side: SideName,
        percent: Percent,
    },
    /// The parameter of a name, at a height where one is given.
    Param {
        name: List<u8>,
        height: Option<i64>,
    },
    /// The value of a feature notation.
    Feature {
        word: List<u8>,
    },
    /// The height parameter of a name, at a height where one is given.
    HeightValue {
        name: List<u8>,
        c: Option<i64>,
    },
    /// The distribution of the attribute values over so many bins, by the first five parts of a notation.
    Hist {
        bins: u32,
        word: List<u8>,
    },
    /// The share of the attribute values above a value, by the first five parts of a notation.
    Perc {
        above: i64,
        word: List<u8>,
    },
}

/// Why a line was refused. `LineTooLong` is tried first, and then the others in the order in which
/// they stand here; but of an `element` line of four words or more, the name, the width and the
/// height are tried before the number of words.
#[derive(Debug, PartialEq, Eq, Drop, Error)]
pub enum LineError {
    /// Want of memory; it may come in place of any other answer.
    #[error("out of memory")]
    Memory,
    /// The first word is no command.
    #[error("unknown command")]
    UnknownCommand,
    /// The line has not as many words as its command takes.
    #[error("wrong number of words")]
    WordCount,
    /// The number of the first word that has not its form; the command is word 1.
    #[error("word {0} has not its form")]
    BadWord(u32),
    /// The line has more than 4,096 bytes.
    #[error("line too long")]
    LineTooLong,
}

impl From<Memory> for LineError {
    ghost from_gives = { λ _ error. error ≡ out_of_memory };

    fn from(_: Memory) -> Self {
        LineError::Memory
    }
}
