// A text that comes in pieces.
ghost use Rattle.std.specs.Prelude.{◌≤◌, ◌<◌, ◌+◌, ◌^◌};
ghost use Rattle.hd_sdf_read.specs.States.{number_of};

use crate::part_line::PartLine;
use crate::state::{State, ended, feed};
use crate::{SdfError, SdfFile};
use hd_list::Memory;
use std::alloc::Global;
use std::mem::replace;

/// Reads a text in the ASCII form of ISO 25178-71 (SDF) that comes in pieces, cut anywhere.
///
/// A reader stands for the bytes that it was fed, and keeps of them only what the rest may depend
/// on: the line or the datum that is not whole yet, what the header says, the cells, and at most
/// 65,536 bytes of the trailer.
#[derive(Drop)]
pub struct SdfReader {
    fed: u64,
    state: State,
    ghost counted: { number_of state ≤ fed + 1 },
    ghost few: { fed < 2 ^ 63 },
}

impl SdfReader {
    ghost use Rattle.std.specs.Prelude.{◌≡◌, [], ℕ, List as Items, length, None, IfOk};
    ghost use Rattle.hd_sdf_read.specs.FileOf.{file_of};
    ghost use Rattle.hd_sdf_read.specs.Grammar.{file_in};
    ghost use Rattle.hd_sdf_read.specs.Reader.{CountsFed, StandsFor, TakesPiece, fed_of, is_refusal, refusal_of};
    ghost use Rattle.hd_sdf_read.specs.States.{StaysRefused};
    ghost use Rattle.hd_sdf_read.specs.Reads.{Gives};

    /// A reader before the first piece.
    pub fn new(alloc: Global) -> Result<SdfReader, Memory>
        ensures stands { IfOk result (λ reader. StandsFor reader []) }
        ensures fed { IfOk result (λ reader. fed_of reader ≡ 0) }
        ensures accepted { IfOk result (λ reader. refusal_of reader ≡ None) }
    {
        Ok(SdfReader {
            fed: 0,
            state: State::Version(PartLine::new(alloc)),
        })
    }

    /// Reads on in the next piece.
    ///
    /// # Errors
    ///
    /// The first offence, once no continuation can mend it, with its line, datum or key. `Memory` may
    /// come in place of any other answer. After an error each later call answers the same one.
    pub fn feed(&mut self, alloc: Global, piece: &[u8]) -> Result<(), SdfError>
        requires { fed_of self.old + length piece.now < 2 ^ 63 }
        ensures text { (bytes : Items ℕ) → StandsFor self.old bytes
            → TakesPiece self.new bytes piece.now result }
        ensures refusal { refusal_of self.new ≡ is_refusal result }
        ensures again { StaysRefused (refusal_of self.old) result }
        ensures fed { CountsFed self.old self.new (length piece.now) result }
    {
        let state = replace(&mut self.state, State::Refused(SdfError::Memory));
        match feed(alloc, state, piece) {
            Ok(state) => {
                drop(replace(&mut self.state, state));
                self.fed += piece.len() as u64;
                Ok(())
            }
            Err(refusal) => {
                drop(replace(&mut self.state, State::Refused(refusal)));
                Err(refusal)
            }
        }
    }

    /// The file of all pieces joined.
    ///
    /// # Errors
    ///
    /// As [`read_sdf`](crate::read_sdf) answers them on all pieces joined, or the one that a piece
    /// was refused with.
    pub fn finish(self, alloc: Global) -> Result<SdfFile, SdfError>
        ensures text { (bytes : Items ℕ) → StandsFor self bytes → Gives file_of result (file_in bytes) }
        ensures again { StaysRefused (refusal_of self) result }
    {
        let SdfReader { state, .. } = self;
        ended(alloc, state)
    }
}
