// The calls of a session on a surface.
ghost use Rattle.std.specs.Prelude.{◌≡◌, ◌≤◌, ◌<◌, ◌+◌, [], ℕ, IfOk, OnErr};
ghost use Rattle.hd_sdf_read.specs.FileOf.{file_of};
ghost use Rattle.hd_sdf_write.specs.Canonical.{canonical};
ghost use Rattle.hd_session.specs.Answers.{IsAnswer};
ghost use Rattle.hd_session.specs.Reply.{reply_of};
ghost use Rattle.hd_session.specs.State.{State, first_state, saved_file};

use crate::{Answer, FilePieces};
use hd_list::Memory;
use hd_sdf_read::SdfFile;
use std::alloc::Global;

/// A session on a surface: a script works on it line by line.
pub trait SurfaceSession: Drop + Sized {
    /// The state that the lines asked so far have left.
    ghost state: { Self → State };

    /// How many lines it was asked.
    ghost asked: { Self → ℕ };

    /// A session on the surface of a file, in tiles of this side, from 8 to 256 points, with no line asked.
    /// The side has no effect on any answer.
    fn on_file(alloc: Global, file: SdfFile, tile: u32) -> Result<Self, Memory>
        requires least { 8 ≤ tile }
        requires greatest { tile ≤ 256 }
        ensures state { IfOk result (λ s. state s ≡ first_state (file_of file)) }
        ensures asked { IfOk result (λ s. asked s ≡ 0) };

    /// The answer to a line without its LF, which counts as asked whatever comes of it. The number
    /// is the one that the line has in its answer. At most 16,777,216 lines may be asked.
    ///
    /// `Memory` comes where the line, the edit or the answer is refused its memory; the surface, the
    /// earlier maps, the elements and the setting of the neighbours are then as before.
    fn answer_line(&mut self, number: u64, line: &[u8]) -> Result<Answer, Memory>
        requires { asked self.old < 16777216 }
        ensures ok { IfOk result (λ a. IsAnswer (state self.old) number line.now (reply_of a)
            (state self.new)) }
        ensures memory { OnErr result (state self.new ≡ state self.old) }
        ensures asked { asked self.new ≡ asked self.old + 1 };

    /// The canonical text of the file that the lines have left, piece by piece, without a copy of the surface. All
    /// memory is taken here: `Memory` comes where it is refused.
    fn pieces(&self) -> Result<FilePieces<'_>, Memory>
        ensures { IfOk result (λ pieces. pieces ≡ record {
          piece = [];
          left = canonical (saved_file (state self.now));
        }) };
}
