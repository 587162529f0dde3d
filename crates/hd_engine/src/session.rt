// A session on one surface.
ghost use Rattle.std.specs.Prelude.{◌≡◌, ◌≤◌, ◌<◌, ◌+◌, [], IfOk, OnErr};
ghost use Rattle.hd_sdf_read.specs.FileOf.{file_of};
ghost use Rattle.hd_session.specs.Answers.{IsAnswer};
ghost use Rattle.hd_session.specs.Reply.{reply_of};
ghost use Rattle.hd_session.specs.State.{first_state, saved_file};
ghost use Rattle.hd_sdf_write.specs.Canonical.{canonical};

use crate::file_pieces::pieces_of;
use crate::parts::{joined, parted};
use crate::surveyed::Surveyed;
use hd_list::Memory;
use hd_map::{Narrow, Surface, Wide};
use hd_sdf_read::SdfFile;
use hd_session::{Answer, FilePieces, SurfaceSession};
use std::alloc::Global;
use std::marker::Model;

/// A surface that a script works on, line by line. Contracts see it as its state and the number
/// of the lines that it was asked.
#[derive(Drop)]
pub struct Session {
    layout: Layout,
    asked: u64,
}

/// The surface in its layout, which is chosen once.
#[derive(Drop)]
enum Layout {
    Narrow(Surveyed<Narrow>),
    Wide(Surveyed<Wide>),
}

impl Model for Session {
    ghost use Rattle.std.specs.Prelude.{◌≤◌, ◌*◌, ◌^◌};
    ghost use Rattle.hd_engine.specs.Layout.{changes_in, state_in};
    ghost use Rattle.hd_session.specs.State.{SessionState};

    ghost Value = { SessionState };

    ghost view = { λ s. record { state = state_in s.layout; asked = s.asked } };

    ghost invariant = { λ s. changes_in s.layout ≤ s.asked * 2 ^ 27 };
}

impl Session {
    /// A session on the surface of a file, in tiles of this side, from 8 to 256 points, with no line asked.
    /// The side has no effect on any answer.
    pub fn new(alloc: Global, file: SdfFile, tile: u32) -> Result<Session, Memory>
        requires least { 8 ≤ tile }
        requires greatest { tile ≤ 256 }
        ensures { IfOk result (λ s. (s.state ≡ first_state (file_of file)) × (s.asked ≡ 0)) }
    {
        let (texts, surface) = parted(file);
        let layout = match surface {
            Surface::Narrow(grid) => Layout::Narrow(Surveyed::new(alloc, texts, grid, tile)?),
            Surface::Wide(grid) => Layout::Wide(Surveyed::new(alloc, texts, grid, tile)?),
        };
        Ok(Session { layout, asked: 0 })
    }

    /// The file with the texts as they were read and all cells of the present map: masked points
    /// keep their heights, and no mask is kept.
    pub fn file(&self) -> Result<SdfFile, Memory>
        ensures { IfOk result (λ file. file_of file ≡ saved_file self.now.state) }
    {
        match &self.layout {
            Layout::Narrow(surveyed) => {
                let alloc = surveyed.alloc();
                let surface = surveyed.grid().without_masks(alloc)?;
                joined(alloc, surveyed.texts(), Surface::Narrow(surface))
            }
            Layout::Wide(surveyed) => {
                let alloc = surveyed.alloc();
                let surface = surveyed.grid().without_masks(alloc)?;
                joined(alloc, surveyed.texts(), Surface::Wide(surface))
            }
        }
    }

    /// The canonical text of that file, piece by piece, without a copy of the surface. All memory is taken here:
    /// `Memory` comes where it is refused.
    pub fn file_pieces(&self) -> Result<FilePieces<'_>, Memory>
        ensures { IfOk result (λ pieces. pieces ≡ record {
          piece = [];
          left = canonical (saved_file self.now.state);
        }) }
    {
        match &self.layout {
            Layout::Narrow(surveyed) => {
                let pieces = pieces_of(surveyed)?;
                Ok(FilePieces::narrow(pieces))
            }
            Layout::Wide(surveyed) => {
                let pieces = pieces_of(surveyed)?;
                Ok(FilePieces::wide(pieces))
            }
        }
    }

    /// The answer to a line without its LF, which counts as asked whatever comes of it. The number
    /// is the one that the line has in its answer. At most 16,777,216 lines may be asked.
    ///
    /// `Memory` comes where the line, the edit or the answer is refused its memory; the surface, the
    /// earlier maps, the elements and the setting of the neighbours are then as before.
    pub fn answer(&mut self, number: u64, line: &[u8]) -> Result<Answer, Memory>
        requires { self.old.asked < 16777216 }
        ensures ok { IfOk result (λ a. IsAnswer self.old.state number line.now (reply_of a) self.new.state) }
        ensures memory { OnErr result (self.new.state ≡ self.old.state) }
        ensures asked { self.new.asked ≡ self.old.asked + 1 }
    {
        self.asked += 1;
        match &mut self.layout {
            Layout::Narrow(surveyed) => surveyed.answer(number, line),
            Layout::Wide(surveyed) => surveyed.answer(number, line),
        }
    }
}

impl SurfaceSession for Session {
    ghost state = { λ s. s.state };

    ghost asked = { λ s. s.asked };

    fn on_file(alloc: Global, file: SdfFile, tile: u32) -> Result<Session, Memory> {
        let session = Session::new(alloc, file, tile)?;
        Ok(session)
    }

    fn answer_line(&mut self, number: u64, line: &[u8]) -> Result<Answer, Memory> {
        self.answer(number, line)
    }

    fn pieces(&self) -> Result<FilePieces<'_>, Memory> {
        self.file_pieces()
    }
}
