// The file of a session, piece by piece.
ghost use Rattle.std.specs.Prelude.{◌≡◌};
ghost use Rattle.hd_sdf_write.specs.Pieces.{IsNext};

use hd_map::{Narrow, Wide};
use hd_sdf_write::SdfPieces;
use std::marker::Model;

/// The canonical text of the file of a session, piece by piece, over the surface of the session itself.
/// Contracts see the present piece, and what is left of the text behind it.
#[derive(Drop)]
pub struct FilePieces<'a> {
    pieces: Pieces<'a>,
}

// The same in the layout of the surface.
#[derive(Drop)]
enum Pieces<'a> {
    Narrow(SdfPieces<'a, Narrow>),
    Wide(SdfPieces<'a, Wide>),
}

impl<'a> Model for FilePieces<'a> {
    ghost use Rattle.hd_session.specs.FilePieces.{pieces_in};
    ghost use Rattle.hd_sdf_write.specs.Pieces.{PiecesState};

    ghost Value = { PiecesState };

    ghost view = { λ p. pieces_in p.pieces };
}

impl<'a> FilePieces<'a> {
    /// Those of a surface in four bytes a height.
    pub fn narrow(pieces: SdfPieces<'a, Narrow>) -> FilePieces<'a>
        ensures { result ≡ pieces.entry }
    {
        FilePieces {
            pieces: Pieces::Narrow(pieces),
        }
    }

    /// Those of a surface in eight bytes a height.
    pub fn wide(pieces: SdfPieces<'a, Wide>) -> FilePieces<'a>
        ensures { result ≡ pieces.entry }
    {
        FilePieces {
            pieces: Pieces::Wide(pieces),
        }
    }

    /// Goes on to the next piece, of at most 262,144 bytes, and tells whether there is one.
    pub fn advance(&mut self) -> bool
        ensures { IsNext self.old result self.new }
    {
        match &mut self.pieces {
            Pieces::Narrow(pieces) => pieces.advance(),
            Pieces::Wide(pieces) => pieces.advance(),
        }
    }

    /// The present piece: the one that was gone on to last, and nothing before the first.
    pub fn piece(&self) -> &[u8]
        ensures { result.now ≡ self.now.piece }
    {
        match &self.pieces {
            Pieces::Narrow(pieces) => pieces.piece(),
            Pieces::Wide(pieces) => pieces.piece(),
        }
    }
}
