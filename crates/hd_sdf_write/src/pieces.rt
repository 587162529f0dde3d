// A text piece by piece.
ghost use Rattle.std.specs.Prelude.{◌≡◌, [], IfOk};
ghost use Rattle.hd_sdf_write.specs.Canonical.{canonical};
ghost use Rattle.hd_sdf_write.specs.Pieces.{IsNext};
ghost use Rattle.hd_sdf_write.specs.Texts.{file_with};

use crate::texts::SdfTexts;
use crate::unwritten::Unwritten;
use hd_list::Memory;
use hd_map::Grid;
use std::alloc::Global;
use std::marker::Model;

// The most bytes of a piece.
const PIECE_BYTES: usize = 262_144;

/// The canonical text of a file, as [`write_sdf`](crate::write_sdf) makes it, piece by piece. Contracts see the
/// present piece, and what is left of the text behind it.
///
/// All memory is taken at first: some 256 KiB, and that of what stands before and behind the data.
#[derive(Drop)]
pub struct SdfPieces<'a, G: Grid> {
    unwritten: Unwritten<'a, G>,
    // The present piece stands at its end.
    room: Vec<u8>,
    start: usize,
}

impl<'a, G: Grid> Model for SdfPieces<'a, G> {
    ghost use Rattle.std.specs.Prelude.{◌≡◌, ◌≤◌, drop, length};
    ghost use Rattle.hd_sdf_write.specs.Pieces.{PiecesState, most_bytes};

    ghost Value = { PiecesState };

    ghost view = { λ p. record { piece = drop p.start p.room.items; left = p.unwritten } };

    ghost invariant = { λ p. (p.start ≤ most_bytes) × (length p.room.items ≡ most_bytes) };
}

impl<'a, G: Grid> SdfPieces<'a, G> {
    /// The whole text of the file of these texts and a grid.
    pub fn new(alloc: Global, texts: &SdfTexts<'_>, grid: &'a G) -> Result<Self, Memory>
        ensures { IfOk result (λ pieces. pieces ≡ record {
          piece = [];
          left = canonical (file_with texts.now (G.map grid.now));
        }) }
    {
        let unwritten = Unwritten::new(alloc, texts, grid)?;
        let room = vec![in alloc; 0u8; PIECE_BYTES]?;
        Ok(SdfPieces {
            unwritten,
            room,
            start: PIECE_BYTES,
        })
    }

    /// Goes on to the next piece, of at most 262,144 bytes, and tells whether there is one.
    pub fn advance(&mut self) -> bool
        ensures { IsNext self.old result self.new }
    {
        self.start = self.unwritten.write_next(&mut self.room);
        self.start < self.room.len()
    }

    /// The present piece: the one that was gone on to last, and nothing before the first.
    pub fn piece(&self) -> &[u8]
        ensures { result.now ≡ self.now.piece }
    {
        &self.room[self.start..]
    }
}
