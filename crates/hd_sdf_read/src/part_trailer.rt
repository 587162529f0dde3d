// A trailer whose end has not come yet.
ghost use Rattle.std.specs.Prelude.{◌≡◌, ◌<◌, ◌≤◌, [], true, false, length, slice_index};
ghost use Rattle.hd_sdf_read.specs.Tokens.{is_gap};

use crate::SdfError;
use crate::token::{drop_gaps, skip_gaps};
use hd_list::List;
use std::alloc::Global;

/// The most bytes of a trailer.
const MOST_BYTES: usize = 65_536;

/// What has come of a trailer without the blanks and LFs at its front: at most 65,536 bytes. Bytes
/// behind these are blanks and LFs, or the trailer is too long.
#[derive(Drop)]
pub struct PartTrailer {
    pub text: List<u8>,
    ghost few: { length text ≤ 65536 },
    ghost begins: { 0 < length text → is_gap (slice_index text 0) ≡ false },
}

impl PartTrailer {
    ghost use Rattle.std.specs.Prelude.{ℕ, ◌++◌, List as Items, Ok};
    ghost use Rattle.hd_sdf_read.specs.File.{is_trailer};
    ghost use Rattle.hd_sdf_read.specs.PartTrailers.{FeedsTrailer, IsExtended, trailer_in, trailer_on};

    /// Nothing yet.
    pub fn new(alloc: Global) -> PartTrailer
        ensures { result.text ≡ [] }
    {
        PartTrailer {
            text: List::new(alloc),
        }
    }

    /// What has come with the next piece.
    pub fn fed(self, piece: &[u8]) -> Result<PartTrailer, SdfError>
        ensures { FeedsTrailer self piece.now result }
    {
        let more = self.first_of(piece);
        let room = MOST_BYTES - self.text.as_slice().len();
        if more.len() <= room {
            return self.extended(more);
        }
        let (kept, over) = more.split_at(room);
        if !skip_gaps(over).is_empty() {
            return Err(SdfError::TrailerTooLong);
        }
        self.extended(kept)
    }

    /// The trailer that ends here.
    pub fn ended(self) -> List<u8>
        ensures text { trailer_on self [] ≡ Ok result }
        ensures form { is_trailer result ≡ true }
    {
        let PartTrailer { text, .. } = self;
        let end = drop_gaps(text.as_slice()).len();
        let mut bytes = text.into_vec();
        bytes.truncate(end);
        List::from_vec(bytes)
    }

    // The next piece, without the blanks and LFs at the front of the trailer.
    fn first_of<'a>(&self, piece: &'a [u8]) -> &'a [u8]
        ensures same { (more : Items ℕ) → trailer_in (self.now.text ++ (piece.now ++ more))
            ≡ trailer_in (self.now.text ++ (result.now ++ more)) }
        ensures begins { 0 < length (self.now.text ++ result.now)
            → is_gap (slice_index (self.now.text ++ result.now) 0) ≡ false }
    {
        if self.text.as_slice().is_empty() {
            return skip_gaps(piece);
        }
        piece
    }

    // The text with more bytes, where there is room.
    fn extended(self, more: &[u8]) -> Result<PartTrailer, SdfError>
        requires few { length (self.text ++ more.now) ≤ 65536 }
        requires begins { 0 < length (self.text ++ more.now)
            → is_gap (slice_index (self.text ++ more.now) 0) ≡ false }
        ensures { IsExtended self more.now result }
    {
        let PartTrailer { mut text, .. } = self;
        text.extend_from_slice(more)?;
        Ok(PartTrailer { text })
    }
}
