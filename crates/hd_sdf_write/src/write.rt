// A whole file.
ghost use Rattle.std.specs.Prelude.{◌≡◌, IfOk};
ghost use Rattle.hd_sdf_read.specs.FileOf.{file_of};
ghost use Rattle.hd_sdf_write.specs.Canonical.{canonical};
ghost use Rattle.hd_sdf_write.specs.Texts.{file_with};

use crate::pieces::SdfPieces;
use crate::texts::SdfTexts;
use hd_list::{List, Memory};
use hd_map::{Grid, Surface};
use hd_sdf_read::SdfFile;
use std::alloc::Global;

/// The canonical text of a file: the version; the twelve known keys in their order and spelling, as
/// `Key = value`, or `Key =` where the value is empty; the extra keys in their order; `*`; a line
/// for each profile; `*`; and the trailer where there is one. An LF ends each line. Texts and
/// decimals of keys stand as they were read, whole numbers in plain digits. A height of type 3 or 7
/// is `-` where it is negative, the whole part of its value in plain digits, and, where the type has
/// decimal places, `.` and that many digits. Masks are not written.
pub fn write_sdf(alloc: Global, file: &SdfFile) -> Result<List<u8>, Memory>
    ensures { IfOk result (λ text. text ≡ canonical (file_of file.now)) }
{
    let texts = SdfTexts::of(file);
    match &file.surface {
        Surface::Narrow(grid) => whole_text(alloc, &texts, grid),
        Surface::Wide(grid) => whole_text(alloc, &texts, grid),
    }
}

// The same of texts and a grid.
fn whole_text<G: Grid>(alloc: Global, texts: &SdfTexts<'_>, grid: &G) -> Result<List<u8>, Memory>
    ensures { IfOk result (λ text. text ≡ canonical (file_with texts.now (G.map grid.now))) }
{
    let mut pieces = SdfPieces::new(alloc, texts, grid)?;
    let mut out = List::new(alloc);
    'pieces: while pieces.advance() {
        out.extend_from_slice(pieces.piece())?;
    }
    Ok(out)
}
