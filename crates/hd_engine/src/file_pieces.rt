// The file of a session, piece by piece.
ghost use Rattle.std.specs.Prelude.{◌≡◌, [], IfOk};
ghost use Rattle.hd_session.specs.State.{saved_file};
ghost use Rattle.hd_sdf_write.specs.Canonical.{canonical};

use crate::surveyed::Surveyed;
use hd_list::Memory;
use hd_map::Grid;
use hd_sdf_write::{SdfPieces, masks_are_not_written};

/// The pieces of the file of a surface.
pub(crate) fn pieces_of<G: Grid>(surveyed: &Surveyed<G>) -> Result<SdfPieces<'_, G>, Memory>
    ensures { IfOk result (λ pieces. pieces ≡ record
        { piece = []; left = canonical (saved_file surveyed.now.state) }) }
{
    masks_are_not_written();
    let texts = surveyed.texts().borrowed();
    SdfPieces::new(surveyed.alloc(), &texts, surveyed.grid())
}
