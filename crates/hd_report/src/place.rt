// The text of a position.
ghost use Rattle.std.specs.Prelude.{◌≡◌, ◌<◌, ◌++◌, OnOk};
ghost use Rattle.hd_map.specs.Map.{cell_count};
ghost use Rattle.hd_report.specs.Place.{place_text, point_text, rank_text, side_text};

use hd_list::{List, Memory};
use hd_map::{Pos, Rank, SideName, Size, position_of};
use hd_num::{push_text, push_unsigned, push_whole};

/// Adds the column and the profile of a position, parted by a space.
pub fn push_place(text: &mut List<u8>, at: Pos) -> Result<(), Memory>
    ensures { OnOk result (text.new ≡ text.old ++ place_text at) }
{
    push_unsigned(text, u64::from(at.x))?;
    text.push(b' ')?;
    push_unsigned(text, u64::from(at.y))?;
    Ok(())
}

/// Adds the column and the profile of a point of a grid of this size, by its index.
pub fn push_point(text: &mut List<u8>, size: Size, point: Rank) -> Result<(), Memory>
    requires { point.index < cell_count size }
    ensures { OnOk result (text.new ≡ text.old ++ point_text size point) }
{
    push_place(text, position_of(size, point.index))
}

/// Adds the column, the profile and the height in steps of a point of a grid of this size.
pub fn push_rank(text: &mut List<u8>, size: Size, point: Rank) -> Result<(), Memory>
    requires { point.index < cell_count size }
    ensures { OnOk result (text.new ≡ text.old ++ rank_text size point) }
{
    push_point(text, size, point)?;
    text.push(b' ')?;
    push_whole(text, point.height)?;
    Ok(())
}

/// Adds `D` or `H`.
pub fn push_side(text: &mut List<u8>, side: SideName) -> Result<(), Memory>
    ensures { OnOk result (text.new ≡ text.old ++ side_text side) }
{
    match side {
        SideName::Dales => push_text(text, b"D".as_slice()),
        SideName::Hills => push_text(text, b"H".as_slice()),
    }
}
