// A window on a tile and what is beside it, seen as a map of which nothing else is measured.
ghost use Rattle.std.specs.Prelude.{◌≡◌, ◌<◌, ◌≤◌, ◌+◌, ◌*◌, IfOk, OnOk, true, Some, slice_get};
ghost use Rattle.hd_map.specs.declared.types.Pos.{Pos};
ghost use Rattle.hd_map.specs.Map.{InGrid, place_of};
ghost use Rattle.hd_basin.specs.Frames.{AreFilled, InFrame, FitsGrid, IsPartOf, IsWindow, ShowsFrame};

use crate::frame::{Frame, is_in_frame};
use crate::inset::Inset;
use hd_list::Memory;
use hd_map::{Adjacency, Heights, Pos, Size};
use hd_tiles::{Looked, Steps};
use std::alloc::Global;
use std::sync::ledger::Ledger;

/// The heights of a part of a grid.
#[derive(Debug, Drop)]
pub struct Window {
    size: Size,
    adjacency: Adjacency,
    frame: Frame,
    heights: Vec<Option<i64>>,
    ghost whole: { IsWindow size frame heights.items },
}

impl Heights for Window {
    ghost use Rattle.hd_basin.specs.WindowMap.{map_of_window};
    ghost use Rattle.hd_basin.specs.WindowLaws.{framed_map-whole};

    ghost map = { map_of_window };

    ghost whole = { λ w. framed_map-whole w.size w.adjacency w.frame w.heights.items w.whole };

    fn size(&self) -> Size {
        self.size
    }

    fn adjacency(&self) -> Adjacency {
        self.adjacency
    }

    fn height(&self, at: Pos) -> Option<i64> {
        if is_in_frame(self.frame, at) {
            let frame = self.frame;
            self.heights[((at.y - frame.top) * frame.columns + (at.x - frame.left)) as usize]
        } else {
            None
        }
    }
}

impl Window {
    ghost use Rattle.hd_basin.specs.WindowMap.{map_of_inset, map_of_window};

    /// Looks once at each position of a part of the grid.
    pub fn look<T: Looked, L: Ledger>(
        alloc: Global,
        tiles: &T,
        frame: Frame,
        looks: &mut Steps<L>,
    ) -> Result<Window, Memory>
        requires fits { FitsGrid (T.map tiles.now).size frame }
        requires allowed { (p : Pos) → InFrame frame p
            → slice_get (T.leave tiles.now) (place_of (T.map tiles.now).size p) ≡ Some true }
        ensures shows { IfOk result (λ w. ShowsFrame (T.map tiles.now) frame (map_of_window w)) }
        ensures framed { IfOk result (λ w. w.frame ≡ frame) }
        ensures counted { looks.new ≤ looks.old + frame.columns * frame.rows }
    {
        let mut heights = Vec::with_capacity(alloc, (frame.columns * frame.rows) as usize)?;
        for row in 0..frame.rows {
            look_along(tiles, frame, row, &mut heights, looks)?;
        }
        Ok(Window {
            size: tiles.size(),
            adjacency: tiles.adjacency(),
            frame,
            heights,
        })
    }

    /// The heights as a map of their own, which has no other position.
    pub fn inset(&self) -> Inset<'_>
        requires columns { 1 ≤ self.now.frame.columns }
        requires rows { 1 ≤ self.now.frame.rows }
        ensures { IsPartOf (map_of_window self.now) self.now.frame (map_of_inset result) }
    {
        Inset {
            size: Size {
                points: self.frame.columns,
                profiles: self.frame.rows,
            },
            adjacency: self.adjacency,
            heights: self.heights.as_slice(),
        }
    }
}

// Looks once at each position of a row of a part of the grid.
fn look_along<T: Looked, L: Ledger>(
    tiles: &T,
    frame: Frame,
    row: u32,
    heights: &mut Vec<Option<i64>>,
    looks: &mut Steps<L>,
) -> Result<(), Memory>
    requires fits { FitsGrid (T.map tiles.now).size frame }
    requires allowed { (p : Pos) → InFrame frame p
        → slice_get (T.leave tiles.now) (place_of (T.map tiles.now).size p) ≡ Some true }
    requires row { row < frame.rows }
    requires before { AreFilled (T.map tiles.now) frame (row * frame.columns) heights.old.items }
    ensures filled { OnOk result (AreFilled (T.map tiles.now) frame
        ((row + 1) * frame.columns) heights.new.items) }
    ensures counted { looks.new ≤ looks.old + frame.columns }
{
    for column in 0..frame.columns {
        let at = Pos {
            x: frame.left + column,
            y: frame.top + row,
        };
        let height = tiles.look(at, looks);
        heights.push(height)?;
    }
    Ok(())
}
