// The heights of a window as a map of their own.
ghost use Rattle.hd_basin.specs.Frames.{IsWindow, whole_frame};

use hd_map::{Adjacency, Heights, Pos, Size, index_of};

/// The heights of a part of a grid as a map of their own, which has no other position. They are borrowed,
/// and each is found by its place alone.
#[derive(Drop)]
pub struct Inset<'a> {
    /// How many points and profiles the part has.
    pub size: Size,
    /// Which of them are neighbours.
    pub adjacency: Adjacency,
    /// Their heights.
    pub heights: &'a [Option<i64>],
    ghost whole: { IsWindow size (whole_frame size) heights.now },
}

impl<'a> Heights for Inset<'a> {
    ghost use Rattle.hd_basin.specs.WindowMap.{map_of_inset};
    ghost use Rattle.hd_basin.specs.WindowLaws.{framed_map-whole};
    ghost use Rattle.hd_basin.specs.Frames.{whole_frame};

    ghost map = { map_of_inset };

    ghost whole = { λ i. framed_map-whole i.size i.adjacency (whole_frame i.size) i.heights.now i.whole };

    #[inline]
    fn size(&self) -> Size {
        self.size
    }

    #[inline]
    fn adjacency(&self) -> Adjacency {
        self.adjacency
    }

    #[inline]
    fn height(&self, at: Pos) -> Option<i64> {
        self.heights[index_of(self.size, at) as usize]
    }
}
