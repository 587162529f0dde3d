// The numbers of a demo.
ghost use Rattle.std.specs.Prelude.{◌≡◌};
ghost use Rattle.hd_words.specs.Demo.{demo_of, is_size};

use crate::limits::{LONGEST_SIDE, MOST_CELLS, MOST_EDITS};
use hd_map::Size;
use hd_num::read_count;

/// What a demo is made of: a surface of drawn heights, and edits of drawn points.
#[derive(Clone, Copy, Debug)]
pub struct Demo {
    /// The size of the surface.
    pub size: Size,
    /// The number to draw from.
    pub number: u32,
    /// How many edits there are.
    pub edits: u32,
    /// The side of a tile, in points.
    pub tile: u32,
}

impl Demo {
    // The demo that four words ask for: the points of a profile, the profiles, the number to draw
    // from, and the number of edits. None comes exactly where one of them is no count, a size is
    // not from 1 to 65,535, there are more than 4,194,304 cells, or more than 100,000 edits.
    pub(crate) fn read(
        points: &[u8],
        profiles: &[u8],
        number: &[u8],
        edits: &[u8],
        tile: u32,
    ) -> Option<Demo>
        ensures { result ≡ demo_of points.now profiles.now number.now edits.now tile }
    {
        let size = Size {
            points: read_count(points)?,
            profiles: read_count(profiles)?,
        };
        let number = read_count(number)?;
        let edits = read_count(edits)?;
        if is_size(size) && edits <= MOST_EDITS {
            Some(Demo {
                size,
                number,
                edits,
                tile,
            })
        } else {
            None
        }
    }
}

// Whether a size is within its limits.
fn is_size(size: Size) -> bool
    ensures { result ≡ is_size size }
{
    (1..=LONGEST_SIDE).contains(&size.points)
        && (1..=LONGEST_SIDE).contains(&size.profiles)
        && size.profiles * size.points <= MOST_CELLS
}
