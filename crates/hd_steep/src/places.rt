// The eight places round one, clockwise from the one above it. Two places are beside each other
// where they follow each other, and so are the one above and the one to the right, and so on.
// What is told of them is inlined at each call: between calls the compiler packs the eight marks into
// one word, and takes them out of it again.
ghost use Rattle.std.specs.Prelude.{◌≡◌};
ghost use Rattle.std.specs.Bool.{OnFalse};
ghost use Rattle.hd_steep.specs.Ring.{firsts_of, marks_of, IsOneAtMost};

use hd_map::Adjacency;

/// Those of the lower places at which the passes of a point are gathered: under eight neighbours of
/// each group that are beside one another the first, under fewer all that the setting takes.
#[inline(always)]
pub fn marked(adjacency: Adjacency, lower: &[bool; 8]) -> [bool; 8]
    ensures { result ≡ marks_of adjacency lower.now }
{
    match adjacency {
        Adjacency::Four => [
            lower[0], false, lower[2], false, lower[4], false, lower[6], false,
        ],
        Adjacency::Six => [
            lower[0], false, lower[2], lower[3], lower[4], false, lower[6], lower[7],
        ],
        Adjacency::Eight => firsts(lower),
    }
}

// Of each group of lower places that are beside one another the first straight one, clockwise from
// the one above. A corner is first only where it is alone.
#[inline(always)]
fn firsts(lower: &[bool; 8]) -> [bool; 8]
    ensures { result ≡ firsts_of lower.now }
{
    let north = lower[0];
    let east = lower[2];
    let south = lower[4];
    let west = lower[6];
    [
        north,
        lower[1] & (!north & !east),
        east & !north,
        lower[3] & (!east & !south),
        south & (!east & !(west & north)),
        lower[5] & (!south & !west),
        west & (!south & !north),
        lower[7] & (!west & !north),
    ]
}

/// Whether more than one place is marked.
#[inline(always)]
pub fn are_several(marks: &[bool; 8]) -> bool
    ensures { OnFalse result (IsOneAtMost marks.now) }
{
    let count = u8::from(marks[0])
        + u8::from(marks[1])
        + u8::from(marks[2])
        + u8::from(marks[3])
        + u8::from(marks[4])
        + u8::from(marks[5])
        + u8::from(marks[6])
        + u8::from(marks[7]);
    count > 1
}
