// Small surfaces, point by point.
use crate::shared::{expect_heights, surface};
use hd_map::{
    Adjacency, DataType, Grid, Heights, Pos, Surface, contains, neighbours, neighbours_by,
};
use std::process::Abort;

const SMALL: &str = "1 2 3\n4 BAD 6";

// The position of a column and a profile.
fn at(x: u32, y: u32) -> Pos {
    Pos { x, y }
}

// Compares the neighbours of a point.
fn expect_neighbours(rt: &(impl Abort + AllocGlobal), surface: &Surface, at: Pos, wanted: &[Pos]) {
    assert!(rt; contains(surface.size(), at));
    let near = neighbours(rt.alloc(), surface, at);
    assert_eq!(rt; near.as_slice(), wanted);
}

#[test]
fn neighbours_are_the_present_points_round_a_point(rt: HostRuntime) {
    let mut small = surface(&rt, DataType::U8, SMALL);
    let corner = Pos { x: 0, y: 0 };
    let other = Pos { x: 1, y: 0 };
    expect_neighbours(&rt, &small, corner, &[other, Pos { x: 0, y: 1 }]);
    small.set_mask(corner, true).expect(&rt, "a point");
    expect_neighbours(&rt, &small, corner, &[]);
    let round = [Pos { x: 2, y: 0 }, Pos { x: 0, y: 1 }, Pos { x: 2, y: 1 }];
    expect_neighbours(&rt, &small, other, &round);
    // A copy without masks shows each measured cell.
    small
        .set_mask(Pos { x: 1, y: 1 }, true)
        .expect(&rt, "a point");
    small
        .set_mask(Pos { x: 2, y: 1 }, true)
        .expect(&rt, "a point");
    let copy = small.without_masks(rt.alloc()).expect(&rt, "memory");
    expect_heights(&rt, &small, "BAD 2 3 4 BAD BAD");
    expect_heights(&rt, &copy, "1 2 3 4 BAD 6");
}

// They are those of the setting of the surface, or of the one given.
#[test]
fn neighbours_are_those_of_a_setting(rt: HostRuntime) {
    let mut square = surface(&rt, DataType::U8, "1 2 3\n4 5 6\n7 8 9");
    let middle = Pos { x: 1, y: 1 };
    let four = [at(1, 0), at(0, 1), at(2, 1), at(1, 2)];
    let six = [at(0, 0), at(1, 0), at(0, 1), at(2, 1), at(1, 2), at(2, 2)];
    square.set_adjacency(Adjacency::Four);
    assert_eq!(&rt; square.adjacency(), Adjacency::Four);
    expect_neighbours(&rt, &square, middle, &four);
    assert!(&rt; contains(square.size(), middle));
    let near = neighbours_by(rt.alloc(), &square, Adjacency::Six, middle);
    assert_eq!(&rt; near.as_slice(), six.as_slice());
    square.set_adjacency(Adjacency::Six);
    expect_neighbours(&rt, &square, middle, &six);
}
