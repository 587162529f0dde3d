// Small surfaces whose roots are known.
use crate::shared::{Outcome, expect_bytes, expect_rows, lines_of, surface, text_of};
use crate::told::roots_of;
use hd_list::List;
use hd_map::{DataType, Down, Heights, Pass, Pos, Side, Surface, Up, contains, is_present};
use hd_num::{push_text, push_unsigned};
use hd_steep::{crossings, find_regions, next, passes, passes_of, regions};
use std::process::Abort;

// Adds a blank and a label, and `-` for none.
fn push_label(rt: &impl Abort, text: &mut List<u8>, label: Option<u32>) {
    push_text(text, b" ").expect(rt, "memory");
    match label {
        Some(index) => push_unsigned(text, u64::from(index)).expect(rt, "memory"),
        None => push_text(text, b"-").expect(rt, "memory"),
    }
}

// Adds the labels of a side, which are also the roots of its points.
fn push_labels<S: Side>(rt: &(impl Abort + AllocGlobal), text: &mut List<u8>, surface: &Surface) {
    for label in &roots_of::<S>(rt, surface) {
        push_label(rt, text, *label);
    }
}

// The labels of both sides of a surface, whose profiles are parted by `/`.
struct BothLabels;

impl Outcome for BothLabels {
    fn of<R: Abort + AllocGlobal>(rt: &R, input: &str) -> String {
        let surface = surface(rt, DataType::I32, &lines_of(rt, input));
        let mut text = List::new(rt.alloc());
        push_text(&mut text, b"dales").expect(rt, "memory");
        push_labels::<Down>(rt, &mut text, &surface);
        push_text(&mut text, b" hills").expect(rt, "memory");
        push_labels::<Up>(rt, &mut text, &surface);
        text_of(rt, text)
    }
}

const LABELS: &str = "0 5 1 => dales 0 0 2 hills 1 1 1
4 4 4/4 4 4/4 4 4 => dales 0 0 0 0 0 0 0 0 0 hills 8 8 8 8 8 8 8 8 8
7 BAD 7 BAD 7/7 7 7 7 7 => dales 0 - 2 - 4 0 0 2 2 4 hills 9 - 9 - 9 9 9 9 9 9
BAD BAD => dales - - hills - -
20 19 18 17 16/BAD BAD BAD BAD 15/10 11 12 13 14/9 BAD BAD BAD BAD/8 7 6 5 4 => dales 24 24 24 24 24 - - - - 24 24 24 24 24 24 24 - - - - 24 24 24 24 24 hills 0 0 0 0 0 - - - - 0 0 0 0 0 0 0 - - - - 0 0 0 0 0";

#[test]
fn roots_of_small_surfaces_and_the_next_of_a_point_are_known(rt: HostRuntime) {
    expect_rows::<BothLabels>(&rt, LABELS);
    let surface = surface(&rt, DataType::I32, "5 4 3\n6 9 2\n7 8 1");
    let centre = Pos { x: 1, y: 1 };
    assert!(rt; contains(surface.size(), centre));
    assert!(rt; is_present(&surface, centre));
    let lower = next::<Down, _>(rt.alloc(), &surface, centre);
    assert!(rt; lower == Some(Pos { x: 2, y: 2 }));
}

// The number of the pit of each point, printed as the labels are, after the indexes of the pits.
fn numbers_text<S: Side>(rt: &(impl Abort + AllocGlobal), surface: &Surface) -> List<u8> {
    let regions = find_regions::<S, _>(rt.alloc(), surface).expect(rt, "memory");
    let mut text = List::new(rt.alloc());
    for pit in regions.pits() {
        push_label(rt, &mut text, Some(pit.index));
    }
    push_text(&mut text, b":").expect(rt, "memory");
    for index in 0..regions.len() {
        push_label(rt, &mut text, regions.number(index));
    }
    text
}

#[test]
fn points_have_the_numbers_of_their_pits(rt: HostRuntime) {
    let surface = surface(&rt, DataType::I32, "0 3 1 BAD 2 5");
    let dales = numbers_text::<Down>(&rt, &surface);
    expect_bytes(&rt, dales.as_slice(), b" 0 2 4: 0 0 1 - 2 2");
    let hills = numbers_text::<Up>(&rt, &surface);
    expect_bytes(&rt, hills.as_slice(), b" 1 5: 0 0 0 - 1 1");
}

// The indexes of the two pits and of the point of each pass.
fn indexes_of(rt: &(impl Abort + AllocGlobal), all: &[Pass]) -> Vec<(u32, u32, u32)> {
    let mut indexes = Vec::new(rt.alloc());
    for pass in all {
        let found = (pass.a.index, pass.b.index, pass.at.index);
        indexes.push(found).expect(rt, "memory");
    }
    indexes
}

// Compares the passes of a side with those that are known.
fn expect_passes<S: Side>(
    rt: &(impl Abort + AllocGlobal),
    surface: &Surface,
    wanted: &[(u32, u32, u32)],
) {
    let labels = regions::<S, _>(rt.alloc(), surface).expect(rt, "memory");
    let found = passes::<S, _>(rt.alloc(), surface, &labels).expect(rt, "memory");
    assert!(rt; indexes_of(rt, found.as_slice()).as_slice() == wanted);
}

/// Of three dales of one height, the passes have two indexes.
#[test]
fn a_pass_stands_between_two_regions(rt: HostRuntime) {
    let profile = surface(&rt, DataType::I32, "0 3 1 4 2");
    expect_passes::<Down>(&rt, &profile, &[(0, 2, 1), (2, 4, 3)]);
    expect_passes::<Up>(&rt, &profile, &[(3, 1, 2)]);
    let flat = surface(&rt, DataType::I16, "7 BAD 7 BAD 7\n7 7 7 7 7");
    expect_passes::<Down>(&rt, &flat, &[(0, 2, 6), (2, 4, 8)]);
}

// Compares the crossings of a side with those that are known.
fn expect_crossings<S: Side>(
    rt: &(impl Abort + AllocGlobal),
    surface: &Surface,
    wanted: &[(u32, u32, u32)],
) {
    let regions = find_regions::<S, _>(rt.alloc(), surface).expect(rt, "memory");
    let crossings = crossings::<S, _>(rt.alloc(), surface, &regions).expect(rt, "memory");
    let found = passes_of::<S>(rt.alloc(), &regions, crossings.as_slice()).expect(rt, "memory");
    assert!(rt; indexes_of(rt, found.as_slice()).as_slice() == wanted);
}

#[test]
fn crossings_stand_at_one_point_or_in_two_parts(rt: HostRuntime) {
    let one = surface(&rt, DataType::I32, "0 9 1\n9 5 9\n2 9 9");
    expect_crossings::<Down>(&rt, &one, &[(0, 2, 4), (0, 6, 4)]);
    expect_crossings::<Up>(&rt, &one, &[]);
    let parts = surface(&rt, DataType::I32, "0 3 1 BAD 5 2 6");
    expect_crossings::<Down>(&rt, &parts, &[(0, 2, 1)]);
    expect_crossings::<Up>(&rt, &parts, &[(6, 4, 5)]);
    let plateau = surface(&rt, DataType::I32, "4 4 4 4 4 4 4");
    expect_crossings::<Down>(&rt, &plateau, &[]);
    expect_crossings::<Up>(&rt, &plateau, &[]);
}
