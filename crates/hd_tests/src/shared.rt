// What several tests are made from, and what they compare.
ghost use Rattle.std.specs.Prelude.{◌≡◌};

use crate::surface_of;
use hd_list::List;
use hd_map::{Cell, DataType, Heights, Size, Surface, position_of};
use hd_num::{Whole, read_whole};
use hd_sdf_read::{SdfFile, read_sdf};
use std::fmt::Debug;
use std::process::Abort;

// The list of these items.
pub(crate) fn list<T: Copy>(rt: &(impl Abort + AllocGlobal), items: &[T]) -> List<T>
    ensures { result ≡ items.now }
{
    let mut list = List::new(rt.alloc());
    list.extend_from_slice(items).expect(rt, "memory");
    list
}

// The cells of a text: its whole numbers as heights, and another word for a point that is not measured.
pub(crate) fn cells(rt: &(impl Abort + AllocGlobal), text: &str) -> Vec<Cell> {
    let mut cells = Vec::new(rt.alloc());
    for word in text.split_ascii_whitespace() {
        let cell = match read_whole(word.as_bytes()) {
            Whole::Is(height) => Cell::Height(height),
            _ => Cell::Bad,
        };
        cells.push(cell).expect(rt, "memory");
    }
    cells
}

// The surface whose profiles are the lines of a text.
pub(crate) fn surface(
    rt: &(impl Abort + AllocGlobal),
    data_type: DataType,
    profiles: &str,
) -> Surface {
    let cells = cells(rt, profiles);
    let lines = profiles.lines().count();
    assert!(rt; 1 <= lines && lines <= 5);
    let columns = cells.len() / lines;
    assert!(rt; 1 <= columns && columns <= 9);
    let size = Size {
        points: columns as u32,
        profiles: lines as u32,
    };
    surface_of(rt.alloc(), size, data_type, &cells).expect(rt, "a surface")
}

// The file of a text.
pub(crate) fn file_of(rt: &(impl Abort + AllocGlobal), text: &[u8]) -> SdfFile {
    read_sdf(rt.alloc(), text).expect(rt, "a file")
}

// The heights of the present points by index, as cells.
pub(crate) fn shown_cells<G: Heights>(rt: &(impl Abort + AllocGlobal), grid: &G) -> Vec<Cell> {
    let size = grid.size();
    let mut cells = Vec::new(rt.alloc());
    for index in 0..size.profiles * size.points {
        let cell = match grid.height(position_of(size, index)) {
            Some(height) => Cell::Height(height),
            None => Cell::Bad,
        };
        cells.push(cell).expect(rt, "memory");
    }
    cells
}

// Compares the heights of the present points with the cells of a text.
pub(crate) fn expect_heights<G: Heights>(rt: &(impl Abort + AllocGlobal), grid: &G, text: &str) {
    assert_eq!(rt; shown_cells(rt, grid), cells(rt, text));
}

// Compares bytes.
pub(crate) fn expect_bytes(rt: &impl Abort, found: &[u8], wanted: &[u8]) {
    assert_eq!(rt; found, wanted);
}

// What is told of an input, as text.
pub(crate) trait Outcome {
    fn of<R: Abort + AllocGlobal>(rt: &R, input: &str) -> String;
}

// Compares what is told of the input of each row `INPUT => OUTCOME` with its outcome.
pub(crate) fn expect_rows<T: Outcome>(rt: &(impl Abort + AllocGlobal), rows: &str) {
    for row in rows.lines() {
        let (input, wanted) = row.split_once(" => ").expect(rt, "a row");
        let found = T::of(rt, input);
        assert_eq!(rt; found.as_str(), wanted, "at {input}");
    }
}

// A value as it is shown for debugging.
pub(crate) fn shown<T: Debug>(rt: &(impl Abort + AllocGlobal), value: &T) -> String {
    format!(in rt.alloc(); "{value:?}").expect(rt, "memory")
}

// The lines of an input, which are parted by `/`.
pub(crate) fn lines_of(rt: &(impl Abort + AllocGlobal), input: &str) -> String {
    input.replace(rt.alloc(), '/', "\n").expect(rt, "memory")
}

// Bytes as text.
pub(crate) fn text_of(rt: &impl Abort, bytes: List<u8>) -> String {
    String::from_utf8(bytes.into_vec()).ok().expect(rt, "text")
}
