// Surfaces of both layouts: nothing is measured on a new one, and heights reach the ends of their ranges.
use crate::shared::{cells, expect_heights};
use hd_map::{Adjacency, Cell, DataType, Grid, Heights, MapError, Pos, Size, Surface};
use std::process::Abort;

// The end of the range of decimals, 2^53.
const END: i64 = 9_007_199_254_740_992;

const WIDE: &str = "-9007199254740992 9007199254740992 0 9007199254740991 -9007199254740991";

// The surface of one profile of five points in hundredths whose heights are those of a text.
fn hundredths(rt: &(impl Abort + AllocGlobal), heights: &str) -> Surface {
    let size = Size {
        points: 5,
        profiles: 1,
    };
    let mut surface = Surface::unmeasured(rt.alloc(), size, DataType::Double { places: 2 }).expect(
        rt, "memory",
    );
    let cells = cells(rt, heights);
    for x in 0..5u32 {
        let cell = cells.get(x as usize).expect(rt, "five heights");
        surface
            .set_cell(Pos { x, y: 0 }, *cell)
            .expect(rt, "a cell of the type");
    }
    surface
}

#[test]
fn a_new_surface_takes_the_heights_of_its_type(rt: HostRuntime) {
    for data_type in [DataType::U16, DataType::Single { places: 18 }] {
        let size = Size {
            points: 2,
            profiles: 1,
        };
        let surface = Surface::unmeasured(rt.alloc(), size, data_type).expect(&rt, "memory");
        assert_eq!(&rt; surface.data_type(), data_type);
        assert_eq!(&rt; surface.adjacency(), Adjacency::Eight);
        expect_heights(&rt, &surface, "BAD BAD");
    }
    // Decimals end at 2^53.
    let mut surface = hundredths(&rt, WIDE);
    expect_heights(&rt, &surface, WIDE);
    let at = Pos { x: 2, y: 0 };
    let refused = Err(MapError::HeightRange(at));
    assert_eq!(&rt; surface.set_cell(at, Cell::Height(END + 1)), refused);
    assert_eq!(&rt; surface.set_cell(at, Cell::Height(-END - 1)), refused);
    expect_heights(&rt, &surface, WIDE);
}
