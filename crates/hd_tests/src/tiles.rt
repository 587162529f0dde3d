// The stamps of tiles: which of them rise with a change.
ghost use Rattle.std.specs.Prelude.{◌≡◌, IfOk};
ghost use Rattle.hd_map.specs.Map.{IsSize};

use hd_list::{List, Memory};
use hd_map::{Adjacency, Cell, DataType, Grid, Pos, Size, Surface};
use hd_tiles::{Looked, Tiles};
use std::alloc::Global;

// A surface of this size in tiles of side 8, on which nothing is measured.
fn in_tiles(alloc: Global, size: Size) -> Result<Tiles<Surface>, Memory>
    requires { IsSize size }
    ensures { IfOk result (λ tiles. tiles.changes ≡ 0) }
{
    let surface = Surface::unmeasured(alloc, size, DataType::I16)?;
    Tiles::from_surface(alloc, surface, 8)
}

// The numbers of the tiles whose stamps are not 0.
fn touched(alloc: Global, tiles: &Tiles<Surface>) -> Result<List<u32>, Memory> {
    let mut numbers = List::new(alloc);
    for tile in 0..tiles.tiling().count() {
        if tiles.stamp(tile) != 0 {
            numbers.push(tile)?;
        }
    }
    Ok(numbers)
}

#[test]
fn a_set_touches_the_tiles_round_its_point(rt: HostRuntime) {
    let rows: [(u32, u32, u32, u32, &[u32]); 9] = [
        (8, 8, 7, 7, &[0]),
        (9, 9, 6, 6, &[0]),
        (9, 9, 7, 7, &[0, 1, 2, 3]),
        (9, 9, 8, 3, &[0, 1]),
        (17, 1, 8, 0, &[0, 1]),
        (17, 1, 16, 0, &[1, 2]),
        (17, 1, 16, 1, &[]),
        (1, 65_535, 0, 65_527, &[8_190, 8_191]),
        (65_535, 1, 65_534, 0, &[8_191]),
    ];
    for (points, profiles, x, y, wanted) in rows {
        assert!(rt; 1 <= points && points <= 65_535 && 1 <= profiles && profiles <= 65_535);
        assert!(rt; u64::from(profiles) * u64::from(points) <= 4_194_304);
        let size = Size { points, profiles };
        let mut tiles = in_tiles(rt.alloc(), size).expect(&rt, "memory");
        let _ = tiles.set_cell(Pos { x, y }, Cell::Height(7));
        let numbers = touched(rt.alloc(), &tiles).expect(&rt, "memory");
        assert!(rt; numbers.as_slice() == wanted);
    }
}

#[test]
fn what_changes_nothing_touches_nothing(rt: HostRuntime) {
    let alloc = rt.alloc();
    let size = Size {
        points: 9,
        profiles: 9,
    };
    let at = Pos { x: 8, y: 8 };
    let mut tiles = in_tiles(alloc, size).expect(&rt, "memory");
    let same = tiles.set_cell(at, Cell::Bad);
    assert!(rt; same.is_ok() && tiles.changes() == 0);
    let refused = tiles.set_cell(at, Cell::Height(40_000));
    assert!(rt; refused.is_err() && tiles.changes() == 0);
    let masked = tiles.set_mask(at, true);
    assert!(rt; masked.is_ok() && tiles.changes() == 1);
    let again = tiles.set_mask(at, true);
    assert!(rt; again.is_ok() && tiles.changes() == 1);
    let numbers = touched(alloc, &tiles).expect(&rt, "memory");
    assert!(rt; numbers.as_slice() == [0, 1, 2, 3].as_slice());
}

#[test]
fn a_change_of_the_setting_touches_every_tile(rt: HostRuntime) {
    let alloc = rt.alloc();
    let size = Size {
        points: 17,
        profiles: 9,
    };
    let mut tiles = in_tiles(alloc, size).expect(&rt, "memory");
    tiles.set_adjacency(Adjacency::Eight);
    assert!(rt; tiles.changes() == 0);
    tiles.set_adjacency(Adjacency::Six);
    let numbers = touched(alloc, &tiles).expect(&rt, "memory");
    assert!(rt; numbers.as_slice() == [0, 1, 2, 3, 4, 5].as_slice());
    assert!(rt; Looked::adjacency(&tiles) == Adjacency::Six);
    assert!(rt; tiles.side() == 8 && Looked::size(&tiles) == size);
}
