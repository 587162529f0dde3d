// Edits on a grid in tiles, which counts its changes.
use hd_edit::{Board, Edit, EditError};
use hd_map::{Adjacency, DataType, Grid, Heights, Pos, Size, Surface, contains};
use hd_tiles::Tiles;
use std::process::Abort;

// How often a grid was changed, and the height of its first point.
fn seen(rt: &impl Abort, tiles: &Tiles<Surface>) -> (u64, Option<i64>) {
    let first = Pos { x: 0, y: 0 };
    assert!(rt; contains(tiles.size(), first));
    (tiles.changes(), tiles.height(first))
}

// A grid of one point, which is not measured and masked.
fn one_point(rt: &(impl Abort + AllocGlobal)) -> Tiles<Surface> {
    let size = Size {
        points: 1,
        profiles: 1,
    };
    let mut surface = Surface::unmeasured(rt.alloc(), size, DataType::I8).expect(rt, "memory");
    surface
        .set_mask(Pos { x: 0, y: 0 }, true)
        .expect(rt, "a point");
    Tiles::from_surface(rt.alloc(), surface, 8).expect(rt, "memory")
}

// Makes an edit.
fn apply(rt: &impl Abort, board: &mut Board<Tiles<Surface>>, edit: &Edit) -> Result<(), EditError> {
    assert!(rt; board.grid().changes() < 1_000);
    board.apply(edit)
}

// Sets which points are neighbours.
fn set(rt: &impl Abort, board: &mut Board<Tiles<Surface>>, adjacency: Adjacency) {
    assert!(rt; board.grid().changes() < 1_000);
    board.set_adjacency(adjacency);
}

#[test]
fn a_grid_counts_its_changes(rt: HostRuntime) {
    let mut board = Board::new(rt.alloc(), one_point(&rt)).expect(&rt, "memory");
    let at = Pos { x: 0, y: 0 };
    let outside = Pos { x: 0, y: 1 };
    let edited = apply(&rt, &mut board, &Edit::Set { at, z: -128 });
    assert!(rt; edited.is_ok());
    let refused = apply(&rt, &mut board, &Edit::Bad { at: outside });
    assert!(rt; refused == Err(EditError::Outside(outside)));
    let edited = apply(&rt, &mut board, &Edit::Unmask { from: at, to: at });
    assert!(rt; edited.is_ok());
    assert!(rt; seen(&rt, board.grid()) == (2, Some(-128)));
    assert!(rt; board.grid().changes() < 1_000);
    board.undo(2).expect(&rt, "two edits");
    assert!(rt; seen(&rt, board.grid()) == (4, None));
    set(&rt, &mut board, Adjacency::Eight);
    assert!(rt; seen(&rt, board.grid()) == (4, None));
    set(&rt, &mut board, Adjacency::Four);
    assert!(rt; seen(&rt, board.grid()) == (5, None));
    assert!(rt; board.grid().adjacency() == Adjacency::Four);
}
