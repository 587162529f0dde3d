// The region of a point, as an answer.
ghost use Rattle.std.specs.Prelude.{◌≡◌, IfOk};
ghost use Rattle.hd_map.specs.Map.{Present};
ghost use Rattle.hd_map.specs.Rank.{rank};
ghost use Rattle.hd_map.specs.Region.{IsRoot};
ghost use Rattle.hd_pool.specs.Following.{Follows};
ghost use Rattle.hd_survey.specs.Findings.{AreFindings};
ghost use Rattle.hd_session.specs.Regions.{IsLabelAnswer};
ghost use Rattle.hd_session.specs.Reply.{reply_of};
ghost use Rattle.hd_engine.specs.Workpiece.{state_of};

use crate::workpiece::Workpiece;
use hd_list::Memory;
use hd_map::{Grid, Pos, Side, contains, is_present};
use hd_pool::SidePool;
use hd_report::tell_label;
use hd_session::Answer;
use hd_survey::Findings;
use hd_tiles::Tiles;
use std::alloc::Global;

/// The answer to `label`: the pit of the region of a side that a point lies in. A position outside is refused, then
/// one that is not present.
pub fn show_label<S: Side, G: Grid>(
    work: &Workpiece<Tiles<G>>,
    pool: &mut SidePool<S>,
    findings: &mut Findings<S>,
    number: u64,
    at: Pos,
) -> Result<Answer, Memory>
    requires follows { let tiles = work.now.board.grid in Follows
        (G.map tiles.grid) S.NAME tiles.tiling.side tiles.stamps.items pool.old }
    requires findings { AreFindings (G.map work.now.board.grid.grid) S.NAME findings.old }
    ensures follows { let tiles = work.now.board.grid in Follows
        (G.map tiles.grid) S.NAME tiles.tiling.side tiles.stamps.items pool.new }
    ensures findings { AreFindings (G.map work.now.board.grid.grid) S.NAME findings.new }
    ensures answer { let s = state_of (λ t. G.map t.grid) work.now in IfOk result
        (λ r. IsLabelAnswer s number S.NAME at (reply_of r) s) }
{
    let tiles = work.board.grid();
    if !contains(tiles.tiling().size(), at) {
        return Answer::outside(work.alloc, number, at);
    }
    if !is_present(tiles, at) {
        return Answer::not_present(work.alloc, number, at);
    }
    let pit = root_of::<S, G>(work.alloc, tiles, pool, findings, at)?;
    let text = tell_label(work.alloc, S::NAME, at, pit)?;
    Ok(Answer::with_text(text))
}

// The pit of the region of a present point, by the region of each point where it was found, or by the pool where it serves.
fn root_of<S: Side, G: Grid>(
    alloc: Global,
    tiles: &Tiles<G>,
    pool: &mut SidePool<S>,
    findings: &mut Findings<S>,
    at: Pos,
) -> Result<Pos, Memory>
    requires follows { Follows (G.map tiles.now.grid) S.NAME tiles.now.tiling.side
        tiles.now.stamps.items pool.old }
    requires findings { AreFindings (G.map tiles.now.grid) S.NAME findings.old }
    requires present { Present (G.map tiles.now.grid) at }
    ensures follows { Follows (G.map tiles.now.grid) S.NAME tiles.now.tiling.side
        tiles.now.stamps.items pool.new }
    ensures findings { AreFindings (G.map tiles.now.grid) S.NAME findings.new }
    ensures present { IfOk result (Present (G.map tiles.now.grid)) }
    ensures root { IfOk result (λ pit. IsRoot (G.map tiles.now.grid) S.NAME
        (rank (G.map tiles.now.grid) at) (rank (G.map tiles.now.grid) pit)) }
{
    if findings.has_regions() {
        return root_by_map(alloc, tiles, pool, findings, at);
    }
    if pool.serves_label(alloc, tiles)? {
        return Ok(pool.root(tiles, at));
    }
    root_by_map(alloc, tiles, pool, findings, at)
}

// The same by the map, which is counted.
fn root_by_map<S: Side, G: Grid>(
    alloc: Global,
    tiles: &Tiles<G>,
    pool: &mut SidePool<S>,
    findings: &mut Findings<S>,
    at: Pos,
) -> Result<Pos, Memory>
    requires follows { Follows (G.map tiles.now.grid) S.NAME tiles.now.tiling.side
        tiles.now.stamps.items pool.old }
    requires findings { AreFindings (G.map tiles.now.grid) S.NAME findings.old }
    requires present { Present (G.map tiles.now.grid) at }
    ensures follows { Follows (G.map tiles.now.grid) S.NAME tiles.now.tiling.side
        tiles.now.stamps.items pool.new }
    ensures findings { AreFindings (G.map tiles.now.grid) S.NAME findings.new }
    ensures present { IfOk result (Present (G.map tiles.now.grid)) }
    ensures root { IfOk result (λ pit. IsRoot (G.map tiles.now.grid) S.NAME
        (rank (G.map tiles.now.grid) at) (rank (G.map tiles.now.grid) pit)) }
{
    let mut spent = 0;
    let pit = findings.root(alloc, tiles, at, &mut spent)?;
    pool.count_label(tiles, spent);
    Ok(pit)
}
