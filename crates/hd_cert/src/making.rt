// The certificate for two pits.
ghost use Rattle.std.specs.Prelude.{IfOk, Some, true};
ghost use Rattle.hd_map.specs.Map.{Present};
ghost use Rattle.hd_map.specs.Rank.{rank, IsPoint};
ghost use Rattle.hd_check.specs.Rules.{IsRight};
ghost use Rattle.hd_map.specs.Saddle.{IsSaddle, SaddleIs};
ghost use Rattle.hd_steep.specs.Numbering.{AreNumbered};
ghost use Rattle.hd_steep.specs.Reached.{AreReachedPits};
ghost use Rattle.hd_reach.specs.Within.{LiesWithin};
ghost use Rattle.hd_cert.specs.Routes.{IsShownRoute, IsRouteCut, IsMade};
ghost use Rattle.hd_cert.specs.Shown.{IsWritten, AreTwoPits, IsShownCertificate};

use crate::listed_points::listed;
use crate::reached::residues_from;
use crate::region_cut::region_cut;
use crate::trace::path_down;
use hd_check::Certificate;
use hd_list::{List, Memory};
use hd_map::{Heights, Pos, Rank, Side, position_of};
use hd_reach::Bound;
use hd_steep::Regions;
use std::alloc::Global;

/// The certificate of two different pits and their saddle.
///
/// Of the paths from the first to the second with that top, its path is one with the fewest points, and
/// of those with the fewest the first by the list of indexes. Its cut is the points that are reached from
/// the first by paths wholly below the saddle, or by any path where there is no saddle. The certificate
/// is right. It takes 9 bytes a point, the 8 for the cut among them, and 4 for each point that waits in a
/// flood, beside the path, and time in proportion to the points.
pub fn certify<S: Side, G: Heights>(
    alloc: Global,
    grid: &G,
    from: Pos,
    to: Pos,
    saddle: Option<Rank>,
) -> Result<Certificate, Memory>
    requires pits { AreTwoPits (G.map grid.now) S.NAME from to }
    requires saddle { SaddleIs (G.map grid.now) S.NAME (rank (G.map grid.now) from)
        (rank (G.map grid.now) to) saddle }
    ensures shown { IfOk result (IsShownCertificate (G.map grid.now) S.NAME from to saddle) }
    ensures right { IfOk result (IsRight (G.map grid.now)) }
{
    let cut = shown_cut::<S, G>(alloc, grid, from, saddle)?;
    make::<S, G>(alloc, grid, from, to, saddle, cut)
}

/// The same, where the regions are known, and of each pit whether it is reached from the first below the saddle. It
/// takes a byte a point where there is a saddle, and 4 for each point that waits in the flood, beside the path and the
/// cut.
pub fn certify_by_regions<S: Side, G: Heights>(
    alloc: Global,
    grid: &G,
    regions: &Regions,
    reached: &[bool],
    from: Pos,
    to: Pos,
    saddle: Option<Rank>,
) -> Result<Certificate, Memory>
    requires regions { AreNumbered (G.map grid.now) S.NAME regions.now }
    requires reached { AreReachedPits (G.map grid.now) S.NAME saddle
        (rank (G.map grid.now) from) regions.now.pits reached.now }
    requires pits { AreTwoPits (G.map grid.now) S.NAME from to }
    requires saddle { SaddleIs (G.map grid.now) S.NAME (rank (G.map grid.now) from)
        (rank (G.map grid.now) to) saddle }
    ensures shown { IfOk result (IsShownCertificate (G.map grid.now) S.NAME from to saddle) }
    ensures right { IfOk result (IsRight (G.map grid.now)) }
{
    let cut = region_cut::<S, G>(alloc, grid, regions, reached, from, saddle)?;
    make::<S, G>(alloc, grid, from, to, saddle, cut)
}

// The certificate of two pits and their saddle, by its cut.
fn make<S: Side, G: Heights>(
    alloc: Global,
    grid: &G,
    from: Pos,
    to: Pos,
    saddle: Option<Rank>,
    cut: List<Pos>,
) -> Result<Certificate, Memory>
    requires pits { AreTwoPits (G.map grid.now) S.NAME from to }
    requires saddle { SaddleIs (G.map grid.now) S.NAME (rank (G.map grid.now) from)
        (rank (G.map grid.now) to) saddle }
    requires cut { IsRouteCut (G.map grid.now) S.NAME saddle from cut }
    ensures { IfOk result (IsMade (G.map grid.now) S.NAME from to saddle) }
{
    match saddle {
        None => Ok(Certificate {
            side: S::NAME,
            adjacency: grid.adjacency(),
            from,
            to,
            saddle: None,
            path: List::new(alloc),
            cut,
        }),
        Some(top) => {
            let path = shown_path::<S, G>(alloc, grid, from, to, top)?;
            Ok(Certificate {
                side: S::NAME,
                adjacency: grid.adjacency(),
                from,
                to,
                saddle: Some(written(grid, top)),
                path,
                cut,
            })
        }
    }
}

// The shown path of two points.
fn shown_path<S: Side, G: Heights>(
    alloc: Global,
    grid: &G,
    from: Pos,
    to: Pos,
    saddle: Rank,
) -> Result<List<Pos>, Memory>
    requires here { Present (G.map grid.now) from }
    requires there { Present (G.map grid.now) to }
    requires saddle { IsSaddle (G.map grid.now) S.NAME (rank (G.map grid.now) from)
        (rank (G.map grid.now) to) saddle }
    ensures { IfOk result (IsShownRoute (G.map grid.now) S.NAME from to saddle) }
{
    let bound = Bound {
        level: Some(saddle),
        strict: false,
    };
    let residues = residues_from::<S, G>(alloc, grid, bound, to, Some(from))?;
    path_down(alloc, grid, residues.as_slice(), from, to)
}

// The shown cut of a point that lies below the saddle.
fn shown_cut<S: Side, G: Heights>(
    alloc: Global,
    grid: &G,
    from: Pos,
    saddle: Option<Rank>,
) -> Result<List<Pos>, Memory>
    requires { LiesWithin (G.map grid.now) S.NAME saddle true from }
    ensures { IfOk result (IsRouteCut (G.map grid.now) S.NAME saddle from) }
{
    let bound = Bound {
        level: saddle,
        strict: true,
    };
    let residues = residues_from::<S, G>(alloc, grid, bound, from, None)?;
    listed(alloc, grid.size(), residues.as_slice())
}

// The position and the height of a saddle.
fn written<G: Heights>(grid: &G, saddle: Rank) -> (Pos, i64)
    requires { IsPoint (G.map grid.now) saddle }
    ensures { IsWritten (G.map grid.now) (Some saddle) (Some result) }
{
    (position_of(grid.size(), saddle.index), saddle.height)
}
