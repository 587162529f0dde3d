// What a pool of basins tells of its map, as text, and what is found of a map without tiles.
ghost use Rattle.std.specs.Prelude.{◌≡◌};
ghost use Rattle.hd_map.specs.Map.{InGrid};
ghost use Rattle.hd_map.specs.Surface.{map_of};
ghost use Rattle.hd_basin.specs.InStep.{HasMap};

use hd_basin::{Basins, Extent, NodeKey};
use hd_graph::{flood, tree};
use hd_map::{
    Heights, Pos, Rank, Side, Surface, contains, index_of, is_present, position_of, rank_of,
};
use hd_steep::{regions, root};
use std::collections::BTreeMap;
use std::process::Abort;

// What a pool tells of a surface: at each index the local basin of the sink with this index and the root of the point there,
// then the passes between the basins, the regions, the number of the basins and the change tree.
pub(crate) fn text_of<S: Side>(
    rt: &(impl Abort + AllocGlobal),
    surface: &Surface,
    pool: &Basins<S>,
) -> String
    requires pool { HasMap S.NAME pool.now }
    requires size { pool.now.size ≡ (map_of surface.now).size }
{
    let size = surface.size();
    let mut text = String::new(rt.alloc());
    for index in 0..size.profiles * size.points {
        let key = index as usize;
        let node = pool.node(NodeKey { key });
        let label = pool.label(position_of(size, index));
        write!(text, "{node:?} {label:?}\n").expect(rt, "memory");
    }
    push_passes(rt, &mut text, pool);
    push_tree(rt, &mut text, pool);
    text
}

// Adds the passes between the basins, each by the indexes of the two sinks, the lesser first, and its own rank.
fn push_passes<S: Side>(rt: &(impl Abort + AllocGlobal), text: &mut String, pool: &Basins<S>)
    requires { HasMap S.NAME pool.now }
{
    let passes = passes_of(rt, pool);
    for (pair, at) in &passes {
        write!(text, "{} {} {at:?}\n", pair.0, pair.1).expect(rt, "memory");
    }
}

// The passes between the basins by the indexes of the two sinks, of which no two are the same.
fn passes_of<S: Side>(
    rt: &(impl Abort + AllocGlobal),
    pool: &Basins<S>,
) -> BTreeMap<(u32, u32), Rank>
    requires { HasMap S.NAME pool.now }
{
    let graph = pool.as_graph().expect(rt, "memory");
    let mut passes = BTreeMap::new(rt.alloc());
    for pass in graph.passes() {
        let (a, b) = (pass.a.index, pass.b.index);
        let pair = (a.min(b), a.max(b));
        assert!(rt; passes.get(&pair).is_none());
        let inserted: Result<_, _> = passes.insert(pair, pass.at);
        inserted.expect(rt, "memory");
    }
    passes
}

// Adds the regions, the number of the basins and the change tree.
fn push_tree<S: Side>(rt: &(impl Abort + AllocGlobal), text: &mut String, pool: &Basins<S>)
    requires { HasMap S.NAME pool.now }
{
    let extents = pool.extents().expect(rt, "memory");
    let graph = pool.as_graph().expect(rt, "memory");
    let line = flood(rt.alloc(), &graph).expect(rt, "memory");
    let tree = tree(rt.alloc(), &line).expect(rt, "memory");
    let count = graph.lows().len();
    write!(text, "{extents:?}\n{count}\n{tree:?}\n").expect(rt, "memory");
}

// A number that stands for a text, by its bytes.
pub(crate) fn sum_of(text: &str) -> u32 {
    let mut sum = 0u32;
    for byte in text.as_bytes() {
        sum = sum.wrapping_mul(31).wrapping_add(u32::from(*byte));
    }
    sum
}

// The index of a position of the surface, if there is one.
pub(crate) fn place_of(rt: &impl Abort, surface: &Surface, at: Option<Pos>) -> Option<u32> {
    let at = at?;
    assert!(rt; contains(surface.size(), at));
    Some(index_of(surface.size(), at))
}

// The roots of all points, by the regions and by the way from each point.
pub(crate) fn roots_of<S: Side>(
    rt: &(impl Abort + AllocGlobal),
    surface: &Surface,
) -> Vec<Option<u32>> {
    let size = surface.size();
    let labels = regions::<S, _>(rt.alloc(), surface)
        .expect(rt, "memory")
        .into_vec();
    let mut roots = Vec::new(rt.alloc());
    for index in 0..size.profiles * size.points {
        let at = position_of(size, index);
        let found = if is_present(surface, at) {
            Some(root::<S, _>(rt.alloc(), surface, at))
        } else {
            None
        };
        roots
            .push(place_of(rt, surface, found))
            .expect(rt, "memory");
    }
    assert!(rt; roots == labels);
    labels
}

// The rank of the point at a position, if one is present there.
fn rank_at(surface: &Surface, at: Pos) -> Option<Rank> {
    if !contains(surface.size(), at) || !is_present(surface, at) {
        return None;
    }
    Some(rank_of(surface, at))
}

// What the points of each label sum up to.
pub(crate) fn wanted_extents(
    rt: &(impl Abort + AllocGlobal),
    surface: &Surface,
    labels: &[Option<u32>],
) -> Vec<Extent> {
    let size = surface.size();
    let mut extents = Vec::new(rt.alloc());
    for index in 0..size.profiles * size.points {
        if label_at(labels, index) == Some(index) {
            let extent = extent_of(rt, surface, labels, position_of(size, index));
            extents.push(extent).expect(rt, "memory");
        }
    }
    extents
}

// The label of the point with an index.
fn label_at(labels: &[Option<u32>], index: u32) -> Option<u32> {
    labels.get(index as usize).copied()?
}

// What the points of the label of this point sum up to.
fn extent_of(
    rt: &(impl Abort + AllocGlobal),
    surface: &Surface,
    labels: &[Option<u32>],
    at: Pos,
) -> Extent
    requires { InGrid (map_of surface.now).size at }
{
    let size = surface.size();
    assert!(rt; is_present(surface, at));
    let pit = rank_of(surface, at);
    let mut extent = Extent {
        pit,
        points: 0,
        high: i64::MIN,
        least: i64::MAX,
        edge_low: None,
        edge_high: None,
    };
    for index in 0..size.profiles * size.points {
        if label_at(labels, index) == Some(pit.index) {
            add_point(rt, surface, &mut extent, position_of(size, index));
        }
    }
    extent
}

// Adds a point to what others sum up to.
fn add_point(rt: &impl Abort, surface: &Surface, extent: &mut Extent, at: Pos)
    requires { InGrid (map_of surface.now).size at }
{
    let height = surface.height(at).expect(rt, "a point");
    extent.points = extent.points.saturating_add(1);
    extent.high = extent.high.max(height);
    extent.least = extent.least.min(height);
    if is_edge(surface, at) {
        extent.edge_low = Some(extent.edge_low.unwrap_or(height).min(height));
        extent.edge_high = Some(extent.edge_high.unwrap_or(height).max(height));
    }
}

// Whether one of the nine positions round a point is not in the grid or has no present point.
fn is_edge(surface: &Surface, at: Pos) -> bool {
    for step in 0..9 {
        match beside(at, step) {
            Some(near) if rank_at(surface, near).is_some() => {}
            _ => return true,
        }
    }
    false
}

// One of the nine positions round another one, and none where it has no number.
fn beside(at: Pos, step: u32) -> Option<Pos> {
    Some(Pos {
        x: at.x.checked_add(step % 3)?.checked_sub(1)?,
        y: at.y.checked_add(step / 3)?.checked_sub(1)?,
    })
}
