// What is found of a side of a grid by its pool, before a report asks for it.
ghost use Rattle.std.specs.Prelude.{◌≡◌, ◌↔◌, ◌⊎◌, IfOk, IsTrue, true};
ghost use Rattle.std.specs.Option.{ForSome, is_some};
ghost use Rattle.hd_map.specs.HeightRange.{range_of};
ghost use Rattle.hd_map.specs.Presence.{IsPresence, present_heights};
ghost use Rattle.hd_num.specs.declared.percent.Percent.{Percent as APercent};
ghost use Rattle.hd_pool.specs.Following.{Follows};
ghost use Rattle.hd_survey.specs.Findings.{AreFeaturesAt, AreFindings, AreKeptAt, WasPrunedAt};
ghost use Rattle.hd_engine.specs.declared.by_pool.Need.TheVariants.{Borders, Features, Kept, Merges, Pruning, Regions};

use hd_list::Memory;
use hd_map::{Grid, HeightRange, Heights, Presence, Side};
use hd_num::Percent;
use hd_pool::{PoolView, SidePool};
use hd_survey::Findings;
use hd_tiles::Tiles;
use std::alloc::Global;

/// What a report asks for.
#[derive(Clone, Copy, Debug, PartialEq, Eq)]
pub(crate) enum Need {
    /// The regions with the numbers of their points.
    Regions,
    /// The merges of the pits.
    Merges,
    /// The same, and the range of the heights.
    Borders,
    /// The pits that the pruning at a percent keeps.
    Kept(Percent),
    /// The pruning at a percent.
    Pruning(Percent),
    /// The regions after the pruning at a percent, by what parameters take of them.
    Features(Percent),
}

/// Finds what a report on a side asks for by the pool of the side, unless it is found or the pool does not serve.
pub(crate) fn find_by_pool<S: Side, G: Grid>(
    alloc: Global,
    tiles: &Tiles<G>,
    pool: &mut SidePool<S>,
    findings: &mut Findings<S>,
    presence: &mut Option<Presence>,
    need: Need,
) -> Result<(), Memory>
    requires follows { Follows (G.map tiles.now.grid) S.NAME tiles.now.tiling.side
        tiles.now.stamps.items pool.old }
    requires findings { AreFindings (G.map tiles.now.grid) S.NAME findings.old }
    requires presence { ForSome presence.old (IsPresence (present_heights (G.map tiles.now.grid))) }
    ensures follows { Follows (G.map tiles.now.grid) S.NAME tiles.now.tiling.side
        tiles.now.stamps.items pool.new }
    ensures findings { AreFindings (G.map tiles.now.grid) S.NAME findings.new }
    ensures presence { ForSome presence.new (IsPresence (present_heights (G.map tiles.now.grid))) }
{
    if is_found(findings, need) {
        return Ok(());
    }
    if !pool.serves_report(alloc, tiles)? {
        return Ok(());
    }
    let view = pool.view(alloc, tiles)?;
    find_by(alloc, tiles, findings, presence, need, view)
}

// Whether what a report asks for was found.
fn is_found<S: Side>(findings: &Findings<S>, need: Need) -> bool
    ensures regions { need ≡ Regions → result ≡ is_some findings.now.sizes }
    ensures merges { need ≡ Merges → result ≡ is_some findings.now.merges }
    ensures borders { need ≡ Borders → result ≡ is_some findings.now.merges }
    ensures kept { (percent : APercent) → need ≡ Kept percent → IsTrue result
        ↔ (AreKeptAt percent.thousandths findings.now.kept ⊎ (is_some findings.now.merges ≡ true)) }
    ensures pruning { (percent : APercent) → need ≡ Pruning percent → IsTrue result
        ↔ WasPrunedAt percent.thousandths findings.now.pruned }
    ensures features { (percent : APercent) → need ≡ Features percent → IsTrue result
        ↔ AreFeaturesAt percent.thousandths findings.now.features }
{
    match need {
        Need::Regions => findings.has_sizes(),
        Need::Merges | Need::Borders => findings.has_merges(),
        Need::Kept(percent) => findings.has_kept(percent) || findings.has_merges(),
        Need::Pruning(percent) => findings.has_pruned(percent),
        Need::Features(percent) => findings.has_features(percent),
    }
}

// Finds what a report asks for by a view of the side of a grid. Kept pits are told by the merges.
fn find_by<S: Side, G: Heights>(
    alloc: Global,
    grid: &G,
    findings: &mut Findings<S>,
    presence: &mut Option<Presence>,
    need: Need,
    view: PoolView<'_, S, G>,
) -> Result<(), Memory>
    requires view { view ≡ grid.now }
    requires findings { AreFindings (G.map grid.now) S.NAME findings.old }
    requires presence { ForSome presence.old (IsPresence (present_heights (G.map grid.now))) }
    ensures findings { AreFindings (G.map grid.now) S.NAME findings.new }
    ensures presence { ForSome presence.new (IsPresence (present_heights (G.map grid.now))) }
{
    match need {
        Need::Regions => findings.find_sizes_by(&view),
        Need::Merges => findings.find_merges_by(&view),
        Need::Borders | Need::Kept(_) => {
            range_by(&view, presence)?;
            findings.find_merges_by(&view)
        }
        Need::Pruning(percent) => {
            let view = view.with_extents()?;
            let range = range_by(&view, presence)?;
            findings.find_pruned_by(alloc, grid, &view, percent, range)
        }
        Need::Features(percent) => {
            let view = view.with_extents()?;
            let range = range_by(&view, presence)?;
            findings.find_features_by(alloc, grid, &view, percent, range)
        }
    }
}

// The range of the heights of a grid, by what is known of it, or told by a view of one of its sides and kept.
fn range_by<S: Side, G: Heights>(
    view: &PoolView<'_, S, G>,
    presence: &mut Option<Presence>,
) -> Result<Option<HeightRange>, Memory>
    requires { ForSome presence.old (IsPresence (present_heights (G.map view.now))) }
    ensures presence { ForSome presence.new (IsPresence (present_heights (G.map view.now))) }
    ensures range { IfOk result (λ range. range ≡ range_of (present_heights (G.map view.now))) }
{
    if let Some(known) = *presence {
        return Ok(known.range);
    }
    let told = view.presence()?;
    *presence = Some(told);
    Ok(told.range)
}
