// What a graph and its flood line tell of a map whose lows and passes they are.
ghost use Rattle.std.specs.Prelude.{◌≡◌, ◌≢◌, ◌↔◌, ℕ, Bool, List, Option, AllPairs};
ghost use Rattle.hd_map.specs.declared.types.Pass.{Pass};
ghost use Rattle.hd_map.specs.declared.types.Rank.{Rank};
ghost use Rattle.hd_map.specs.declared.types.SideName.{SideName};
ghost use Rattle.hd_map.specs.Crossings.{AreCrossingsUnder};
ghost use Rattle.hd_map.specs.Map.{Map, IsMap};
ghost use Rattle.hd_map.specs.Order.{IsStrictOrder};
ghost use Rattle.hd_map.specs.Passes.{IsLabelled, ArePassesUnder};
ghost use Rattle.hd_map.specs.Rank.{below_by};
ghost use Rattle.hd_map.specs.Region.{AreRegions};
ghost use Rattle.hd_map.specs.Saddle.{SaddleIs};
ghost use Rattle.hd_map.specs.Walks.{HasPass};
ghost use Rattle.hd_graph.specs.declared.graph.Low.{Low};
ghost use Rattle.hd_graph.specs.declared.line.Stop.{Stop};
ghost use Rattle.hd_graph.specs.declared.merges.Merge.{Merge};
ghost use Rattle.hd_graph.specs.Basins.{AreBasins, AreLowsOf, ArePitsOf};
ghost use Rattle.hd_graph.specs.Graph.{IsGraph};
ghost use Rattle.hd_graph.specs.Line.{IsFloodLine};
ghost use Rattle.hd_graph.specs.Merges.{AreMerges};
ghost use Rattle.hd_graph.specs.Tells.{TellsSaddles};
ghost use Rattle.hd_graph.specs.Walks.{LeastHighestIs};

/// The regions of a map are basins, and its pits are their lows.
pub fn regions_are_basins()
    ensures basins { (m : Map) (side : SideName) (labels : List (Option ℕ)) → AreRegions m side labels
        → AreBasins m side (IsLabelled m labels) }
    ensures lows { (m : Map) (side : SideName) (labels : List (Option ℕ)) (lows : List Low)
        → AreRegions m side labels → ArePitsOf m side lows → AreLowsOf m side (IsLabelled m labels) lows }
{}

/// The passes between the basins of a map are crossings between them.
pub fn passes_are_crossings()
    ensures { (m : Map) (side : SideName) (labels : List (Option ℕ)) (passes : List Pass)
        → ArePassesUnder m side labels passes → AreCrossingsUnder m side labels passes }
{}

/// The crossings between the basins of a map and the basins' lows, of different indexes, are a graph.
pub fn passes_of_basins_are_a_graph()
    ensures { (m : Map) (side : SideName) (labels : List (Option ℕ)) (lows : List Low) (passes : List Pass)
        → IsMap m → AreBasins m side (IsLabelled m labels) → AreCrossingsUnder m side labels passes
        → AreLowsOf m side (IsLabelled m labels) lows
        → AllPairs (λ x y. x.rank.index ≢ y.rank.index) lows → IsGraph (below_by side) lows passes }
{}

/// The least highest crossing over all walks between the lows of two basins is their saddle over all
/// paths of points, and there is no walk exactly where there is no path.
pub fn least_highest_pass_is_the_saddle()
    ensures { (m : Map) (side : SideName) (labels : List (Option ℕ)) (passes : List Pass)
        → AreBasins m side (IsLabelled m labels) → AreCrossingsUnder m side labels passes
        → (a b : Rank) → IsLabelled m labels a a → IsLabelled m labels b b → a ≢ b
        → (s : Option Rank) → LeastHighestIs (below_by side) passes a b s ↔ SaddleIs m side a b s }
{}

/// The flood line of such a graph tells the pits of the map and their saddles.
pub fn flood_line_tells_the_saddles()
    ensures { (m : Map) (side : SideName) (labels : List (Option ℕ)) (lows : List Low)
        (passes : List Pass) (line : List Stop)
        → AreBasins m side (IsLabelled m labels) → AreCrossingsUnder m side labels passes
        → AreLowsOf m side (IsLabelled m labels) lows
        → IsFloodLine (below_by side) lows passes line → TellsSaddles m side line }
{}

/// The merges of the lows of such a graph are at the saddles of these lows.
pub fn merges_tell_the_saddles()
    ensures { (m : Map) (side : SideName) (labels : List (Option ℕ)) (lows : List Low)
        (passes : List Pass) (merges : List Merge)
        → AreBasins m side (IsLabelled m labels) → AreCrossingsUnder m side labels passes
        → AreLowsOf m side (IsLabelled m labels) lows
        → AreMerges (below_by side) (LeastHighestIs (below_by side) passes) lows merges
        → AreMerges (below_by side) (SaddleIs m side) lows merges }
{}

/// Lows have the merges that they have by other passes, where these join the same lows at the same heights,
/// whichever end each of them names first.
pub fn merges_rest_on_the_passes()
    ensures { (below : Rank → Rank → Bool) (lows : List Low) (old new : List Pass) (merges : List Merge)
        → IsStrictOrder below → ((a b w : Rank) → HasPass old a b w ↔ HasPass new a b w)
        → AreMerges below (LeastHighestIs below old) lows merges → AreMerges below (LeastHighestIs below new) lows merges }
{}
