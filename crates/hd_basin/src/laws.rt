// What follows for a pool from what it is.
ghost use Rattle.std.specs.Prelude.{◌≡◌, ◌≢◌, ◌↔◌, ℕ, List, Option, length};
ghost use Rattle.hd_map.specs.declared.types.Rank.{Rank};
ghost use Rattle.hd_map.specs.declared.types.SideName.{SideName};
ghost use Rattle.hd_map.specs.Map.{Map};
ghost use Rattle.hd_map.specs.Rank.{below_by};
ghost use Rattle.hd_map.specs.Region.{IsPit};
ghost use Rattle.hd_map.specs.Saddle.{SaddleIs};
ghost use Rattle.hd_graph.specs.declared.line.Stop.{Stop};
ghost use Rattle.hd_graph.specs.declared.merges.Merge.{Merge};
ghost use Rattle.hd_graph.specs.Graph.{Net};
ghost use Rattle.hd_graph.specs.Line.{IsFloodLine};
ghost use Rattle.hd_graph.specs.Merges.{AreMerges};
ghost use Rattle.hd_graph.specs.Tells.{TellsSaddles};
ghost use Rattle.hd_graph.specs.Walks.{LeastHighestIs};
ghost use Rattle.hd_tiles.specs.Stamps.{ComesFrom};
ghost use Rattle.hd_basin.specs.InStep.{IsInStep};
ghost use Rattle.hd_basin.specs.Parts.{Pool};
ghost use Rattle.hd_basin.specs.Reading.{IsGraphOf};

/// A pool in step with one map in tiles is in step with each that comes from it.
pub fn pool_stays_in_step()
    ensures { (pool : Pool) (side : SideName) (old new : Map) (before after : List ℕ)
        → length before ≡ length after
        → ComesFrom old pool.side before new pool.side after → IsInStep old side before pool → IsInStep new side after pool }
{}

/// In the graph of the local basins of a map the least highest pass over all walks between two pits is
/// their saddle over all paths of points of the whole map, and there is no walk exactly where there is
/// no path. So its flood line tells the pits and their saddles, though paths leave and enter tiles, and
/// its merges are at the saddles of the lows.
pub fn graph_of_basins_tells_the_saddles()
    ensures walks { (m : Map) (side : SideName) (t : ℕ) (net : Net) → IsGraphOf m side t net
        → (p q : Rank) → IsPit m side p → IsPit m side q → p ≢ q
        → (s : Option Rank) → LeastHighestIs (below_by side) net.passes p q s ↔ SaddleIs m side p q s }
    ensures line { (m : Map) (side : SideName) (t : ℕ) (net : Net) (line : List Stop) → IsGraphOf m side t net
        → IsFloodLine (below_by side) net.lows net.passes line → TellsSaddles m side line }
    ensures merges { (m : Map) (side : SideName) (t : ℕ) (net : Net) (merges : List Merge)
        → IsGraphOf m side t net
        → AreMerges (below_by side) (LeastHighestIs (below_by side) net.passes) net.lows merges
        → AreMerges (below_by side) (SaddleIs m side) net.lows merges }
{}
