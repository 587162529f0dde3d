// What is determined by a map.
ghost use Rattle.std.specs.Prelude.{◌≡◌, ℕ, List, Option};
ghost use Rattle.hd_feature.specs.declared.notation.Notation.{Notation};
ghost use Rattle.hd_feature.specs.declared.notation.Parameter.{Parameter};
ghost use Rattle.hd_feature.specs.declared.region.Region.{Region};
ghost use Rattle.hd_feature.specs.Value.{AreSameValues};
ghost use Rattle.hd_lines.specs.declared.line.BorderLine.{BorderLine};
ghost use Rattle.hd_map.specs.declared.types.RegionSize.{RegionSize};
ghost use Rattle.hd_map.specs.declared.types.SideName.{SideName};
ghost use Rattle.hd_map.specs.Map.{Map, IsMap};
ghost use Rattle.hd_map.specs.Pruning.{Leaving};
ghost use Rattle.hd_num.specs.declared.frac.Frac.{Frac};
ghost use Rattle.hd_prune.specs.declared.step.Kept.{Kept};
ghost use Rattle.hd_prune.specs.Staying.{AreKeptAlone};
ghost use Rattle.hd_regions.specs.Features.{AreFeatures};
ghost use Rattle.hd_regions.specs.Lines.{ArePrunedLines};
ghost use Rattle.hd_regions.specs.Owned.{ArePrunedRegions};
ghost use Rattle.hd_regions.specs.Regions.{AreRegionSizes};
ghost use Rattle.hd_regions.specs.Values.{IsNotationValue, IsParameterValue};

use hd_lines::border_lines_are_determined;
use hd_map::pruning_is_determined;
use hd_num::reduced_fraction_is_determined;

/// A map has one list of regions on a side.
pub fn region_sizes_are_determined()
    ensures { (m : Map) (side : SideName) (a b : List RegionSize) → IsMap m
        → AreRegionSizes m side a → AreRegionSizes m side b → a ≡ b }
{}

/// A pruning of a map on a side at a percent has one list of steps, and leaves one list of regions.
pub fn pruned_regions_are_determined()
    ensures { (m : Map) (side : SideName) (thousandths : ℕ) (xs ys : List Leaving)
        (a b : List RegionSize) → IsMap m
        → ArePrunedRegions m side thousandths xs a → ArePrunedRegions m side thousandths ys b → (xs ≡ ys) × (a ≡ b) }
{
    pruning_is_determined();
}

/// A map has one list of border lines on each side at each percent.
pub fn pruned_lines_are_determined()
    ensures { (m : Map) (side : SideName) (thousandths : ℕ) (xs ys : List BorderLine) → IsMap m
        → ArePrunedLines m side thousandths xs → ArePrunedLines m side thousandths ys → xs ≡ ys }
{
    pruning_is_determined();
    border_lines_are_determined();
}

/// The pruning of a map on a side at a percent keeps one list of pits.
pub fn kept_pits_are_determined()
    ensures { (m : Map) (side : SideName) (thousandths : ℕ) (a b : List Kept)
        → AreKeptAlone m side thousandths a → AreKeptAlone m side thousandths b → a ≡ b }
{
    pruning_is_determined();
}

/// It leaves one list of regions, by what feature parameters take of them.
pub fn features_are_determined()
    ensures { (m : Map) (side : SideName) (thousandths : ℕ) (a b : List Region) → IsMap m
        → AreFeatures m side thousandths a → AreFeatures m side thousandths b → a ≡ b }
{
    pruning_is_determined();
}

/// A notation and a parameter have one value on a map.
pub fn values_are_determined()
    ensures notations { (m : Map) (n : Notation) (a b : Option Frac) → IsMap m
        → IsNotationValue m n a → IsNotationValue m n b → AreSameValues a b }
    ensures parameters { (m : Map) (p : Parameter) (a b : Option Frac) → IsMap m
        → IsParameterValue m p a → IsParameterValue m p b → AreSameValues a b }
{
    pruning_is_determined();
    reduced_fraction_is_determined();
}
