// What holds of the values, and that they are determined.
ghost use Rattle.std.specs.Prelude.{◌≡◌, ◌≢◌, ◌≤◌, ℕ, ℤ, true, List, length, map, sum, Option, Some, Contains};
ghost use Rattle.hd_num.specs.declared.frac.Frac.{Frac};
ghost use Rattle.hd_map.specs.declared.types.Rank.{Rank};
ghost use Rattle.hd_map.specs.declared.types.SideName.{SideName};
ghost use Rattle.hd_map.specs.Map.{IsMap, Map};
ghost use Rattle.hd_map.specs.NearestSaddle.{IsNearestSaddle};
ghost use Rattle.hd_map.specs.Pruning.{IsPruning, Leaving};
ghost use Rattle.hd_prune.specs.declared.step.Kept.{Kept};
ghost use Rattle.hd_lines.specs.Lines.{IsOwnedBy};
ghost use Rattle.hd_feature.specs.declared.notation.Notation.{Notation};
ghost use Rattle.hd_feature.specs.declared.region.Region.{Region};
ghost use Rattle.hd_feature.specs.HeightsAlone.{height_alone, heights_serve};
ghost use Rattle.hd_feature.specs.Value.{AreSameValues, attributes};
ghost use Rattle.hd_stats.specs.declared.name.HeightName.{HeightName};
ghost use Rattle.hd_stats.specs.Distribution.{IsHist, IsPerc};
ghost use Rattle.hd_stats.specs.Fill.{AreFilled, AreFills, AreSameFills};
ghost use Rattle.hd_stats.specs.Heights.{IsHeightValue};

use hd_num::reduced_fraction_is_determined;

/// The counts of the bins add up to the number of the attributes.
pub fn counts_add_up()
    ensures { (n : Notation) (regions : List Region) (bins : ℕ) (counts : List ℕ) → 1 ≤ bins
        → IsHist n regions bins (Some counts) → sum counts ≡ length (attributes n regions) }
{}

/// The points that are summed for two different kept pits of a pruning are different.
pub fn filled_points_are_apart()
    ensures { (m : Map) (side : SideName) (thousandths : ℕ) (steps : List Leaving)
        (last : List Rank) (owner : Rank → Rank) → IsPruning m side thousandths steps last owner
        → (p q s u : Rank) (xs ys : List Rank) → Contains last p → Contains last q → p ≢ q → IsNearestSaddle m side last p s → IsNearestSaddle m side last q u
        → AreFilled m side p s xs → AreFilled m side q u ys → (x y : Rank) → Contains xs x → Contains ys y → x ≢ y }
{}

/// The points that are summed for a kept pit of a pruning are all owned by it.
pub fn filled_points_are_owned()
    ensures { (m : Map) (side : SideName) (thousandths : ℕ) (steps : List Leaving)
        (last : List Rank) (owner : Rank → Rank) → IsMap m
        → IsPruning m side thousandths steps last owner
        → (p s : Rank) (xs : List Rank) → Contains last p → IsNearestSaddle m side last p s → AreFilled m side p s xs
        → (x : Rank) → Contains xs x → IsOwnedBy m side owner x p }
{}

/// A map has one value of each height parameter, a notation one list of counts and one share over some
/// regions, and the kept pits of a map have one list of fills.
pub fn further_values_are_determined()
    ensures heights { (m : Map) (name : HeightName) (a b : Option Frac) → IsHeightValue m name a
        → IsHeightValue m name b → AreSameValues a b }
    ensures shares { (n : Notation) (regions : List Region) (above : ℤ) (a b : Option Frac)
        → IsPerc n regions above a → IsPerc n regions above b → AreSameValues a b }
    ensures counts { (n : Notation) (regions : List Region) (bins : ℕ) (a b : Option (List ℕ))
        → IsHist n regions bins a → IsHist n regions bins b → a ≡ b }
    ensures fills { (m : Map) (side : SideName) (kept : List Kept) (a b : List (Option Frac))
        → AreFills m side kept a → AreFills m side kept b → AreSameFills a b }
{
    reduced_fraction_is_determined();
}

/// Where the pits and the local heights of the regions serve a notation, its counts and its share over
/// these alone are those over the regions.
pub fn heights_alone_serve_distributions()
    ensures counts { (n : Notation) (regions : List Region) (bins : ℕ) (a : Option (List ℕ))
        → heights_serve n ≡ true
        → IsHist n (map height_alone regions) bins a → IsHist n regions bins a }
    ensures shares { (n : Notation) (regions : List Region) (above : ℤ) (a : Option Frac)
        → heights_serve n ≡ true
        → IsPerc n (map height_alone regions) above a → IsPerc n regions above a }
{}
