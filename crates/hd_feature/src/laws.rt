// How great the values of notations are, and what they are made of.
ghost use Rattle.std.specs.Prelude.{◌≡◌, ◌≤◌, ◌*◌, ℕ, List, All, Option, Some, true, length, map, unsigned_abs};
ghost use Rattle.hd_num.specs.declared.frac.Frac.{Frac};
ghost use Rattle.hd_feature.specs.declared.notation.Attribute.TheVariants.{Lpvh};
ghost use Rattle.hd_feature.specs.declared.notation.Notation.{Notation};
ghost use Rattle.hd_feature.specs.declared.notation.Statistic.TheVariants.{Mean};
ghost use Rattle.hd_feature.specs.declared.region.Region.{Region};
ghost use Rattle.hd_feature.specs.HeightsAlone.{height_alone, heights_serve};
ghost use Rattle.hd_feature.specs.Value.{IsValue};

use hd_num::reduced_fraction_is_no_greater;

/// The mean of local heights that are all within a bound has a numerator of at most that bound for
/// each region, and a denominator of at most the number of regions.
pub fn mean_height_is_small()
    ensures { (n : Notation) (regions : List Region) (area bound : ℕ) (f : Frac)
        → n.attribute ≡ Lpvh → n.statistic ≡ Mean
        → All (λ r. unsigned_abs r.lpvh ≤ bound) regions → IsValue n regions area (Some f)
        → (unsigned_abs f.num ≤ length regions * bound) × (f.den ≤ length regions) }
{
    reduced_fraction_is_no_greater();
}

/// Where the pits and the local heights of the regions serve a notation, its value over these alone is
/// its value over the regions.
pub fn heights_alone_serve()
    ensures { (n : Notation) (regions : List Region) (area : ℕ) (value : Option Frac) → heights_serve n ≡ true
        → IsValue n (map height_alone regions) area value → IsValue n regions area value }
{}
