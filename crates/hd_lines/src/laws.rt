// What holds of the border lines of every pruning.
ghost use Rattle.std.specs.Prelude.{◌≡◌, ◌⊎◌, ℕ, true, List, Contains};
ghost use Rattle.hd_map.specs.declared.types.Rank.{Rank};
ghost use Rattle.hd_map.specs.declared.types.SideName.{SideName};
ghost use Rattle.hd_map.specs.Map.{Map, IsMap};
ghost use Rattle.hd_map.specs.NearestSaddle.{IsNearestSaddle};
ghost use Rattle.hd_map.specs.Order.{IsNotAbove};
ghost use Rattle.hd_map.specs.Pruning.{Leaving, IsPruning};
ghost use Rattle.hd_map.specs.Rank.{below_by};
ghost use Rattle.hd_map.specs.Region.{IsPit};
ghost use Rattle.hd_map.specs.Saddle.{IsSaddle};
ghost use Rattle.hd_lines.specs.declared.line.BorderLine.{BorderLine};
ghost use Rattle.hd_lines.specs.Lines.{AreBorderLines};

/// The two pits of a border line have a saddle, and the pass of the line is not below it.
pub fn passes_are_not_below_saddles()
    ensures { (m : Map) (side : SideName) (thousandths : ℕ) (steps : List Leaving)
        (last : List Rank) (owner : Rank → Rank) (lines : List BorderLine)
        → IsPruning m side thousandths steps last owner → AreBorderLines m side last owner lines
        → (line : BorderLine) → Contains lines line → (s : Rank) × IsSaddle m side line.a line.b s × IsNotAbove (below_by side) s line.pass }
{}

/// A kept pit with a nearest saddle is an end of a border line whose pass is that saddle, and which says that
/// this is the saddle of its two pits.
pub fn nearest_saddles_are_passes()
    ensures { (m : Map) (side : SideName) (thousandths : ℕ) (steps : List Leaving)
        (last : List Rank) (owner : Rank → Rank) (lines : List BorderLine)
        → IsMap m → IsPruning m side thousandths steps last owner → AreBorderLines m side last owner lines
        → (p s : Rank) → Contains last p → IsNearestSaddle m side last p s
        → (line : BorderLine) × Contains lines line × ((line.a ≡ p) ⊎ (line.b ≡ p)) × (line.pass ≡ s) × (line.on_saddle ≡ true) }
{}

/// The kept pits and the owners of all pits determine the list of border lines.
pub fn border_lines_are_determined()
    ensures { (m : Map) (side : SideName) (kept : List Rank) (mine yours : Rank → Rank)
        (xs ys : List BorderLine)
        → ((r : Rank) → IsPit m side r → mine r ≡ yours r) → AreBorderLines m side kept mine xs → AreBorderLines m side kept yours ys → xs ≡ ys }
{}
