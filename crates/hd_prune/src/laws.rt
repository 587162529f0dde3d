// What holds of every pruning.
ghost use Rattle.std.specs.Prelude.{◌≤◌, ◌↔◌, ℕ, ℤ, List, Contains};
ghost use Rattle.hd_map.specs.declared.types.Rank.{Rank};
ghost use Rattle.hd_map.specs.declared.types.SideName.{SideName};
ghost use Rattle.hd_map.specs.Map.{Map, IsMap};
ghost use Rattle.hd_map.specs.Pruning.{Leaving, SzIs, IsPruning};
ghost use Rattle.hd_map.specs.Region.{IsPit};
ghost use Rattle.hd_map.specs.Undercut.{Undercuts};

/// Each map has a pruning, on each side and at each percent, in thousandths: the steps come to an end.
pub fn pruning_exists()
    ensures { (m : Map) (side : SideName) (thousandths : ℕ) → IsMap m
        → (xs : List Leaving) × (last : List Rank) × (owner : Rank → Rank) × IsPruning m side thousandths xs last owner }
{}

/// Pruning keeps exactly the pits that no pit undercuts.
pub fn pruning_keeps_what_is_not_undercut()
    ensures { (m : Map) (side : SideName) (thousandths : ℕ) (sz : ℤ) (xs : List Leaving)
        (last : List Rank) (owner : Rank → Rank)
        → IsMap m → IsPruning m side thousandths xs last owner → SzIs m sz
        → (p : Rank) → Contains last p ↔ (IsPit m side p × ((q : Rank) → Undercuts m side thousandths sz q p → ⊥)) }
{}

/// The pits kept at the greater of two percents, in thousandths, are all kept at the lesser.
pub fn pruning_is_nested()
    ensures { (m : Map) (side : SideName) (a b : ℕ) (xs ys : List Leaving) (last end : List Rank)
        (mine yours : Rank → Rank)
        → IsMap m → a ≤ b → IsPruning m side a xs last mine → IsPruning m side b ys end yours
        → (p : Rank) → Contains end p → Contains last p }
{}
