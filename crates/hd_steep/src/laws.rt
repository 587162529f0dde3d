// What the definitions of nexts, roots and regions determine, on either side.
ghost use Rattle.std.specs.Prelude.{◌≡◌, ℕ, List, Option};
ghost use Rattle.hd_map.specs.declared.types.Rank.{Rank};
ghost use Rattle.hd_map.specs.declared.types.SideName.{SideName};
ghost use Rattle.hd_map.specs.Map.{Map, IsMap};
ghost use Rattle.hd_map.specs.Region.{IsNext, IsPit, IsRoot, AreRegions};

/// Each point has one next at most.
pub fn next_is_determined()
    ensures { (m : Map) (side : SideName) (p q r : Rank) → IsNext m side p q → IsNext m side p r → q ≡ r }
{}

/// Each point has one root at most.
pub fn root_is_determined()
    ensures { (m : Map) (side : SideName) (p r s : Rank) → IsRoot m side p r → IsRoot m side p s → r ≡ s }
{}

/// Each pit is its own root.
pub fn pit_is_its_own_root()
    ensures { (m : Map) (side : SideName) (p : Rank) → IsPit m side p → IsRoot m side p p }
{}

/// A map has one list of regions at most.
pub fn regions_are_determined()
    ensures { (m : Map) (side : SideName) (a b : List (Option ℕ)) → IsMap m → AreRegions m side a
        → AreRegions m side b → a ≡ b }
{}
