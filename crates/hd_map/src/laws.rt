// What the definitions of saddles and change trees determine.
ghost use Rattle.std.specs.Prelude.{◌≡◌, ◌≢◌, ◌⊎◌, true, List};
ghost use Rattle.hd_map.specs.declared.types.Rank.{Rank};
ghost use Rattle.hd_map.specs.declared.types.SideName.{SideName};
ghost use Rattle.hd_map.specs.ChangeTree.{Joining, IsChangeTree};
ghost use Rattle.hd_map.specs.Map.{Map};
ghost use Rattle.hd_map.specs.Order.{IsNotAbove};
ghost use Rattle.hd_map.specs.Path.{IsPath};
ghost use Rattle.hd_map.specs.Rank.{below_by};
ghost use Rattle.hd_map.specs.Region.{IsPit};
ghost use Rattle.hd_map.specs.Saddle.{IsSaddle};

/// Two points have one saddle at most.
pub fn saddle_is_determined()
    ensures { (m : Map) (side : SideName) (a b s t : Rank) → IsSaddle m side a b s → IsSaddle m side a b t
        → s ≡ t }
{}

/// The saddle of two points is the same both ways.
pub fn saddle_is_the_same_both_ways()
    ensures { (m : Map) (side : SideName) (a b s : Rank) → IsSaddle m side a b s → IsSaddle m side b a s }
{}

/// The saddle of two points is not above the higher of their saddles with a third.
pub fn saddle_is_not_above_the_higher_of_two()
    ensures { (m : Map) (side : SideName) (a b c s t u : Rank) → IsSaddle m side a b s → IsSaddle m side b c t
        → IsSaddle m side a c u
        → IsNotAbove (below_by side) u s ⊎ IsNotAbove (below_by side) u t }
{}

/// Two points that a path joins have a saddle.
pub fn saddle_exists_where_there_is_a_path()
    ensures { (m : Map) (side : SideName) (a b : Rank) (xs : List Rank) → IsPath m a xs b
        → (s : Rank) × IsSaddle m side a b s }
{}

/// The saddle of two different pits is above both.
pub fn saddle_of_two_pits_is_above_both()
    ensures { (m : Map) (side : SideName) (p q s : Rank) → IsPit m side p → IsPit m side q → p ≢ q
        → IsSaddle m side p q s → (below_by side p s ≡ true) × (below_by side q s ≡ true) }
{}

/// A map has one change tree at most on each side.
pub fn change_tree_is_determined()
    ensures { (m : Map) (side : SideName) (a b : List Joining) → IsChangeTree m side a → IsChangeTree m side b
        → a ≡ b }
{}
