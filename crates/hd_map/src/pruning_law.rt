// What the definition of pruning determines.
ghost use Rattle.std.specs.Prelude.{◌≡◌, ℕ, List};
ghost use Rattle.hd_map.specs.declared.types.Rank.{Rank};
ghost use Rattle.hd_map.specs.declared.types.SideName.{SideName};
ghost use Rattle.hd_map.specs.Map.{Map};
ghost use Rattle.hd_map.specs.Pruning.{Leaving, IsPruning};

/// Pruning is a function of the map, the side and the percent: its steps, the last set of pits and
/// the last owner are determined.
pub fn pruning_is_determined()
    ensures { (m : Map) (side : SideName) (thousandths : ℕ) (xs ys : List Leaving)
        (last end : List Rank) (mine yours : Rank → Rank)
        → IsPruning m side thousandths xs last mine → IsPruning m side thousandths ys end yours → (xs ≡ ys) × (last ≡ end) × (mine ≡ yours) }
{}
