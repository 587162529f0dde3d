// How far the heights of a map span.
ghost use Rattle.std.specs.Prelude.{◌≡◌};
ghost use Rattle.hd_map.specs.Map.{IsMap, Map};
ghost use Rattle.hd_map.specs.Presence.{present_heights};
ghost use Rattle.hd_map.specs.HeightRange.{range_of};
ghost use Rattle.hd_map.specs.Pruning.{SzIs};

use hd_map::HeightRange;

/// The greatest height of a present point less the least in steps, and 0 where no point is present, of the
/// range of the heights of a map: its Sz (ISO 25178-2).
pub fn height_span(range: Option<HeightRange>) -> i64
    requires { (m : Map) × IsMap m × (range ≡ range_of (present_heights m)) }
    ensures { (m : Map) → IsMap m → range ≡ range_of (present_heights m) → SzIs m result }
{
    match range {
        Some(range) => range.greatest - range.least,
        None => 0,
    }
}
