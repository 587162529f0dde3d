// The greatest of the heights of a rectangle round each position of a grid.
ghost use Rattle.std.specs.Prelude.{◌≡◌, ◌<◌, ◌^◌, length};
ghost use Rattle.hd_map.specs.Map.{IsSize, cell_count};
ghost use Rattle.hd_map.specs.Encoding.{values_of};
ghost use Rattle.hd_morph.specs.Round.{AreRowGreatests, AreRoundGreatests};

use crate::raise::Raise;
use crate::window::{spread, spread_near};
use hd_map::Size;

/// Puts at each position the greatest of the heights at most `across` columns and `down` rows off.
///
/// It takes no memory: first the columns are gone through in place, and then the rows.
pub fn spread_round<L: Raise>(tops: &mut [L], size: Size, across: usize, down: usize)
    requires size { IsSize size }
    requires whole { length tops.old ≡ cell_count size }
    requires across { across < 2 ^ 31 }
    requires down { down < 2 ^ 31 }
    ensures { AreRoundGreatests size across down (values_of L.code tops.old) (values_of L.code tops.new) }
{
    spread(tops, size.points as usize, down);
    spread_rows(tops, size, across);
}

// Puts at each position the greatest of the heights of its row, at most `reach` columns off.
fn spread_rows<L: Raise>(tops: &mut [L], size: Size, reach: usize)
    requires size { IsSize size }
    requires whole { length tops.old ≡ cell_count size }
    requires reach { reach < 2 ^ 31 }
    ensures { AreRowGreatests size reach (values_of L.code tops.old) (values_of L.code tops.new) }
{
    let points = size.points as usize;
    for y in 0..size.profiles as usize {
        let start = y * points;
        spread_near(&mut tops[start..start + points], reach);
    }
}
