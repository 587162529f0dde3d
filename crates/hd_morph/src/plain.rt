// Lists of plain numbers, negated, settled and held against a range.
ghost use Rattle.std.specs.Prelude.{◌≤ℤ◌, ◌↔◌, IsTrue, pos, neg_ℤ};
ghost use Rattle.hd_map.specs.Encoding.{most_filtered, values_of};
ghost use Rattle.hd_morph.specs.Plain.{AreBetween, IsPlain};
ghost use Rattle.hd_morph.specs.Raised.{AreTopped, AreSettled};
ghost use Rattle.hd_morph.specs.Turned.{AreNegated};

use crate::raise::Raise;
use hd_map::Lane;

/// Negates each height.
pub fn negate<L: Lane>(values: &mut [L])
    requires { IsPlain L.code (most_filtered L.code) values.old }
    ensures { AreNegated L.code values.old values.new }
{
    for place in 0..values.len() {
        values[place] = values[place].negated();
    }
}

/// Adds a number to each top where a height stands; elsewhere nothing stands.
pub fn settle<L: Raise>(tops: &mut [L], heights: &[L], number: i64)
    requires topped { AreTopped (most_filtered L.code) (values_of L.code heights.now)
        (values_of L.code tops.old) }
    requires least { neg_ℤ (pos L.code.most_number) ≤ℤ number }
    requires greatest { number ≤ℤ pos L.code.most_number }
    ensures { AreSettled L.code (values_of L.code heights.now) (values_of L.code tops.old) number tops.new }
{
    for place in 0..tops.len() {
        tops[place] = tops[place].settled(heights[place], number);
    }
}

/// Whether each height is from a least to a greatest one. Several numbers are taken at once, since the
/// loop has no branch.
pub fn are_between<L: Raise>(numbers: &[L], least: i64, greatest: i64) -> bool
    requires { least ≤ℤ pos 0 }
    ensures { IsTrue result ↔ AreBetween least greatest (values_of L.code numbers.now) }
{
    let mut all = true;
    for place in 0..numbers.len() {
        all = all & numbers[place].is_between(least, greatest);
    }
    all
}
