// How the heights of a grid are exchanged for others.
ghost use Rattle.std.specs.Prelude.{◌≡◌, ◌<◌, ◌^◌, length};
ghost use Rattle.hd_map.specs.Encoding.{most_filtered, values_of};
ghost use Rattle.hd_map.specs.Lanes.{IsPlainNumber};
ghost use Rattle.hd_morph.specs.Plain.{IsPlain};
ghost use Rattle.hd_edit.specs.Exchange.{IsWayFor, different, differs};

use hd_map::Lane;

/// How new heights are put in the place of others.
#[derive(Clone, Copy)]
pub enum Way {
    /// No height becomes another one, so all stay.
    Leave,
    /// Most become others: the list of the heights before undoes that.
    Exchange,
    /// Few become others, and these are noted.
    Note,
}

/// How heights are put in the place of those of another list.
pub fn way_for<L: Lane>(olds: &[L], news: &[L]) -> Way
    requires same { length olds.now ≡ length news.now }
    requires few { length news.now < 2 ^ 32 }
    requires olds { IsPlain L.code (most_filtered L.code) olds.now }
    requires news { IsPlain L.code (most_filtered L.code) news.now }
    ensures { IsWayFor (values_of L.code olds.now) (values_of L.code news.now) (length news.now) result }
{
    let different = count_different(olds, news);
    if different == 0 {
        return Way::Leave;
    }
    // A list takes 4 or 8 bytes a point, and notes take 6 or 12 for each that becomes another.
    if 5 * u64::from(different) < 3 * news.len() as u64 {
        return Way::Note;
    }
    Way::Exchange
}

// How many numbers stand for other heights than those of another list at their places.
fn count_different<L: Lane>(olds: &[L], news: &[L]) -> u32
    requires same { length olds.now ≡ length news.now }
    requires few { length news.now < 2 ^ 32 }
    requires olds { IsPlain L.code (most_filtered L.code) olds.now }
    requires news { IsPlain L.code (most_filtered L.code) news.now }
    ensures { result ≡ different (values_of L.code olds.now) (values_of L.code news.now) (length news.now) }
{
    let mut count: u32 = 0;
    for place in 0..news.len() {
        count += u32::from(differ(olds[place], news[place]));
    }
    count
}

// Whether two numbers stand for different heights, or one of them alone for one.
#[inline]
#[tactic(auto, using(crate::proofs::Entries::exceeds_differs))]
fn differ<L: Lane>(one: L, other: L) -> bool
    requires one { IsPlainNumber L.code (most_filtered L.code) one }
    requires other { IsPlainNumber L.code (most_filtered L.code) other }
    ensures { result ≡ differs (L.code.shown one) (L.code.shown other) }
{
    one.exceeds(other) | other.exceeds(one)
}
