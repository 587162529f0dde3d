// What an edit is undone by.
ghost use Rattle.std.specs.Prelude.{◌≡◌, ◌<◌, ◌-◌, ◌^◌};
ghost use Rattle.hd_map.specs.Map.{cell_count};
ghost use Rattle.hd_morph.specs.Answer.{with_cells};
ghost use Rattle.hd_morph.specs.NewHeights.{cells_after};
ghost use Rattle.hd_morph.specs.Numbers.{heights_in};
ghost use Rattle.hd_edit.specs.Board.{RisesUpTo};
ghost use Rattle.hd_edit.specs.Entry.{AreHeightsFor, IsEntry, before_entry};

use crate::change::put_changes_back;
use crate::notes::Notes;
use crate::profile::set_profiles;
use hd_map::Grid;
use hd_morph::Numbers;

/// What an edit is undone by.
#[derive(Drop)]
pub enum Entry {
    /// What it changed, point by point.
    Changes(Notes),
    /// The heights that stood before it, by index, as numbers that stand for them. Where one stands for none, the
    /// cell stays.
    Heights(Numbers),
}

/// Undoes an edit. Heights go back without the masks, which stay where they are.
pub fn put_back<G: Grid>(grid: &mut G, entry: Entry)
    requires entry { IsEntry (G.map grid.old) entry }
    requires count { G.changes grid.old < 2 ^ 63 - 2 ^ 22 }
    ensures map { G.map grid.new ≡ before_entry entry (G.map grid.old) }
    ensures origin { G.comes_from grid.old grid.new }
    ensures count { RisesUpTo (cell_count (G.map grid.old).size) (G.changes grid.old) (G.changes grid.new) }
{
    match entry {
        Entry::Changes(changes) => put_changes_back(grid, changes),
        Entry::Heights(numbers) => put_heights_back(grid, &numbers),
    }
}

// Sets the heights that stood before an edit.
fn put_heights_back<G: Grid>(grid: &mut G, numbers: &Numbers)
    requires heights { let m = G.map grid.old in AreHeightsFor m.size m.data_type (heights_in numbers.now) }
    requires count { G.changes grid.old < 2 ^ 63 - 2 ^ 22 }
    ensures map { let m = G.map grid.old in G.map grid.new
        ≡ with_cells m (cells_after m (heights_in numbers.now)) }
    ensures origin { G.comes_from grid.old grid.new }
    ensures count { RisesUpTo (cell_count (G.map grid.old).size) (G.changes grid.old) (G.changes grid.new) }
{
    match numbers {
        Numbers::Narrow(heights) => set_profiles(grid, heights),
        Numbers::Wide(heights) => set_profiles(grid, heights),
    }
}
