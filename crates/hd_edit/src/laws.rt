// What edits and undos keep of maps.
ghost use Rattle.std.specs.Prelude.{◌≡◌, ◌≤◌, ℕ, List, length, Result, Ok, All};
ghost use Rattle.hd_map.specs.Map.{Map, IsMap};
ghost use Rattle.hd_morph.specs.Element.{ElementTable};
ghost use Rattle.hd_edit.specs.declared.edit.Edit.{Edit as AnyEdit};
ghost use Rattle.hd_edit.specs.declared.edit.EditError.{EditError};
ghost use Rattle.hd_edit.specs.Board.{IsEdited, log_places, kept_after, map_before, earlier_before};

use hd_morph::{accepted_cells_make_a_map, filter_is_determined};

/// An accepted edit makes a map of a map.
pub fn edits_keep_maps()
    ensures { (elements : List ElementTable) (m new : Map) (e : AnyEdit) →
        IsMap m → IsEdited elements m e (Ok new) → IsMap new }
{
    accepted_cells_make_a_map();
}

/// An edit of a map has one outcome.
pub fn edit_is_determined()
    ensures { (elements : List ElementTable) (m : Map) (e : AnyEdit) (x y : Result Map EditError) →
        IsMap m → IsEdited elements m e x → IsEdited elements m e y → x ≡ y }
{
    filter_is_determined();
}

/// At most 32 earlier maps are kept, and each is a map.
pub fn logs_keep_maps()
    ensures maps { (earlier : List Map) (m : Map) →
        All IsMap earlier → IsMap m → All IsMap (kept_after earlier m) }
    ensures few { (earlier : List Map) (m : Map) → length (kept_after earlier m) ≤ log_places }
{}

/// An undo goes back to a map, and leaves maps before it.
pub fn undos_keep_maps()
    ensures back { (n : ℕ) (earlier : List Map) (m : Map) →
        All IsMap earlier → IsMap m → IsMap (map_before n earlier m) }
    ensures left { (n : ℕ) (earlier : List Map) →
        All IsMap earlier → All IsMap (earlier_before n earlier) }
{}

/// The last accepted edit is undone to the map before it, and an undo of nothing stays.
pub fn undos_go_back()
    ensures last { (earlier : List Map) (m new : Map) → map_before 1 (kept_after earlier m) new ≡ m }
    ensures none { (earlier : List Map) (m : Map) → map_before 0 earlier m ≡ m }
    ensures all { (earlier : List Map) → earlier_before 0 earlier ≡ earlier }
{}
