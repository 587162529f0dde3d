// What the definitions of the filters determine.
ghost use Rattle.std.specs.Prelude.{◌≡◌, ◌↔◌, List, Result};
ghost use Rattle.hd_map.specs.declared.types.Cell.{Cell};
ghost use Rattle.hd_map.specs.declared.types.Pos.{Pos};
ghost use Rattle.hd_map.specs.declared.types.Size.{Size};
ghost use Rattle.hd_map.specs.Map.{Map, IsMap};
ghost use Rattle.hd_morph.specs.Element.{ElementTable, IsElement};
ghost use Rattle.hd_morph.specs.declared.filter.Filter.{Filter};
ghost use Rattle.hd_morph.specs.declared.filter.Filter.TheVariants.{Opening, Closing};
ghost use Rattle.hd_morph.specs.Filter.{Relief, IsDilation, IsErosion};
ghost use Rattle.hd_morph.specs.Compare.{HaveSamePoints, IsNowhereAbove};
ghost use Rattle.hd_morph.specs.Answer.{AreFilteredCells, IsOutOfRange, IsStable, with_cells};

/// For two reliefs with the same present points, the dilation of the first is nowhere above the
/// second exactly where the first is nowhere above the erosion of the second.
pub fn dilation_and_erosion_are_adjoint()
    ensures { (s : Size) (e : ElementTable) (f g d w : Relief) → HaveSamePoints s f g
        → IsDilation s e f d → IsErosion s e g w → IsNowhereAbove s d g ↔ IsNowhereAbove s f w }
{}

/// An opening or a closing that is accepted, done again on the map with its cells, is accepted and
/// changes no cell.
pub fn filtered_again_is_the_same()
    ensures opening { IsStable Opening }
    ensures closing { IsStable Closing }
{}

/// A filter of a map has one answer: one list of cells, or one first position that is out of range.
pub fn filter_is_determined()
    ensures cells { (filter : Filter) (m : Map) (e : ElementTable) (a b : List Cell) → IsMap m
        → AreFilteredCells filter m e a → AreFilteredCells filter m e b → a ≡ b }
    ensures position { (filter : Filter) (m : Map) (e : ElementTable) (p q : Pos) → IsMap m
        → IsOutOfRange filter m e p → IsOutOfRange filter m e q → p ≡ q }
    ensures either { (filter : Filter) (m : Map) (e : ElementTable) (cells : List Cell) (p : Pos) → IsMap m
        → AreFilteredCells filter m e cells → IsOutOfRange filter m e p → ⊥ }
{}

/// The accepted cells of a filter make a map with the masks that are there.
pub fn accepted_cells_make_a_map()
    ensures { (filter : Filter) (m : Map) (e : ElementTable) (cells : List Cell) → IsMap m
        → AreFilteredCells filter m e cells → IsMap (with_cells m cells) }
{}
