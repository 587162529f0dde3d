// A grid under another setting of its neighbours.
use crate::{Adjacency, Heights, Lane, Pos, Size};

/// A grid under a setting of its neighbours that need not be its own. It is seen as the map of the
/// grid under this setting.
#[derive(Clone, Copy)]
pub struct Under<'a, G> {
    /// The grid.
    pub grid: &'a G,
    /// The setting.
    pub adjacency: Adjacency,
}

impl<'a, G: Heights> Heights for Under<'a, G> {
    ghost use Rattle.hd_map.specs.Sets.{under};
    ghost use Rattle.hd_map.specs.SettingLaws.{under-whole};

    ghost map = { λ view. under view.adjacency (G.map view.grid.now) };

    ghost whole = { λ view. under-whole view.adjacency (G.map view.grid.now) (G.whole view.grid.now) };

    fn size(&self) -> Size {
        self.grid.size()
    }

    fn adjacency(&self) -> Adjacency {
        self.adjacency
    }

    fn height(&self, at: Pos) -> Option<i64> {
        self.grid.height(at)
    }

    fn fill_heights<L: Lane>(&self, y: u32, row: &mut [L]) -> bool {
        self.grid.fill_heights(y, row)
    }
}
