// The text of a file, as far as it is not written.
ghost use Rattle.std.specs.Prelude.{◌≡◌, ◌<◌, ◌≤◌, ◌++◌, IfOk, drop, length};
ghost use Rattle.hd_map.specs.Map.{cell_count};
ghost use Rattle.hd_sdf_write.specs.Canonical.{canonical};
ghost use Rattle.hd_sdf_write.specs.Pieces.{most_bytes};
ghost use Rattle.hd_sdf_write.specs.Texts.{file_with};

use crate::cells::write_data;
use crate::entry_lines::push_end;
use crate::header::push_header;
use crate::rest::Rest;
use crate::texts::SdfTexts;
use hd_list::{List, Memory};
use hd_map::Grid;
use std::alloc::Global;
use std::marker::Model;

// How many data are written at once: with 41 bytes for each they fit into a piece.
const DATA_AT_ONCE: u32 = 6_000;

/// What is not yet written of the text of a file: of what stands before the data, of these, and of what stands
/// behind them. Contracts see it as its bytes.
#[derive(Drop)]
pub struct Unwritten<'a, G: Grid> {
    header: Rest,
    grid: &'a G,
    // The first datum that is not written.
    datum: u32,
    end: Rest,
}

impl<'a, G: Grid> Model for Unwritten<'a, G> {
    ghost use Rattle.std.specs.Prelude.{◌≤◌, ◌++◌, ℕ, List as Items};
    ghost use Rattle.hd_map.specs.Map.{cell_count};
    ghost use Rattle.hd_sdf_write.specs.Data.{data_from};

    ghost Value = { Items ℕ };

    ghost view = { λ u. u.header ++ data_from (G.map u.grid.now) u.datum ++ u.end };

    ghost invariant = { λ u. u.datum ≤ cell_count (G.map u.grid.now).size };
}

impl<'a, G: Grid> Unwritten<'a, G> {
    /// The whole text of the file of these texts and a grid.
    pub fn new(alloc: Global, texts: &SdfTexts<'_>, grid: &'a G) -> Result<Self, Memory>
        ensures { IfOk result (λ u. u ≡ canonical (file_with texts.now (G.map grid.now))) }
    {
        let mut header = List::new(alloc);
        push_header(alloc, &mut header, texts, grid)?;
        let mut end = List::new(alloc);
        push_end(&mut end, texts.trailer)?;
        Ok(Unwritten {
            header: Rest::new(header),
            grid,
            datum: 0,
            end: Rest::new(end),
        })
    }

    /// Puts some of the next bytes at the end of a slice, and tells where they start.
    pub fn write_next(&mut self, text: &mut [u8]) -> usize
        requires { length text.old ≡ most_bytes }
        ensures text { self.old ≡ drop result text.new ++ self.new }
        ensures within { result ≤ length text.new }
        ensures some { 0 < length self.old → result < length text.new }
    {
        if self.header.len() > 0 {
            return self.header.write_next(text);
        }
        let size = self.grid.size();
        let left = size.profiles * size.points - self.datum;
        if left > 0 {
            let from = self.datum;
            self.datum += left.min(DATA_AT_ONCE);
            return write_data(text, self.grid, from, self.datum);
        }
        self.end.write_next(text)
    }
}
