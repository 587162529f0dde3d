// The numbers that a demo draws, and the surface and the edits that it makes of them.
ghost use Rattle.std.specs.Prelude.{◌≡◌, ◌<◌, ◌^◌, IfOk, OnOk, pos};
ghost use Rattle.hd_map.specs.Map.{IsSize, IsCellOf, InGrid, cell_count, position_at};
ghost use Rattle.hd_map.specs.Surface.{map_of};
ghost use Rattle.hd_map.specs.declared.types.DataType.TheVariants.{U16};
ghost use Rattle.hd_sdf_read.specs.FileOf.{file_of};
ghost use Rattle.hd_demo.specs.Generator.{cell_in, drawn, drawn_cells, drawn_file, drawn_map, edit_by, file_on, height_in, index_in, next_draw, set_line};

use hd_list::{List, Memory};
use hd_map::{Cell, Cells, DataType, Pos, Size, Surface, position_of};
use hd_num::{Decimal, push_text, push_unsigned};
use hd_sdf_read::{SdfFile, Version};
use std::alloc::Global;

// How many drawn numbers make one height.
const NUMBERS_OF_A_HEIGHT: u32 = 1_048_576;

/// Numbers below 2^32, each drawn from the one before.
#[derive(Clone, Copy, Debug)]
pub struct Draws {
    /// The number that was drawn last, or the one to begin with.
    pub last: u32,
}

impl Draws {
    /// Draws the next number.
    #[tactic(auto, unfolding(crate::specs::Generator::next_draw))]
    pub fn draw(&mut self) -> u32
        ensures drawn { result ≡ next_draw self.old.last }
        ensures last { self.new.last ≡ result }
    {
        let sum = u64::from(self.last) * 1_664_525 + 1_013_904_223;
        self.last = (sum % 4_294_967_296) as u32;
        self.last
    }
}

/// The file of a surface of this size, whose heights are drawn, one for each cell in position order.
/// Its three scales are 1.
pub fn drawn_file(alloc: Global, size: Size, draws: &mut Draws) -> Result<SdfFile, Memory>
    requires { IsSize size }
    ensures file { IfOk result (λ file. file_of file ≡ drawn_file size draws.old.last) }
    ensures last { OnOk result (draws.new.last ≡ drawn draws.old.last (cell_count size)) }
{
    let surface = drawn_surface(alloc, size, draws)?;
    file_on(alloc, surface)
}

// The surface of this size, whose heights are drawn.
fn drawn_surface(alloc: Global, size: Size, draws: &mut Draws) -> Result<Surface, Memory>
    requires { IsSize size }
    ensures surface { IfOk result (λ surface. map_of surface ≡ drawn_map size draws.old.last) }
    ensures last { OnOk result (draws.new.last ≡ drawn draws.old.last (cell_count size)) }
{
    let count = size.profiles * size.points;
    let mut cells = Cells::with_capacity(alloc, DataType::U16, count as usize)?;
    'cells: for _ in 0..count {
        cells.push(cell_in(draws.draw()))?;
    }
    Ok(Surface::new(size, cells))
}

// The cell that a drawn number makes.
fn cell_in(number: u32) -> Cell
    ensures cell { result ≡ cell_in number }
    ensures within { IsCellOf U16 result }
{
    Cell::Height(i64::from(height_in(number)))
}

// The height that a drawn number makes.
fn height_in(number: u32) -> u32
    ensures height { result ≡ height_in number }
    ensures within { result < 2 ^ 12 }
{
    number / NUMBERS_OF_A_HEIGHT
}

// The file of a surface whose scales are 1.
fn file_on(alloc: Global, surface: Surface) -> Result<SdfFile, Memory>
    ensures { IfOk result (λ file. file_of file ≡ file_on (map_of surface)) }
{
    let x_scale = unit(alloc, false, b"1".as_slice())?;
    let y_scale = unit(alloc, false, b"1".as_slice())?;
    let z_scale = unit(alloc, false, b"1".as_slice())?;
    let z_resolution = unit(alloc, true, b"-1".as_slice())?;
    Ok(SdfFile {
        version: Version::Bcr,
        manufac_id: List::new(alloc),
        create_date: List::new(alloc),
        mod_date: List::new(alloc),
        x_scale,
        y_scale,
        z_scale,
        z_resolution,
        extra: List::new(alloc),
        surface,
        trailer: List::new(alloc),
    })
}

// The decimal 1 or -1, as it is written.
fn unit(alloc: Global, negative: bool, literal: &[u8]) -> Result<Decimal, Memory>
    ensures { IfOk result (λ unit. unit ≡ record
        { negative = negative; digits = 1; exponent = pos 0; literal = literal.now }) }
{
    Ok(Decimal {
        negative,
        digits: 1,
        exponent: 0,
        literal: List::from_vec(Vec::from_slice(alloc, literal)?),
    })
}

/// The line of the next edit of a surface of this size, of two drawn numbers: the first makes the
/// index, the second the height.
pub fn drawn_edit(alloc: Global, size: Size, draws: &mut Draws) -> Result<List<u8>, Memory>
    requires { IsSize size }
    ensures edit { IfOk result (λ line. line ≡ edit_by size (next_draw draws.old.last)
        (next_draw (next_draw draws.old.last))) }
    ensures last { draws.new.last ≡ next_draw (next_draw draws.old.last) }
{
    let first = draws.draw();
    let second = draws.draw();
    let line = edit_by(alloc, size, first, second)?;
    Ok(line)
}

// The line that sets the cell of an index by one drawn number to the height by another.
fn edit_by(alloc: Global, size: Size, first: u32, second: u32) -> Result<List<u8>, Memory>
    requires { IsSize size }
    ensures { IfOk result (λ line. line ≡ edit_by size first second) }
{
    let at = position_in(size, first);
    let line = set_line(alloc, at, height_in(second))?;
    Ok(line)
}

// The position that a drawn number makes.
fn position_in(size: Size, number: u32) -> Pos
    requires { IsSize size }
    ensures { result ≡ position_at size (index_in (cell_count size) number) }
{
    position_of(size, number % (size.profiles * size.points))
}

// The line that sets a position to a height.
fn set_line(alloc: Global, at: Pos, height: u32) -> Result<List<u8>, Memory>
    ensures { IfOk result (λ line. line ≡ set_line at height) }
{
    let mut line = List::new(alloc);
    push_text(&mut line, b"set ".as_slice())?;
    push_unsigned(&mut line, u64::from(at.x))?;
    push_text(&mut line, b" ".as_slice())?;
    push_unsigned(&mut line, u64::from(at.y))?;
    push_text(&mut line, b" ".as_slice())?;
    push_unsigned(&mut line, u64::from(height))?;
    Ok(line)
}
