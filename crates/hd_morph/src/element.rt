// Elements of filters.
ghost use Rattle.std.specs.Prelude.{◌≡◌, ◌≤◌, ◌*◌, IfOk, length, All};
ghost use Rattle.hd_morph.specs.Element.{IsEntry, MakesElement, IsElement};
ghost use Rattle.hd_morph.specs.Turned.{turned_table};

use crate::ElementError;
use hd_list::{List, Memory};
use std::alloc::Global;
use std::marker::Model;

/// An element of the filters: a named table of whole numbers, some of them none. The centre of the
/// table is its origin, and has a number. Both sizes are odd and at most 15. Contracts see an
/// element as the record of its name, sizes and table.
#[derive(Debug, Drop)]
pub struct Element {
    name: List<u8>,
    width: u32,
    height: u32,
    table: List<Option<i64>>,
}

impl Model for Element {
    ghost use Rattle.hd_morph.specs.Element.{ElementTable, IsElement};

    ghost Value = { ElementTable };

    ghost view = { λ e. record { name = e.name; width = e.width; height = e.height; table = e.table } };

    ghost invariant = { λ e.
        IsElement (record { name = e.name; width = e.width; height = e.height; table = e.table }) };
}

impl Element {
    /// The element of this table, whose entries stand row by row, in steps.
    ///
    /// The table has as many entries as the sizes say, and each number is from -4,294,967,295 to
    /// 4,294,967,295. `EvenSize` comes exactly where a size is even, else `TooWide` exactly where
    /// one is over 15, else `NoOrigin` exactly where the centre has no number.
    pub fn new(
        name: List<u8>,
        width: u32,
        height: u32,
        table: List<Option<i64>>,
    ) -> Result<Element, ElementError>
        requires whole { length table ≡ width * height }
        requires entries { All IsEntry table }
        ensures { MakesElement (record {
          name = name;
          width = width;
          height = height;
          table =
              table;
        }) result }
    {
        if width % 2 == 0 || height % 2 == 0 {
            return Err(ElementError::EvenSize);
        }
        if width > 15 || height > 15 {
            return Err(ElementError::TooWide);
        }
        let centre = height / 2 * width + width / 2;
        if table.as_slice()[centre as usize].is_none() {
            return Err(ElementError::NoOrigin);
        }
        Ok(Element {
            name,
            width,
            height,
            table,
        })
    }

    /// The bytes of the name.
    pub fn name(&self) -> &[u8]
        ensures { result.now ≡ self.now.name }
    {
        self.name.as_slice()
    }

    /// How many columns the table has.
    pub fn width(&self) -> u32
        ensures width { result ≡ self.now.width }
        ensures limit { result ≤ 15 }
    {
        self.width
    }

    /// How many rows the table has.
    pub fn height(&self) -> u32
        ensures height { result ≡ self.now.height }
        ensures limit { result ≤ 15 }
    {
        self.height
    }

    /// The entries of the table, row by row.
    pub fn table(&self) -> &[Option<i64>]
        ensures table { result.now ≡ self.now.table }
        ensures element { IsElement self.now }
    {
        self.table.as_slice()
    }
}

/// The element with each number on the other side of its centre, and without a name.
pub(crate) fn turned(alloc: Global, element: &Element) -> Result<Element, Memory>
    ensures turned { IfOk result (λ t. t ≡ turned_table element.now) }
    ensures element { IsElement element.now }
{
    let mut table = Vec::new(alloc);
    table.extend_from_slice(element.table.as_slice())?;
    table.reverse();
    Ok(Element {
        name: List::new(alloc),
        width: element.width,
        height: element.height,
        table: List::from_vec(table),
    })
}
