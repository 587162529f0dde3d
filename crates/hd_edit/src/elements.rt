// The elements of a board, under their names.
ghost use Rattle.std.specs.Prelude.{◌≡◌, [], Some, None, IfOk, OnOk, OnErr, MatchResult, map};
ghost use Rattle.hd_edit.specs.declared.edit.EditError.TheVariants.{NoElement};
ghost use Rattle.hd_edit.specs.Elements.{first_named, elements_with, line_of as line};

use crate::EditError;
use hd_list::{List, Memory};
use hd_morph::Element;
use indexmap::IndexMap;
use std::alloc::Global;
use std::marker::Model;

/// The name and the sizes of an element.
#[derive(Debug, Drop)]
pub struct ElementLine {
    /// The bytes of the name.
    pub name: List<u8>,
    /// How many columns its table has.
    pub width: u32,
    /// How many rows its table has.
    pub height: u32,
}

/// Elements in the order of their first naming. Contracts see the list of their tables.
#[derive(Drop)]
pub struct Elements {
    by_name: IndexMap<Vec<u8>, Element>,
}

impl Model for Elements {
    ghost use Rattle.std.specs.Prelude.{◌≡◌, List as Items, All};
    ghost use Rattle.indexmap.specs.IndexMap.{values};
    ghost use Rattle.hd_morph.specs.Element.{ElementTable};

    ghost Value = { Items ElementTable };

    ghost view = { λ e. values e.by_name };

    ghost invariant = { λ e. All (λ entry. entry.0.items ≡ entry.1.name) e.by_name.entries };
}

impl Elements {
    /// No element. It takes no memory.
    pub fn new(alloc: Global) -> Elements
        ensures { result ≡ [] }
    {
        Elements {
            by_name: IndexMap::new(alloc),
        }
    }

    /// Takes an element in: a known name keeps its place and takes the new table, and a new name
    /// goes last. Refused its memory, it changes nothing.
    pub fn define(&mut self, alloc: Global, element: Element) -> Result<(), Memory>
        ensures ok { OnOk result (self.new ≡ elements_with self.old element) }
        ensures err { OnErr result (self.new ≡ self.old) }
    {
        let mut name = Vec::new(alloc);
        name.extend_from_slice(element.name())?;
        self.by_name.insert(name, element)?;
        Ok(())
    }

    /// The element of a name.
    pub fn find(&self, name: &List<u8>) -> Result<&Element, EditError>
        ensures { let found = first_named self.now name.now in MatchResult result
            (λ element. found ≡ Some element.now)
            (λ error. (found ≡ None) × (error ≡ NoElement)) }
    {
        match self.by_name.get(name.as_slice()) {
            Some(element) => Ok(element),
            None => Err(EditError::NoElement),
        }
    }

    /// The names and sizes of the elements, in order.
    pub fn lines(&self, alloc: Global) -> Result<List<ElementLine>, Memory>
        ensures { IfOk result (λ lines. lines ≡ map line self.now) }
    {
        let mut lines = List::new(alloc);
        for index in 0..self.by_name.len() {
            if let Some((_, element)) = self.by_name.get_index(index) {
                let line = line_of(alloc, element)?;
                lines.push(line)?;
            }
        }
        Ok(lines)
    }
}

// The name and the sizes of an element.
fn line_of(alloc: Global, element: &Element) -> Result<ElementLine, Memory>
    ensures { IfOk result (λ of. of ≡ line element.now) }
{
    let mut name = List::new(alloc);
    name.extend_from_slice(element.name())?;
    Ok(ElementLine {
        name,
        width: element.width(),
        height: element.height(),
    })
}
