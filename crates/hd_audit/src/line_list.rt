// The lines of a pruning certificate as a list, in thirteen bytes each.
ghost use Rattle.std.specs.Prelude.{◌≡◌, ◌<◌, ◌∷◌, ◌++◌, [], IfOk, OnErr, OnOk, length};
ghost use Rattle.hd_audit.specs.LineList.{line_kept};

use crate::AuditLine;
use hd_list::Memory;
use std::alloc::Global;
use std::marker::Model;

/// Which points a line names beside its own.
#[derive(Clone, Copy, Debug)]
pub enum Named {
    Neither,
    Parent,
    Cut,
    Both,
}

const _: () = prove!(size_of::<Named>() == 1);

/// The numbers of a line, and 0 for those that it does not name.
#[derive(Clone, Copy, Debug)]
pub struct LineNumbers {
    pub index: u32,
    pub parent: u32,
    pub cut: u32,
}

const _: () = prove!(size_of::<LineNumbers>() == 12);

/// The lines of a pruning certificate. Contracts see them as the list of the lines. Each takes thirteen bytes.
#[derive(Debug, Drop)]
pub struct AuditLines {
    numbers: Vec<LineNumbers>,
    named: Vec<Named>,
}

impl Model for AuditLines {
    ghost use Rattle.std.specs.Prelude.{◌≡◌, List, length};
    ghost use Rattle.hd_audit.specs.declared.types.AuditLine.{AuditLine};
    ghost use Rattle.hd_audit.specs.LineList.{lines_kept};

    ghost Value = { List AuditLine };

    ghost view = { λ lines. lines_kept lines.numbers.items lines.named.items };

    ghost invariant = { λ lines. length lines.numbers.items ≡ length lines.named.items };
}

impl AuditLines {
    ghost use Rattle.hd_audit.specs.Lines.{line_at};

    /// No lines.
    pub fn new(alloc: Global) -> AuditLines
        ensures { result ≡ [] }
    {
        AuditLines {
            numbers: Vec::new(alloc),
            named: Vec::new(alloc),
        }
    }

    /// No lines, and the memory for this many.
    pub fn with_capacity(alloc: Global, capacity: usize) -> Result<AuditLines, Memory>
        ensures { IfOk result (λ lines. lines ≡ []) }
    {
        Ok(AuditLines {
            numbers: Vec::with_capacity(alloc, capacity)?,
            named: Vec::with_capacity(alloc, capacity)?,
        })
    }

    /// How many lines there are.
    #[inline]
    pub fn len(&self) -> usize
        ensures { result ≡ length self.now }
    {
        self.numbers.len()
    }

    /// The line at a place, which is below their number.
    #[inline]
    pub fn at(&self, place: usize) -> AuditLine
        requires { place < length self.now }
        ensures { result ≡ line_at self.now place }
    {
        line_kept(self.numbers[place], self.named[place])
    }

    /// Adds a line at the end. Where memory is refused, the lines stay as they were.
    #[inline]
    pub fn push(&mut self, line: AuditLine) -> Result<(), Memory>
        ensures ok { OnOk result (self.new ≡ self.old ++ line ∷ []) }
        ensures err { OnErr result (self.new ≡ self.old) }
    {
        let (numbers, named) = kept_line(line);
        self.numbers.reserve(1)?;
        self.named.reserve(1)?;
        self.numbers.push_reserved(numbers);
        self.named.push_reserved(named);
        Ok(())
    }
}

// The line that is kept so.
#[inline]
fn line_kept(numbers: LineNumbers, named: Named) -> AuditLine
    ensures { result ≡ line_kept numbers named }
{
    let LineNumbers { index, parent, cut } = numbers;
    let (parent, cut) = match named {
        Named::Neither => (None, None),
        Named::Parent => (Some(parent), None),
        Named::Cut => (None, Some(cut)),
        Named::Both => (Some(parent), Some(cut)),
    };
    AuditLine { index, parent, cut }
}

// How a line is kept.
#[inline]
fn kept_line(line: AuditLine) -> (LineNumbers, Named)
    ensures { line_kept result.0 result.1 ≡ line }
{
    let (parent, cut, named) = match (line.parent, line.cut) {
        (None, None) => (0, 0, Named::Neither),
        (Some(parent), None) => (parent, 0, Named::Parent),
        (None, Some(cut)) => (0, cut, Named::Cut),
        (Some(parent), Some(cut)) => (parent, cut, Named::Both),
    };
    let index = line.index;
    (LineNumbers { index, parent, cut }, named)
}
