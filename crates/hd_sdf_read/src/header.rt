// A header, line by line.
ghost use Rattle.std.specs.Prelude.{◌≡◌, ◌<◌, ◌≤◌, ◌+◌, ◌^◌, ◌++◌, [], false, IfOk};
ghost use Rattle.std.specs.List.{list_any};
ghost use Rattle.hd_num.specs.Lines.{is_line_feed};
ghost use Rattle.hd_sdf_read.specs.File.{AreGood};
ghost use Rattle.hd_sdf_read.specs.Grammar.{version_of_line};

use crate::entries::{HeaderEntry, HeaderLine, kind_of, offence, owned};
use crate::part_line::PartLine;
use crate::{Extra, SdfError, Version};
use hd_list::{List, Memory};
use hd_num::trim;
use std::alloc::Global;

/// The version that a line names.
#[tactic(auto, unfolding(crate::specs::Grammar::version_of_line))]
pub fn version_of_line(line: &[u8]) -> Option<Version>
    ensures { result ≡ version_of_line line.now }
{
    if line.len() > 1024 {
        return None;
    }
    let text = trim(line);
    if text == b"aBCR-1.0".as_slice() {
        Some(Version::Bcr)
    } else if text == b"aISO-1.0".as_slice() {
        Some(Version::Iso)
    } else {
        None
    }
}

/// What the lines of a header say that were read.
#[derive(Drop)]
pub struct Header {
    /// The version.
    pub version: Version,
    /// The keys with their values, in order.
    pub entries: List<Extra>,
    /// The number of the next line.
    pub number: u64,
    ghost good: { AreGood entries },
}

impl Header {
    ghost use Rattle.std.specs.Prelude.{true};
    ghost use Rattle.hd_sdf_read.specs.File.{is_entry};
    ghost use Rattle.hd_sdf_read.specs.HeaderPieces.{TakesEntry, TakesLine};
    ghost use Rattle.hd_sdf_read.specs.Views.{extra_of};

    /// The header before line 2.
    pub fn new(alloc: Global, version: Version) -> Header
        ensures version { result.version ≡ version }
        ensures entries { result.entries ≡ [] }
        ensures number { result.number ≡ 2 }
    {
        Header {
            version,
            entries: List::new(alloc),
            number: 2,
        }
    }

    /// Reads the next line, and tells whether it ends the header.
    pub fn take_line(&mut self, alloc: Global, line: &[u8]) -> Result<bool, SdfError>
        requires count { self.old.number + 1 < 2 ^ 64 }
        requires one { list_any is_line_feed line.now ≡ false }
        ensures line { TakesLine self.old self.new line.now result }
        ensures number { self.new.number ≤ self.old.number + 1 }
    {
        match kind_of(line) {
            HeaderLine::Skipped => {
                self.number += 1;
                Ok(false)
            }
            HeaderLine::Ends => Ok(true),
            HeaderLine::Keyed(entry) => match self.take_entry(alloc, &entry) {
                Ok(()) => Ok(false),
                Err(refusal) => Err(refusal),
            },
            HeaderLine::Unread => Err(SdfError::BadHeaderLine(self.number)),
        }
    }

    // Reads the next line, which has this key and value.
    fn take_entry(&mut self, alloc: Global, entry: &HeaderEntry) -> Result<(), SdfError>
        requires count { self.old.number + 1 < 2 ^ 64 }
        requires form { is_entry (extra_of entry.now) ≡ true }
        ensures { TakesEntry self.old self.new (extra_of entry.now) result }
    {
        if let Some(refusal) = offence(self.number, self.entries.as_slice(), entry) {
            return Err(refusal);
        }
        self.entries.push(owned(alloc, entry)?)?;
        self.number += 1;
        Ok(())
    }

    /// Reads the next line, of which a part came before.
    pub fn take_joined(
        &mut self,
        alloc: Global,
        line: PartLine,
        end: &[u8],
    ) -> Result<bool, SdfError>
        requires count { self.old.number + 1 < 2 ^ 64 }
        requires one { list_any is_line_feed end.now ≡ false }
        ensures line { TakesLine self.old self.new (line.text ++ end.now) result }
        ensures number { self.new.number ≤ self.old.number + 1 }
    {
        if line.text.as_slice().is_empty() {
            return self.take_line(alloc, end);
        }
        match line.joined(end)? {
            Some(line) => self.take_line(alloc, line.text.as_slice()),
            None => Err(SdfError::BadHeaderLine(self.number)),
        }
    }
}

/// The version that a line names, of which a part came before.
pub fn version_joined(line: PartLine, end: &[u8]) -> Result<Option<Version>, Memory>
    requires { list_any is_line_feed end.now ≡ false }
    ensures { IfOk result (λ version. version ≡ version_of_line (line.text ++ end.now)) }
{
    if line.text.as_slice().is_empty() {
        return Ok(version_of_line(end));
    }
    match line.joined(end)? {
        Some(line) => Ok(version_of_line(line.text.as_slice())),
        None => Ok(None),
    }
}
