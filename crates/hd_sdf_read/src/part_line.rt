// A line of a header whose end has not come yet.
ghost use Rattle.std.specs.Prelude.{◌≡◌, ◌≤◌, ◌<◌, ◌+◌, ◌++◌, [], IfOk, MatchOption, false, length};
ghost use Rattle.std.specs.List.{list_any};
ghost use Rattle.hd_num.specs.Lines.{is_line_feed};
ghost use Rattle.hd_sdf_read.specs.FirstLine.{IsFirstLine};

use hd_list::{List, Memory};
use std::alloc::Global;

/// The most bytes of a line.
pub const MOST_BYTES: usize = 1024;

/// What has come of a line: at most 1,024 bytes without an LF.
#[derive(Drop)]
pub struct PartLine {
    pub text: List<u8>,
    ghost open: { list_any is_line_feed text ≡ false },
    ghost short: { length text ≤ 1024 },
}

impl PartLine {
    /// Nothing yet.
    pub fn new(alloc: Global) -> PartLine
        ensures { result.text ≡ [] }
    {
        PartLine {
            text: List::new(alloc),
        }
    }

    /// The line with more of it, or none where it is too long then.
    pub fn joined(self, more: &[u8]) -> Result<Option<PartLine>, Memory>
        requires { list_any is_line_feed more.now ≡ false }
        ensures { IfOk result (λ joined. MatchOption joined (1024 < length (self.text ++ more.now))
            (λ line. line.text ≡ self.text ++ more.now)) }
    {
        let PartLine { mut text, .. } = self;
        if text.as_slice().len() + more.len() > MOST_BYTES {
            return Ok(None);
        }
        text.extend_from_slice(more)?;
        Ok(Some(PartLine { text }))
    }
}

/// The first line of a text, if an LF ends it there, and the text after the LF.
pub fn split_line(text: &[u8]) -> Option<(&[u8], &[u8])>
    ensures { MatchOption result (list_any is_line_feed text.now ≡ false)
        (λ parts. IsFirstLine text.now parts.0.now parts.1.now) }
{
    'bytes: for (place, byte) in text.iter().enumerate() {
        if *byte == b'\n' {
            return Some((&text[..place], &text[place + 1..]));
        }
    }
    None
}
