// What is left of a text that is given part by part.
ghost use Rattle.std.specs.Prelude.{◌≡◌, ◌<◌, ◌≤◌, ◌++◌, drop, length};

use hd_list::List;
use std::marker::Model;

/// What is left of a text. Contracts see it as these bytes.
#[derive(Drop)]
pub struct Rest {
    text: List<u8>,
    given: usize,
}

impl Model for Rest {
    ghost use Rattle.std.specs.Prelude.{◌≤◌, ℕ, List as Items, drop, length};

    ghost Value = { Items ℕ };

    ghost view = { λ r. drop r.given r.text };

    ghost invariant = { λ r. r.given ≤ length r.text };
}

impl Rest {
    /// A whole text.
    pub fn new(text: List<u8>) -> Rest
        ensures { result ≡ text }
    {
        Rest { text, given: 0 }
    }

    /// How many bytes are left.
    pub fn len(&self) -> usize
        ensures { result ≡ length self.now }
    {
        self.text.as_slice().len() - self.given
    }

    /// Puts as many of the next bytes as there is room for at the end of a slice, and tells where they start.
    pub fn write_next(&mut self, text: &mut [u8]) -> usize
        ensures text { self.old ≡ drop result text.new ++ self.new }
        ensures within { result ≤ length text.new }
        ensures some { 0 < length text.new → 0 < length self.old → result < length text.new }
    {
        let whole = self.text.as_slice();
        let count = self.len().min(text.len());
        let start = text.len() - count;
        text[start..].copy_from_slice(&whole[self.given..self.given + count]);
        self.given += count;
        start
    }
}
