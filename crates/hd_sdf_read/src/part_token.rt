// A token whose end has not come yet.
ghost use Rattle.std.specs.Prelude.{◌≡◌, ◌++◌, [], IfOk, false};
ghost use Rattle.std.specs.List.{list_any};
ghost use Rattle.hd_sdf_read.specs.Tokens.{is_gap};

use hd_list::{List, Memory};
use std::alloc::Global;

/// What has come of a token: bytes that are neither blanks nor LFs.
#[derive(Drop)]
pub struct PartToken {
    pub text: List<u8>,
    ghost open: { list_any is_gap text ≡ false },
}

impl PartToken {
    /// Nothing yet.
    pub fn new(alloc: Global) -> PartToken
        ensures { result.text ≡ [] }
    {
        PartToken {
            text: List::new(alloc),
        }
    }

    /// The token with more of it.
    pub fn joined(self, more: &[u8]) -> Result<PartToken, Memory>
        requires { list_any is_gap more.now ≡ false }
        ensures { IfOk result (λ joined. joined.text ≡ self.text ++ more.now) }
    {
        let PartToken { mut text, .. } = self;
        text.extend_from_slice(more)?;
        Ok(PartToken { text })
    }
}
