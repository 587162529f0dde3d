// A header that was read to its end.
ghost use Rattle.hd_sdf_read.specs.RequiredKeys.{HasDecimals};
ghost use Rattle.hd_sdf_read.specs.Views.{required_keys_view};

use crate::header::Header;
use crate::required_keys::RequiredKeys;

/// A header and what its required keys say.
#[derive(Drop)]
pub struct Heading {
    pub header: Header,
    pub frame: RequiredKeys,
    ghost decimals: { HasDecimals (required_keys_view frame) },
}
