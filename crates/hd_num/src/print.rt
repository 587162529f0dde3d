// The text of numbers.
ghost use Rattle.std.specs.Prelude.{◌≡◌, ◌<◌, ◌^◌, ◌++◌, OnOk, OnErr, decimal, pos};
ghost use Rattle.std.specs.Fmt.{signed_decimal};
ghost use Rattle.hd_num.specs.Text.{AppendsPrefix};
ghost use Rattle.hd_num.specs.Whole.{count_of, whole_of, whole_value};

use crate::Whole;
use hd_list::{List, Memory};
use itoa::Buffer;

/// Adds a text at the end. Where memory is refused, a prefix of the text may stand there.
pub fn push_text(out: &mut List<u8>, text: &[u8]) -> Result<(), Memory>
    ensures ok { OnOk result (out.new ≡ out.old ++ text.now) }
    ensures err { OnErr result (AppendsPrefix out.old out.new text.now) }
{
    out.extend_from_slice(text)
}

/// Adds a whole number in plain digits, with `-` before a negative one, which reads back as
/// that number. Where memory is refused, a prefix of its text may stand there.
pub fn push_whole(out: &mut List<u8>, n: i64) -> Result<(), Memory>
    ensures ok { OnOk result (out.new ≡ out.old ++ signed_decimal n) }
    ensures err { OnErr result (AppendsPrefix out.old out.new (signed_decimal n)) }
    ensures reads_back { whole_of (signed_decimal n) ≡ Whole.Is n }
{
    push_text(out, Buffer::new().format(n).as_bytes())
}

/// Adds a number in plain digits, which reads back as that whole number, and below 2^32 as that
/// count. Where memory is refused, a prefix of its text may stand there.
pub fn push_unsigned(out: &mut List<u8>, number: u64) -> Result<(), Memory>
    ensures ok { OnOk result (out.new ≡ out.old ++ decimal number) }
    ensures err { OnErr result (AppendsPrefix out.old out.new (decimal number)) }
    ensures reads_back { whole_value (decimal number) ≡ Some (pos number) }
    ensures count { number < 2 ^ 32 → count_of (decimal number) ≡ Some number }
{
    push_text(out, Buffer::new().format(number).as_bytes())
}
