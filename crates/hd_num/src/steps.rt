// The text of heights.
ghost use Rattle.std.specs.Prelude.{◌≡◌, ◌<◌, ◌≤◌, ◌^◌, ◌++◌, ◌∷◌, OnOk, OnErr};
ghost use Rattle.std.specs.Fmt.{signed_decimal};
ghost use Rattle.hd_num.specs.Decimal.{decimal_of};
ghost use Rattle.hd_num.specs.Steps.{magnitude_text, padded, steps_decimal, steps_text};
ghost use Rattle.hd_num.specs.Text.{AppendsPrefix};

use crate::{push_text, push_unsigned, push_whole};
use hd_list::{List, Memory};
use itoa::Buffer;

/// Adds the height of so many steps, where a step is a unit of the last of so many decimal places, at
/// most 18: `-` where it is negative, the whole part of its value in plain digits, and, where there
/// are decimal places, `.` and that many digits. Without decimal places this is a whole number in
/// plain digits, and it always reads back as the decimal of this value. Where memory is refused, a
/// prefix of its text may stand there.
#[inline(always)]
#[tactic(auto, using(crate::proofs::StepsReadBack::decimal_of_steps_text))]
pub fn push_steps(out: &mut List<u8>, steps: i64, places: u8) -> Result<(), Memory>
    requires { places ≤ 18 }
    ensures ok { OnOk result (out.new ≡ out.old ++ steps_text steps places) }
    ensures err { OnErr result (AppendsPrefix out.old out.new (steps_text steps places)) }
    ensures whole { steps_text steps 0 ≡ signed_decimal steps }
    ensures decimal_of_steps_text { decimal_of (steps_text steps places) ≡ Some (steps_decimal steps places) }
{
    if places == 0 {
        return push_whole(out, steps);
    }
    if steps < 0 {
        push_text(out, b"-")?;
    }
    push_magnitude(out, steps.unsigned_abs(), places)
}

// Adds so many steps without a sign.
fn push_magnitude(out: &mut List<u8>, magnitude: u64, places: u8) -> Result<(), Memory>
    requires some { 1 ≤ places }
    requires few { places ≤ 18 }
    ensures ok { OnOk result (out.new ≡ out.old ++ magnitude_text magnitude places) }
    ensures err { OnErr result (AppendsPrefix out.old out.new (magnitude_text magnitude places)) }
{
    let unit = 10u64.pow(u32::from(places));
    push_unsigned(out, magnitude / unit)?;
    push_places(out, magnitude % unit, places)
}

// Adds a point and a number in so many digits.
fn push_places(out: &mut List<u8>, number: u64, places: u8) -> Result<(), Memory>
    requires some { 1 ≤ places }
    requires few { places ≤ 18 }
    requires fits { number < 10 ^ places }
    ensures ok { OnOk result (out.new ≡ out.old ++ 46 ∷ padded places number) }
    ensures err { OnErr result (AppendsPrefix out.old out.new (46 ∷ padded places number)) }
{
    let mut buffer = Buffer::new();
    let digits = buffer.format(number).as_bytes();
    let zeros = usize::from(places) - digits.len();
    push_text(out, &b".000000000000000000"[..1 + zeros])?;
    push_text(out, digits)
}
