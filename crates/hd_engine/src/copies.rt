// Copies of what a session keeps.
ghost use Rattle.std.specs.Prelude.{◌≡◌, IfOk};

use hd_list::{List, Memory};
use hd_num::Decimal;
use hd_sdf_read::Extra;
use std::alloc::Global;

/// A copy of a decimal.
pub(crate) fn decimal(alloc: Global, number: &Decimal) -> Result<Decimal, Memory>
    ensures { IfOk result (λ copy. copy ≡ number.now) }
{
    Ok(Decimal {
        negative: number.negative,
        digits: number.digits,
        exponent: number.exponent,
        literal: copied(alloc, &number.literal)?,
    })
}

/// Copies of keys and their values.
pub(crate) fn extras(alloc: Global, entries: &[Extra]) -> Result<List<Extra>, Memory>
    ensures { IfOk result (λ copies. copies ≡ entries.now) }
{
    let mut copies = List::new(alloc);
    'entries: for entry in entries {
        copies.push(Extra {
            key: copied(alloc, &entry.key)?,
            value: copied(alloc, &entry.value)?,
        })?;
    }
    Ok(copies)
}

/// A copy of a text.
pub(crate) fn copied(alloc: Global, text: &List<u8>) -> Result<List<u8>, Memory>
    ensures { IfOk result (λ copy. copy ≡ text.now) }
{
    List::from_slice(alloc, text.as_slice())
}
