// What the required keys of a header say.
ghost use Rattle.std.specs.Prelude.{◌≡◌, ◌≤◌, IfOk, IfSome, option_and_then};
ghost use Rattle.hd_map.specs.Map.{IsSize};
ghost use Rattle.hd_sdf_read.specs.Entries.{value_of};
ghost use Rattle.hd_sdf_read.specs.RequiredKeys.{decimal_at, required_keys_of, required, HasDecimals, IsRead};
ghost use Rattle.hd_sdf_read.specs.Keys.{extent_of, type_of};
ghost use Rattle.hd_sdf_read.specs.Reads.{Gives};
ghost use Rattle.hd_sdf_read.specs.Views.{required_keys_view};

use crate::entries::value_of;
use crate::keys::{extent_of, type_of};
use crate::{Extra, SdfError};
use hd_list::Memory;
use hd_map::{DataType, Size};
use hd_num::{Decimal, read_decimal};
use std::alloc::Global;

/// What the required keys say.
#[derive(Drop)]
pub struct RequiredKeys {
    pub size: Size,
    pub data_type: DataType,
    pub x_scale: Decimal,
    pub y_scale: Decimal,
    pub z_scale: Decimal,
}

/// What the required keys among the entries say.
#[tactic(auto, unfolding(crate::specs::RequiredKeys::required_keys_of))]
pub fn read_required_keys(alloc: Global, entries: &[Extra]) -> Result<RequiredKeys, SdfError>
    ensures frame { Gives required_keys_view result (required_keys_of entries.now) }
    ensures limits { IfOk result (λ frame. IsSize frame.size) }
    ensures decimals { IfOk result (λ frame. HasDecimals (required_keys_view frame)) }
{
    let points = extent_at(entries, b"NumPoints").ok_or(SdfError::MissingKey(1))?;
    let profiles = extent_at(entries, b"NumProfiles").ok_or(SdfError::MissingKey(2))?;
    let x_scale = scale_at(alloc, entries, b"Xscale", 3)?;
    let y_scale = scale_at(alloc, entries, b"Yscale", 4)?;
    let z_scale = scale_at(alloc, entries, b"Zscale", 5)?;
    let data_type = type_at(entries, b"DataType").ok_or(SdfError::MissingKey(6))?;
    if u64::from(profiles) * u64::from(points) > 4_194_304 {
        return Err(SdfError::TooLarge);
    }
    Ok(RequiredKeys {
        size: Size { points, profiles },
        data_type,
        x_scale,
        y_scale,
        z_scale,
    })
}

// The extent that a key has.
fn extent_at(entries: &[Extra], key: &[u8]) -> Option<u32>
    ensures value { result ≡ option_and_then extent_of (value_of key.now entries.now) }
    ensures bounds { IfSome result (λ n. (1 ≤ n) × (n ≤ 65535)) }
{
    extent_of(value_of(entries, key)?)
}

// The type that a key has.
fn type_at(entries: &[Extra], key: &[u8]) -> Option<DataType>
    ensures { result ≡ option_and_then type_of (value_of key.now entries.now) }
{
    type_of(value_of(entries, key)?)
}

// The scale that a required key of this number has.
fn scale_at(alloc: Global, entries: &[Extra], key: &[u8], number: u8) -> Result<Decimal, SdfError>
    ensures value { Gives (λ scale. scale) result (required number (decimal_at key.now entries.now)) }
    ensures read { IfOk result IsRead }
{
    decimal_at(alloc, entries, key)?.ok_or(SdfError::MissingKey(number))
}

/// The decimal that a key has.
pub fn decimal_at(alloc: Global, entries: &[Extra], key: &[u8]) -> Result<Option<Decimal>, Memory>
    ensures { IfOk result (λ found. found ≡ decimal_at key.now entries.now) }
{
    match value_of(entries, key) {
        Some(value) => read_decimal(alloc, value),
        None => Ok(None),
    }
}
