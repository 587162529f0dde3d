// The known keys of a header, and the forms of their values.
ghost use Rattle.std.specs.Prelude.{◌≡◌, ◌≤◌, IfSome, if◌then◌else◌};
ghost use Rattle.hd_sdf_read.specs.Keys.{extent_of, form_of, has_decimals, judge, same_key, type_of, with_places};

use hd_map::DataType;
use hd_num::{Whole, is_decimal, read_whole};

/// The form that the value of a known key has.
#[derive(Clone, Copy)]
pub enum Form {
    /// Any text.
    AnyText,
    /// A whole number from 1 to 65,535.
    Extent,
    /// A decimal.
    Number,
    /// The whole number 0. Other whole numbers are not supported.
    Zero,
    /// A whole number from 0 to 7, the code of a type.
    TypeCode,
}

/// What a value is for its form.
#[derive(Clone, Copy)]
pub enum ValueVerdict {
    /// It has the form.
    Right,
    /// It has not the form.
    Wrong,
    /// It has the form, and asks for what is not supported.
    Unsupported,
}

/// The form of the value of a key, where the key is known, without regard to case.
#[tactic(auto, unfolding(crate::specs::Keys::form_of))]
pub fn form_of(key: &[u8]) -> Option<Form>
    ensures { result ≡ form_of key.now }
{
    if same_key(b"ManufacID", key) || same_key(b"CreateDate", key) || same_key(b"ModDate", key) {
        Some(Form::AnyText)
    } else if same_key(b"NumPoints", key) || same_key(b"NumProfiles", key) {
        Some(Form::Extent)
    } else if same_key(b"Xscale", key)
        || same_key(b"Yscale", key)
        || same_key(b"Zscale", key)
        || same_key(b"Zresolution", key)
    {
        Some(Form::Number)
    } else if same_key(b"Compression", key) || same_key(b"CheckType", key) {
        Some(Form::Zero)
    } else if same_key(b"DataType", key) {
        Some(Form::TypeCode)
    } else {
        None
    }
}

/// Whether two keys are the same, without regard to the case of ASCII letters.
pub fn same_key(first: &[u8], second: &[u8]) -> bool
    ensures { result ≡ same_key first.now second.now }
{
    first.eq_ignore_ascii_case(second)
}

/// What a value is for a form.
pub fn judge(form: Form, value: &[u8]) -> ValueVerdict
    ensures { result ≡ judge form value.now }
{
    match form {
        Form::AnyText => ValueVerdict::Right,
        Form::Extent => right_or_wrong(extent_of(value).is_some()),
        Form::Number => right_or_wrong(is_decimal(value)),
        Form::Zero => match read_whole(value) {
            Whole::Is(0) => ValueVerdict::Right,
            Whole::Is(_) | Whole::Outside => ValueVerdict::Unsupported,
            Whole::Not => ValueVerdict::Wrong,
        },
        Form::TypeCode => match read_whole(value) {
            Whole::Is(0..=7) => ValueVerdict::Right,
            _ => ValueVerdict::Wrong,
        },
    }
}

// The verdict on a value that has its form or not.
fn right_or_wrong(right: bool) -> ValueVerdict
    ensures { result ≡ (if right then ValueVerdict.Right else ValueVerdict.Wrong) }
{
    if right {
        ValueVerdict::Right
    } else {
        ValueVerdict::Wrong
    }
}

/// The number of an extent, from 1 to 65,535, if the value is one.
pub fn extent_of(value: &[u8]) -> Option<u32>
    ensures value { result ≡ extent_of value.now }
    ensures bounds { IfSome result (λ n. (1 ≤ n) × (n ≤ 65535)) }
{
    match read_whole(value) {
        Whole::Is(number) if 1 <= number && number <= 65_535 => Some(number as u32),
        _ => None,
    }
}

/// The type that a value is the code of. Decimals have no places yet.
pub fn type_of(value: &[u8]) -> Option<DataType>
    ensures { result ≡ type_of value.now }
{
    match read_whole(value) {
        Whole::Is(0) => Some(DataType::U8),
        Whole::Is(1) => Some(DataType::U16),
        Whole::Is(2) => Some(DataType::U32),
        Whole::Is(3) => Some(DataType::Single { places: 0 }),
        Whole::Is(4) => Some(DataType::I8),
        Whole::Is(5) => Some(DataType::I16),
        Whole::Is(6) => Some(DataType::I32),
        Whole::Is(7) => Some(DataType::Double { places: 0 }),
        _ => None,
    }
}

/// Whether the data of a type are decimals.
pub fn has_decimals(data_type: DataType) -> bool
    ensures { result ≡ has_decimals data_type }
{
    matches!(data_type, DataType::Single { .. } | DataType::Double { .. })
}

/// The type with so many decimal places, where its data are decimals.
pub fn with_places(data_type: DataType, places: u8) -> DataType
    ensures { result ≡ with_places data_type places }
{
    match data_type {
        DataType::Single { .. } => DataType::Single { places },
        DataType::Double { .. } => DataType::Double { places },
        _ => data_type,
    }
}
