// The lines of a header.
ghost use Rattle.std.specs.Prelude.{◌≡◌, IfOk, MatchOption, false, true, length};
ghost use Rattle.std.specs.List.{after_first, before_first, list_any};
ghost use Rattle.hd_sdf_read.specs.Entries.{extra_entries, has_key, is_equals, is_key, keyed, kind_of, offence, value_of};
ghost use Rattle.hd_sdf_read.specs.Views.{extra_of, kind_view};

use crate::keys::{ValueVerdict, form_of, judge, same_key};
use crate::{Extra, SdfError};
use hd_list::{List, Memory};
use hd_num::trim;
use std::alloc::Global;

/// A key of a header and its value.
#[derive(Clone, Copy)]
pub struct HeaderEntry<'a> {
    pub key: &'a [u8],
    pub value: &'a [u8],
}

/// What a line of a header is.
pub enum HeaderLine<'a> {
    /// It is empty or a comment.
    Skipped,
    /// It ends the header.
    Ends,
    /// It has a key and a value.
    Keyed(HeaderEntry<'a>),
    /// It is none of these.
    Unread,
}

/// What a line is.
#[tactic(auto, unfolding(crate::specs::Entries::kind_of))]
pub fn kind_of(line: &[u8]) -> HeaderLine<'_>
    ensures { kind_view result ≡ kind_of line.now }
{
    if line.len() > 1024 {
        return HeaderLine::Unread;
    }
    let text = trim(line);
    if text.is_empty() || text[0] == b';' {
        return HeaderLine::Skipped;
    }
    if text == b"*".as_slice() {
        return HeaderLine::Ends;
    }
    match split_at_equals(text) {
        Some((key, value)) => keyed(HeaderEntry {
            key: trim(key),
            value: trim(value),
        }),
        None => HeaderLine::Unread,
    }
}

// The text before the first `=` and the text after it, where there is one.
fn split_at_equals(text: &[u8]) -> Option<(&[u8], &[u8])>
    ensures { MatchOption result (list_any is_equals text.now ≡ false)
        (λ parts. (list_any is_equals text.now ≡ true) × (parts.0.now ≡ before_first is_equals text.now)
        × (parts.1.now ≡ after_first is_equals text.now)) }
{
    'bytes: for (place, byte) in text.iter().enumerate() {
        if *byte == b'=' {
            return Some((&text[..place], &text[place + 1..]));
        }
    }
    None
}

// The line of an entry, if its key and its value have their forms.
fn keyed(found: HeaderEntry<'_>) -> HeaderLine<'_>
    ensures { kind_view result ≡ keyed (extra_of found.entry) }
{
    if is_key(found.key) && found.value.len() <= 896 {
        HeaderLine::Keyed(found)
    } else {
        HeaderLine::Unread
    }
}

// Whether a text has 1 to 64 bytes from 0x20 to 0x7E.
fn is_key(text: &[u8]) -> bool
    ensures { result ≡ is_key text.now }
{
    if text.is_empty() || text.len() > 64 {
        return false;
    }
    'bytes: for byte in text {
        if *byte < 0x20 || *byte > 0x7E {
            return false;
        }
    }
    true
}

/// The first offence of a key line of this number after some entries, if it has one.
#[tactic(auto, unfolding(crate::specs::Entries::offence))]
pub fn offence(number: u64, before: &[Extra], entry: &HeaderEntry) -> Option<SdfError>
    ensures { result ≡ offence number before.now (extra_of entry.now) }
{
    if has_key(before, entry.key) {
        return Some(SdfError::KeyTwice(number));
    }
    let Some(form) = form_of(entry.key) else {
        return if count_extra(before) < 240 {
            None
        } else {
            Some(SdfError::TooManyKeys(number))
        };
    };
    match judge(form, entry.value) {
        ValueVerdict::Right => None,
        ValueVerdict::Wrong => Some(SdfError::BadValue(number)),
        ValueVerdict::Unsupported => Some(SdfError::Unsupported(number)),
    }
}

// Whether a key stands among the entries.
fn has_key(entries: &[Extra], key: &[u8]) -> bool
    ensures { result ≡ has_key key.now entries.now }
{
    'entries: for entry in entries {
        if same_key(entry.key.as_slice(), key) {
            return true;
        }
    }
    false
}

// How many entries have a key that is not known.
fn count_extra(entries: &[Extra]) -> usize
    ensures { result ≡ length (extra_entries entries.now) }
{
    let mut count = 0;
    'entries: for entry in entries {
        if form_of(entry.key.as_slice()).is_none() {
            count += 1;
        }
    }
    count
}

/// The value of a key, where it stands among the entries.
pub fn value_of<'a>(entries: &'a [Extra], key: &[u8]) -> Option<&'a [u8]>
    ensures { MatchOption result (value_of key.now entries.now ≡ None)
        (λ value. value_of key.now entries.now ≡ Some value.now) }
{
    'entries: for entry in entries {
        if same_key(entry.key.as_slice(), key) {
            return Some(entry.value.as_slice());
        }
    }
    None
}

/// A copy of an entry.
pub fn owned(alloc: Global, entry: &HeaderEntry) -> Result<Extra, Memory>
    ensures { IfOk result (λ extra. extra ≡ extra_of entry.now) }
{
    Ok(Extra {
        key: List::from_slice(alloc, entry.key)?,
        value: List::from_slice(alloc, entry.value)?,
    })
}
