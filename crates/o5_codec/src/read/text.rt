//! Texts in the strings of data sets. A string of ASCII isn't tested for UTF-8.
ghost use Rattle.std.specs.Prelude.{◌≡◌, Ok, IfOk, IfSome, encode_utf8_all};
ghost use Rattle.std.specs.Str.{chars};
ghost use Rattle.o5_codec.specs.Results.{O5Gives, O5Reads, and_added};
ghost use Rattle.o5_codec.specs.Text.{text_of, tag_of, uid_of, user_of, and_user};

use crate::O5Reason;
use crate::read::base::within_range;
use crate::read::number::read_number;
use crate::read::raw::raw_str;
use crate::strings::StringPair;
use osm_model::{Memory, Meta, Tag, Text};
use std::alloc::Global;

/// A string as a text.
///
/// # Errors
///
/// `NotUtf8` if it isn't UTF-8.
#[inline(always)]
pub(crate) fn to_text(alloc: Global, bytes: &[u8]) -> Result<Text, O5Reason>
    ensures { O5Reads (λ text. text) (text_of bytes.now) result }
{
    let text = to_str(bytes)?;
    Ok(Text::from_str(alloc, text)?)
}

/// A string as a `&str`.
#[inline(always)]
fn to_str(bytes: &[u8]) -> Result<&str, O5Reason>
    ensures text { O5Gives (λ text. chars text.now) (text_of bytes.now) result }
    ensures bytes { IfOk result (λ text. text.now ≡ bytes.now) }
{
    if bytes.is_ascii() {
        // SAFETY: ASCII bytes are UTF-8.
        return Ok(unsafe { str::from_utf8_unchecked(bytes) });
    }
    any_to_str(bytes)
}

/// A string with any characters as a `&str`. This is a function of its own only for the optimizer, since most strings
/// are ASCII. Five such functions of this crate bring 5 percent of a merge of o5m files.
#[inline(never)]
fn any_to_str(bytes: &[u8]) -> Result<&str, O5Reason>
    ensures text { O5Gives (λ text. chars text.now) (text_of bytes.now) result }
    ensures bytes { IfOk result (λ text. text.now ≡ bytes.now) }
{
    match simdutf8::basic::from_utf8(bytes) {
        Ok(text) => Ok(text),
        Err(_) => Err(O5Reason::NotUtf8),
    }
}

/// Adds the tag of a pair to `tags`.
///
/// # Errors
///
/// As for [`to_text`].
#[inline(never)]
#[tactic(auto, unfolding(crate::specs::Text::tag_of))]
pub(crate) fn add_tag(
    alloc: Global,
    strings: &StringPair<'_>,
    tags: &mut Vec<Tag>,
) -> Result<(), O5Reason>
    ensures { O5Reads (λ _. tags.new.items) (and_added tags.old.items (tag_of strings.now)) result }
{
    let key = to_text(alloc, strings.first)?;
    let value = to_text(alloc, strings.second)?;
    Ok(tags.push(Tag { key, value })?)
}

/// Writes the user id and the user name of a pair into `meta`.
///
/// # Errors
///
/// `BadNumber` and `OutOfRange` for the user id, `NotUtf8` for the name.
#[inline(never)]
#[tactic(auto, unfolding(crate::specs::Text::user_of))]
pub(crate) fn put_user(
    alloc: Global,
    strings: &StringPair<'_>,
    meta: &mut Meta,
) -> Result<(), O5Reason>
    ensures { O5Reads (λ _. meta.new) (and_user meta.old (user_of strings.now)) result }
{
    let uid = to_uid(strings.first)?;
    let name = to_text(alloc, strings.second)?;
    meta.uid = u64::from(uid);
    meta.user.overwrite(name);
    Ok(())
}

/// The text of a string, or `None` if the string isn't UTF-8. The text is marked if it is plain, since copies of it are
/// written many times.
///
/// # Errors
///
/// `Memory` when out of memory.
pub(crate) fn known_text(alloc: Global, bytes: &[u8]) -> Result<Option<Text>, Memory>
    ensures bytes { IfOk result (λ known. IfSome known (λ text. encode_utf8_all text ≡ bytes.now)) }
    ensures text { IfOk result (λ known. IfSome known (λ text. text_of bytes.now ≡ Ok text)) }
{
    if let Some(characters) = raw_str(bytes) {
        let text = Text::from_raw(alloc, characters)?;
        return Ok(Some(text));
    }
    match to_str(bytes) {
        Ok(characters) => {
            let text = Text::from_tested_str(alloc, characters)?;
            Ok(Some(text))
        }
        Err(_) => Ok(None),
    }
}

/// The user id that a string spells. An empty string means 0.
///
/// # Errors
///
/// `BadNumber` if the string is no number, `OutOfRange` if the number is above 4294967295.
#[tactic(auto, unfolding(crate::specs::Text::uid_of))]
pub(crate) fn to_uid(bytes: &[u8]) -> Result<u32, O5Reason>
    ensures { O5Gives (λ uid. uid) (uid_of bytes.now) result }
{
    if bytes.is_empty() {
        return Ok(0);
    }
    let (number, rest) = read_number(bytes)?;
    if !rest.is_empty() {
        return Err(O5Reason::BadNumber);
    }
    within_range(number)
}
