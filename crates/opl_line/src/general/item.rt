//! The items of lists in OPL lines.
ghost use Rattle.std.specs.Prelude.{◌≡◌, ◌⊎◌, Ok, Err, None, Some, drop, MatchOption, MatchResult};
ghost use Rattle.opl_line.specs.declared.reason.OplReason.TheVariants.{Memory};
ghost use Rattle.opl_line.specs.Results.{OplReads};
ghost use Rattle.opl_line.specs.Item as spec;

use super::text::read_text;
use crate::OplReason;
use crate::bytes::cut::Delimiter;
use crate::item::kind_of_letter;
use crate::number::read_id;
use osm_model::{Kind, Member, Tag};
use std::alloc::Global;

/// The number of bytes of a usual item and its comma, such as `n123456789,`. The capacity of a new list is the number
/// of usual items that its content has space for. A content of commas has more items, but can't ask for much memory.
const USUAL_ITEM: usize = 11;

/// An item of a list: a tag, a reference or a member.
pub(crate) trait Item: Drop + Sized {
    ghost use Rattle.std.specs.Prelude.{List, ℕ, Result};
    ghost use Rattle.opl_line.specs.declared.reason.OplReason.{OplReason};

    ghost reading: { List ℕ → Result Self OplReason };

    /// The item that a text between commas spells.
    ///
    /// # Errors
    ///
    /// `BadList` if the text doesn't have the item's form, `OutOfRange` if an id is out of range, `BadText` if a key, a
    /// value or a role is no text, or `Memory`.
    fn read(alloc: Global, text: &str) -> Result<Self, OplReason>
        ensures { OplReads (reading text.now) result };
}

/// The items of a list, which has a comma between each two.
///
/// # Errors
///
/// The reason of the first faulty item, or `Memory`.
pub(crate) fn read_list<T: Item>(alloc: Global, content: &str) -> Result<Vec<T>, OplReason>
    ensures { MatchResult result
        (λ items. spec.reading_list T.reading content.now ≡ Ok items.items)
        (λ reason. (reason ≡ Memory) ⊎ (spec.reading_list T.reading content.now ≡ Err reason)) }
{
    if content.is_empty() {
        return Ok(Vec::new(alloc));
    }
    let mut items: Vec<T> = Vec::with_capacity(alloc, content.len() / USUAL_ITEM + 1)?;
    let mut rest = Some(content);
    'items: while let Some(text) = rest {
        let (item, after) = Delimiter::Commas.split(text);
        items.push(T::read(alloc, item)?)?;
        rest = after;
    }
    Ok(items)
}

/// A tag, as `key=value`.
impl Item for Tag {
    ghost reading = { spec.reading_tag };

    fn read(alloc: Global, text: &str) -> Result<Tag, OplReason> {
        let (key, Some(rest)) = Delimiter::Equals.split(text) else {
            return Err(OplReason::BadList);
        };
        let (value, more) = Delimiter::Equals.split(rest);
        if more.is_some() {
            return Err(OplReason::BadList);
        }
        let key = read_text(alloc, key)?;
        let value = read_text(alloc, value)?;
        Ok(Tag { key, value })
    }
}

/// A reference: the letter `n` and the id of a node, as `n1`.
impl Item for i64 {
    ghost reading = { spec.reading_reference };

    fn read(_alloc: Global, text: &str) -> Result<i64, OplReason> {
        match text.as_bytes().split_first() {
            Some((b'n', digits)) => read_item_id(digits),
            _ => Err(OplReason::BadList),
        }
    }
}

/// A member: an object and its role, as `w1@role`.
impl Item for Member {
    ghost reading = { spec.reading_member };

    fn read(alloc: Global, text: &str) -> Result<Member, OplReason> {
        let (object, Some(role)) = Delimiter::Ats.split(text) else {
            return Err(OplReason::BadList);
        };
        let (kind, id) = read_object_name(object.as_bytes())?;
        let role = read_text(alloc, role)?;
        Ok(Member { kind, id, role })
    }
}

/// The kind and the id of an object, as `w1`.
fn read_object_name(text: &[u8]) -> Result<(Kind, i64), OplReason>
    ensures { result ≡ spec.reading_object_name text.now }
{
    let (kind, digits) = split_kind(text).ok_or(OplReason::BadList)?;
    Ok((kind, read_item_id(digits)?))
}

/// The kind whose letter a text begins with, and the bytes after the letter. `None` if the text begins with no such
/// letter.
pub(crate) fn split_kind(text: &[u8]) -> Option<(Kind, &[u8])>
    ensures { MatchOption result
        (spec.first_kind text.now ≡ None)
        (λ parts. (spec.first_kind text.now ≡ Some parts.0) × (parts.1.now ≡ drop 1 text.now)) }
{
    let (letter, rest) = text.split_first()?;
    Some((kind_of_letter(*letter)?, rest))
}

/// The id of an item, from its digits with or without a minus sign.
fn read_item_id(digits: &[u8]) -> Result<i64, OplReason>
    ensures { result ≡ spec.reading_item_id digits.now }
{
    read_id(digits).map_err(item_reason)
}

/// The reason of an item whose id is refused for `reason`.
fn item_reason(reason: OplReason) -> OplReason
    ensures { result ≡ spec.item_reason reason }
{
    match reason {
        OplReason::OutOfRange => OplReason::OutOfRange,
        _ => OplReason::BadList,
    }
}
