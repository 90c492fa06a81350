//! Lists whose items have their canonical forms, in any order.
ghost use Rattle.std.specs.Prelude.{◌≡◌, [], ◌++◌, ◌∷◌, ◌&&◌, true, ℕ, List, Bool, IfSome};
ghost use Rattle.std.specs.List.{list_all};
ghost use Rattle.osm_model.specs.Id.{is_id};
ghost use Rattle.osm_model.specs.Text.{is_text};
ghost use Rattle.osm_model.specs.Kind.{kind_letter};
ghost use Rattle.osm_model.specs.Decimal.{integer_text};
ghost use Rattle.osm_model.specs.Line.{list_text, tag_text, reference_text, member_text};

use super::part::parse_id;
use super::text::parse_text;
use crate::item::kind_of_letter;
use osm_model::{Kind, Member, Spare, Tag};
use std::alloc::Global;

/// An item of a list: a tag, a reference or a member.
pub(crate) trait StraightItem: Drop + Sized {
    ghost form: { Self → List ℕ };

    ghost is_valid: { Self → Bool };

    /// An empty list, in memory that isn't needed any more, if there is some.
    fn take_list(spare: &mut Spare) -> Vec<Self>
        ensures { result.items ≡ [] };

    /// The item that a text begins with, and the text after it. `None` if the item doesn't have its canonical form.
    fn parse(alloc: Global, text: &[u8]) -> Option<(Self, &[u8])>
        ensures text { IfSome result (λ read. text.now ≡ form read.0 ++ read.1.now) }
        ensures valid { IfSome result (λ read. is_valid read.0 ≡ true) };
}

/// A tag, as `key=value`.
impl StraightItem for Tag {
    ghost form = { tag_text };

    ghost is_valid = { λ tag. is_text tag.key && is_text tag.value };

    #[inline(always)]
    fn take_list(spare: &mut Spare) -> Vec<Tag> {
        spare.take_tags()
    }

    #[inline(always)]
    fn parse(alloc: Global, text: &[u8]) -> Option<(Tag, &[u8])> {
        let (key, rest) = parse_text(alloc, text)?;
        let (value, rest) = parse_text(alloc, strip_byte(rest, b'=')?)?;
        Some((Tag { key, value }, rest))
    }
}

/// A reference: the letter `n` and the id of a node, as `n1`.
impl StraightItem for i64 {
    ghost form = { reference_text };

    ghost is_valid = { is_id };

    #[inline(always)]
    fn take_list(spare: &mut Spare) -> Vec<i64> {
        spare.take_references()
    }

    #[inline(always)]
    fn parse(_alloc: Global, text: &[u8]) -> Option<(i64, &[u8])> {
        parse_id(strip_byte(text, b'n')?)
    }
}

/// A member: an object and its role, as `w1@role`.
impl StraightItem for Member {
    ghost form = { member_text };

    ghost is_valid = { λ member. is_id member.id && is_text member.role };

    #[inline(always)]
    fn take_list(spare: &mut Spare) -> Vec<Member> {
        spare.take_members()
    }

    fn parse(alloc: Global, text: &[u8]) -> Option<(Member, &[u8])> {
        let ((kind, id), rest) = parse_object(text)?;
        let (role, rest) = parse_text(alloc, strip_byte(rest, b'@')?)?;
        Some((Member { kind, id, role }, rest))
    }
}

/// The kind and the id of an object, as `w1`, and the text after them.
#[inline(always)]
pub(crate) fn parse_object(text: &[u8]) -> Option<((Kind, i64), &[u8])>
    ensures text { IfSome result (λ read. text.now ≡ kind_letter read.0.0 ∷ (integer_text read.0.1 ++ read.1.now)) }
    ensures id { IfSome result (λ read. is_id read.0.1 ≡ true) }
{
    if text.is_empty() {
        return None;
    }
    let kind = kind_of_letter(text[0])?;
    let (id, rest) = parse_id(&text[1..])?;
    Some(((kind, id), rest))
}

/// The text after `byte`, if the text begins with it.
#[inline(always)]
pub(crate) fn strip_byte(text: &[u8], byte: u8) -> Option<&[u8]>
    ensures { IfSome result (λ rest. text.now ≡ byte ∷ rest.now) }
{
    if text.is_empty() || text[0] != byte {
        return None;
    }
    Some(&text[1..])
}

/// The items of a list, with a comma between each two, and the text after them.
#[inline(always)]
pub(crate) fn parse_list<'a, T: StraightItem>(
    alloc: Global,
    spare: &mut Spare,
    text: &'a [u8],
) -> Option<(Vec<T>, &'a [u8])>
    ensures text { IfSome result (λ read. text.now ≡ list_text T.form read.0.items ++ read.1.now) }
    ensures valid { IfSome result (λ read. list_all T.is_valid read.0.items ≡ true) }
{
    if text.is_empty() || text[0] == b' ' {
        return Some((Vec::new(alloc), text));
    }
    parse_items(alloc, spare, text)
}

/// The items of a list that isn't empty.
fn parse_items<'a, T: StraightItem>(
    alloc: Global,
    spare: &mut Spare,
    text: &'a [u8],
) -> Option<(Vec<T>, &'a [u8])>
    ensures text { IfSome result (λ read. text.now ≡ list_text T.form read.0.items ++ read.1.now) }
    ensures valid { IfSome result (λ read. list_all T.is_valid read.0.items ≡ true) }
{
    let mut items = T::take_list(spare);
    let mut rest = text;
    'items: loop {
        let (item, after) = T::parse(alloc, rest)?;
        if items.push(item).is_err() {
            return None;
        }
        if after.is_empty() || after[0] != b',' {
            return Some((items, after));
        }
        rest = &after[1..];
    }
}
