//! The straight reader: a line whose fields have the usual order and form, read from left to right. It refuses no line:
//! the general reader reads what it leaves.
ghost use Rattle.std.specs.Prelude.{◌≡◌, ◌∷◌, ◌++◌, true, Ok, Some, IfSome};
ghost use Rattle.std.specs.List.{list_all};
ghost use Rattle.osm_model.specs.declared.body.Body.TheVariants.{Deleted};
ghost use Rattle.osm_model.specs.Joined.{join_with};
ghost use Rattle.osm_model.specs.Line.{list_text, empty_fields};
ghost use Rattle.osm_model.specs.Append.{location_text};
ghost use Rattle.opl_line.specs.Reading.{reading_line};
ghost use Rattle.opl_line.specs.Straight.{IsAuthored, IsHead, IsTail, deleted_text};

mod item;
mod part;
pub(crate) mod shared_author;
mod text;

use item::{StraightItem, parse_list, parse_object, strip_byte};
use osm_model::{Body, Kind, Members, Meta, References, Spare, Tags, Version};
use part::{parse_coordinate, parse_number, parse_time};
use shared_author::SharedAuthor;
use std::alloc::Global;
use text::parse_text;

/// The fields of a line before its tags.
#[derive(Drop)]
struct LineHead {
    kind: Kind,
    id: i64,
    is_deleted: bool,
    meta: Meta,
}

/// The version of a line whose fields have the usual order and form; its tags may have any order. `None` for another
/// line, and when out of memory. The version is made in the memory of `spare`, if there is some. Its changeset, time
/// and user are copied from `shared_author` if the line repeats them.
#[inline(always)]
pub(crate) fn read_straight(
    alloc: Global,
    spare: &mut Spare,
    shared_author: &mut SharedAuthor,
    line: &[u8],
) -> Option<Version>
    ensures { IfSome result (λ version. reading_line line.now ≡ Ok (Some version)) }
{
    let (head, rest) = read_head(alloc, shared_author, line)?;
    let body = read_tail(alloc, spare, head.kind, head.is_deleted, rest)?;
    if head.meta.version == 0 || !head.meta.is_dated() {
        return None;
    }
    Version::from_checked_data(alloc, spare, head.id, head.meta, body).ok()
}

/// The fields before the tags, and the text after them.
#[inline(always)]
fn read_head<'a>(
    alloc: Global,
    shared_author: &mut SharedAuthor,
    line: &'a [u8],
) -> Option<(LineHead, &'a [u8])>
    ensures { IfSome result (λ read. IsHead line.now read.0.kind read.0.id read.0.is_deleted read.0.meta read.1.now) }
{
    let ((kind, id), rest) = parse_object(line)?;
    let (version, rest) = parse_number(strip_mark(rest, b'v')?)?;
    let (is_deleted, rest) = parse_deleted(strip_mark(rest, b'd')?)?;
    let (meta, rest) = read_meta(alloc, shared_author, version, rest)?;
    let head = LineHead {
        kind,
        id,
        is_deleted,
        meta,
    };
    Some((head, rest))
}

/// The metadata of a version with the number `version`, and the text after the user name.
#[inline(always)]
fn read_meta<'a>(
    alloc: Global,
    shared_author: &mut SharedAuthor,
    version: u64,
    text: &'a [u8],
) -> Option<(Meta, &'a [u8])>
    ensures { IfSome result (λ read. IsAuthored text.now version read.0 read.1.now) }
{
    if let Some(read) = shared_author.read(version, text) {
        return Some(read);
    }
    let (changeset, rest) = parse_number(strip_mark(text, b'c')?)?;
    let (time, rest) = parse_time(strip_mark(rest, b't')?);
    let (uid, rest) = parse_number(strip_mark(rest, b'i')?)?;
    let (user, rest) = parse_text(alloc, strip_mark(rest, b'u')?)?;
    let meta = Meta {
        version,
        time,
        changeset,
        uid,
        user,
    };
    shared_author.note(&meta, text, rest);
    Some((meta, rest))
}

/// Whether an object was deleted, and the text after the mark.
#[inline(always)]
fn parse_deleted(text: &[u8]) -> Option<(bool, &[u8])>
    ensures { IfSome result (λ read. text.now ≡ deleted_text read.0 ++ read.1.now) }
{
    if let Some(rest) = strip_byte(text, b'V') {
        return Some((false, rest));
    }
    let rest = strip_byte(text, b'D')?;
    Some((true, rest))
}

/// The body, from the text of a line from the tags on.
#[inline(always)]
fn read_tail(
    alloc: Global,
    spare: &mut Spare,
    kind: Kind,
    is_deleted: bool,
    text: &[u8],
) -> Option<Body>
    ensures { IfSome result (IsTail text.now kind is_deleted) }
{
    let text = strip_mark(text, b'T')?;
    if is_deleted {
        return read_deleted(kind, text);
    }
    let (tags, rest) = parse_list(alloc, spare, text)?;
    let tags = Tags::from_vec(tags);
    match kind {
        Kind::Node => {
            let (lon, lat) = read_location(rest)?;
            Some(Body::Node { lon, lat, tags })
        }
        Kind::Way => {
            let refs = References::from_vec(read_last_list(alloc, spare, strip_mark(rest, b'N')?)?);
            Some(Body::Way { refs, tags })
        }
        Kind::Relation => {
            let members = Members::from_vec(read_last_list(alloc, spare, strip_mark(rest, b'M')?)?);
            Some(Body::Relation { members, tags })
        }
    }
}

/// The body of a deleted object. `text` is the line after the mark of the tags.
fn read_deleted(kind: Kind, text: &[u8]) -> Option<Body>
    ensures { IfSome result (λ b. (b ≡ Deleted kind) × (text.now ≡ 32 ∷ join_with 32 (empty_fields kind))) }
{
    if text == kind.empty_fields() {
        Some(Body::Deleted(kind))
    } else {
        None
    }
}

/// The longitude and the latitude of a node, after its tags.
#[inline(always)]
fn read_location(text: &[u8]) -> Option<(i32, i32)>
    ensures { IfSome result (λ read. text.now ≡ location_text read.0 read.1) }
{
    let (lon, rest) = parse_coordinate(strip_mark(text, b'x')?)?;
    let (lat, rest) = parse_coordinate(strip_mark(rest, b'y')?)?;
    if rest.is_empty() {
        Some((lon, lat))
    } else {
        None
    }
}

/// The items of a list that a line ends with.
#[inline(always)]
fn read_last_list<T: StraightItem>(alloc: Global, spare: &mut Spare, text: &[u8]) -> Option<Vec<T>>
    ensures text { IfSome result (λ items. text.now ≡ list_text T.form items.items) }
    ensures valid { IfSome result (λ items. list_all T.is_valid items.items ≡ true) }
{
    let (items, rest) = parse_list(alloc, spare, text)?;
    if rest.is_empty() { Some(items) } else { None }
}

/// The text after the blank and the letter of a field.
#[inline(always)]
fn strip_mark(text: &[u8], letter: u8) -> Option<&[u8]>
    ensures { IfSome result (λ rest. text.now ≡ 32 ∷ letter ∷ rest.now) }
{
    if text.len() < 2 || text[0] != b' ' || text[1] != letter {
        return None;
    }
    Some(&text[2..])
}

#[cfg(test)]
mod tests;
