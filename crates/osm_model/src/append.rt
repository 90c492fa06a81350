//! Canonical lines, appended to a vector in stretches. Each stretch is made in a buffer, from its end to its start:
//! the fields before the user name, each reference or few of them, the object of a member, a location. Texts are
//! appended from left to right.
ghost use Rattle.std.specs.Prelude.{◌≡◌, ◌++◌, ◌∷◌, ◌≤◌, ℕ, List, codes, length, drop, IfOk, OnOk};
ghost use Rattle.std.specs.Str.{chars};
ghost use Rattle.osm_model.specs.Joined.{join_with};
ghost use Rattle.osm_model.specs.Escape.{escape, escape_char};
ghost use Rattle.osm_model.specs.Line.{list_text, tag_text, reference_text, member_text, kind_fields, line};
ghost use Rattle.osm_model.specs.Append.{head_text, location_text};
ghost use Rattle.osm_model.specs.Cursor.{more_text};
ghost use Rattle.osm_model.specs.Extends.{Extends};

use crate::escape::{four_digit_escape, has_four_digits, raw_length};
use crate::put::{ESCAPE_BYTES, put, put_byte, put_escaped, put_head, put_integer, put_location};
use crate::{Body, Member, Memory, Tag, Text, Version};

/// The size of the buffer of a stretch. The fields before a user name take fewer bytes.
const STRETCH_BYTES: usize = 128;

impl Version {
    /// Appends the canonical OPL line, without a line end. After an error `out` holds its earlier bytes, and maybe a
    /// part of the line after them.
    pub fn append_line(&self, out: &mut Vec<u8>) -> Result<(), Memory>
        ensures appended { OnOk result (out.new.items ≡ out.old.items ++ line self.now) }
        ensures kept { Extends out.old.items out.new.items }
    {
        append_head(self, out)?;
        append_text(self.user(), out)?;
        append_list(b" T", self.body().tags(), out)?;
        append_kind_fields(self.body(), out)
    }
}

/// Appends the bytes of `buffer` from `start` on.
#[inline(always)]
fn append_from(buffer: &[u8], start: usize, out: &mut Vec<u8>) -> Result<(), Memory>
    requires { start ≤ length buffer.now }
    ensures appended { OnOk result (out.new.items ≡ out.old.items ++ drop start buffer.now) }
    ensures kept { Extends out.old.items out.new.items }
{
    out.extend_from_slice(&buffer[start..])?;
    Ok(())
}

/// Appends the fields before the user name, and the mark of the user name.
fn append_head(version: &Version, out: &mut Vec<u8>) -> Result<(), Memory>
    ensures appended { OnOk result (out.new.items ≡ out.old.items ++ head_text version.now) }
    ensures kept { Extends out.old.items out.new.items }
{
    let mut buffer = [0; STRETCH_BYTES];
    let start = put_head(&mut buffer, STRETCH_BYTES, version);
    append_from(&buffer, start, out)
}

/// Appends the characters of a text, raw or as escapes.
#[inline(always)]
fn append_text(text: &Text, out: &mut Vec<u8>) -> Result<(), Memory>
    ensures appended { OnOk result (out.new.items ≡ out.old.items ++ escape text.now) }
    ensures kept { Extends out.old.items out.new.items }
{
    if let Some(plain) = text.plain() {
        out.extend_from_slice(plain)?;
        return Ok(());
    }
    append_characters(text, out)
}

/// Appends the characters of a text, raw or as escapes. It tests each character.
#[inline(never)]
fn append_characters(text: &Text, out: &mut Vec<u8>) -> Result<(), Memory>
    ensures appended { OnOk result (out.new.items ≡ out.old.items ++ escape text.now) }
    ensures kept { Extends out.old.items out.new.items }
{
    let mut rest = text.as_str();
    'characters: loop {
        let (plain, other) = rest.split_at(raw_length(rest));
        out.extend_from_slice(plain.as_bytes())?;
        let after = append_four_digit_run(other, out)?;
        let mut characters = after.chars();
        let Some(first) = characters.next() else {
            return Ok(());
        };
        append_escaped(first, out)?;
        rest = characters.as_str();
    }
}

/// Appends the characters at the front of `text` whose escapes have four digits, and returns the characters after them.
fn append_four_digit_run<'a>(text: &'a str, out: &mut Vec<u8>) -> Result<&'a str, Memory>
    ensures appended { IfOk result (λ rest. out.old.items ++ escape (chars text.now)
        ≡ out.new.items ++ escape (chars rest.now)) }
    ensures shorter { IfOk result (λ rest. length rest.now ≤ length text.now) }
    ensures kept { Extends out.old.items out.new.items }
{
    let mut rest = text;
    'escapes: loop {
        let mut characters = rest.chars();
        let Some(first) = characters.next() else {
            return Ok(rest);
        };
        let code = u32::from(first);
        if !has_four_digits(code) {
            return Ok(rest);
        }
        out.extend_from_slice(&four_digit_escape(code))?;
        rest = characters.as_str();
    }
}

/// Appends a character of a text, raw or as an escape.
fn append_escaped(c: char, out: &mut Vec<u8>) -> Result<(), Memory>
    ensures appended { OnOk result (out.new.items ≡ out.old.items ++ escape_char c) }
    ensures kept { Extends out.old.items out.new.items }
{
    let mut buffer = [0; ESCAPE_BYTES];
    let start = put_escaped(&mut buffer, ESCAPE_BYTES, c);
    append_from(&buffer, start, out)
}

/// An item of a list in a line.
trait ListItem {
    ghost text: { Self → List ℕ };

    /// Appends `mark`, which has at most 2 bytes, and then the item.
    fn append_after(&self, mark: &[u8], out: &mut Vec<u8>) -> Result<(), Memory>
        requires { length mark.now ≤ 2 }
        ensures appended { OnOk result (out.new.items ≡ out.old.items ++ (mark.now ++ text self.now)) }
        ensures kept { Extends out.old.items out.new.items };
}

impl ListItem for Tag {
    ghost text = { tag_text };

    #[inline(always)]
    fn append_after(&self, mark: &[u8], out: &mut Vec<u8>) -> Result<(), Memory> {
        out.extend_from_slice(mark)?;
        append_text(&self.key, out)?;
        out.push(b'=')?;
        append_text(&self.value, out)
    }
}

impl ListItem for i64 {
    ghost text = { reference_text };

    fn append_after(&self, mark: &[u8], out: &mut Vec<u8>) -> Result<(), Memory> {
        let mut buffer = [0; STRETCH_BYTES];
        let start = put_integer(&mut buffer, STRETCH_BYTES, *self);
        let start = put_byte(&mut buffer, start, b'n');
        let start = put(&mut buffer, start, mark);
        append_from(&buffer, start, out)
    }
}

impl ListItem for Member {
    ghost text = { member_text };

    fn append_after(&self, mark: &[u8], out: &mut Vec<u8>) -> Result<(), Memory> {
        let mut buffer = [0; STRETCH_BYTES];
        let start = put_byte(&mut buffer, STRETCH_BYTES, b'@');
        let start = put_integer(&mut buffer, start, self.id);
        let start = put_byte(&mut buffer, start, self.kind.letter());
        let start = put(&mut buffer, start, mark);
        append_from(&buffer, start, out)?;
        append_text(&self.role, out)
    }
}

/// Appends `mark`, which has at most 2 bytes, and then the items with a comma between each two.
#[inline(always)]
fn append_list<T: ListItem>(mark: &[u8], items: &[T], out: &mut Vec<u8>) -> Result<(), Memory>
    requires { length mark.now ≤ 2 }
    ensures appended { OnOk result (out.new.items ≡ out.old.items ++ (mark.now ++ list_text T.text items.now)) }
    ensures kept { Extends out.old.items out.new.items }
{
    let Some((first, more)) = items.split_first() else {
        out.extend_from_slice(mark)?;
        return Ok(());
    };
    first.append_after(mark, out)?;
    for item in more {
        item.append_after(b",", out)?;
    }
    Ok(())
}

/// Appends the fields after the tags.
fn append_kind_fields(body: &Body, out: &mut Vec<u8>) -> Result<(), Memory>
    ensures appended { OnOk result (out.new.items ≡ out.old.items ++ (32 ∷ join_with 32 (kind_fields body.now))) }
    ensures kept { Extends out.old.items out.new.items }
{
    match body {
        Body::Deleted(kind) => {
            out.extend_from_slice(kind.empty_fields())?;
            Ok(())
        }
        Body::Node { lon, lat, .. } => append_location(*lon, *lat, out),
        Body::Way { refs, .. } => append_references(refs.as_slice(), out),
        Body::Relation { members, .. } => append_list(b" M", members.as_slice(), out),
    }
}

/// The number of references that the buffer of a stretch can hold, each after a comma.
const REFERENCES_PER_STRETCH: usize = 5;

/// Appends the field of references.
fn append_references(ids: &[i64], out: &mut Vec<u8>) -> Result<(), Memory>
    ensures appended { OnOk result (out.new.items ≡ out.old.items ++ (codes " N" ++ list_text reference_text ids.now)) }
    ensures kept { Extends out.old.items out.new.items }
{
    let Some((first, more)) = ids.split_first() else {
        out.extend_from_slice(b" N")?;
        return Ok(());
    };
    first.append_after(b" N", out)?;
    let mut rest = more;
    while !rest.is_empty() {
        let (few, after) = rest.split_at(rest.len().min(REFERENCES_PER_STRETCH));
        append_few_references(few, out)?;
        rest = after;
    }
    Ok(())
}

/// Appends at most 5 references, each after a comma, in one stretch.
fn append_few_references(ids: &[i64], out: &mut Vec<u8>) -> Result<(), Memory>
    requires few { length ids.now ≤ 5 }
    ensures appended { OnOk result (out.new.items ≡ out.old.items ++ more_text reference_text ids.now) }
    ensures kept { Extends out.old.items out.new.items }
{
    let mut buffer = [0; STRETCH_BYTES];
    let mut start = STRETCH_BYTES;
    let mut count = ids.len();
    while count > 0 {
        count -= 1;
        start = put_integer(&mut buffer, start, ids[count]);
        start = put(&mut buffer, start, b",n");
    }
    append_from(&buffer, start, out)
}

/// Appends the fields of a location.
fn append_location(lon: i32, lat: i32, out: &mut Vec<u8>) -> Result<(), Memory>
    ensures appended { OnOk result (out.new.items ≡ out.old.items ++ location_text lon lat) }
    ensures kept { Extends out.old.items out.new.items }
{
    let mut buffer = [0; STRETCH_BYTES];
    let start = put_location(&mut buffer, STRETCH_BYTES, lon, lat);
    append_from(&buffer, start, out)
}
