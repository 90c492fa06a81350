//! An iterator over the bytes of a canonical line, from left to right. It allocates nothing.
ghost use Rattle.std.specs.Prelude.{◌≡◌, ◌++◌, ◌∷◌, ◌<◌, ◌≤◌, [], drop, length, MatchOption};
ghost use Rattle.std.specs.Bool.{MatchBool};
ghost use Rattle.std.specs.Str.{chars};
ghost use Rattle.std.specs.Iterator.{YieldsFirst, item_count};
ghost use Rattle.osm_model.specs.Data.{VersionData, tags_of};
ghost use Rattle.osm_model.specs.Escape.{escape};
ghost use Rattle.osm_model.specs.SmallBuffer.{bytes_left};
ghost use Rattle.osm_model.specs.Line.{list_text, tag_text, reference_text, member_text, line};
ghost use Rattle.osm_model.specs.Cursor.{bytes_from, from_field, from_kind, from_next, from_tags};
ghost use Rattle.osm_model.specs.Cursor.{chunk_text, chunk_of, more_text, items_text};
ghost use Rattle.osm_model.specs.Cursor.{after_chunk, remaining_bytes, Emits, EmitsOrEnds};

use crate::escape::raw_length;
use crate::small_buffer::SmallBuffer;
use crate::{Body, Member, Tag, Text, Version};

/// A field of a line.
#[derive(Clone, Copy)]
enum Field {
    /// The fields before the user name, and the mark of the user name.
    Head,
    Tags,
    /// The fields after the tags, which depend on the kind of the object.
    Kind,
}

/// A position in a line that isn't inside a text.
#[derive(Clone, Copy)]
enum LinePosition<'a> {
    /// Before the space of a field, or at the very beginning.
    Field(Field),
    /// Between the key of a tag and its value.
    Equals {
        value: &'a Text,
        more: &'a [Tag],
    },
    /// After a tag.
    MoreTags {
        tags: &'a [Tag],
    },
    /// Before a reference, or after the last one.
    References {
        is_first: bool,
        ids: &'a [i64],
    },
    /// Before a member, or after the last one.
    Members {
        is_first: bool,
        members: &'a [Member],
    },
    /// Between the object of a member and its role.
    At {
        role: &'a Text,
        more: &'a [Member],
    },
    /// At the end of the line.
    End,
}

/// The rest of a line: the rest of a text, and then the line from a position on.
#[derive(Clone, Copy)]
struct Continuation<'a> {
    text: &'a str,
    position: LinePosition<'a>,
}

impl<'a> Continuation<'a> {
    fn at(position: LinePosition<'a>) -> Continuation<'a>
        ensures text { chars result.text.now ≡ [] }
        ensures position { result.position ≡ position.entry }
    {
        Continuation { text: "", position }
    }

    fn with_text(text: &'a Text, position: LinePosition<'a>) -> Continuation<'a>
        ensures text { chars result.text.now ≡ text.now }
        ensures position { result.position ≡ position.entry }
    {
        Continuation {
            text: text.as_str(),
            position,
        }
    }
}

/// Fills `small_buffer` with a field, or with the front of a field, and returns the rest of the line.
fn emit_field<'a>(
    version: &'a Version,
    field: Field,
    small_buffer: &mut SmallBuffer,
) -> Continuation<'a>
    ensures { Emits version.now (from_field version.now field) small_buffer.new result }
{
    match field {
        Field::Head => {
            small_buffer.set_head(version);
            Continuation::with_text(version.user(), LinePosition::Field(Field::Tags))
        }
        Field::Tags => emit_tags(version, small_buffer),
        Field::Kind => emit_kind_field(version, small_buffer),
    }
}

/// Fills `small_buffer` with the mark of the tags, and for a node without tags also with its location.
fn emit_tags<'a>(version: &'a Version, small_buffer: &mut SmallBuffer) -> Continuation<'a>
    ensures { Emits version.now (from_tags version.now) small_buffer.new result }
{
    match version.body() {
        Body::Node { lon, lat, tags } if tags.as_slice().is_empty() => {
            small_buffer.set_location(b" T", *lon, *lat);
            Continuation::at(LinePosition::End)
        }
        _ => {
            small_buffer.set_bytes(b" T");
            first_tag(version)
        }
    }
}

/// The rest of the line after the mark of the tags.
fn first_tag(version: &Version) -> Continuation<'_>
    ensures { from_next version.now result ≡ list_text tag_text (tags_of version.now.body) ++ from_kind version.now }
{
    match version.body().tags().split_first() {
        Some((tag, more)) => Continuation::with_text(
            &tag.key,
            LinePosition::Equals {
                value: &tag.value,
                more,
            },
        ),
        None => Continuation::at(LinePosition::Field(Field::Kind)),
    }
}

/// Fills `small_buffer` with the comma before the next tag, or, after the last tag, as `emit_kind_field` does.
fn emit_next_tag<'a>(
    version: &'a Version,
    tags: &'a [Tag],
    small_buffer: &mut SmallBuffer,
) -> Continuation<'a>
    ensures { Emits version.now (more_text tag_text tags.now ++ from_kind version.now) small_buffer.new result }
{
    match tags.split_first() {
        Some((tag, more)) => {
            small_buffer.set_bytes(b",");
            Continuation::with_text(
                &tag.key,
                LinePosition::Equals {
                    value: &tag.value,
                    more,
                },
            )
        }
        None => emit_kind_field(version, small_buffer),
    }
}

/// Fills `small_buffer` with the front of the fields after the tags.
fn emit_kind_field<'a>(version: &'a Version, small_buffer: &mut SmallBuffer) -> Continuation<'a>
    ensures { Emits version.now (from_kind version.now) small_buffer.new result }
{
    match version.body() {
        Body::Deleted(kind) => {
            small_buffer.set_bytes(kind.empty_fields());
            Continuation::at(LinePosition::End)
        }
        Body::Node { lon, lat, .. } => {
            small_buffer.set_location(b"", *lon, *lat);
            Continuation::at(LinePosition::End)
        }
        Body::Way { refs, .. } => {
            small_buffer.set_bytes(b" N");
            Continuation::at(LinePosition::References {
                is_first: true,
                ids: refs.as_slice(),
            })
        }
        Body::Relation { members, .. } => {
            small_buffer.set_bytes(b" M");
            Continuation::at(LinePosition::Members {
                is_first: true,
                members: members.as_slice(),
            })
        }
    }
}

/// Fills `small_buffer` with the first of the references `ids`, if there is one.
fn emit_reference<'a>(
    is_first: bool,
    ids: &'a [i64],
    small_buffer: &mut SmallBuffer,
) -> Option<Continuation<'a>>
    ensures { (v : VersionData) → EmitsOrEnds v (items_text is_first reference_text ids.now) small_buffer.new result }
{
    let (id, more) = ids.split_first()?;
    small_buffer.set_integer(
        if is_first {
            b"n".as_slice()
        } else {
            b",n".as_slice()
        },
        *id,
    );
    Some(Continuation::at(LinePosition::References {
        is_first: false,
        ids: more,
    }))
}

/// Fills `small_buffer` with the object of the first of `members`, if there is one.
fn emit_member<'a>(
    is_first: bool,
    members: &'a [Member],
    small_buffer: &mut SmallBuffer,
) -> Option<Continuation<'a>>
    ensures { (v : VersionData) → EmitsOrEnds v (items_text is_first member_text members.now) small_buffer.new result }
{
    let (member, more) = members.split_first()?;
    let mark = [b',', member.kind.letter()];
    small_buffer.set_integer(if is_first { &mark[1..] } else { &mark[..] }, member.id);
    Some(Continuation::at(LinePosition::At {
        role: &member.role,
        more,
    }))
}

/// Fills `small_buffer` with the bytes at `position`, and returns the rest of the line. Returns `None` at the end of
/// the line.
fn emit<'a>(
    version: &'a Version,
    position: LinePosition<'a>,
    small_buffer: &mut SmallBuffer,
) -> Option<Continuation<'a>>
    ensures { EmitsOrEnds version.now (bytes_from version.now position.entry) small_buffer.new result }
{
    match position {
        LinePosition::Field(field) => Some(emit_field(version, field, small_buffer)),
        LinePosition::Equals { value, more } => {
            small_buffer.set_bytes(b"=");
            Some(Continuation::with_text(value, LinePosition::MoreTags { tags: more }))
        }
        LinePosition::MoreTags { tags } => Some(emit_next_tag(version, tags, small_buffer)),
        LinePosition::References { is_first, ids } => emit_reference(is_first, ids, small_buffer),
        LinePosition::Members { is_first, members } => emit_member(is_first, members, small_buffer),
        LinePosition::At { role, more } => {
            small_buffer.set_bytes(b"@");
            Some(Continuation::with_text(
                role,
                LinePosition::Members {
                    is_first: false,
                    members: more,
                },
            ))
        }
        LinePosition::End => None,
    }
}

/// The storage of the current run of bytes.
#[derive(Clone, Copy)]
enum Chunk<'a> {
    /// In the small buffer of the `LineBytes`.
    SmallBuffer,
    /// In a text of the version, whose bytes are raw.
    Plain(&'a [u8]),
}

/// The chunk at the front of a text, and the rest of the text; `None` for the empty text.
fn emit_text<'a>(text: &'a str, small_buffer: &mut SmallBuffer) -> Option<(Chunk<'a>, &'a str)>
    ensures { MatchOption result
        (chars text.now ≡ [])
        (λ p. (escape (chars text.now) ≡ chunk_text p.0 small_buffer.new ++ escape (chars p.1.now))
        × (0 < length (chunk_text p.0 small_buffer.new))) }
{
    let length = raw_length(text);
    if length > 0 {
        let (plain, rest) = text.split_at(length);
        return Some((Chunk::Plain(plain.as_bytes()), rest));
    }
    let mut characters = text.chars();
    let first = characters.next()?;
    small_buffer.set_escaped(first);
    Some((Chunk::SmallBuffer, characters.as_str()))
}

/// The remaining bytes of a version's canonical line: the current run and the bytes after it. A `LineBytes` allocates
/// nothing: it holds a position in the version, and at most 128 bytes of the current fields, id or escape.
#[derive(Drop)]
pub struct LineBytes<'a> {
    version: &'a Version,
    small_buffer: SmallBuffer,
    chunk: Chunk<'a>,
    next: Continuation<'a>,
}

impl Version {
    /// The bytes of the canonical OPL line, without a line end.
    pub fn line_bytes(&self) -> LineBytes<'_>
        ensures bytes { remaining_bytes result ≡ line self.now }
        ensures runs { after_chunk result ≡ line self.now }
    {
        LineBytes {
            version: self,
            small_buffer: SmallBuffer::new(),
            chunk: Chunk::SmallBuffer,
            next: Continuation::at(LinePosition::Field(Field::Head)),
        }
    }
}

impl<'a> LineBytes<'a> {
    /// Drops the rest of the current run and takes the next one. Returns whether there is a next run.
    pub fn advance(&mut self) -> bool
        ensures { MatchBool result
            ((after_chunk self.old ≡ chunk_of self.new ++ after_chunk self.new) × (0 < length (chunk_of self.new)))
            ((after_chunk self.old ≡ []) × (remaining_bytes self.new ≡ [])) }
    {
        if let Some((chunk, text)) = emit_text(self.next.text, &mut self.small_buffer) {
            self.chunk = chunk;
            self.next.text = text;
            return true;
        }
        let Some(next) = emit(self.version, self.next.position, &mut self.small_buffer) else {
            self.chunk = Chunk::Plain(&[]);
            return false;
        };
        self.chunk = Chunk::SmallBuffer;
        self.next = next;
        true
    }

    /// The remaining bytes of the current run.
    pub fn chunk(&self) -> &[u8]
        ensures { result.now ≡ chunk_of self.now }
    {
        match self.chunk {
            Chunk::SmallBuffer => self.small_buffer.as_slice(),
            Chunk::Plain(bytes) => bytes,
        }
    }

    /// Takes the next run if no byte of the current one remains. Returns whether a byte remains.
    #[inline(always)]
    pub(crate) fn fill(&mut self) -> bool
        ensures bytes { remaining_bytes self.new ≡ remaining_bytes self.old }
        ensures more { MatchBool result (0 < length (chunk_of self.new)) (remaining_bytes self.new ≡ []) }
    {
        !self.chunk().is_empty() || self.advance()
    }

    /// Drops the first `count` bytes of the current run.
    #[inline(always)]
    pub(crate) fn drop_front(&mut self, count: usize)
        requires { count ≤ length (chunk_of self.old) }
        ensures chunk { chunk_of self.new ≡ drop count (chunk_of self.old) }
        ensures rest { after_chunk self.new ≡ after_chunk self.old }
    {
        match self.chunk {
            Chunk::SmallBuffer => self.small_buffer.drop_front(count),
            Chunk::Plain(bytes) => self.chunk = Chunk::Plain(&bytes[count..]),
        }
    }

    /// Takes the first byte of the current run. Returns `None` at the end of the run.
    fn take(&mut self) -> Option<u8>
        ensures chunk { MatchOption result
            ((chunk_of self.old ≡ []) × (chunk_of self.new ≡ []))
            (λ byte. chunk_of self.old ≡ byte ∷ chunk_of self.new) }
        ensures rest { after_chunk self.new ≡ after_chunk self.old }
    {
        match self.chunk {
            Chunk::SmallBuffer => self.small_buffer.take(),
            Chunk::Plain(bytes) => {
                let (first, rest) = bytes.split_first()?;
                self.chunk = Chunk::Plain(rest);
                Some(*first)
            }
        }
    }
}

impl<'a> Iterator for LineBytes<'a> {
    type Item = u8;

    ghost next_gives = { YieldsFirst remaining_bytes };

    ghost remaining = { item_count remaining_bytes };

    fn next(&mut self) -> Option<u8> {
        if let Some(byte) = self.take() {
            return Some(byte);
        }
        if !self.advance() {
            return None;
        }
        self.take()
    }
}
