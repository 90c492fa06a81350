//! The stored entries, which references name. An entry with a meaning keeps the user id or the text, so a reference to
//! it reads no string again.
ghost use Rattle.std.specs.Prelude.{◌≡◌, IfOk};
ghost use Rattle.o5_codec.specs.Results.{O5Reads, and_added};
ghost use Rattle.o5_codec.specs.Text.{tag_of, user_of, and_user};
ghost use Rattle.o5_codec.specs.Decoded.{bytes_of, IsMeant};

use crate::O5Reason;
use crate::read::text::{add_tag, known_text, put_user, to_uid};
use crate::strings::StringPair;
use arrayvec::ArrayVec;
use osm_model::{Memory, Meta, Tag, Text};
use std::alloc::Global;
use std::marker::Model;

/// The most bytes of a string that spells a user id and holds no zero byte.
const UID_BYTES: usize = 5;

/// A stored entry as the meaning of its two strings. A reference copies the meaning and doesn't read the strings again.
/// Contracts see the two strings.
#[derive(Drop)]
pub(crate) struct TableEntry {
    first: Decoded,
    second: Decoded,
}

/// The meaning of a string.
#[derive(Drop)]
pub(crate) enum Decoded {
    /// A user id, and the bytes that spell it.
    Uid(u32, ArrayVec<u8, UID_BYTES>),
    /// A text.
    Text(Text),
    /// No known meaning.
    Unknown(Vec<u8>),
}

impl Model for TableEntry {
    ghost use Rattle.o5_codec.specs.Entry.{EntryStrings};
    ghost use Rattle.o5_codec.specs.StringPair.{entry_of};
    ghost use Rattle.o5_codec.specs.Decoded.{bytes_of};
    ghost use Rattle.o5_codec.specs.TableEntryInside.{IsTableEntry};

    ghost Value = { EntryStrings };

    ghost view = { λ e. entry_of (bytes_of e.first) (bytes_of e.second) };

    ghost invariant = { IsTableEntry };
}

impl Decoded {
    /// The meaning of the first string of an entry: a user id if the string spells one in at most `UID_BYTES` bytes,
    /// else as for a second string. The strings of keys and members hardly spell user ids.
    fn of_first(alloc: Global, string: &[u8]) -> Result<Decoded, Memory>
        ensures bytes { IfOk result (λ m. bytes_of m ≡ string.now) }
        ensures meant { IfOk result IsMeant }
    {
        let mut spelled = ArrayVec::new();
        match to_uid(string) {
            Ok(uid) if spelled.try_extend_from_slice(string).is_ok() => {
                Ok(Decoded::Uid(uid, spelled))
            }
            _ => Decoded::of_second(alloc, string),
        }
    }

    /// The meaning of the second string of an entry.
    fn of_second(alloc: Global, string: &[u8]) -> Result<Decoded, Memory>
        ensures bytes { IfOk result (λ m. bytes_of m ≡ string.now) }
        ensures meant { IfOk result IsMeant }
    {
        match known_text(alloc, string)? {
            Some(text) => Ok(Decoded::Text(text)),
            None => Ok(Decoded::Unknown(Vec::from_slice(alloc, string)?)),
        }
    }

    /// The bytes of the string.
    fn as_slice(&self) -> &[u8]
        ensures { result.now ≡ bytes_of self.now }
    {
        match self {
            Decoded::Uid(_, spelled) => spelled.as_slice(),
            Decoded::Text(text) => text.as_str().as_bytes(),
            Decoded::Unknown(bytes) => bytes.as_slice(),
        }
    }
}

impl TableEntry {
    /// An entry with copies of two strings.
    pub(crate) fn new(alloc: Global, strings: &StringPair<'_>) -> Result<TableEntry, Memory>
        ensures { IfOk result (λ e. e ≡ strings.now) }
    {
        Ok(TableEntry {
            first: Decoded::of_first(alloc, strings.first)?,
            second: Decoded::of_second(alloc, strings.second)?,
        })
    }

    /// The bytes of the two strings.
    pub(crate) fn strings(&self) -> StringPair<'_>
        ensures { result ≡ self.now }
    {
        StringPair {
            first: self.first.as_slice(),
            second: self.second.as_slice(),
        }
    }

    /// Writes the user id and the user name into `meta`.
    ///
    /// # Errors
    ///
    /// As for [`put_user`].
    #[inline(always)]
    pub(crate) fn put_user(&self, alloc: Global, meta: &mut Meta) -> Result<(), O5Reason>
        ensures { O5Reads (λ _. meta.new) (and_user meta.old (user_of self.now)) result }
    {
        match (&self.first, &self.second) {
            (Decoded::Uid(uid, _), Decoded::Text(name)) => {
                meta.uid = u64::from(*uid);
                Ok(name.copy_into(&mut meta.user)?)
            }
            _ => put_user(alloc, &self.strings(), meta),
        }
    }

    /// Adds the tag to a list.
    ///
    /// # Errors
    ///
    /// As for [`add_tag`].
    #[inline(always)]
    pub(crate) fn add_tag(&self, alloc: Global, tags: &mut Vec<Tag>) -> Result<(), O5Reason>
        ensures { O5Reads (λ _. tags.new.items) (and_added tags.old.items (tag_of self.now)) result }
    {
        match (&self.first, &self.second) {
            (Decoded::Text(key), Decoded::Text(value)) => {
                let (key, value) = (key.copy()?, value.copy()?);
                Ok(tags.push(Tag { key, value })?)
            }
            _ => add_tag(alloc, &self.strings(), tags),
        }
    }
}
