//! The string table of a segment.
ghost use Rattle.std.specs.Prelude.{◌≡◌, [], ◌∷◌, take, IfOk, OnOk, option_copied};
ghost use Rattle.o5_codec.specs.Results.{O5Gives, O5Reads, and_then, and_added};
ghost use Rattle.o5_codec.specs.Table.{table_limit, table_with, entry_at};
ghost use Rattle.o5_codec.specs.Text.{tag_of, user_of, and_user};
ghost use Rattle.o5_codec.specs.StringPair.{entry_of, strings_of, table_after};

use crate::O5Reason;
use crate::limits::{TABLE_LIMIT, is_short};
use crate::read::strings::StringRef;
use crate::read::table_entry::TableEntry;
use crate::read::text::{add_tag, put_user};
use crate::strings::StringPair;
use circular_buffer::HeapCircularBuffer;
use osm_model::{Memory, Meta, Tag};
use std::alloc::Global;
use std::marker::Model;

/// The entries that references can name, in a ring. Contracts see the list of the entries, the newest first.
///
/// The ring is allocated once. A page of it costs no resident memory until an entry is written into the page.
#[derive(Drop)]
pub(crate) struct Table {
    ring: HeapCircularBuffer<TableEntry>,
}

impl Model for Table {
    ghost use Rattle.std.specs.Prelude.{◌≡◌, List, reverse};
    ghost use Rattle.o5_codec.specs.Entry.{EntryStrings};
    ghost use Rattle.o5_codec.specs.Table.{table_limit};

    ghost Value = { List EntryStrings };

    ghost view = { λ t. reverse t.ring.items };

    ghost invariant = { λ t. t.ring.capacity ≡ table_limit };
}

impl Table {
    /// An empty table with room for `TABLE_LIMIT` entries.
    pub(crate) fn new(alloc: Global) -> Result<Table, Memory>
        ensures { IfOk result (λ t. t ≡ []) }
    {
        Ok(Table {
            ring: HeapCircularBuffer::with_capacity(alloc, TABLE_LIMIT)?,
        })
    }

    pub(crate) fn allocator(&self) -> Global {
        *self.ring.allocator()
    }

    pub(crate) fn clear(&mut self)
        ensures { self.new ≡ [] }
    {
        self.ring.clear();
    }

    /// Stores strings that are inline, unless they are too long. A reference stores nothing.
    #[inline(always)]
    pub(crate) fn store(&mut self, spelled: &StringRef<'_>) -> Result<(), Memory>
        ensures { OnOk result (self.new ≡ table_after spelled.now self.old) }
    {
        match spelled {
            StringRef::Inline(strings) => self.store_strings(strings.first, strings.second),
            StringRef::Reference(_) => Ok(()),
        }
    }

    /// Stores two strings, unless they are too long. This is a function of its own only for the optimizer, since most
    /// strings are references. Five such functions of this crate bring 5 percent of a merge of o5m files.
    #[inline(never)]
    fn store_strings(&mut self, first: &[u8], second: &[u8]) -> Result<(), Memory>
        ensures { OnOk result (self.new ≡ table_with (entry_of first.now second.now) self.old) }
    {
        let strings = StringPair { first, second };
        if is_short(&strings) {
            let entry = TableEntry::new(self.allocator(), &strings)?;
            self.push(entry);
        }
        Ok(())
    }

    /// Stores an entry. A full table drops its oldest one.
    fn push(&mut self, entry: TableEntry)
        ensures { self.new ≡ take table_limit (entry ∷ self.old) }
    {
        self.ring.push_back(entry);
    }

    /// The inline strings, or the strings of the entry that the reference names.
    ///
    /// # Errors
    ///
    /// `BadReference` if the table has no such entry.
    #[inline(always)]
    pub(crate) fn strings<'a>(&'a self, spelled: &StringRef<'a>) -> Result<StringPair<'a>, O5Reason>
        ensures { O5Gives (λ s. s) (strings_of self.now spelled.now) result }
    {
        match spelled {
            StringRef::Inline(strings) => Ok(StringPair {
                first: strings.first,
                second: strings.second,
            }),
            StringRef::Reference(reference) => match self.get(*reference) {
                Some(entry) => Ok(entry.strings()),
                None => Err(O5Reason::BadReference),
            },
        }
    }

    /// Writes the user id and the user name of `spelled`, which is inline or a reference, into `meta`.
    ///
    /// # Errors
    ///
    /// `BadReference` if the table has no such entry, else as for [`put_user`].
    #[inline(always)]
    pub(crate) fn put_user(&self, spelled: &StringRef<'_>, meta: &mut Meta) -> Result<(), O5Reason>
        ensures { O5Reads (λ _. meta.new)
            (and_user meta.old (and_then (strings_of self.now spelled.now) user_of)) result }
    {
        match spelled {
            StringRef::Inline(strings) => put_user(self.allocator(), strings, meta),
            StringRef::Reference(reference) => match self.get(*reference) {
                Some(entry) => entry.put_user(self.allocator(), meta),
                None => Err(O5Reason::BadReference),
            },
        }
    }

    /// Adds the tag of `spelled` to `tags`. Stores strings that are inline, unless they are too long.
    ///
    /// # Errors
    ///
    /// `BadReference` if the table has no such entry, else as for [`add_tag`].
    #[inline(always)]
    pub(crate) fn add_tag(
        &mut self,
        spelled: &StringRef<'_>,
        tags: &mut Vec<Tag>,
    ) -> Result<(), O5Reason>
        ensures tag { O5Reads (λ _. tags.new.items)
            (and_added tags.old.items (and_then (strings_of self.old spelled.now) tag_of)) result }
        ensures table { OnOk result (self.new ≡ table_after spelled.now self.old) }
    {
        match spelled {
            StringRef::Inline(strings) => self.add_inline_tag(strings.first, strings.second, tags),
            StringRef::Reference(reference) => match self.get(*reference) {
                Some(entry) => entry.add_tag(self.allocator(), tags),
                None => Err(O5Reason::BadReference),
            },
        }
    }

    /// Adds the tag of two strings to `tags`, and stores the strings, unless they are too long. The tag is a copy of
    /// the entry's meaning, so the strings are tested once.
    ///
    /// # Errors
    ///
    /// As for [`add_tag`].
    #[inline(never)]
    fn add_inline_tag(
        &mut self,
        first: &[u8],
        second: &[u8],
        tags: &mut Vec<Tag>,
    ) -> Result<(), O5Reason>
        ensures tag { O5Reads (λ _. tags.new.items)
            (and_added tags.old.items (tag_of (entry_of first.now second.now))) result }
        ensures table { OnOk result (self.new ≡ table_with (entry_of first.now second.now) self.old) }
    {
        let strings = StringPair { first, second };
        if !is_short(&strings) {
            return add_tag(self.allocator(), &strings, tags);
        }
        let entry = TableEntry::new(self.allocator(), &strings)?;
        entry.add_tag(self.allocator(), tags)?;
        self.push(entry);
        Ok(())
    }

    /// The entry that a reference names: 1 is the entry stored last, and 0 names none.
    #[inline(always)]
    fn get(&self, reference: u64) -> Option<&TableEntry>
        ensures { option_copied result ≡ entry_at self.now reference }
    {
        if reference == 0 {
            return None;
        }
        self.ring.nth_back((reference - 1) as usize)
    }
}
