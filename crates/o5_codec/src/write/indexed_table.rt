//! The string table of a segment that is written. A hash map finds an entry among up to 15,000.
ghost use Rattle.std.specs.Prelude.{◌≡◌, ◌∷◌, ◌^◌, ◌++◌, [], take, IfOk, OnOk, None, Some, IfSome};
ghost use Rattle.o5_codec.specs.Table.{table_limit};
ghost use Rattle.std.specs.HashMap as hash;
ghost use Rattle.o5_codec.specs.Formed.{same_entry, reference_to, formed_table_with, strings_bytes, formed_table_after};
ghost use Rattle.o5_codec.specs.Indexed.{IsNext};
ghost use Rattle.o5_codec.specs.StringKey.{formed_of};

use crate::limits::TABLE_LIMIT;
use crate::write::entry::Entry;
use crate::write::set_buffer::SetBuffer;
use crate::write::slot::{Slot, SlotCache};
use crate::write::string_key::StringKey;
use circular_buffer::HeapCircularBuffer;
use osm_model::Memory;
use std::alloc::Global;
use std::collections::HashMap;
use std::marker::Model;

/// The entries that references can name, in a ring, and the number of each in a hash map. Contracts see the list of the
/// entries, the newest first.
///
/// The ring is allocated once. A page of it costs no resident memory until an entry is written into the page.
#[derive(Drop)]
pub(crate) struct IndexedTable {
    ring: HeapCircularBuffer<Entry>,
    /// The number of each entry: the entries stored before it in the segment, modulo 2^64.
    numbers: HashMap<Entry, u64>,
    /// The number of the next entry.
    next: u64,
    /// The numbers of entries that were written lately, so that most of them are found without a hash.
    cache: SlotCache,
    alloc: Global,
}

impl Model for IndexedTable {
    ghost use Rattle.std.specs.Prelude.{List, reverse};
    ghost use Rattle.o5_codec.specs.Formed.{FormedEntry};

    ghost Value = { List FormedEntry };

    ghost use Rattle.o5_codec.specs.TableInside.{IsTable};

    ghost view = { λ t. reverse t.ring.items };

    ghost invariant = { IsTable };
}

impl IndexedTable {
    /// An empty table with room for `TABLE_LIMIT` entries.
    pub(crate) fn new(alloc: Global) -> Result<IndexedTable, Memory>
        ensures { IfOk result (λ t. t ≡ []) }
    {
        Ok(IndexedTable {
            ring: HeapCircularBuffer::with_capacity(alloc, TABLE_LIMIT)?,
            numbers: HashMap::new(alloc),
            next: 0,
            cache: SlotCache::new(alloc)?,
            alloc,
        })
    }

    pub(crate) fn clear(&mut self)
        ensures { self.new ≡ [] }
    {
        self.ring.clear();
        self.numbers.clear();
        self.next = 0;
    }

    /// Appends an entry: its reference if the table has it, else its strings inline. Inline strings are stored unless
    /// they are too long. The cache then has the number of the entry in `slot`.
    ///
    /// # Errors
    ///
    /// `Memory` when out of memory.
    pub(crate) fn append(
        &mut self,
        out: &mut SetBuffer,
        slot: Slot,
        entry: &Entry,
    ) -> Result<(), Memory>
        ensures bytes { OnOk result (out.new ≡ out.old ++ strings_bytes entry.now (reference_to entry.now self.old)) }
        ensures table { OnOk result (self.new ≡ formed_table_after entry.now
            (reference_to entry.now self.old) self.old) }
    {
        match self.reference_to(entry) {
            Some(reference) => {
                self.cache.remember(slot, self.next.wrapping_sub(reference));
                out.append_number(reference)
            }
            None => {
                self.cache.remember(slot, self.next);
                entry.append_inline(out)?;
                self.store(entry)
            }
        }
    }

    /// The reference that names the entry of the strings of `key`, if the cache has it.
    #[inline(always)]
    pub(crate) fn cached_reference(&self, key: StringKey<'_>) -> Option<u64>
        ensures { IfSome result (λ n. reference_to (formed_of key.entry) self.now ≡ Some n) }
    {
        let (entry, reference) = self.remembered(Slot::of(key))?;
        if entry.matches(key) {
            Some(reference)
        } else {
            None
        }
    }

    /// The entry of the table that the number in a slot of the cache names, if there is one, and its reference. If the
    /// number is out of date, the entry may be another one than the entry that was written.
    #[inline(always)]
    fn remembered(&self, slot: Slot) -> Option<(&Entry, u64)>
        ensures { IfSome result (λ x. reference_to x.0.now self.now ≡ Some x.1) }
    {
        let later = usize::from(self.cache.stored_later(slot, self.next)?);
        let entry = self.ring.nth_back(later)?;
        Some((entry, later as u64 + 1))
    }

    /// The reference that names the entry, if the table has it: 1 is the entry stored last.
    fn reference_to(&self, entry: &Entry) -> Option<u64>
        ensures { result ≡ reference_to entry.now self.now }
    {
        let number = *self.numbers.get(entry)?;
        if number < self.next {
            return Some(self.next - number);
        }
        Some(self.next + (u64::MAX - number) + 1)
    }

    /// Stores an entry that the table doesn't have, unless it is too long.
    fn store(&mut self, entry: &Entry) -> Result<(), Memory>
        requires { reference_to entry.now self.old ≡ None }
        ensures { OnOk result (self.new ≡ formed_table_with entry.now self.old) }
    {
        if !entry.is_short() {
            return Ok(());
        }
        let key = entry.copy(self.alloc)?;
        let stored = entry.copy(self.alloc)?;
        self.put(key, stored)
    }

    /// Stores an entry that the table doesn't have, in the map and in the ring. A full ring evicts its oldest entry.
    fn put(&mut self, key: Entry, stored: Entry) -> Result<(), Memory>
        requires same { key ≡ stored }
        requires absent { reference_to key self.old ≡ None }
        ensures { OnOk result (self.new ≡ take table_limit (stored ∷ self.old)) }
    {
        self.numbers.insert(key, self.next)?;
        let after = number_after(self.next);
        self.next = after;
        if let Some(evicted) = self.ring.push_back(stored) {
            remove(&mut self.numbers, evicted);
        }
        Ok(())
    }
}

/// Removes an entry from the map, and drops it.
fn remove(numbers: &mut HashMap<Entry, u64>, entry: Entry)
    ensures { hash.UpdatesBy same_entry (same_entry entry) numbers.old numbers.new None }
{
    numbers.remove(&entry);
}

/// The number after `number`, modulo 2^64.
fn number_after(number: u64) -> u64
    ensures { IsNext (2 ^ 64) number result }
{
    if number == u64::MAX { 0 } else { number + 1 }
}
