//! A cache of the numbers in the hash map of the writer's string table. The table compares the entry that the cache
//! names, and searches its map if it is another one, so no byte that is written depends on the cache.
use crate::write::string_key::StringKey;
use osm_model::Memory;
use std::alloc::Global;

const SLOTS: usize = 65_536;

/// A slot keeps the number of an entry modulo `NUMBERS`. A table has fewer entries.
const NUMBERS: u64 = 65_536;

/// For each slot, the number of the entry of the slot that was written last. The table may have dropped that entry.
#[derive(Drop)]
pub(crate) struct SlotCache {
    numbers: Vec<u16>,
}

impl SlotCache {
    /// A cache whose slots all have the number 0.
    pub(crate) fn new(alloc: Global) -> Result<SlotCache, Memory> {
        Ok(SlotCache {
            numbers: Vec::from_elem(alloc, 0, SLOTS)?,
        })
    }

    /// The number of entries that were stored later than the one in the slot. `next` is the number of the next entry.
    #[inline(always)]
    pub(crate) fn stored_later(&self, slot: Slot, next: u64) -> Option<u16> {
        let number = *self.numbers.get(slot.index())?;
        Some(lowest_bits(next).wrapping_sub(number).wrapping_sub(1))
    }

    /// Sets the number of a slot.
    pub(crate) fn remember(&mut self, slot: Slot, number: u64) {
        if let Some(kept) = self.numbers.get_mut(slot.index()) {
            *kept = lowest_bits(number);
        }
    }
}

/// A number modulo `NUMBERS`.
fn lowest_bits(number: u64) -> u16 {
    (number % NUMBERS) as u16
}

/// One of the slots. Most entries that are written again and again have slots of their own.
#[derive(Clone, Copy, Debug, PartialEq, Eq)]
pub(crate) struct Slot(u64);

impl Slot {
    /// The slot of the strings of `key`.
    #[inline(always)]
    pub(crate) fn of(key: StringKey<'_>) -> Slot {
        match key {
            StringKey::User { uid, .. } => Slot(uid),
            StringKey::Tag { key, value } => Slot::of_two(slot_hash(key), slot_hash(value)),
            StringKey::Member { kind, role } => {
                Slot::of_two(slot_hash(role), u64::from(kind.index()))
            }
        }
    }

    fn of_two(first: u64, second: u64) -> Slot {
        Slot(first.wrapping_mul(31).wrapping_add(second))
    }

    fn index(self) -> usize {
        (self.0 % SLOTS as u64) as usize
    }
}

/// A number that differs for most strings. It depends on the length and on three bytes of the string.
#[inline(always)]
fn slot_hash(string: &[u8]) -> u64 {
    let Some(last) = string.last() else {
        return 0;
    };
    let middle = u64::from(string[string.len() / 2]);
    let edges = u64::from(string[0]) * 7 + middle * 61 + u64::from(*last) * 509;
    edges.wrapping_add((string.len() as u64).wrapping_mul(1021))
}
