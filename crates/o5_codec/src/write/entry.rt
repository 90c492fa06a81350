//! Entries of the string table.
ghost use Rattle.std.specs.Prelude.{◌≡◌, ◌++◌, IfOk, OnOk};
ghost use Rattle.std.specs.Hash as fed;
ghost use Rattle.std.specs.Bool.{OnTrue};
ghost use Rattle.std.specs.Cmp.{decided, partial_equiv_from_equiv};
ghost use Rattle.std.proofs.Common.{ap};
ghost use Rattle.o5_codec.specs.Table.{is_short};
ghost use Rattle.o5_codec.specs.Block.{filled_bytes};
ghost use Rattle.o5_codec.specs.EntryHash.{entry_hash};
ghost use Rattle.o5_codec.specs.Formed.{formed_entry, same_form, same_entry, inline_bytes};
ghost use Rattle.o5_codec.specs.Writing.{uid_string, member_string};
ghost use Rattle.o5_codec.specs.StringKey.{formed_of};
ghost use Rattle.o5_codec.specs.SameEntry.{same_entry_decides};

use crate::limits::is_short;
use crate::strings::{Form, StringPair};
use crate::write::block::Block;
use crate::write::set_buffer::SetBuffer;
use crate::write::string_key::StringKey;
use osm_model::{Kind, Memory};
use smallvec::SmallVec;
use std::alloc::Global;
use std::hash::{DefaultHasher, Hash, Hasher};
use std::marker::Model;

/// The number of bytes that an entry keeps without an allocation. Most entries have fewer.
const INLINE_BYTES: usize = 24;

/// A pair or a single string. The bytes are those of the first string and then those of the second. Contracts see the
/// form and the strings.
///
/// Two entries are compared by their hashes first, and the map of the table hashes that hash again. The hash is SipHash
/// with a fixed key, so only a deliberate search could find strings whose hashes are equal.
#[derive(Drop)]
pub(crate) struct Entry {
    form: Form,
    bytes: SmallVec<u8, INLINE_BYTES>,
    split: usize,
    entry_hash: u64,
    /// The user id that the first string spells, if the entry was filled as a user's.
    uid: Option<u64>,
}

impl Model for Entry {
    ghost use Rattle.std.specs.Prelude.{take, drop};
    ghost use Rattle.o5_codec.specs.Formed.{FormedEntry, formed_entry};
    ghost use Rattle.o5_codec.specs.EntryInside.{IsEntry};

    ghost Value = { FormedEntry };

    ghost view = { λ e. formed_entry e.form (take e.split e.bytes.items) (drop e.split e.bytes.items) };

    ghost invariant = { IsEntry };
}

impl Form {
    fn is_same(self, other: Form) -> bool
        ensures { result ≡ same_form self other }
    {
        match (self, other) {
            (Form::Pair, Form::Pair) | (Form::Single, Form::Single) => true,
            (Form::Pair, Form::Single) | (Form::Single, Form::Pair) => false,
        }
    }
}

impl PartialEq for Entry {
    ghost eq = { same_entry };

    ghost laws = { partial_equiv_from_equiv (decided same_entry same_entry_decides) };

    fn eq(&self, other: &Entry) -> bool {
        if self.entry_hash != other.entry_hash {
            return false;
        }
        let same = self.split == other.split && self.form.is_same(other.form);
        same && self.bytes.as_slice() == other.bytes.as_slice()
    }
}

impl Eq for Entry {
    ghost laws = { decided same_entry same_entry_decides };
}

impl Hash for Entry {
    ghost hash_input = { λ e. fed.u64 (entry_hash (e.strings.first ++ e.strings.second)) };

    ghost respects_eq = { λ x y same.
        ap (λ e. fed.u64 (entry_hash (e.strings.first ++ e.strings.second))) ((same_entry_decides x y).0 same) };

    fn hash<H: Hasher>(&self, state: &mut H) {
        state.write_u64(self.entry_hash);
    }
}

impl Entry {
    /// An entry of two empty strings.
    pub(crate) fn new(alloc: Global) -> Entry {
        Entry {
            form: Form::Pair,
            bytes: SmallVec::new(alloc),
            split: 0,
            entry_hash: hash_of(&[]),
            uid: None,
        }
    }

    fn strings(&self) -> StringPair<'_>
        ensures { result ≡ self.now.strings }
    {
        let (first, second) = self.bytes.as_slice().split_at(self.split);
        StringPair { first, second }
    }

    /// Whether the entry is known to have the strings of `key`. A user's strings are known only if the entry was filled
    /// with a user's.
    #[inline(always)]
    pub(crate) fn matches(&self, key: StringKey<'_>) -> bool
        ensures { OnTrue result (self.now ≡ formed_of key.entry) }
    {
        match key {
            StringKey::User { uid, name } => {
                let is_its = match self.uid {
                    Some(known) => known == uid,
                    None => false,
                };
                is_its && self.form.is_same(Form::Pair) && self.strings().second == name
            }
            StringKey::Tag { key, value } => {
                let strings = self.strings();
                self.form.is_same(Form::Pair) && strings.first == key && strings.second == value
            }
            StringKey::Member { kind, role } => {
                let strings = self.strings();
                let is_its = is_member_string(strings.first, kind, role);
                is_its && self.form.is_same(Form::Single) && strings.second.is_empty()
            }
        }
    }

    /// Whether the strings have few enough bytes to be stored.
    pub(crate) fn is_short(&self) -> bool
        ensures { result ≡ is_short self.now.strings }
    {
        is_short(&self.strings())
    }

    /// Appends the strings inline.
    pub(crate) fn append_inline(&self, out: &mut SetBuffer) -> Result<(), Memory>
        ensures { OnOk result (out.new ≡ out.old ++ inline_bytes self.now.form self.now.strings) }
    {
        let strings = self.strings();
        out.push(0)?;
        out.append(strings.first)?;
        out.push(0)?;
        match self.form {
            Form::Pair => {
                out.append(strings.second)?;
                out.push(0)?;
            }
            Form::Single => {}
        }
        Ok(())
    }

    pub(crate) fn copy(&self, alloc: Global) -> Result<Entry, Memory>
        ensures { IfOk result (λ e. e ≡ self.now) }
    {
        Ok(Entry {
            form: self.form,
            bytes: SmallVec::from_slice(alloc, self.bytes.as_slice())?,
            split: self.split,
            entry_hash: self.entry_hash,
            uid: self.uid,
        })
    }

    /// Fills the entry with the strings of `key`.
    #[inline(always)]
    pub(crate) fn fill(&mut self, key: StringKey<'_>) -> Result<(), Memory>
        ensures { OnOk result (self.new ≡ formed_of key.entry) }
    {
        match key {
            StringKey::User { uid, name } => {
                let digits = uid_digits(uid);
                self.fill_strings(Form::Pair, &[], digits.as_slice(), name)?;
                self.uid = Some(uid);
                Ok(())
            }
            StringKey::Tag { key, value } => self.fill_strings(Form::Pair, &[], key, value),
            StringKey::Member { kind, role } => {
                let digit = [b'0' + kind.index()];
                self.fill_strings(Form::Single, &digit, role, &[])
            }
        }
    }

    /// Fills the entry with two strings: `front` followed by `rest`, and `second`. The memory of earlier long strings
    /// is freed.
    fn fill_strings(
        &mut self,
        form: Form,
        front: &[u8],
        rest: &[u8],
        second: &[u8],
    ) -> Result<(), Memory>
        ensures { OnOk result (self.new ≡ formed_entry form (front.now ++ rest.now) second.now) }
    {
        let mut bytes = SmallVec::new(*self.bytes.allocator());
        bytes.extend_from_slice(front)?;
        bytes.extend_from_slice(rest)?;
        let split = bytes.len();
        bytes.extend_from_slice(second)?;
        let entry_hash = hash_of(bytes.as_slice());
        *self = Entry {
            form,
            bytes,
            split,
            entry_hash,
            uid: None,
        };
        Ok(())
    }
}

#[tactic(auto, unfolding(crate::specs::EntryHash::entry_hash))]
fn hash_of(bytes: &[u8]) -> u64
    ensures { result ≡ entry_hash bytes.now }
{
    let mut hasher = DefaultHasher::new();
    hasher.write(bytes);
    hasher.finish()
}

/// The string that spells a user id. It is empty for 0.
fn uid_digits(uid: u64) -> Block
    ensures { filled_bytes result ≡ uid_string uid }
{
    let mut digits = Block::new();
    if uid != 0 {
        digits.append_number(uid);
    }
    digits
}

/// Whether `string` is the digit of `kind`, followed by `role`.
#[inline(always)]
fn is_member_string(string: &[u8], kind: Kind, role: &[u8]) -> bool
    ensures { OnTrue result (string.now ≡ member_string kind role.now) }
{
    match string.split_first() {
        Some((digit, rest)) => *digit == b'0' + kind.index() && rest == role,
        None => false,
    }
}
