//! Bytes of a data set that are being written.
ghost use Rattle.std.specs.Prelude.{◌≡◌, ◌≤◌, ◌++◌, ◌∷◌, [], length, drop, OnOk, IfSome};
ghost use Rattle.std.specs.Bool.{OnTrue, OnFalse};
ghost use Rattle.osm_model.specs.Extends.{Extends};
ghost use Rattle.o5_codec.specs.Shortest.{shortest_number};

use crate::write::block::{BLOCK_BYTES, Block};
use osm_model::Memory;
use std::alloc::Global;
use std::marker::Model;

/// The most bytes of a number.
const LONGEST_NUMBER: usize = 10;

/// A buffer that grows at its end: the bytes of `front`, and then those of `block`. Contracts see all bytes.
#[derive(Drop)]
pub(crate) struct SetBuffer {
    front: Vec<u8>,
    block: Block,
}

impl Model for SetBuffer {
    ghost use Rattle.std.specs.Prelude.{List, ℕ, ◌++◌};
    ghost use Rattle.o5_codec.specs.Block.{filled_bytes};

    ghost Value = { List ℕ };

    ghost view = { λ d. d.front.items ++ filled_bytes d.block };
}

impl SetBuffer {
    pub(crate) fn new(alloc: Global) -> SetBuffer
        ensures { result ≡ [] }
    {
        SetBuffer {
            front: Vec::new(alloc),
            block: Block::new(),
        }
    }

    pub(crate) fn clear(&mut self)
        ensures { self.new ≡ [] }
    {
        self.front.clear();
        self.block.clear();
    }

    /// Drops all bytes, and leaves room for two bytes at the front, which `set_front` sets later.
    pub(crate) fn begin(&mut self)
        ensures { length self.new ≡ 2 }
    {
        self.front.clear();
        self.block.begin();
    }

    /// Sets the first two bytes if all bytes are in the block. Returns whether it set them.
    pub(crate) fn set_front(&mut self, one: u8, two: u8) -> bool
        requires { 2 ≤ length self.old }
        ensures set { OnTrue result (self.new ≡ one ∷ two ∷ drop 2 self.old) }
        ensures unchanged { OnFalse result (self.new ≡ self.old) }
    {
        if !self.front.is_empty() {
            return false;
        }
        self.block.set_front(one, two);
        true
    }

    pub(crate) fn len(&self) -> u64
        ensures { result ≡ length self.now }
    {
        self.front.len() as u64 + self.block.len() as u64
    }

    /// Appends all bytes to `out`.
    ///
    /// # Errors
    ///
    /// `Memory` when out of memory; `out` may then have a part of them.
    #[inline(always)]
    pub(crate) fn append_to(&self, out: &mut Vec<u8>) -> Result<(), Memory>
        ensures appended { OnOk result (out.new.items ≡ out.old.items ++ self.now) }
        ensures kept { Extends out.old.items out.new.items }
    {
        if !self.front.is_empty() {
            out.extend_from_slice(self.front.as_slice())?;
        }
        out.extend_from_slice(self.block.as_slice())?;
        Ok(())
    }

    /// Appends all bytes but the first two to `out`.
    ///
    /// # Errors
    ///
    /// `Memory` when out of memory; `out` may then have a part of them.
    pub(crate) fn append_after_front(&self, out: &mut Vec<u8>) -> Result<(), Memory>
        requires { 2 ≤ length self.now }
        ensures appended { OnOk result (out.new.items ≡ out.old.items ++ drop 2 self.now) }
        ensures kept { Extends out.old.items out.new.items }
    {
        let front = self.front.as_slice();
        let gone = front.len().min(2);
        out.extend_from_slice(front.split_at(gone).1)?;
        out.extend_from_slice(self.block.as_slice().split_at(2 - gone).1)?;
        Ok(())
    }

    /// Appends a number in its shortest form.
    #[inline(always)]
    pub(crate) fn append_number(&mut self, number: u64) -> Result<(), Memory>
        ensures { OnOk result (self.new ≡ self.old ++ shortest_number number) }
    {
        self.block.make_room(LONGEST_NUMBER, &mut self.front)?;
        self.block.append_number(number);
        Ok(())
    }

    pub(crate) fn push(&mut self, byte: u8) -> Result<(), Memory>
        ensures { OnOk result (self.new ≡ self.old ++ byte ∷ []) }
    {
        self.block.make_room(1, &mut self.front)?;
        self.block.push(byte);
        Ok(())
    }

    pub(crate) fn append(&mut self, bytes: &[u8]) -> Result<(), Memory>
        ensures { OnOk result (self.new ≡ self.old ++ bytes.now) }
    {
        if bytes.len() <= BLOCK_BYTES - self.block.len() {
            self.block.append(bytes);
            return Ok(());
        }
        self.block.flush(&mut self.front)?;
        self.front.extend_from_slice(bytes)?;
        Ok(())
    }

    /// Appends all bytes of another buffer.
    ///
    /// # Errors
    ///
    /// `Memory` when out of memory; `self` may then have a part of them.
    pub(crate) fn append_buffer(&mut self, other: &SetBuffer) -> Result<(), Memory>
        ensures { OnOk result (self.new ≡ self.old ++ other.now) }
    {
        self.append(other.front.as_slice())?;
        self.append(other.block.as_slice())
    }
}
