//! Up to 128 bytes of a data set, filled in place. One test of room covers many short numbers.
ghost use Rattle.std.specs.Prelude.{◌≡◌, ◌≤◌, ◌<◌, ◌+◌, ◌++◌, ◌∷◌, [], length, drop, OnOk};
ghost use Rattle.o5_codec.specs.Shortest.{shortest_number};

use osm_model::Memory;

/// The capacity of a block in bytes. A short data set has fewer bytes.
pub(crate) const BLOCK_BYTES: usize = 128;

/// A buffer of at most 128 bytes, without an allocation.
#[derive(Drop)]
pub(crate) struct Block {
    bytes: [u8; BLOCK_BYTES],
    end: usize,
    ghost within: { end ≤ 128 },
}

impl Block {
    ghost use Rattle.o5_codec.specs.Block.{filled_bytes};

    pub(crate) fn new() -> Block
        ensures { filled_bytes result ≡ [] }
    {
        Block {
            bytes: [0; BLOCK_BYTES],
            end: 0,
        }
    }

    pub(crate) fn clear(&mut self)
        ensures bytes { filled_bytes self.new ≡ [] }
        ensures room { self.new.end ≡ 0 }
    {
        self.end = 0;
    }

    /// Drops all bytes, and leaves room for two bytes at the front, which `set_front` sets later.
    pub(crate) fn begin(&mut self)
        ensures { length (filled_bytes self.new) ≡ 2 }
    {
        self.end = 2;
    }

    pub(crate) fn set_front(&mut self, one: u8, two: u8)
        requires { 2 ≤ length (filled_bytes self.old) }
        ensures { filled_bytes self.new ≡ one ∷ two ∷ drop 2 (filled_bytes self.old) }
    {
        self.bytes[0] = one;
        self.bytes[1] = two;
    }

    pub(crate) fn len(&self) -> usize
        ensures end { result ≡ self.now.end }
        ensures length { result ≡ length (filled_bytes self.now) }
    {
        self.end
    }

    pub(crate) fn as_slice(&self) -> &[u8]
        ensures { result.now ≡ filled_bytes self.now }
    {
        &self.bytes[..self.end]
    }

    /// Makes room for `count` bytes. If there is too little, the bytes of the block move to the end of `front`.
    ///
    /// # Errors
    ///
    /// `Memory` when out of memory.
    #[inline(always)]
    pub(crate) fn make_room(&mut self, count: usize, front: &mut Vec<u8>) -> Result<(), Memory>
        requires { count ≤ 128 }
        ensures bytes { OnOk result (front.new.items ++ filled_bytes self.new ≡ front.old.items
            ++ filled_bytes self.old) }
        ensures room { OnOk result (self.new.end + count ≤ 128) }
    {
        if self.end <= BLOCK_BYTES - count {
            return Ok(());
        }
        self.flush(front)
    }

    /// Moves the bytes to the end of `front`.
    ///
    /// # Errors
    ///
    /// `Memory` when out of memory.
    #[inline(never)]
    pub(crate) fn flush(&mut self, front: &mut Vec<u8>) -> Result<(), Memory>
        ensures bytes { OnOk result (front.new.items ≡ front.old.items ++ filled_bytes self.old) }
        ensures moved { OnOk result (filled_bytes self.new ≡ []) }
        ensures room { OnOk result (self.new.end ≡ 0) }
    {
        front.extend_from_slice(self.as_slice())?;
        self.clear();
        Ok(())
    }

    pub(crate) fn push(&mut self, byte: u8)
        requires { self.old.end < 128 }
        ensures { filled_bytes self.new ≡ filled_bytes self.old ++ byte ∷ [] }
    {
        self.bytes[self.end] = byte;
        self.end += 1;
    }

    pub(crate) fn append(&mut self, bytes: &[u8])
        requires { self.old.end + length bytes.now ≤ 128 }
        ensures { filled_bytes self.new ≡ filled_bytes self.old ++ bytes.now }
    {
        let end = self.end + bytes.len();
        self.bytes[self.end..end].copy_from_slice(bytes);
        self.end = end;
    }

    /// Appends a number in its shortest form.
    #[inline(always)]
    pub(crate) fn append_number(&mut self, number: u64)
        requires { self.old.end + 10 ≤ 128 }
        ensures { filled_bytes self.new ≡ filled_bytes self.old ++ shortest_number number }
    {
        let end = self.end;
        if number < 128 {
            self.bytes[end] = number as u8;
            self.end = end + 1;
            return;
        }
        if number >= 128 * 2_097_152 {
            return self.append_long_number(number);
        }
        self.bytes[end] = (number % 128) as u8 + 128;
        let two = number / 128;
        if two < 128 {
            self.bytes[end + 1] = two as u8;
            self.end = end + 2;
            return;
        }
        self.bytes[end + 1] = (two % 128) as u8 + 128;
        let three = two / 128;
        if three < 128 {
            self.bytes[end + 2] = three as u8;
            self.end = end + 3;
            return;
        }
        self.bytes[end + 2] = (three % 128) as u8 + 128;
        self.bytes[end + 3] = (three / 128) as u8;
        self.end = end + 4;
    }

    /// As for `append_number`, for a number of any length: a loop over its groups of seven bits.
    #[inline(never)]
    fn append_long_number(&mut self, number: u64)
        requires { self.old.end + 10 ≤ 128 }
        ensures { filled_bytes self.new ≡ filled_bytes self.old ++ shortest_number number }
    {
        let mut end = self.end;
        let mut rest = number;
        while rest >= 128 {
            self.bytes[end] = (rest % 128) as u8 + 128;
            end += 1;
            rest /= 128;
        }
        self.bytes[end] = rest as u8;
        self.end = end + 1;
    }
}
