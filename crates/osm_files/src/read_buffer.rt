//! The bytes held: those that an input gave and that belong to no unit read so far.
ghost use Rattle.std.specs.Prelude.{◌≡◌, ◌⊎◌, ◌<◌, ◌≤◌, Ok, Err, ◌+◌, [], length, take, drop, IfOk, IfErr, OnOk, OnErr};
ghost use Rattle.osm_files.specs.Input.{whole_input, broken_input, GaveMore};
ghost use Rattle.osm_files.specs.declared.reason.Reason.TheVariants as reason;

use crate::input::{Broken, Input};
use crate::reason::Reason;
use std::alloc::Global;
use std::marker::Model;

/// The most bytes that one read asks for.
const MAX_CHUNK: usize = 65536;

/// A buffer of at most this many bytes isn't made smaller.
const SMALL_BUFFER: usize = 4 * MAX_CHUNK;

/// The bytes held: those that an input gave and that belong to no unit read so far. In contracts the buffer is the list
/// of these bytes.
#[derive(Drop)]
pub(crate) struct ReadBuffer {
    /// The memory into which the input is read. The bytes held are `buffer[from..end]`.
    buffer: Vec<u8>,
    from: usize,
    end: usize,
    /// The number of bytes that a read asks for.
    chunk: usize,
}

impl Model for ReadBuffer {
    ghost use Rattle.std.specs.Prelude.{List, ℕ, ◌<◌, ◌≤◌, ◌-◌, length, take, drop};

    ghost Value = { List ℕ };

    ghost view = { λ h. take (h.end - h.from) (drop h.from h.buffer.items) };

    ghost invariant = { λ h. (h.from ≤ h.end) × (h.end ≤ length h.buffer.items) × (0 < h.chunk) × (h.chunk ≤ 65536) };
}

impl ReadBuffer {
    /// A buffer that holds no bytes.
    pub(crate) fn new(alloc: Global) -> ReadBuffer
        ensures { result ≡ [] }
    {
        ReadBuffer {
            buffer: Vec::new(alloc),
            from: 0,
            end: 0,
            chunk: MAX_CHUNK,
        }
    }

    /// Makes each later read ask for `chunk` bytes, within 1 to 65536.
    pub(crate) fn set_chunk_size(&mut self, chunk: usize)
        ensures { self.new ≡ self.old }
    {
        self.chunk = chunk.clamp(1, MAX_CHUNK);
    }

    /// The bytes that were read and are in no unit yet.
    pub(crate) fn as_slice(&self) -> &[u8]
        ensures { result.now ≡ self.now }
    {
        &self.buffer[self.from..self.end]
    }

    /// The number of bytes held.
    pub(crate) fn len(&self) -> usize
        ensures { result ≡ length self.now }
    {
        self.end - self.from
    }

    /// Drops the first `count` bytes, which were read as units.
    pub(crate) fn skip(&mut self, count: usize)
        requires { count ≤ length self.old }
        ensures { self.new ≡ drop count self.old }
    {
        self.from += count;
    }

    /// Keeps only the first `count` bytes.
    pub(crate) fn truncate(&mut self, count: usize)
        requires { count ≤ length self.old }
        ensures { self.new ≡ take count self.old }
    {
        self.end = self.from + count;
    }

    /// Moves the bytes held to the front of `buffer`, unless they are already there.
    fn compact(&mut self)
        ensures { self.new ≡ self.old }
    {
        if self.from == 0 {
            return;
        }
        self.buffer.copy_within(self.from..self.end, 0);
        self.end -= self.from;
        self.from = 0;
        self.shrink();
    }

    /// Replaces a large buffer that uses less than a quarter of its memory, unless out of memory. The whole block is
    /// freed: a block that is cut off keeps other blocks apart.
    fn shrink(&mut self)
        ensures { self.new ≡ self.old }
    {
        if self.buffer.len() <= SMALL_BUFFER || self.end >= self.buffer.len() / 4 {
            return;
        }
        let alloc = *self.buffer.allocator();
        let mut smaller = Vec::new(alloc);
        if smaller.extend_from_slice(&self.buffer[..self.end]).is_ok() {
            self.buffer = smaller;
        }
    }

    /// Reads at most `most` more bytes into the buffer, and returns the number of bytes read; 0 at the end of input.
    ///
    /// # Errors
    ///
    /// `ReadFault` if the input fails, or `Memory`. The bytes are unchanged.
    #[inline(never)]
    pub(crate) fn read_more<R: Input>(
        &mut self,
        reader: &mut R,
        most: usize,
    ) -> Result<usize, Reason>
        requires { 0 < most }
        ensures gave { IfOk result (GaveMore R.can_give reader.old reader.new self.old self.new) }
        ensures most { IfOk result (λ count. count ≤ most) }
        ensures end { result ≡ Ok 0 → R.can_give reader.old (whole_input []) }
        ensures broken { result ≡ Err reason.ReadFault → R.can_give reader.old (broken_input []) }
        ensures reason { IfErr result (λ refused. (refused ≡ reason.Memory) ⊎ (refused ≡ reason.ReadFault)) }
        ensures unchanged { OnErr result (self.new ≡ self.old) }
    {
        self.compact();
        if let Err(refused) = make_room(&mut self.buffer, self.end, self.chunk) {
            return Err(refused);
        }
        match read_at(reader, &mut self.buffer, self.end, most.min(self.chunk)) {
            Ok(count) => {
                self.end += count;
                Ok(count)
            }
            Err(_) => Err(Reason::ReadFault),
        }
    }
}

/// Reads at most `most` bytes into `buffer[end..]` and returns the number of bytes read.
fn read_at<R: Input>(
    reader: &mut R,
    buffer: &mut Vec<u8>,
    end: usize,
    most: usize,
) -> Result<usize, Broken>
    requires some { 0 < most }
    requires within { end + most ≤ length buffer.old.items }
    ensures gave { IfOk result (λ count. GaveMore R.can_give reader.old reader.new
        (take end buffer.old.items) (take (end + count) buffer.new.items) count) }
    ensures most { IfOk result (λ count. count ≤ most) }
    ensures end { result ≡ Ok 0 → R.can_give reader.old (whole_input []) }
    ensures broken { OnErr result (R.can_give reader.old (broken_input [])) }
    ensures kept { take end buffer.new.items ≡ take end buffer.old.items }
    ensures size { length buffer.new.items ≡ length buffer.old.items }
{
    match reader.read(&mut buffer[end..end + most]) {
        Ok(count) => Ok(count),
        Err(broken) => Err(broken),
    }
}

/// Lengthens `buffer`, if it is too short for `chunk` bytes after its first `end` bytes.
fn make_room(buffer: &mut Vec<u8>, end: usize, chunk: usize) -> Result<(), Reason>
    requires within { end ≤ length buffer.old.items }
    requires few { chunk ≤ 65536 }
    ensures fits { OnOk result (end + chunk ≤ length buffer.new.items) }
    ensures kept { take end buffer.new.items ≡ take end buffer.old.items }
    ensures longer { length buffer.old.items ≤ length buffer.new.items }
    ensures memory { IfErr result (λ refused. refused ≡ reason.Memory) }
{
    if buffer.len() - end >= chunk {
        return Ok(());
    }
    match buffer.resize(end + chunk, 0) {
        Ok(()) => Ok(()),
        Err(_) => Err(Reason::Memory),
    }
}
