//! A buffer for a few bytes of a line.
ghost use Rattle.std.specs.Prelude.{◌≡◌, ◌++◌, ◌∷◌, [], ◌≤◌};
ghost use Rattle.std.specs.Prelude.{length, drop, MatchOption};
ghost use Rattle.osm_model.specs.Append.{head_text, location_text};
ghost use Rattle.osm_model.specs.Decimal.{integer_text};
ghost use Rattle.osm_model.specs.Escape.{escape_char};

use crate::Version;
use crate::put::{put, put_escaped, put_head, put_integer, put_location};

/// The size of a buffer in bytes. The longest content, the fields before the user name, takes fewer.
const SMALL_BUFFER_BYTES: usize = 128;

/// A buffer of at most 128 remaining bytes: those from `start` to the end of `bytes`.
#[derive(Drop)]
pub(crate) struct SmallBuffer {
    bytes: [u8; SMALL_BUFFER_BYTES],
    start: usize,
    ghost within: { start ≤ 128 },
}

impl SmallBuffer {
    ghost use Rattle.osm_model.specs.SmallBuffer.{bytes_left};

    pub(crate) fn new() -> SmallBuffer
        ensures { bytes_left result ≡ [] }
    {
        SmallBuffer {
            bytes: [0; SMALL_BUFFER_BYTES],
            start: SMALL_BUFFER_BYTES,
        }
    }

    pub(crate) fn as_slice(&self) -> &[u8]
        ensures { result.now ≡ bytes_left self.now }
    {
        let room = &self.bytes[..];
        &room[self.start..]
    }

    /// Drops the first `count` of the remaining bytes.
    #[inline(always)]
    pub(crate) fn drop_front(&mut self, count: usize)
        requires { count ≤ length (bytes_left self.old) }
        ensures { bytes_left self.new ≡ drop count (bytes_left self.old) }
    {
        self.start += count;
    }

    /// Takes the first of the remaining bytes.
    pub(crate) fn take(&mut self) -> Option<u8>
        ensures { MatchOption result
            ((bytes_left self.old ≡ []) × (bytes_left self.new ≡ []))
            (λ byte. bytes_left self.old ≡ byte ∷ bytes_left self.new) }
    {
        if self.start == SMALL_BUFFER_BYTES {
            return None;
        }
        let byte = self.bytes[self.start];
        self.start += 1;
        Some(byte)
    }

    /// Fills the buffer with `bytes`, at most 128.
    pub(crate) fn set_bytes(&mut self, bytes: &[u8])
        requires { length bytes.now ≤ 128 }
        ensures { bytes_left self.new ≡ bytes.now }
    {
        self.start = put(&mut self.bytes, SMALL_BUFFER_BYTES, bytes);
    }

    /// Fills the buffer with `mark`, which has at most 2 bytes, and then an integer.
    pub(crate) fn set_integer(&mut self, mark: &[u8], integer: i64)
        requires { length mark.now ≤ 2 }
        ensures { bytes_left self.new ≡ mark.now ++ integer_text integer }
    {
        let digits = put_integer(&mut self.bytes, SMALL_BUFFER_BYTES, integer);
        self.start = put(&mut self.bytes, digits, mark);
    }

    /// Fills the buffer with a character of a text, raw or as an escape.
    pub(crate) fn set_escaped(&mut self, c: char)
        ensures { bytes_left self.new ≡ escape_char c }
    {
        self.start = put_escaped(&mut self.bytes, SMALL_BUFFER_BYTES, c);
    }

    /// Fills the buffer with the fields before the user name, and the mark of the user name.
    pub(crate) fn set_head(&mut self, version: &Version)
        ensures { bytes_left self.new ≡ head_text version.now }
    {
        self.start = put_head(&mut self.bytes, SMALL_BUFFER_BYTES, version);
    }

    /// Fills the buffer with `mark`, which has at most 2 bytes, and then the fields of a location, which
    /// is in units of 10^-7 degree.
    pub(crate) fn set_location(&mut self, mark: &[u8], lon: i32, lat: i32)
        requires { length mark.now ≤ 2 }
        ensures { bytes_left self.new ≡ mark.now ++ location_text lon lat }
    {
        let location = put_location(&mut self.bytes, SMALL_BUFFER_BYTES, lon, lat);
        self.start = put(&mut self.bytes, location, mark);
    }
}

#[cfg(test)]
mod tests;
