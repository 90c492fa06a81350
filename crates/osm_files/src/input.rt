//! Inputs, from which the bytes of a file come.
ghost use Rattle.std.specs.Prelude.{◌≡◌, ◌↔◌, ◌<◌, ◌≤◌, IsTrue, Ok, [], length, take, min, IfOk, OnErr, refl};
ghost use Rattle.osm_files.specs.Input.{InputRest, whole_input, broken_input, Gave, CanGive, whole_left, can_give_all};

use std::io::Read;
use std::marker::Model;
use thiserror::Error;

/// An input or an output returned an error.
#[derive(Clone, Copy, Debug, PartialEq, Eq, Error)]
#[error("the device failed")]
pub struct Broken;

/// A source of bytes.
pub trait Input {
    /// Holds for each `InputRest` that the input can still give: some bytes, and then the end of input or an error. A
    /// [`SliceIn`] can give only one. An input whose bytes aren't known can give any.
    ghost can_give: { Self → InputRest → Type 0 };

    /// A `InputRest` that the input can give.
    ghost one: { Self → InputRest };

    /// The input can give `one`.
    ghost possible: { (s : Self) → can_give s (one s) };

    /// Reads some of the remaining bytes into the front of `buffer`, and returns their number.
    ///
    /// For a buffer that isn't empty, 0 means the end of input.
    ///
    /// # Errors
    ///
    /// `Broken` if the input fails. No byte was read then.
    fn read(&mut self, buffer: &mut [u8]) -> Result<usize, Broken>
        ensures within { IfOk result (λ count. count ≤ length buffer.old) }
        ensures bytes { IfOk result (λ count. Gave can_give self.old self.new (take count buffer.new)) }
        ensures end { result ≡ Ok 0 → 0 < length buffer.old → can_give self.old (whole_input []) }
        ensures broken { OnErr result (can_give self.old (broken_input [])) };
}

/// The bytes of a slice, and then the end of input. It never fails.
#[derive(Drop)]
pub struct SliceIn<'a> {
    rest: &'a [u8],
}

impl<'a> Model for SliceIn<'a> {
    ghost use Rattle.std.specs.Prelude.{ℕ, List};

    ghost Value = { List ℕ };

    ghost view = { λ s. s.rest.now };
}

impl<'a> SliceIn<'a> {
    /// An input that gives `bytes`.
    pub fn new(bytes: &'a [u8]) -> SliceIn<'a>
        ensures { result ≡ bytes.now }
    {
        SliceIn { rest: bytes }
    }

    /// Whether all bytes were read.
    pub(crate) fn is_empty(&self) -> bool
        ensures { IsTrue result ↔ (self.now ≡ []) }
    {
        self.rest.is_empty()
    }
}

impl<'a> Input for SliceIn<'a> {
    ghost can_give = { λ rest c. c ≡ whole_input rest };

    ghost one = { whole_input };

    ghost possible = { λ rest. refl };

    fn read(&mut self, buffer: &mut [u8]) -> Result<usize, Broken>
        ensures within { IfOk result (λ count. count ≤ length buffer.old) }
        ensures bytes { IfOk result (λ count. Gave (λ rest c. c ≡ whole_input rest) self.old self.new
            (take count buffer.new)) }
        ensures end { result ≡ Ok 0 → 0 < length buffer.old → whole_input [] ≡ whole_input self.old }
        ensures broken { OnErr result (broken_input [] ≡ whole_input self.old) }
        ensures fills { result ≡ Ok (min (length self.old) (length buffer.old)) }
    {
        let count = self.rest.len().min(buffer.len());
        let (front, rest) = self.rest.split_at(count);
        buffer[..count].copy_from_slice(front);
        self.rest = rest;
        Ok(count)
    }
}

/// A `std::io::Read` as an input. If the reader's remaining bytes are known, the input gives no others, and may fail at
/// any read.
#[derive(Drop)]
pub struct FromRead<R: Read> {
    reader: R,
}

impl<R: Read> Model for FromRead<R> {
    ghost Value = { R };

    ghost view = { λ s. s.reader };
}

impl<R: Read> FromRead<R> {
    /// An input that gives the bytes of `reader`, and fails if `reader` returns an error.
    pub fn new(reader: R) -> FromRead<R>
        ensures { result ≡ reader }
    {
        FromRead { reader }
    }
}

impl<R: Read + Drop> Input for FromRead<R> {
    ghost can_give = { λ s c. CanGive (R.remaining s) c };

    ghost one = { λ s. whole_left (R.remaining s) };

    ghost possible = { λ s. can_give_all (R.remaining s) };

    fn read(&mut self, buffer: &mut [u8]) -> Result<usize, Broken> {
        match self.reader.read(buffer) {
            Ok(count) => Ok(count),
            Err(_) => Err(Broken),
        }
    }
}

#[cfg(test)]
mod tests;
