//! Files whose bytes can be read at any offset.
ghost use Rattle.std.specs.Prelude.{◌≡◌, ◌<◌, ◌≤◌, Ok, List, ℕ, [], Option, length, take, IfOk, OnErr, IfSome};
ghost use Rattle.osm_files.specs.ReadAt.{AreAt, AreLast};

use crate::input::Broken;
use std::io::ErrorKind;
use std::os::unix::fs::FileExt;

/// A file whose bytes can be read at any offset. All reads are of the one open file, whatever file has its name later.
pub trait ReadAt {
    /// The file's bytes, if they are known.
    ghost bytes: { Self → Option (List ℕ) };

    /// Holds if reads of the file may fail.
    ghost fails: { Self → Type 0 };

    /// The file's length in bytes.
    ///
    /// # Errors
    ///
    /// `Broken` if the length isn't known.
    fn size(&self) -> Result<u64, Broken>
        ensures bytes { IfOk result (λ size. IfSome (bytes self.now) (λ all. size ≡ length all)) }
        ensures broken { OnErr result (fails self.now) };

    /// Reads some of the bytes at `offset` into the front of `buffer`, and returns their number.
    ///
    /// For a buffer that isn't empty, 0 means that the file has no byte at `offset`.
    ///
    /// # Errors
    ///
    /// `Broken` if the file can't be read.
    fn read_at(&self, buffer: &mut [u8], offset: u64) -> Result<usize, Broken>
        ensures within { IfOk result (λ count. count ≤ length buffer.old) }
        ensures bytes { IfOk result (λ count. AreAt (bytes self.now) offset (take count buffer.new)) }
        ensures end { result ≡ Ok 0 → 0 < length buffer.old → AreLast (bytes self.now) offset [] }
        ensures broken { OnErr result (fails self.now) };
}

impl<'a> ReadAt for &'a [u8] {
    ghost use Rattle.std.specs.Prelude.{Some};

    ghost bytes = { λ s. Some s.now };

    ghost fails = { λ _. ⊥ };

    fn size(&self) -> Result<u64, Broken> {
        Ok(self.len() as u64)
    }

    fn read_at(&self, buffer: &mut [u8], offset: u64) -> Result<usize, Broken> {
        let start = offset.min(self.len() as u64) as usize;
        let rest = &self[start..];
        let count = rest.len().min(buffer.len());
        buffer[..count].copy_from_slice(&rest[..count]);
        Ok(count)
    }
}

/// An open regular file of the standard library. Its bytes aren't known, and each read may fail. A read that a signal
/// interrupts is tried again.
///
/// The file's length is that of an earlier moment, when the file was opened. If the file has grown since, the bytes
/// after this length aren't part of it.
#[derive(Drop)]
pub struct FromFile<F: FileExt> {
    file: F,
    size: u64,
}

impl<F: FileExt> FromFile<F> {
    /// The file `file`, to be read at offsets. It has `size` bytes.
    pub fn new(file: F, size: u64) -> FromFile<F> {
        FromFile { file, size }
    }

    /// The file of the standard library.
    pub fn get_ref(&self) -> &F {
        &self.file
    }
}

impl<F: FileExt> ReadAt for FromFile<F> {
    ghost use Rattle.std.specs.Prelude.{None};

    ghost bytes = { λ _. None };

    ghost fails = { λ _. Unit {0} };

    fn size(&self) -> Result<u64, Broken> {
        Ok(self.size)
    }

    fn read_at(&self, buffer: &mut [u8], offset: u64) -> Result<usize, Broken> {
        for _ in 0..u64::MAX {
            match FileExt::read_at(&self.file, buffer, offset) {
                Ok(count) => return Ok(count),
                Err(error) if error.kind() == ErrorKind::Interrupted => {}
                Err(_) => return Err(Broken),
            }
        }
        Err(Broken)
    }
}

#[cfg(test)]
mod tests;
