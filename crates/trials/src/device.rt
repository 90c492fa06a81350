//! Readers and writers that move few bytes at a time, and fail.
use anyhow::Result;
use osm_files::CutBack;
use std::io;
use std::io::{Read, Write};
use std::str::Split;

/// The most bytes of a file that a call moves, and the number of bytes after which every call fails.
#[derive(Clone, Copy)]
pub struct Pace {
    step: usize,
    end: usize,
}

impl Pace {
    /// The pace that the next two parts of an argument give. A part that is missing sets no bound.
    pub fn of_parts(parts: &mut Split<'_, char>) -> Result<Pace> {
        Ok(Pace {
            step: bound(parts)?,
            end: bound(parts)?,
        })
    }

    /// The pace of the rest of a file after its first `count` bytes.
    pub fn after(self, count: usize) -> Pace {
        Pace {
            step: self.step,
            end: self.end.saturating_sub(count),
        }
    }
}

/// The number in the next part of an argument. Without another part there is no bound.
fn bound(parts: &mut Split<'_, char>) -> Result<usize> {
    match parts.next() {
        Some(part) => Ok(part.parse::<usize>()?),
        None => Ok(usize::MAX),
    }
}

/// A reader of some bytes.
#[derive(Drop)]
pub struct Pieces<'a> {
    rest: &'a [u8],
    step: usize,
    /// The number of bytes that may still be read before every read fails.
    left: usize,
}

impl<'a> Pieces<'a> {
    /// A reader of `bytes` at the pace `pace`.
    pub fn new(bytes: &'a [u8], pace: Pace) -> Pieces<'a> {
        Pieces {
            rest: bytes,
            step: pace.step,
            left: pace.end,
        }
    }
}

impl Read for Pieces<'_> {
    fn read(&mut self, buffer: &mut [u8]) -> io::Result<usize> {
        if self.left == 0 {
            return Err(io::Error::from(io::ErrorKind::Interrupted));
        }
        let most = self.step.min(self.left);
        let count = self.rest.len().min(buffer.len()).min(most);
        let (front, rest) = self.rest.split_at(count);
        buffer[..count].copy_from_slice(front);
        self.rest = rest;
        self.left -= count;
        Ok(count)
    }
}

/// The capacity of a writer's buffer in bytes.
pub const OUTPUT_CAPACITY: usize = 65536;

/// A writer into a buffer whose `OUTPUT_CAPACITY` bytes are already allocated.
#[derive(Drop)]
pub struct Buffer<'a> {
    taken: &'a mut Vec<u8>,
    step: usize,
    /// The number of bytes that may still be written before every write and every flush fails.
    left: usize,
}

impl<'a> Buffer<'a> {
    /// A writer that appends to `taken` at the pace `pace`.
    pub fn new(taken: &'a mut Vec<u8>, pace: Pace) -> Buffer<'a> {
        Buffer {
            taken,
            step: pace.step,
            left: pace.end,
        }
    }
}

impl Write for Buffer<'_> {
    fn write(&mut self, bytes: &[u8]) -> io::Result<usize> {
        if self.left == 0 {
            return Err(io::Error::from(io::ErrorKind::Interrupted));
        }
        let count = bytes.len().min(self.step).min(self.left);
        self.taken.extend_from_slice(&bytes[..count])?;
        self.left -= count;
        Ok(count)
    }

    fn flush(&mut self) -> io::Result<()> {
        if self.left == 0 {
            return Err(io::Error::from(io::ErrorKind::Interrupted));
        }
        Ok(())
    }
}

/// Its last bytes can be removed, unless every write fails.
impl CutBack for Buffer<'_> {
    ghost use Rattle.std.specs.Prelude.{true};

    ghost can_cut = { λ _. true };

    fn can_be_cut_back(&self) -> bool {
        true
    }

    fn length(&self) -> io::Result<u64> {
        Ok(self.taken.len() as u64)
    }

    fn cut_back(&mut self, length: u64) -> io::Result<()> {
        self.taken.truncate(length as usize);
        Ok(())
    }
}
