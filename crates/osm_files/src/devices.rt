//! Readers, inputs and writers for the tests: each moves few bytes in a call, and may fail.
use crate::input::{Broken, Input};
use std::cell::Cell;
use std::io;
use std::io::{Read, Write};

/// A reader that gives at most `step` bytes in each read and adds their number to `read`. After `rest` it ends, or
/// fails if `fails` is set.
#[derive(Drop)]
pub(crate) struct Pieces<'a> {
    pub(crate) rest: &'a [u8],
    pub(crate) step: usize,
    pub(crate) read: &'a Cell<usize>,
    pub(crate) fails: bool,
}

impl Read for Pieces<'_> {
    fn read(&mut self, buffer: &mut [u8]) -> io::Result<usize> {
        if self.rest.is_empty() && self.fails {
            return Err(io::Error::from(io::ErrorKind::Interrupted));
        }
        let count = self.step.min(self.rest.len()).min(buffer.len());
        let (front, rest) = self.rest.split_at(count);
        buffer[..count].copy_from_slice(front);
        self.rest = rest;
        self.read.set(self.read.get().saturating_add(count));
        Ok(count)
    }
}

/// An input that gives one byte in each read. After `rest` it ends, or fails if `fails` is set.
#[derive(Drop)]
pub(crate) struct Dripping<'a> {
    pub(crate) rest: &'a [u8],
    pub(crate) fails: bool,
}

impl Input for Dripping<'_> {
    ghost use Rattle.osm_files.specs.Input.{whole_input};
    ghost use Rattle.std.specs.Prelude.{[]};

    ghost can_give = { λ _ _. Unit {0} };

    ghost one = { λ _. whole_input [] };

    ghost possible = { λ _. tt };

    fn read(&mut self, buffer: &mut [u8]) -> Result<usize, Broken> {
        let Some((first, rest)) = self.rest.split_first() else {
            return if self.fails { Err(Broken) } else { Ok(0) };
        };
        let Some(byte) = buffer.first_mut() else {
            return Ok(0);
        };
        *byte = *first;
        self.rest = rest;
        Ok(1)
    }
}

/// The behaviour of a full device.
#[derive(Clone, Copy, PartialEq, Eq, Drop)]
pub(crate) enum Full {
    Refuses,
    TakesNothing,
}

/// A writer that takes one byte in each write until it has taken `capacity` bytes, and is then full as `full`
/// specifies. Its flush fails unless `flushes` is set.
#[derive(Drop)]
pub(crate) struct Device<'a> {
    pub(crate) taken: &'a mut Vec<u8>,
    pub(crate) capacity: usize,
    pub(crate) full: Full,
    pub(crate) flushes: bool,
}

impl Write for Device<'_> {
    fn write(&mut self, bytes: &[u8]) -> io::Result<usize> {
        if self.taken.len() >= self.capacity && self.full == Full::Refuses {
            return Err(io::Error::from(io::ErrorKind::Interrupted));
        }
        match bytes.first() {
            Some(byte) if self.taken.len() < self.capacity => {
                self.taken.push(*byte)?;
                Ok(1)
            }
            _ => Ok(0),
        }
    }

    fn flush(&mut self) -> io::Result<()> {
        if self.flushes {
            Ok(())
        } else {
            Err(io::Error::from(io::ErrorKind::Interrupted))
        }
    }
}
