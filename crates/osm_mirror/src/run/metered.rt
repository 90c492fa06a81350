//! Readers that pass on what they wrap, and report how much was read.
ghost use Rattle.std.specs.Prelude.{◌≡◌};

use crate::report::Meter;
use crate::run::retried::read_retried;
use osm_files::{Broken, ReadAt};
use std::cell::Cell;
use std::io;
use std::io::{IsTerminal, Read, Write};
use std::marker::Model;
use std::time::Clock;

/// Watches the reads of the inputs of a command.
pub trait Watch: Copy {
    /// Adds `count` to the bytes that were read.
    fn count(&self, count: usize);
}

impl<'m, 'a, C: Clock, E: Write + IsTerminal> Watch for &'m Meter<'a, C, E> {
    fn count(&self, count: usize) {
        Meter::count(*self, count);
    }
}

impl Watch for &Cell<u64> {
    fn count(&self, count: usize) {
        self.set(self.get().saturating_add(count as u64));
    }
}

/// A file or a stream whose reads are watched. A read of a stream that a signal interrupts is tried again.
#[derive(Drop)]
pub struct Metered<F, M> {
    inner: F,
    watch: M,
}

impl<F, M> Model for Metered<F, M> {
    ghost Value = { F };

    ghost view = { λ s. s.inner };
}

impl<F, M: Watch> Metered<F, M> {
    /// The file or the stream `inner`, whose reads `watch` watches.
    pub fn new(inner: F, watch: M) -> Metered<F, M>
        ensures { result ≡ inner }
    {
        Metered { inner, watch }
    }

    /// The file or the stream.
    pub fn get_ref(&self) -> &F
        ensures { result.now ≡ self.now }
    {
        &self.inner
    }

    /// Counts the bytes of a read.
    fn counted<X>(&self, outcome: Result<usize, X>) -> Result<usize, X>
        ensures { result ≡ outcome }
    {
        if let Ok(count) = &outcome {
            self.watch.count(*count);
        }
        outcome
    }
}

impl<F: Read, M: Watch> Read for Metered<F, M> {
    ghost remaining = { λ s. F.remaining s };

    fn read(&mut self, buffer: &mut [u8]) -> io::Result<usize> {
        let outcome = read_retried(&mut self.inner, buffer);
        self.counted(outcome)
    }
}

impl<F: ReadAt, M: Watch> ReadAt for Metered<F, M> {
    ghost bytes = { λ s. F.bytes s };

    ghost fails = { λ s. F.fails s };

    fn size(&self) -> Result<u64, Broken> {
        self.inner.size()
    }

    fn read_at(&self, buffer: &mut [u8], offset: u64) -> Result<usize, Broken> {
        let outcome = self.inner.read_at(buffer, offset);
        self.counted(outcome)
    }
}
