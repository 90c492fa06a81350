//! Outputs, to which the bytes of a file go.
ghost use Rattle.std.specs.Prelude.{◌≡◌, ◌+◌, ◌<◌, ◌≤◌, ◌⊎◌, ◌↔◌, ℕ, Bool, true, false, Some, List, []};
ghost use Rattle.std.specs.Prelude.{length, take, IfOk, IsOk, OnErr};
ghost use Rattle.osm_files.specs.Output.{Content, IsAppended, WriteFails, FlushFails, Collected};

use crate::cut_back::{CutBack, CutBackOutput};
use crate::input::Broken;
use std::alloc::Global;
use std::io::Write;
use std::marker::Model;

/// A destination of bytes.
///
/// An output has failed once a call returned an error, or a write took no byte of a slice that isn't empty. From then
/// on each call returns an error.
pub trait Output {
    /// Holds for the bytes that the output may hold. If the output reports its bytes, it may hold only those. Otherwise
    /// its bytes are known only as its earlier bytes and those written since.
    ghost holds: { Self → Content };

    /// Whether the output has failed.
    ghost failed: { Self → Bool };

    /// Appends the first bytes of `bytes`, as many as the output takes, and returns their number.
    ///
    /// # Errors
    ///
    /// `Broken` if the output fails or has failed. No byte was taken then.
    fn write(&mut self, bytes: &[u8]) -> Result<usize, Broken>
        ensures within { IfOk result (λ count. count ≤ length bytes.now) }
        ensures taken { IfOk result (λ count. IsAppended (holds self.old) (holds self.new) (take count bytes.now)) }
        ensures refused { OnErr result (IsAppended (holds self.old) (holds self.new) []) }
        ensures fails { WriteFails (failed self.old) bytes.now result (failed self.new) };

    /// Flushes the bytes taken so far to their destination.
    ///
    /// # Errors
    ///
    /// `Broken` if the output fails or has failed.
    fn flush(&mut self) -> Result<(), Broken>
        ensures same { IsAppended (holds self.old) (holds self.new) [] }
        ensures fails { FlushFails (failed self.old) result (failed self.new) };
}

/// A `std::io::Write` as an output. It holds the bytes that the writer reports.
#[derive(Drop)]
pub struct ToWrite<W: Write> {
    writer: W,
    failed: bool,
}

impl<W: Write + Drop> ToWrite<W> {
    /// An output that hands its bytes to `writer`.
    pub fn new(writer: W) -> ToWrite<W>
        ensures holds { (held : List ℕ) → ⟦<ToWrite<W> as Output>⟧.holds result held ↔ (W.contents writer ≡ Some held) }
        ensures good { ⟦<ToWrite<W> as Output>⟧.failed result ≡ false }
    {
        ToWrite {
            writer,
            failed: false,
        }
    }
}

impl<W: Write + Drop> Output for ToWrite<W> {
    ghost holds = { λ s held. W.contents s.writer ≡ Some held };

    ghost failed = { λ s. s.failed };

    fn write(&mut self, bytes: &[u8]) -> Result<usize, Broken> {
        if self.failed {
            return Err(Broken);
        }
        match self.writer.write(bytes) {
            Ok(count) => {
                self.failed = count == 0 && !bytes.is_empty();
                Ok(count)
            }
            Err(_) => {
                self.failed = true;
                Err(Broken)
            }
        }
    }

    fn flush(&mut self) -> Result<(), Broken> {
        if self.failed {
            return Err(Broken);
        }
        match self.writer.flush() {
            Ok(()) => Ok(()),
            Err(_) => {
                self.failed = true;
                Err(Broken)
            }
        }
    }
}

impl<W: CutBack + Drop> CutBackOutput for ToWrite<W> {
    ghost can_cut = { λ s. W.can_cut s.writer };

    fn can_be_cut_back(&self) -> bool {
        self.writer.can_be_cut_back()
    }

    fn length(&mut self) -> Result<u64, Broken> {
        match self.writer.length() {
            Ok(length) => Ok(length),
            Err(_) => {
                self.failed = true;
                Err(Broken)
            }
        }
    }

    fn cut_back(&mut self, length: u64) -> Result<(), Broken> {
        match self.writer.cut_back(length) {
            Ok(()) => Ok(()),
            Err(_) => {
                self.failed = true;
                Err(Broken)
            }
        }
    }
}

/// An output that keeps its bytes in memory. It fails if its vector can't grow.
#[derive(Drop)]
pub struct VecOut {
    bytes: Vec<u8>,
    failed: bool,
}

impl Model for VecOut {
    ghost use Rattle.std.specs.Prelude.{vec_capacity};
    ghost use Rattle.osm_files.specs.Output.{Collected};

    ghost Value = { Collected };

    ghost view = { λ s. record { bytes = s.bytes.items; capacity = vec_capacity s.bytes; failed = s.failed } };
}

impl VecOut {
    /// An output that holds nothing yet.
    pub fn new(alloc: Global) -> VecOut
        ensures bytes { result.bytes ≡ [] }
        ensures good { result.failed ≡ false }
    {
        VecOut {
            bytes: Vec::new(alloc),
            failed: false,
        }
    }

    /// The bytes that the output took.
    pub fn into_vec(self) -> Vec<u8>
        ensures { result.items ≡ self.bytes }
    {
        self.bytes
    }
}

impl Output for VecOut {
    ghost holds = { λ s held. s.bytes ≡ held };

    ghost failed = { λ s. s.failed };

    fn write(&mut self, bytes: &[u8]) -> Result<usize, Broken>
        ensures within { IfOk result (λ count. count ≤ length bytes.now) }
        ensures taken { IfOk result (λ count.
            IsAppended (λ held. self.old.bytes ≡ held) (λ held. self.new.bytes ≡ held) (take count bytes.now)) }
        ensures refused { OnErr result (IsAppended (λ held. self.old.bytes ≡ held) (λ held. self.new.bytes ≡ held) []) }
        ensures fails { WriteFails self.old.failed bytes.now result self.new.failed }
        ensures all { IfOk result (λ count. count ≡ length bytes.now) }
        ensures no_room { OnErr result ((self.old.failed ≡ true)
            ⊎ (self.old.capacity < length self.old.bytes + length bytes.now)) }
    {
        if self.failed {
            return Err(Broken);
        }
        if self.bytes.extend_from_slice(bytes).is_err() {
            self.failed = true;
            return Err(Broken);
        }
        Ok(bytes.len())
    }

    fn flush(&mut self) -> Result<(), Broken>
        ensures same { IsAppended (λ held. self.old.bytes ≡ held) (λ held. self.new.bytes ≡ held) [] }
        ensures fails { FlushFails self.old.failed result self.new.failed }
        ensures unchanged { self.new ≡ self.old }
        ensures only_failed { IsOk result ↔ (self.old.failed ≡ false) }
    {
        if self.failed { Err(Broken) } else { Ok(()) }
    }
}

impl CutBackOutput for VecOut {
    ghost use Rattle.std.specs.Prelude.{true};

    ghost can_cut = { λ _. true };

    fn can_be_cut_back(&self) -> bool {
        true
    }

    fn length(&mut self) -> Result<u64, Broken> {
        Ok(self.bytes.len() as u64)
    }

    fn cut_back(&mut self, length: u64) -> Result<(), Broken> {
        self.bytes.truncate(length as usize);
        Ok(())
    }
}

#[cfg(test)]
mod tests;
