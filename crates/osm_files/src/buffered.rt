//! An output that collects bytes, and hands many of them to another output in one write.
//!
//! Why: the bytes that are collected can be dropped. `std::io::BufWriter` can't drop them, so an output on a device
//! without room could not be cut back.
ghost use Rattle.std.specs.Prelude.{◌≡◌, ◌≤◌, ◌↔◌, List, ℕ, [], length, take, drop, OnOk, OnErr, IfOk, true, false};
ghost use Rattle.osm_files.specs.CutBack.{HoldsBefore, IsCutBack};
ghost use Rattle.osm_files.specs.Output.{IsAppended, WriteFails};

use crate::cut_back::CutBackOutput;
use crate::input::Broken;
use crate::output::Output;
use osm_model::Memory;
use std::alloc::Global;

/// An output that collects bytes, and hands them to another output once they are as many as its buffer has room for.
#[derive(Drop)]
pub struct Buffered<O: Output> {
    output: O,
    /// The bytes that were collected.
    bytes: Vec<u8>,
    /// The number of those that `output` has taken.
    taken: usize,
    failed: bool,
    ghost within: { taken ≤ length bytes.items },
}

impl<O: Output + Drop> Buffered<O> {
    /// An output that collects up to `capacity` bytes for `output`.
    pub fn new(alloc: Global, capacity: usize, output: O) -> Result<Buffered<O>, Memory>
        ensures holds { IfOk result (λ buffered. (held : List ℕ) →
            ⟦<Buffered<O> as Output>⟧.holds buffered held ↔ HoldsBefore (O.holds output) [] held) }
        ensures good { IfOk result (λ buffered. ⟦<Buffered<O> as Output>⟧.failed buffered ≡ false) }
    {
        let bytes = Vec::with_capacity(alloc, capacity)?;
        Ok(Buffered {
            output,
            bytes,
            taken: 0,
            failed: false,
        })
    }
}

impl<O: Output> Buffered<O> {
    /// Hands all bytes that were collected to the output.
    fn hand_over(&mut self) -> Result<(), Broken>
        requires good { self.old.failed ≡ false }
        ensures same { IsAppended (HoldsBefore (O.holds self.old.output) (drop self.old.taken self.old.bytes.items))
            (HoldsBefore (O.holds self.new.output) (drop self.new.taken self.new.bytes.items)) [] }
        ensures empty { OnOk result (self.new.bytes.items ≡ []) }
        ensures good { OnOk result (self.new.failed ≡ false) }
        ensures failed { OnErr result (self.new.failed ≡ true) }
    {
        'writes: while self.taken < self.bytes.len() {
            match self.output.write(&self.bytes[self.taken..]) {
                Ok(count) if count > 0 => self.taken += count,
                _ => {
                    self.failed = true;
                    return Err(Broken);
                }
            }
        }
        self.bytes.clear();
        self.taken = 0;
        Ok(())
    }

    /// Collects `bytes`.
    fn collect(&mut self, bytes: &[u8]) -> Result<(), Broken>
        requires good { self.old.failed ≡ false }
        ensures taken { OnOk result (IsAppended
            (HoldsBefore (O.holds self.old.output) (drop self.old.taken self.old.bytes.items))
            (HoldsBefore (O.holds self.new.output) (drop self.new.taken self.new.bytes.items)) bytes.now) }
        ensures refused { OnErr result (IsAppended
            (HoldsBefore (O.holds self.old.output) (drop self.old.taken self.old.bytes.items))
            (HoldsBefore (O.holds self.new.output) (drop self.new.taken self.new.bytes.items)) []) }
        ensures good { OnOk result (self.new.failed ≡ false) }
        ensures failed { OnErr result (self.new.failed ≡ true) }
    {
        if self.bytes.extend_from_slice(bytes).is_err() {
            self.failed = true;
            return Err(Broken);
        }
        Ok(())
    }

    /// Writes a front of `bytes`, for which the buffer has no room.
    #[cold]
    #[inline(never)]
    fn write_through(&mut self, bytes: &[u8]) -> Result<usize, Broken>
        requires good { self.old.failed ≡ false }
        ensures within { IfOk result (λ count. count ≤ length bytes.now) }
        ensures taken { IfOk result (λ count. IsAppended
            (HoldsBefore (O.holds self.old.output) (drop self.old.taken self.old.bytes.items))
            (HoldsBefore (O.holds self.new.output) (drop self.new.taken self.new.bytes.items)) (take count bytes.now)) }
        ensures refused { OnErr result (IsAppended
            (HoldsBefore (O.holds self.old.output) (drop self.old.taken self.old.bytes.items))
            (HoldsBefore (O.holds self.new.output) (drop self.new.taken self.new.bytes.items)) []) }
        ensures fails { WriteFails self.old.failed bytes.now result self.new.failed }
    {
        self.hand_over()?;
        if bytes.len() < self.bytes.capacity() {
            self.collect(bytes)?;
            return Ok(bytes.len());
        }
        match self.output.write(bytes) {
            Ok(count) => {
                self.failed = count == 0 && !bytes.is_empty();
                Ok(count)
            }
            Err(Broken) => {
                self.failed = true;
                Err(Broken)
            }
        }
    }
}

impl<O: Output> Output for Buffered<O> {
    ghost use Rattle.std.specs.Prelude.{drop};
    ghost use Rattle.osm_files.specs.CutBack.{HoldsBefore};

    ghost holds = { λ s. HoldsBefore (O.holds s.output) (drop s.taken s.bytes.items) };

    ghost failed = { λ s. s.failed };

    #[inline(always)]
    fn write(&mut self, bytes: &[u8]) -> Result<usize, Broken> {
        if self.failed {
            return Err(Broken);
        }
        if bytes.len() <= self.bytes.capacity().saturating_sub(self.bytes.len()) {
            self.collect(bytes)?;
            return Ok(bytes.len());
        }
        self.write_through(bytes)
    }

    fn flush(&mut self) -> Result<(), Broken> {
        if self.failed {
            return Err(Broken);
        }
        self.hand_over()?;
        match self.output.flush() {
            Ok(()) => Ok(()),
            Err(Broken) => {
                self.failed = true;
                Err(Broken)
            }
        }
    }
}

impl<O: CutBackOutput> CutBackOutput for Buffered<O> {
    ghost can_cut = { λ s. O.can_cut s.output };

    fn can_be_cut_back(&self) -> bool {
        self.output.can_be_cut_back()
    }

    fn length(&mut self) -> Result<u64, Broken> {
        let collected = (self.bytes.len() - self.taken) as u64;
        match self.output.length() {
            Ok(front) if front <= u64::MAX - collected => Ok(front + collected),
            _ => {
                self.failed = true;
                Err(Broken)
            }
        }
    }

    fn cut_back(&mut self, length: u64) -> Result<(), Broken> {
        let outcome = self.cut(length);
        if outcome.is_err() {
            self.failed = true;
        }
        outcome
    }
}

impl<O: CutBackOutput> Buffered<O> {
    /// Keeps the first `length` bytes.
    fn cut(&mut self, length: u64) -> Result<(), Broken>
        ensures cut { OnOk result (IsCutBack
            (HoldsBefore (O.holds self.old.output) (drop self.old.taken self.old.bytes.items))
            (HoldsBefore (O.holds self.new.output) (drop self.new.taken self.new.bytes.items)) length) }
        ensures lasts { self.new.failed ≡ self.old.failed }
    {
        let front = self.output.length()?;
        if front <= length {
            let collected = self.bytes.len() - self.taken;
            let kept = collected.min((length - front) as usize);
            self.bytes.truncate(self.taken + kept);
            return Ok(());
        }
        self.bytes.clear();
        self.taken = 0;
        self.output.cut_back(length)
    }
}
