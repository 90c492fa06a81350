//! Writers and outputs whose last bytes may be removed, so that a job can write them again.
ghost use Rattle.std.specs.Prelude.{◌≡◌, true, Bool, [], IfOk, OnOk, OnErr};
ghost use Rattle.osm_files.specs.CutBack.{HasKnownLength, IsCutBackIfKnown, HasLength, IsCutBack};
ghost use Rattle.osm_files.specs.Output.{IsAppended};

use crate::input::Broken;
use crate::output::Output;
use std::io;
use std::io::Write;

/// A `std::io::Write` whose last bytes may be removed.
pub trait CutBack: Write {
    /// Whether bytes can be removed.
    ghost can_cut: { Self → Bool };

    /// Whether bytes can be removed. Those of a pipe or a device can't.
    fn can_be_cut_back(&self) -> bool
        ensures { result ≡ can_cut self.now };

    /// The number of bytes that the writer holds.
    ///
    /// # Errors
    ///
    /// The error of the device.
    fn length(&self) -> io::Result<u64>
        ensures { IfOk result (HasKnownLength (Self.contents self.now)) };

    /// Keeps the first `length` bytes and removes the others. The next write follows the bytes that are kept.
    ///
    /// # Errors
    ///
    /// The error of the device. Then any of the bytes may have been removed.
    fn cut_back(&mut self, length: u64) -> io::Result<()>
        ensures { OnOk result (IsCutBackIfKnown (Self.contents self.old) (Self.contents self.new) length) };
}

impl<W: CutBack> CutBack for &mut W {
    ghost can_cut = { λ w. W.can_cut w.now };

    fn can_be_cut_back(&self) -> bool {
        CutBack::can_be_cut_back(&**self)
    }

    fn length(&self) -> io::Result<u64> {
        CutBack::length(&**self)
    }

    fn cut_back(&mut self, length: u64) -> io::Result<()> {
        CutBack::cut_back(&mut **self, length)
    }
}

/// An output whose last bytes may be removed.
pub trait CutBackOutput: Output {
    /// Whether bytes can be removed.
    ghost can_cut: { Self → Bool };

    /// Whether bytes can be removed.
    fn can_be_cut_back(&self) -> bool
        ensures { result ≡ can_cut self.now };

    /// The number of bytes that the output holds.
    ///
    /// # Errors
    ///
    /// `Broken` if the output doesn't know it. Then the output has failed.
    fn length(&mut self) -> Result<u64, Broken>
        ensures length { IfOk result (HasLength (Self.holds self.new)) }
        ensures same { OnOk result (IsAppended (Self.holds self.old) (Self.holds self.new) []) }
        ensures failed { OnErr result (Self.failed self.new ≡ true) };

    /// Keeps the first `length` bytes and removes the others, also if the output has failed. Bytes that wait in a
    /// buffer are dropped and not written. An output that has failed stays so.
    ///
    /// # Errors
    ///
    /// `Broken` if the output can't do it. Then it has failed, and any of the bytes may have been removed.
    fn cut_back(&mut self, length: u64) -> Result<(), Broken>
        ensures cut { OnOk result (IsCutBack (Self.holds self.old) (Self.holds self.new) length) }
        ensures lasts { OnOk result (Self.failed self.new ≡ Self.failed self.old) }
        ensures failed { OnErr result (Self.failed self.new ≡ true) };
}

#[cfg(test)]
mod tests;
