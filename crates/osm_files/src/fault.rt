//! Faults of files, each with its offset.
ghost use Rattle.std.specs.Prelude.{◌≡◌};
ghost use Rattle.osm_files.specs.Fault.{memory_fault, failed_fault, too_long_fault, fault_at};

use crate::reason::Reason;
use osm_model::Memory;
use std::alloc::{AllocError, AllocFailed};
use thiserror::Error;

/// The limit on a file's length: a file of `LENGTH_LIMIT` bytes or more is too long.
pub const LENGTH_LIMIT: u64 = 1 << 62;

/// A fault: the file, the offset in it, and the reason.
#[derive(Clone, Copy, Debug, PartialEq, Eq, Error)]
#[error("file {input}, byte {place}: {}", .reason.name())]
pub struct Fault {
    /// The number of the input, counted from 0. The output comes after the inputs: with n inputs its number is n.
    pub input: usize,
    /// The offset of the faulty byte, from 0.
    pub place: u64,
    /// The reason for the refusal.
    pub reason: Reason,
}

impl Fault {
    /// The fault of a call that ran out of memory.
    pub fn memory() -> Fault
        ensures { result ≡ memory_fault }
    {
        Fault {
            input: 0,
            place: 0,
            reason: Reason::Memory,
        }
    }

    /// The fault for `reason` at the offset `place` of the file `input`. Out of memory has neither file nor offset:
    /// both are 0.
    pub fn at(input: usize, place: u64, reason: Reason) -> Fault
        ensures { result ≡ fault_at input place reason }
    {
        match reason {
            Reason::Memory => Fault::memory(),
            _ => Fault {
                input,
                place,
                reason,
            },
        }
    }

    /// The same fault of the file `input`, for a fault of a search in one file. Out of memory has no file.
    pub fn of_input(self, input: usize) -> Fault
        ensures { result ≡ fault_at input self.place self.reason }
    {
        Fault::at(input, self.place, self.reason)
    }

    /// The fault of a call after an earlier call on the file `input` was refused.
    pub fn failed(input: usize) -> Fault
        ensures { result ≡ failed_fault input }
    {
        Fault {
            input,
            place: 0,
            reason: Reason::Failed,
        }
    }

    /// The fault of the file `input`, which has 2^62 bytes or more.
    pub fn too_long(input: usize) -> Fault
        ensures { result ≡ too_long_fault input }
    {
        Fault {
            input,
            place: LENGTH_LIMIT,
            reason: Reason::TooLong,
        }
    }
}

impl From<AllocError> for Fault {
    ghost use Rattle.std.specs.Prelude.{◌≡◌};
    ghost use Rattle.osm_files.specs.Fault.{memory_fault};

    ghost from_gives = { λ _ fault. fault ≡ memory_fault };

    fn from(_error: AllocError) -> Fault {
        Fault::memory()
    }
}

impl<T: Drop> From<AllocFailed<T>> for Fault {
    ghost use Rattle.std.specs.Prelude.{◌≡◌};
    ghost use Rattle.osm_files.specs.Fault.{memory_fault};

    ghost from_gives = { λ _ fault. fault ≡ memory_fault };

    fn from(_error: AllocFailed<T>) -> Fault {
        Fault::memory()
    }
}

impl From<Memory> for Fault {
    ghost use Rattle.std.specs.Prelude.{◌≡◌};
    ghost use Rattle.osm_files.specs.Fault.{memory_fault};

    ghost from_gives = { λ _ fault. fault ≡ memory_fault };

    fn from(_error: Memory) -> Fault {
        Fault::memory()
    }
}

#[cfg(test)]
mod tests;
