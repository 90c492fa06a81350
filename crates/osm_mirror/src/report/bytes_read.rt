//! The reports of a job in progress: when one is due, and its text.
ghost use Rattle.std.specs.Prelude.{◌↔◌, ◌≤◌, IsTrue, if◌then◌else◌};

use std::fmt;
use std::fmt::{Display, Formatter};

/// The least time between two reports on a terminal, in milliseconds.
const TERMINAL_INTERVAL: u128 = 500;

/// The least time between two reports elsewhere, in milliseconds.
const LINE_INTERVAL: u128 = 60_000;

/// The bytes of a megabyte, MB.
const MEGABYTE: u64 = 1_000_000;

/// Whether a report is due if the last one was made `milliseconds` ago: twice a second on a terminal, and once a minute
/// elsewhere.
pub fn is_report_due(is_terminal: bool, milliseconds: u128) -> bool
    ensures { IsTrue result ↔ (if is_terminal then 500 else 60_000) ≤ milliseconds }
{
    let interval = if is_terminal {
        TERMINAL_INTERVAL
    } else {
        LINE_INTERVAL
    };
    interval <= milliseconds
}

/// The bytes that a job has read so far. The text is their number in megabytes, and also the percentage if the size of
/// all inputs is known.
#[derive(Clone, Copy, Debug)]
pub struct BytesRead {
    /// The number of bytes that the job has read.
    pub bytes: u64,
    /// The size of all inputs in bytes, if it is known.
    pub size: Option<u64>,
}

impl Display for BytesRead {
    fn fmt<W: fmt::Write>(&self, f: &mut Formatter<W>) -> fmt::Result {
        let read = self.bytes / MEGABYTE;
        let Some(size) = self.size else {
            return write!(f, "{read} MB");
        };
        let percent = u128::from(self.bytes).saturating_mul(100) / u128::from(size).max(1);
        let all = size / MEGABYTE;
        write!(f, "{percent} %, {read} of {all} MB")
    }
}

#[cfg(test)]
mod tests;
