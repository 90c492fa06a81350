//! Reads and writes that are tried again if a signal interrupts them.
ghost use Rattle.std.specs.Prelude.{◌≡◌, ◌<◌, ◌≤◌, length, take, IfOk, OnErr};
ghost use Rattle.std.specs.Counts.{IsPrefixLen};
ghost use Rattle.std.specs.Io.KnownBytes.{Appends, Consumes, IsAtEnd, Keeps};

use std::io;
use std::io::{ErrorKind, Read, Write};

/// Reads bytes into `buffer`, as `Read::read` does. A read that a signal interrupts is tried again.
pub fn read_retried<R: Read>(reader: &mut R, buffer: &mut [u8]) -> io::Result<usize>
    ensures bound { IfOk result (λ n. IsPrefixLen n buffer.new) }
    ensures given { IfOk result (λ n. Consumes (R.remaining reader.old) (R.remaining reader.new) (take n buffer.new)) }
    ensures end { IfOk result (λ n. n ≡ 0 → 0 < length buffer.old → IsAtEnd (R.remaining reader.new)) }
    ensures refused { OnErr result (Keeps (R.remaining reader.old) (R.remaining reader.new)) }
{
    'tries: for _ in 0..u64::MAX {
        match reader.read(buffer) {
            Err(error) if error.kind() == ErrorKind::Interrupted => {}
            outcome => return outcome,
        }
    }
    Err(io::Error::from(ErrorKind::Interrupted))
}

/// Writes a front of `bytes`, as `Write::write` does. A write that a signal interrupts is tried again.
pub fn write_retried<W: Write>(writer: &mut W, bytes: &[u8]) -> io::Result<usize>
    ensures bound { IfOk result (λ n. n ≤ length bytes.now) }
    ensures taken { IfOk result (λ n. Appends (W.contents writer.old) (W.contents writer.new) (take n bytes.now)) }
    ensures refused { OnErr result (Keeps (W.contents writer.old) (W.contents writer.new)) }
{
    'tries: for _ in 0..u64::MAX {
        match writer.write(bytes) {
            Err(error) if error.kind() == ErrorKind::Interrupted => {}
            outcome => return outcome,
        }
    }
    Err(io::Error::from(ErrorKind::Interrupted))
}
