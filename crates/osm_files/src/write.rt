//! Writes all of some bytes to an output, which may take only a few of them in each write.
ghost use Rattle.std.specs.Prelude.{◌≡◌, ◌+◌, ◌<◌, ◌^◌, length, Err};
ghost use Rattle.osm_files.specs.Fault.{too_long_fault, write_fault};
ghost use Rattle.osm_files.specs.Output.{FailingLasts, Writes};
ghost use Rattle.osm_files.specs.Change.{change_of};

use crate::fault::{Fault, LENGTH_LIMIT};
use crate::output::Output;
use crate::reason::Reason;

/// Writes all of `bytes` to the output `number`, in as many writes as needed. The output took `written` bytes before.
///
/// # Errors
///
/// `TooLong` if the output would have 2^62 bytes or more; then nothing is written. `WriteFault` if the output fails, at
/// the number of bytes that it took in all. A write that failed isn't tried again.
#[inline(always)]
pub fn write_all<W: Output>(
    out: &mut W,
    number: usize,
    written: u64,
    bytes: &[u8],
) -> Result<(), Fault>
    requires some { 0 < length bytes.now }
    requires below { written < 2 ^ 62 }
    ensures wrote { Writes number (change_of W.Output out.old out.new) written bytes.now result }
    ensures lasts { FailingLasts (change_of W.Output out.old out.new) }
    ensures untouched { result ≡ Err (too_long_fault number) → out.new ≡ out.old }
{
    if bytes.len() as u64 >= LENGTH_LIMIT - written {
        return Err(Fault::too_long(number));
    }
    match out.write(bytes) {
        Ok(count) if count == bytes.len() => Ok(()),
        Ok(count) if count > 0 => write_rest(out, number, written + count as u64, &bytes[count..]),
        _ => Err(write_fault(number, written)),
    }
}

/// Writes all of `bytes`: the rest after a write that took only the bytes before them.
#[inline(never)]
fn write_rest<W: Output>(
    out: &mut W,
    number: usize,
    written: u64,
    bytes: &[u8],
) -> Result<(), Fault>
    requires some { 0 < length bytes.now }
    requires short { written + length bytes.now < 2 ^ 62 }
    ensures wrote { Writes number (change_of W.Output out.old out.new) written bytes.now result }
    ensures lasts { FailingLasts (change_of W.Output out.old out.new) }
{
    let mut done = 0;
    'writes: while done < bytes.len() {
        let count = match out.write(&bytes[done..]) {
            Ok(count) if count > 0 => count,
            _ => return Err(write_fault(number, written + done as u64)),
        };
        done += count;
    }
    Ok(())
}

/// The fault of the output `number`, which failed once it had taken `place` bytes.
pub(crate) fn write_fault(number: usize, place: u64) -> Fault
    ensures { result ≡ write_fault number place }
{
    Fault {
        input: number,
        place,
        reason: Reason::WriteFault,
    }
}
