//! What a search knows of the lines of an OPL file from an offset on.
//!
//! Why: searches that look at earlier and earlier offsets read no stretch of a file again. All probes together read a
//! file with 64 MB of comments about twice, and each of 64 probes read it before.
ghost use Rattle.std.specs.Prelude.{◌≡◌, ◌≤◌, None, IfOk, IfErr};
ghost use Rattle.osm_mirror.specs.run.Cut.{IsCutRefusal};
ghost use Rattle.osm_mirror.specs.run.LinesFrom.{AreLinesOf};

use osm_files::{Fault, ReadAt, first_object, line_start};
use osm_model::Object;
use std::alloc::Global;

/// What is known of the lines of an OPL file that begin at an offset or after it.
#[derive(Clone, Copy, Debug, PartialEq, Eq)]
pub(crate) struct LinesFrom {
    /// The offset from which on the lines are known. No line need begin there.
    pub(crate) offset: u64,
    /// The offset at which the first of these lines begins, or the file's length if there is none.
    pub(crate) start: u64,
    /// The object that the first of these lines names that isn't skipped; `None` if all are skipped.
    pub(crate) object: Option<Object>,
}

impl LinesFrom {
    /// The lines from the end of a file of `size` bytes on. There are none.
    pub(crate) fn at_end(size: u64) -> LinesFrom
        ensures offset { result.offset ≡ size }
        ensures start { result.start ≡ size }
        ensures object { result.object ≡ None }
    {
        LinesFrom {
            offset: size,
            start: size,
            object: None,
        }
    }
}

/// The lines from `offset` on, if those from a later offset on are `later`. No byte from the start of these later lines
/// on is read.
///
/// # Errors
///
/// The reason why a line that the search reads can't be read, at the line's offset. `ReadFault` if the file can't be
/// read; or `Memory`. The fault has the number 0.
pub(crate) fn lines_before<F: ReadAt>(
    alloc: Global,
    file: &F,
    offset: u64,
    later: LinesFrom,
) -> Result<LinesFrom, Fault>
    requires before { offset ≤ later.offset }
    requires later { AreLinesOf (F.bytes file.now) later }
    ensures lines { IfOk result (AreLinesOf (F.bytes file.now)) }
    ensures offset { IfOk result (λ lines. lines.offset ≡ offset) }
    ensures refused { IfErr result (IsCutRefusal (F.fails file.now) (F.bytes file.now)) }
{
    let start = line_start(file, offset, later.offset)?;
    if start >= later.offset {
        return Ok(LinesFrom {
            offset,
            start: later.start,
            object: later.object,
        });
    }
    let first = first_object(alloc, file, start, later.start)?;
    Ok(LinesFrom {
        offset,
        start,
        object: first.or(later.object),
    })
}

#[cfg(test)]
mod tests;
