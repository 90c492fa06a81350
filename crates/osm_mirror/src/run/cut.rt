//! The offset at which an OPL file is cut at an object, so that each of several jobs reads only its slice of the file.
ghost use Rattle.std.specs.Prelude.{◌≡◌, IfOk, IfErr};
ghost use Rattle.osm_files.specs.FileRuns.{IsReadFailure};
ghost use Rattle.osm_mirror.specs.run.Cut.{IsCutOf, BeginsLinesOf, IsCutRefusal, BeginsAs};
ghost use Rattle.osm_mirror.specs.run.LinesFrom.{is_below};

use crate::run::lines_from::{LinesFrom, lines_before};
use opl_line::OplReason;
use osm_files::{Broken, Fault, O5_START, ReadAt, Reason};
use osm_model::Object;
use std::alloc::Global;

/// The offset at which a sorted OPL file is cut at `bound`. The lines before it have the versions whose objects are
/// below `bound`, and the lines from it on have the others. It is 0 or the offset after a line: the first such offset
/// from which on the first version isn't below `bound`. So comments between two versions come after the cut. The search
/// halves a range of offsets. Of a file of 1 GB it reads about 30 lines, and of lines of the usual form only the keys.
/// It reads a long stretch of comments at most twice. So it does a long line, unless the line has another form and
/// comments precede it.
///
/// A file that isn't sorted is cut at the offset at which the same search ends: a line begins there, or the file ends.
/// So the bytes determine the offset, and all jobs over a file cut it alike.
///
/// # Errors
///
/// The reason why a line that the search reads can't be read, at the line's offset. `ReadFault` if the file can't be
/// read; or `Memory`. The fault has the number 0.
pub fn cut_offset<F: ReadAt>(alloc: Global, file: &F, bound: Object) -> Result<u64, Fault>
    ensures cut { IfOk result (IsCutOf (F.bytes file.now) bound) }
    ensures begins { IfOk result (BeginsLinesOf (F.bytes file.now)) }
    ensures refused { IfErr result (IsCutRefusal (F.fails file.now) (F.bytes file.now)) }
{
    let mut low = 0_u64;
    let mut high = match file.size() {
        Ok(size) => LinesFrom::at_end(size),
        Err(Broken) => return Err(Fault::at(0, 0, Reason::ReadFault)),
    };
    // The versions whose lines begin before `low` are below the bound; those of the lines `high` are not.
    'halves: while low < high.offset {
        let middle = low + (high.offset - low) / 2;
        let lines = lines_before(alloc, file, middle, high)?;
        if is_below(lines.object, bound) {
            low = lines.start.clamp(middle, high.offset - 1) + 1;
        } else {
            high = lines;
        }
    }
    if begins_as_o5(file, high.start)? {
        return Err(Fault::at(0, high.start, Reason::Opl(OplReason::NotUtf8)));
    }
    Ok(high.start)
}

/// Whether `object` is below `bound`; `false` without an object.
fn is_below(object: Option<Object>, bound: Object) -> bool
    ensures { result ≡ is_below bound object }
{
    match object {
        Some(object) => object.order(&bound).is_lt(),
        None => false,
    }
}

/// Whether the bytes of a file from `offset` on begin as an o5 file does. No line of an OPL file begins so.
pub(crate) fn begins_as_o5<F: ReadAt>(file: &F, offset: u64) -> Result<bool, Fault>
    ensures begins { IfOk result (BeginsAs (F.bytes file.now) offset) }
    ensures refused { IfErr result (IsReadFailure (F.fails file.now)) }
{
    let mut byte = [0u8; 1];
    match file.read_at(&mut byte, offset) {
        Ok(0) => Ok(false),
        Ok(_) => Ok(byte[0] == O5_START),
        Err(Broken) => Err(Fault::at(0, offset, Reason::ReadFault)),
    }
}

#[cfg(test)]
mod tests;
