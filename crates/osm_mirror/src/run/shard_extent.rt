//! The extent of a file that a job for a shard reads.
ghost use Rattle.std.specs.Prelude.{◌≡◌, true, false, length, IfOk, IfErr, IfSome};
ghost use Rattle.osm_files.specs.FileRuns.{IsReadFailure};
ghost use Rattle.osm_merge.specs.Slice.{is_ascending};
ghost use Rattle.osm_mirror.specs.run.Cut.{BeginsAs, IsCutRefusal};
ghost use Rattle.osm_mirror.specs.run.ShardExtent.{IsOplSize, BeginsAtOf, EndsAtOf, IsExtentOf};
ghost use Rattle.osm_mirror.specs.run.ShardExtent as spec;
ghost use Rattle.osm_mirror.specs.run.ShardRefusal.{IsFileRefusal};

use crate::run::cut::{begins_as_o5, cut_offset};
use osm_files::{Broken, Fault, ReadAt, Reason, SortedRun};
use osm_merge::{Outside, Span};
use osm_model::Object;
use std::alloc::Global;

/// The size of the largest OPL file that is read whole. It takes less time than two searches for offsets.
const SMALL_SIZE: u64 = 4096;

/// The extent of a file that is read for a shard.
#[derive(Clone, Copy, Debug, PartialEq, Eq)]
pub(crate) struct FileExtent {
    /// The bytes of the extent.
    pub(crate) run: SortedRun,
    /// The size of the file.
    pub(crate) size: u64,
    /// Whether versions outside the shard's span are dropped or refused.
    pub(crate) outside: Outside,
}

/// The size of a file if it is OPL, or none if it is o5.
pub(crate) fn opl_size<F: ReadAt>(file: &F) -> Result<Option<u64>, Fault>
    ensures size { IfOk result (IsOplSize (F.bytes file.now)) }
    ensures refused { IfErr result (IsReadFailure (F.fails file.now)) }
{
    if begins_as_o5(file, 0)? {
        Ok(None)
    } else {
        Ok(Some(size_of(file)?))
    }
}

/// The size of a file.
fn size_of<F: ReadAt>(file: &F) -> Result<u64, Fault>
    ensures size { IfOk result (λ size. IfSome (F.bytes file.now) (λ all. size ≡ length all)) }
    ensures refused { IfErr result (IsReadFailure (F.fails file.now)) }
{
    match file.size() {
        Ok(size) => Ok(size),
        Err(Broken) => Err(Fault::at(0, 0, Reason::ReadFault)),
    }
}

/// The extent of a file that is read for the objects within `span`: the lines within it of an OPL file; or all of an o5
/// file, and of a small file.
///
/// # Errors
///
/// `Unsorted` at 0 if the lines within `span` would end before they begin, which is so in an unsorted file only; or the
/// fault of a search for an offset. The fault has the number 0.
pub(crate) fn extent_of<F: ReadAt>(alloc: Global, file: &F, span: Span) -> Result<FileExtent, Fault>
    requires ascends { is_ascending span ≡ true }
    ensures extent { IfOk result (IsExtentOf span (F.bytes file.now)) }
    ensures refused { IfErr result (IsFileRefusal (F.fails file.now) (F.bytes file.now)) }
{
    let size = size_of(file)?;
    if is_read_whole(file, size)? {
        return Ok(FileExtent {
            run: SortedRun::whole(),
            size,
            outside: Outside::Dropped,
        });
    }
    let start = begin(alloc, file, span.from)?;
    let end = end(alloc, file, span.to, size)?;
    if end < start {
        return Err(Fault::at(0, 0, Reason::Unsorted));
    }
    let run = SortedRun {
        start,
        size: end - start,
        lacks_header: false,
        lacks_end: false,
    };
    Ok(FileExtent {
        run,
        size,
        outside: Outside::Refused,
    })
}

/// Whether a file of `size` bytes is read whole. An o5 file is, and a small one.
fn is_read_whole<F: ReadAt>(file: &F, size: u64) -> Result<bool, Fault>
    requires size { IfSome (F.bytes file.now) (λ all. size ≡ length all) }
    ensures whole { IfOk result (λ is_whole. IfSome (F.bytes file.now) (λ all. is_whole ≡ spec.is_read_whole all)) }
    ensures lines { IfOk result (λ is_whole. is_whole ≡ false → BeginsAs (F.bytes file.now) 0 false) }
    ensures refused { IfErr result (IsReadFailure (F.fails file.now)) }
{
    if size <= SMALL_SIZE {
        return Ok(true);
    }
    begins_as_o5(file, 0)
}

/// The offset at which the lines from a lower bound on begin.
fn begin<F: ReadAt>(alloc: Global, file: &F, bound: Option<Object>) -> Result<u64, Fault>
    ensures begins { IfOk result (BeginsAtOf (F.bytes file.now) bound) }
    ensures refused { IfErr result (IsCutRefusal (F.fails file.now) (F.bytes file.now)) }
{
    match bound {
        None => Ok(0),
        Some(bound) => cut_offset(alloc, file, bound),
    }
}

/// The offset at which the lines below an upper bound end, in a file of `size` bytes.
fn end<F: ReadAt>(alloc: Global, file: &F, bound: Option<Object>, size: u64) -> Result<u64, Fault>
    requires size { IfSome (F.bytes file.now) (λ all. size ≡ length all) }
    ensures ends { IfOk result (EndsAtOf (F.bytes file.now) bound) }
    ensures refused { IfErr result (IsCutRefusal (F.fails file.now) (F.bytes file.now)) }
{
    match bound {
        None => Ok(size),
        Some(bound) => cut_offset(alloc, file, bound),
    }
}
