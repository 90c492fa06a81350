//! The sorted runs of a file whose versions may have any order. The file is split before each version that is out of
//! order.
ghost use Rattle.std.specs.Prelude.{◌≡◌, ◌+◌, ◌<◌, ◌≤◌, ◌^◌, true, Ok, Some, None, length, slice_get};
ghost use Rattle.std.specs.Prelude.{IfOk, IfErr, OnOk, OnErr, IfSome};
ghost use Rattle.std.specs.List.{All};
ghost use Rattle.osm_files.specs.declared.reason.Reason.TheVariants.{ReadFault};
ghost use Rattle.osm_files.specs.FileRuns.{EndsWhole, StopsSource, GivesSortedFile, IfWhole};
ghost use Rattle.osm_files.specs.FileRuns.{IsSortedRun, IsAccepted, IsAcceptedRun, IsSortedIfAccepted};
ghost use Rattle.osm_files.specs.FileRuns.{is_lines, IsReadFailure, IsRefusalOf, IsOrderOf};
ghost use Rattle.osm_files.specs.Input.{GivesOne};
ghost use Rattle.osm_files.specs.Load.{StopsOpening};
ghost use Rattle.osm_files.specs.RunBreaks.{IsSortedByKeys, BreaksAt, IsBreakOf};
ghost use Rattle.osm_files.specs.SortedRun as spec;

use crate::extent::FramedExtent;
use crate::fault::Fault;
use crate::input::{Broken, Input};
use crate::key_order::first_falling;
use crate::o5::O5_START;
use crate::read_at::ReadAt;
use crate::reason::Reason;
use crate::set_order::{SetOrder, order_of_run};
use crate::sorted_run::{BytesAtSplit, SortedRun};
use crate::source::{FileSource, Source};
use crate::split_file::SplitFile;
use std::alloc::Global;

/// Finds the sorted runs of `file`, which has `size` bytes.
///
/// The result is `None` if there are more than `most` runs, or if the file can't be split where its order breaks. An o5
/// file can only be split at a reset.
///
/// The file is split before each version that is out of order. Only the keys of lines and data sets decide, so those of
/// the usual form aren't read further than their version numbers, and one that can't be read further on isn't refused
/// here. A line of another form is read whole. If a data set has another form, its run is read whole.
///
/// The lines of OPL are read once, but a line that a window cuts is read again. The keys of an o5 file are read twice.
///
/// Each run is a sorted file if it is accepted in any order, if the file has the bytes that its reads return, and it
/// has `size` bytes. The runs of an accepted file are accepted.
///
/// # Errors
///
/// The fault of the file, with the number 0, if a line or data set can't be read, or if the file can't be read; or
/// `Memory`. A file that is accepted in some order of its versions is refused only if a read fails or memory runs out.
/// A line of more than 64 KB that begins no version is `UnknownKind`, even if it isn't UTF-8: its end isn't searched.
pub fn find_runs<F: ReadAt>(
    alloc: Global,
    file: &F,
    size: u64,
    most: usize,
) -> Result<Option<Vec<SortedRun>>, Fault>
    ensures runs { IfOk result (λ found. IfSome found (λ runs. IfSome (F.bytes file.now) (λ all.
        length all < 2 ^ 64 → spec.IsSplitIntoRuns all runs.items))) }
    ensures sorted { IfOk result (λ found. IfSome found (λ runs. IfWhole (F.bytes file.now) size (λ all.
        All (IsSortedIfAccepted all) runs.items))) }
    ensures accepted { IfOk result (λ found. IfSome found (λ runs. IfWhole (F.bytes file.now) size (λ all.
        IsAccepted all → All (IsAcceptedRun all) runs.items))) }
    ensures few { IfOk result (λ found. IfSome found (λ runs. length runs.items ≤ most)) }
    ensures refused { IfErr result (λ fault.
        IfWhole (F.bytes file.now) size (λ all. IsRefusalOf (F.fails file.now) all fault)) }
{
    let mut split = SplitFile::new(alloc);
    'runs: for done in 0..most {
        let Some(offset) = find_break(alloc, file, size, split.rest())? else {
            return Ok(Some(split.into_runs()?));
        };
        if !split_before(alloc, file, size, &mut split, offset)? {
            return Ok(None);
        }
    }
    Ok(None)
}

/// Splits the rest of a file before the version at `offset`, and returns whether it could be split. The keys of the
/// front of an o5 file are read to check it, since the byte before `offset` may not be a reset.
fn split_before<F: ReadAt>(
    alloc: Global,
    file: &F,
    size: u64,
    split: &mut SplitFile,
    offset: u64,
) -> Result<bool, Fault>
    ensures split { OnOk result (IfSome (F.bytes file.now) (λ all.
        spec.IsSplitIntoRuns all (spec.runs_of split.old) → spec.IsSplitIntoRuns all (spec.runs_of split.new))) }
    ensures one { OnOk result (length split.new.fronts ≤ length split.old.fronts + 1) }
    ensures fits { offset < 2 ^ 64 }
    ensures fronts { result ≡ Ok true → IfWhole (F.bytes file.now) size (λ all.
        BreaksAt all split.old.rest offset → All (IsSortedIfAccepted all) split.old.fronts
        → All (IsSortedIfAccepted all) split.new.fronts) }
    ensures accepted { result ≡ Ok true → IfWhole (F.bytes file.now) size (λ all.
        IsAcceptedRun all split.old.rest → All (IsAcceptedRun all) split.old.fronts
        → All (IsAcceptedRun all) split.new.fronts) }
    ensures rest { result ≡ Ok true → IfWhole (F.bytes file.now) size (λ all.
        IsAcceptedRun all split.old.rest → IsAcceptedRun all split.new.rest) }
    ensures failure { IfErr result (λ fault.
        IfWhole (F.bytes file.now) size (λ all. IsReadFailure (F.fails file.now) fault)) }
{
    let Ok(bytes) = bytes_at(file, split.rest().start, offset) else {
        return Err(Fault::at(0, offset, Reason::ReadFault));
    };
    match split.split(offset, bytes)? {
        Some(front) if front.lacks_end => is_sorted(alloc, file, size, front),
        Some(_) => Ok(true),
        None => Ok(false),
    }
}

/// The bytes of a file that determine whether a run that begins at `start` may be split at `offset`.
fn bytes_at<F: ReadAt>(file: &F, start: u64, offset: u64) -> Result<BytesAtSplit, Broken>
    ensures bytes { IfOk result (λ bytes. IfSome (F.bytes file.now) (λ all. spec.HasBytes all start offset bytes)) }
    ensures broken { OnErr result (F.fails file.now) }
{
    let first = byte_at(file, start)?;
    let before = byte_at(file, offset.saturating_sub(1))?;
    let at = byte_at(file, offset)?;
    Ok(BytesAtSplit { first, before, at })
}

/// The byte at `offset` of a file; `None` if there is none.
pub(crate) fn byte_at<F: ReadAt>(file: &F, offset: u64) -> Result<Option<u8>, Broken>
    ensures byte { IfOk result (λ byte. IfSome (F.bytes file.now) (λ all. slice_get all offset ≡ byte)) }
    ensures broken { OnErr result (F.fails file.now) }
{
    let mut byte = [0u8; 1];
    match file.read_at(&mut byte, offset) {
        Ok(0) => Ok(None),
        Ok(_) => Ok(Some(byte[0])),
        Err(Broken) => Err(Broken),
    }
}

/// Whether a run of an o5 file is a sorted file, or consists of parts whose keys don't fall.
///
/// # Errors
///
/// `ReadFault` if the file can't be read; or `Memory`.
fn is_sorted<F: ReadAt>(alloc: Global, file: &F, size: u64, run: SortedRun) -> Result<bool, Fault>
    ensures sorted { result ≡ Ok true → IfWhole (F.bytes file.now) size (λ all. IsSortedByKeys all run) }
    ensures failure { IfErr result (λ fault.
        IfWhole (F.bytes file.now) size (λ all. IsReadFailure (F.fails file.now) fault)) }
{
    match order_of_run(alloc, file, size, run)? {
        SetOrder::Rises => Ok(true),
        SetOrder::Falls(_) => Ok(false),
        SetOrder::Unknown => is_sorted_whole(alloc, file, size, run),
    }
}

/// Whether a run of a file, which is read whole, is a sorted file.
///
/// # Errors
///
/// `ReadFault` if the file can't be read; or `Memory`.
fn is_sorted_whole<F: ReadAt>(
    alloc: Global,
    file: &F,
    size: u64,
    run: SortedRun,
) -> Result<bool, Fault>
    ensures sorted { result ≡ Ok true → IfWhole (F.bytes file.now) size (λ all. IsSortedRun all run) }
    ensures failure { IfErr result (λ fault.
        IfWhole (F.bytes file.now) size (λ all. IsReadFailure (F.fails file.now) fault)) }
{
    match read_run(alloc, file, size, run) {
        Ok(first) => Ok(first.is_none()),
        Err(fault) if fault.reason == Reason::ReadFault => Err(fault),
        Err(fault) if fault.reason == Reason::Memory => Err(Fault::memory()),
        Err(_) => Ok(false),
    }
}

/// The offset in the file of the first version of a run whose key is below that of the version before it. Of lines and
/// data sets only the keys are read.
///
/// # Errors
///
/// The fault of the run, at its offset in the file; or `Memory`.
fn find_break<F: ReadAt>(
    alloc: Global,
    file: &F,
    size: u64,
    run: SortedRun,
) -> Result<Option<u64>, Fault>
    ensures order { IfWhole (F.bytes file.now) size (λ all. IsBreakOf (F.fails file.now) all run result) }
{
    let first = match byte_at(file, run.start) {
        Ok(first) => first,
        Err(Broken) => return Err(Fault::at(0, run.start, Reason::ReadFault)),
    };
    if is_lines(run, first) {
        let end = run.start.saturating_add(run.size).min(size);
        first_falling(alloc, file, run.start, end)
    } else {
        find_break_of_sets(alloc, file, size, run)
    }
}

/// The same for a run of data sets. Only the keys are read, unless a data set has another form: then the run is read
/// whole.
///
/// # Errors
///
/// As for [`find_break`].
fn find_break_of_sets<F: ReadAt>(
    alloc: Global,
    file: &F,
    size: u64,
    run: SortedRun,
) -> Result<Option<u64>, Fault>
    ensures order { IfWhole (F.bytes file.now) size (λ all. IsBreakOf (F.fails file.now) all run result) }
{
    match order_of_run(alloc, file, size, run)? {
        SetOrder::Rises => Ok(None),
        SetOrder::Falls(offset) => Ok(Some(offset)),
        SetOrder::Unknown => read_run(alloc, file, size, run),
    }
}

/// Whether a run, whose first byte in the file is `first`, has only lines, and no bytes but those of the file.
fn is_lines(run: SortedRun, first: Option<u8>) -> bool
    ensures { result ≡ is_lines run first }
{
    if run.lacks_header || run.lacks_end {
        return false;
    }
    match first {
        Some(byte) => byte != O5_START,
        None => true,
    }
}

/// Reads a run of a file, and returns the offset in the file of the first version whose key is below that of the
/// version before it.
///
/// # Errors
///
/// The fault of the run, at its offset in the file; or `Memory`.
fn read_run<F: ReadAt>(
    alloc: Global,
    file: &F,
    size: u64,
    run: SortedRun,
) -> Result<Option<u64>, Fault>
    ensures order { IfWhole (F.bytes file.now) size (λ all. IsOrderOf (F.fails file.now) all run result) }
    ensures failure { IfErr result (λ fault. fault.reason ≡ ReadFault →
        IfWhole (F.bytes file.now) size (λ all. F.fails file.now)) }
{
    match read_sorted(alloc, FramedExtent::of_run(file, size, run)) {
        Ok(()) => Ok(None),
        Err(fault) => {
            let offset = run.offset_in_file(fault.place);
            if fault.reason == Reason::Unsorted {
                Ok(Some(offset))
            } else {
                Err(Fault::at(0, offset, fault.reason))
            }
        }
    }
}

/// Reads a sorted file to its end.
///
/// # Errors
///
/// The fault of the file, or `Memory`.
fn read_sorted<R: Input + Drop>(alloc: Global, reader: R) -> Result<(), Fault>
    ensures sorted { OnOk result (GivesOne (R.can_give reader) GivesSortedFile) }
    ensures refused { IfErr result (λ fault. GivesOne (R.can_give reader) (λ c. StopsOpening 0 c fault)) }
{
    let mut source = FileSource::new(alloc, 0, reader)?;
    let outcome = read_to_end(&mut source);
    drop(source);
    outcome
}

/// Reads a source to its end.
///
/// # Errors
///
/// The first fault of the source.
fn read_to_end<S: Source>(source: &mut S) -> Result<(), Fault>
    ensures whole { OnOk result (EndsWhole S.can_give source.old) }
    ensures refused { IfErr result (StopsSource S.can_give source.old) }
{
    'versions: loop {
        match source.next()? {
            Some(version) => source.reuse(version),
            None => return Ok(()),
        }
    }
}

#[cfg(test)]
mod tests;
