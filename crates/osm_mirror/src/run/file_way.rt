//! The ways in which a job reads its files: each as one input, or as several sorted runs.
ghost use Rattle.std.specs.Prelude.{◌≡◌, ◌↔◌, ◌<◌, ◌^◌, IsTrue, true, false, None, length, set};
ghost use Rattle.std.specs.Prelude.{IfOk, IfErr, OnOk, IfSome};
ghost use Rattle.osm_files.specs.Fault.{memory_fault};
ghost use Rattle.osm_mirror.specs.run.FilesRefusal.{IsSizeFault, IsRefusedFile, AreRefused};
ghost use Rattle.osm_mirror.specs.run.FilesRefusal.{AreRefusedByRule, IsRefusedByRule};
ghost use Rattle.osm_mirror.specs.run.FilesRefusal.{AreSettled, MayBeSplit, LeavesOpen};
ghost use Rattle.osm_mirror.specs.run.FilesJob.{IsReadWhole, FileFits, FilesFit};

use crate::run::files_job::{FilesJob, JobFile, Order};
use crate::run::input::ReadAs;
use crate::run::probe::descends;
use osm_files::{Fault, Input, LENGTH_LIMIT, ReadAt, Reason, SortedRun, find_runs};
use std::alloc::Global;

/// The greatest number of runs besides the first one of each file. Each run has a buffer.
const MOST_FURTHER_RUNS: usize = 128;

/// How a job reads a file: as one input, as several sorted runs of it, or a shard's extent of it.
#[derive(Drop)]
pub(crate) struct FileWay {
    /// The way in which the versions of each input are read.
    pub(crate) read_as: ReadAs,
    /// The runs of the file that are the inputs, in the file's order. A stream is one input.
    pub(crate) runs: Vec<SortedRun>,
    /// The size of the file, in bytes; 0 for a stream.
    pub(crate) size: u64,
    /// Whether the file is read as one sorted file, and may have any order. So it may be split.
    pub(crate) may_be_split: bool,
}

impl FileWay {
    /// The whole file, which has `size` bytes, as one input of the order `order`.
    fn whole(alloc: Global, order: Order, size: u64, may_be_split: bool) -> Result<FileWay, Fault>
        ensures whole { IfOk result (IsReadWhole order size may_be_split) }
        ensures memory { IfErr result (λ fault. fault ≡ memory_fault) }
    {
        let mut runs = Vec::new(alloc);
        runs.push(SortedRun::whole())?;
        Ok(FileWay {
            read_as: ReadAs::InOrder(order),
            runs,
            size,
            may_be_split,
        })
    }

    /// The number of the file's inputs after the first one.
    fn further_runs(&self) -> usize {
        self.runs.len().saturating_sub(1)
    }
}

/// The ways to begin with, for files whose versions must have the order `order`. Each file is read as one sorted file,
/// which may be split if the versions may have any order. A stream is read in the order `order`.
///
/// # Errors
///
/// `TooLong` or `ReadFault` if a file is too long or has no known size; or `Memory`.
pub(crate) fn first_ways<'f, F: ReadAt, R: Input>(
    alloc: Global,
    order: Order,
    files: &[JobFile<'f, F, R>],
) -> Result<Vec<FileWay>, Fault>
    ensures fit { IfOk result (λ ways. FilesFit F.bytes order files.now ways.items) }
    ensures refused { IfErr result (AreRefusedByRule F.fails F.bytes R.can_give order files.now) }
{
    let mut ways = Vec::new(alloc);
    'files: for (input, file) in files.iter().enumerate() {
        match first_way(alloc, order, file) {
            Ok(way) => ways.push(way)?,
            Err(fault) => return Err(fault.of_input(input)),
        }
    }
    Ok(ways)
}

/// The way to begin with of `file`.
fn first_way<'f, F: ReadAt, R: Input>(
    alloc: Global,
    order: Order,
    file: &JobFile<'f, F, R>,
) -> Result<FileWay, Fault>
    ensures fits { IfOk result (FileFits F.bytes order file.now) }
    ensures refused { IfErr result (IsRefusedByRule F.fails F.bytes R.can_give order file.now) }
{
    match file {
        JobFile::File(file, _) => {
            let size = short_size(*file)?;
            FileWay::whole(alloc, Order::Sorted, size, order.is_any())
        }
        JobFile::Stream(_, _) => FileWay::whole(alloc, order, 0, false),
    }
}

/// The size of `file`, if the file isn't too long.
pub(crate) fn short_size<F: ReadAt>(file: &F) -> Result<u64, Fault>
    ensures size { IfOk result (λ size. IfSome (F.bytes file.now) (λ all. length all ≡ size)) }
    ensures short { IfOk result (λ size. size < 2 ^ 62) }
    ensures refused { IfErr result (IsSizeFault (F.fails file.now) (F.bytes file.now)) }
{
    match file.size() {
        Ok(size) if size < LENGTH_LIMIT => Ok(size),
        Ok(_) => Err(Fault::too_long(0)),
        Err(_) => Err(Fault::at(0, 0, Reason::ReadFault)),
    }
}

/// The number of the file that is taken as sorted without a look at all of it, if the job may do that: the largest one,
/// unless a few of its versions show that it isn't sorted.
pub(crate) fn file_to_try<'f, F: ReadAt, R>(
    alloc: Global,
    job: FilesJob,
    files: &[JobFile<'f, F, R>],
    ways: &[FileWay],
) -> Option<usize> {
    if !job.tries_largest {
        return None;
    }
    let mut largest: Option<(usize, u64)> = None;
    for (file, way) in ways.iter().enumerate() {
        if largest.is_none_or(|(_, size)| size < way.size) {
            largest = Some((file, way.size));
        }
    }
    let (number, _) = largest?;
    match files.get(number) {
        Some(JobFile::File(file, _)) if !descends(alloc, *file) => Some(number),
        _ => None,
    }
}

/// The ways after each of `files` that may be split was split into sorted runs, but not the file number `tried`. A file
/// that can't be split, or that has too many runs, is read to its end before anything is written.
///
/// # Errors
///
/// The fault of a file that can't be read; or `Memory`.
pub(crate) fn split_ways<'f, F: ReadAt, R: Input>(
    alloc: Global,
    files: &[JobFile<'f, F, R>],
    mut ways: Vec<FileWay>,
    tried: Option<usize>,
) -> Result<Vec<FileWay>, Fault>
    requires fit { FilesFit F.bytes Order.Any files.now ways.items }
    ensures fit { IfOk result (λ ways. FilesFit F.bytes Order.Any files.now ways.items) }
    ensures settled { IfOk result (λ ways. tried ≡ None → AreSettled ways.items) }
    ensures refused { IfErr result (AreRefused F.fails F.bytes R.can_give Order.Any files.now) }
{
    split_files(alloc, files, ways.as_mut_slice(), tried)?;
    Ok(ways)
}

/// Splits the files as [`split_ways`] does.
fn split_files<'f, F: ReadAt, R: Input>(
    alloc: Global,
    files: &[JobFile<'f, F, R>],
    ways: &mut [FileWay],
    tried: Option<usize>,
) -> Result<(), Fault>
    requires fit { FilesFit F.bytes Order.Any files.now ways.old }
    ensures fit { FilesFit F.bytes Order.Any files.now ways.new }
    ensures settled { OnOk result (tried ≡ None → AreSettled ways.new) }
    ensures refused { IfErr result (AreRefused F.fails F.bytes R.can_give Order.Any files.now) }
{
    let mut left = MOST_FURTHER_RUNS.saturating_sub(further_runs(ways));
    'files: for file in 0..ways.len() {
        if ways[file].may_be_split && is_to_split(tried, file) {
            left = left.saturating_sub(split_way(alloc, files, ways, file, left)?);
        }
    }
    Ok(())
}

/// Whether the file number `file` isn't `tried`.
fn is_to_split(tried: Option<usize>, file: usize) -> bool
    ensures { tried ≡ None → result ≡ true }
{
    tried != Some(file)
}

/// The number of inputs after the first one of each file.
fn further_runs(ways: &[FileWay]) -> usize {
    let mut count = 0_usize;
    for way in ways {
        count = count.saturating_add(way.further_runs());
    }
    count
}

/// Splits the file number `file` into sorted runs, of which at most `most` follow the first one. Returns their number.
fn split_way<'f, F: ReadAt, R: Input>(
    alloc: Global,
    files: &[JobFile<'f, F, R>],
    ways: &mut [FileWay],
    file: usize,
    most: usize,
) -> Result<usize, Fault>
    requires fit { FilesFit F.bytes Order.Any files.now ways.old }
    requires file { file < length ways.old }
    ensures fit { FilesFit F.bytes Order.Any files.now ways.new }
    ensures settled { OnOk result ((way : FileWay) × (way.may_be_split ≡ false)
        × (ways.new ≡ set ways.old file way)) }
    ensures refused { IfErr result (AreRefused F.fails F.bytes R.can_give Order.Any files.now) }
{
    let way = match split_file(alloc, &files[file], most.saturating_add(1)) {
        Ok(way) => way,
        Err(fault) => return Err(fault.of_input(file)),
    };
    let further = way.further_runs();
    ways[file] = way;
    Ok(further)
}

/// `file` as at most `most` sorted runs, or as one input of any order.
fn split_file<'f, F: ReadAt, R: Input>(
    alloc: Global,
    file: &JobFile<'f, F, R>,
    most: usize,
) -> Result<FileWay, Fault>
    ensures fits { IfOk result (FileFits F.bytes Order.Any file.now) }
    ensures settled { IfOk result (λ way. way.may_be_split ≡ false) }
    ensures refused { IfErr result (IsRefusedFile F.fails F.bytes R.can_give Order.Any file.now) }
{
    let JobFile::File(file, _) = file else {
        return FileWay::whole(alloc, Order::Any, 0, false);
    };
    let size = short_size(*file)?;
    match find_runs(alloc, *file, size, most)? {
        Some(runs) => Ok(FileWay {
            read_as: ReadAs::InOrder(Order::Sorted),
            runs,
            size,
            may_be_split: false,
        }),
        None => FileWay::whole(alloc, Order::Any, size, false),
    }
}

/// Whether a turn that is refused with `fault` doesn't decide the job: a file that may be split isn't sorted, or the
/// output would be too long. The front of a file may select more than the file.
pub(crate) fn leaves_open(ways: &[FileWay], fault: Fault) -> bool
    ensures { IsTrue result ↔ LeavesOpen ways.now fault }
{
    match fault.reason {
        Reason::Unsorted => may_be_split(ways, fault.input),
        Reason::TooLong => fault.input == ways.len(),
        _ => false,
    }
}

/// Whether the file number `file` may be split.
fn may_be_split(ways: &[FileWay], file: usize) -> bool
    ensures { IsTrue result ↔ MayBeSplit ways.now file }
{
    match ways.get(file) {
        Some(way) => way.may_be_split,
        None => false,
    }
}
