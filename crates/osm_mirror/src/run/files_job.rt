//! The one job over open files and streams.
ghost use Rattle.std.specs.Prelude.{◌≡◌, ◌⊎◌, ◌↔◌, true, false, IsTrue, map, slice_get, Ok, None, IfOk, IfErr};
ghost use Rattle.std.specs.Prelude.{OnOk, OnErr, IfSome};
ghost use Rattle.std.specs.List as list;
ghost use Rattle.osm_files.specs.Change.{change_of};
ghost use Rattle.osm_files.specs.CutBack.{HasLength, IsCutBack};
ghost use Rattle.osm_files.specs.Fault.{memory_fault, write_fault};
ghost use Rattle.osm_merge.specs.Merged.{Grows};
ghost use Rattle.osm_mirror.specs.run.FilesRefusal.{RefusesFilesJob, RefusesAnyOrder, AreSound, FindsFirst};
ghost use Rattle.osm_mirror.specs.run.FilesRefusal.{NothingStands, DecidesJob};
ghost use Rattle.osm_mirror.specs.run.FilesJob.{opened_of, IsFilesJob, EndsByRule, FilesFit};
ghost use Rattle.osm_mirror.specs.declared.run.files_job.Order.TheVariants as order;

use crate::run::file_end::refuse_cut;
use crate::run::file_way::{FileWay, file_to_try, first_ways, leaves_open, split_ways};
use crate::run::files_turn::run_turn;
use crate::run::first_fault::{first_fault_of, refuse_faulty};
use osm_files::{Broken, CutBackOutput, EndRule, Fault, Format, Input, ReadAt, Reason};
use osm_merge::{Counts, Progress, Selection};
use std::alloc::Global;

/// An open file of a job, and the rule for its end.
#[derive(Drop)]
pub enum JobFile<'f, F, R> {
    /// A file that can be read at any offset, and more than once. It needs no mark at its end: see
    /// [`EndRule::of_file`].
    File(&'f F, EndRule),
    /// A stream, which can be read once.
    Stream(R, EndRule),
}

/// The order that the versions of a file must have.
#[derive(Clone, Copy, Debug, PartialEq, Eq)]
pub enum Order {
    /// Ascending by key.
    Sorted,
    /// Any order.
    Any,
}

impl Order {
    /// Whether the versions may have any order.
    pub(crate) fn is_any(self) -> bool
        ensures { IsTrue result ↔ (self ≡ order.Any) }
    {
        self == Order::Any
    }
}

/// What a job over files writes.
#[derive(Clone, Copy, Debug, PartialEq, Eq)]
pub struct FilesJob {
    /// The versions that are selected from the union of the files' sets.
    pub selection: Selection,
    /// The order that the versions of each file must have.
    pub order: Order,
    /// Whether the largest file may be taken as sorted without a look at all of it, although the order is `Any`. The
    /// job writes the same either way.
    pub tries_largest: bool,
    /// The format of the output.
    pub format: Format,
}

/// Appends the one file that holds the selection of the versions of all files, each once.
///
/// If it returns `Ok`, each file is a file of its grammar, sorted if the order of the job is `Sorted`, and ends as its
/// rule says. The bytes written are the one spelling of the selection of the union of the files' sets.
///
/// The job looks at the sizes and the ends of the files that aren't streams before it reads or writes anything.
///
/// If the order is `Any`, each file is split into sorted runs, or read to its end, before anything is written. If the
/// output can be cut back and no file is a stream, the largest file may be taken as sorted (`job.tries_largest`). If
/// it isn't, the output is cut back, the file is split, and the job begins again, for the last time; `progress.begin`
/// is called. If the output can't be cut back, each file is first read to its end, unit by unit, so that nothing is
/// written if one is faulty.
///
/// # Errors
///
/// The files are numbered from 0, and the number of the output is the number of files. If a file can't be read, or
/// isn't sorted though the order is `Sorted`, the fault is the file's first one, with its number, the reason and the
/// offset in the file: a file of any order is read once more up to there. A file that lacks its end is refused as
/// `NoEnd` at its length, unless a whole unit before is at fault. If several files are faulty, it is the fault of one
/// of them. `WriteFault` if the output failed, at the number of bytes that it took, or can't be cut back, at 0;
/// `TooLong` if a file has 2^62 bytes or more, `Memory` if memory ran out.
///
/// If the order is `Any` and the output can be cut back, nothing that the job wrote is left after a refusal. If it
/// can't be cut back, nothing was written before the fault of a file, unless a later read of it fails.
pub fn run_files<'f, F: ReadAt, R: Input + Drop, W: CutBackOutput, P: Progress>(
    alloc: Global,
    job: FilesJob,
    files: Vec<JobFile<'f, F, R>>,
    out: &mut W,
    progress: &mut P,
) -> Result<Counts, Fault>
    ensures written { IfOk result (IsFilesJob F.bytes R.can_give job files.entry.items
        (change_of W.Output out.old out.new)) }
    ensures refused { IfErr result (RefusesFilesJob F.fails F.bytes R.can_give W.Output (W.can_cut out.old) job
        files.entry.items out.old out.new) }
    ensures ended { OnOk result (list.All (EndsByRule F.bytes) files.entry.items) }
    ensures kept { (job.order ≡ order.Sorted) ⊎ (W.can_cut out.old ≡ false)
        → Grows (change_of W.Output out.old out.new) }
    ensures good { OnOk result (W.failed out.new ≡ false) }
{
    let ways = first_ways(alloc, job.order, files.as_slice())?;
    refuse_cut(alloc, job.order, files.as_slice())?;
    if !job.order.is_any() {
        return run_turn(alloc, job, files, ways.as_slice(), out, progress);
    }
    if !out.can_be_cut_back() {
        refuse_faulty(alloc, files.as_slice())?;
    }
    let opened = opened(alloc, files.as_slice())?;
    match run_any_order(alloc, job, files, ways, out, progress) {
        Ok(counts) => Ok(counts),
        Err(fault) => Err(first_fault(alloc, opened.as_slice(), fault)),
    }
}

/// The files that are open, each with the rule for its end; `None` for a stream.
fn opened<'f, F: ReadAt, R>(
    alloc: Global,
    files: &[JobFile<'f, F, R>],
) -> Result<Vec<Option<(&'f F, EndRule)>>, Fault>
    ensures opened { IfOk result (λ opened. opened.items ≡ map opened_of files.now) }
    ensures memory { IfErr result (λ fault. fault ≡ memory_fault) }
{
    let mut opened = Vec::new(alloc);
    'files: for file in files {
        match file {
            JobFile::File(file, end) => opened.push(Some((*file, *end)))?,
            JobFile::Stream(_, _) => opened.push(None)?,
        }
    }
    Ok(opened)
}

/// The first fault of the file of any order that `fault` names, if it isn't accepted; otherwise the fault itself.
fn first_fault<F: ReadAt>(alloc: Global, opened: &[Option<(&F, EndRule)>], fault: Fault) -> Fault
    ensures memory { fault ≡ memory_fault → result ≡ fault }
    ensures first { FindsFirst F.fails F.bytes (slice_get opened.now fault.input) fault result }
{
    if fault == Fault::memory() {
        return fault;
    }
    match opened.get(fault.input) {
        Some(Some((file, end))) => first_fault_of(alloc, Order::Any, *end, *file, fault),
        _ => fault,
    }
}

/// Appends the file of a job over files of any order. If the output can't be cut back, each regular file was read to
/// its end before.
fn run_any_order<'f, F: ReadAt, R: Input + Drop, W: CutBackOutput, P: Progress>(
    alloc: Global,
    job: FilesJob,
    files: Vec<JobFile<'f, F, R>>,
    ways: Vec<FileWay>,
    out: &mut W,
    progress: &mut P,
) -> Result<Counts, Fault>
    requires any { job.order ≡ order.Any }
    requires fit { FilesFit F.bytes order.Any files.items ways.items }
    requires sound { W.can_cut out.old ≡ false → list.All (AreSound F.bytes) files.items }
    ensures written { IfOk result (IsFilesJob F.bytes R.can_give job files.entry.items
        (change_of W.Output out.old out.new)) }
    ensures refused { IfErr result (RefusesAnyOrder F.fails F.bytes R.can_give W.Output (W.can_cut out.old) job
        files.entry.items out.old out.new) }
    ensures kept { W.can_cut out.old ≡ false → Grows (change_of W.Output out.old out.new) }
    ensures good { OnOk result (W.failed out.new ≡ false) }
{
    if out.can_be_cut_back() {
        run_again(alloc, job, files, ways, out, progress)
    } else {
        run_once(alloc, job, files, ways, out, progress)
    }
}

/// Appends the file of a job to an output that can't be cut back. Each regular file was read to its end before.
fn run_once<'f, F: ReadAt, R: Input + Drop, W: CutBackOutput, P: Progress>(
    alloc: Global,
    job: FilesJob,
    files: Vec<JobFile<'f, F, R>>,
    ways: Vec<FileWay>,
    out: &mut W,
    progress: &mut P,
) -> Result<Counts, Fault>
    requires any { job.order ≡ order.Any }
    requires fit { FilesFit F.bytes order.Any files.items ways.items }
    requires sound { list.All (AreSound F.bytes) files.items }
    ensures written { IfOk result (IsFilesJob F.bytes R.can_give job files.entry.items
        (change_of W.Output out.old out.new)) }
    ensures refused { IfErr result (RefusesAnyOrder F.fails F.bytes R.can_give W.Output false job
        files.entry.items out.old out.new) }
    ensures kept { Grows (change_of W.Output out.old out.new) }
    ensures good { OnOk result (W.failed out.new ≡ false) }
{
    let settled = split_ways(alloc, files.as_slice(), ways, None)?;
    run_turn(alloc, job, files, settled.as_slice(), out, progress)
}

/// Appends the file of a job to an output that can be cut back. After a refusal it is cut back.
fn run_again<'f, F: ReadAt, R: Input + Drop, W: CutBackOutput, P: Progress>(
    alloc: Global,
    job: FilesJob,
    files: Vec<JobFile<'f, F, R>>,
    ways: Vec<FileWay>,
    out: &mut W,
    progress: &mut P,
) -> Result<Counts, Fault>
    requires any { job.order ≡ order.Any }
    requires fit { FilesFit F.bytes order.Any files.items ways.items }
    ensures written { IfOk result (IsFilesJob F.bytes R.can_give job files.entry.items
        (change_of W.Output out.old out.new)) }
    ensures refused { IfErr result (RefusesAnyOrder F.fails F.bytes R.can_give W.Output true job
        files.entry.items out.old out.new) }
    ensures good { OnOk result (W.failed out.new ≡ false) }
{
    let tried = file_to_try(alloc, job, files.as_slice(), ways.as_slice());
    let ways = split_ways(alloc, files.as_slice(), ways, tried)?;
    if let Some(again) = copies(alloc, tried.is_some(), files.as_slice())? {
        let made = try_turn(alloc, job, again, ways.as_slice(), out, progress)?;
        if let Some(counts) = made {
            return Ok(counts);
        }
    }
    last_turn(alloc, job, files, ways, out, progress)
}

/// Runs a turn in which a file may be taken as sorted. The result is `None` if the turn doesn't decide the job. After
/// that, and after a refusal, the output is cut back.
fn try_turn<'f, F: ReadAt, R: Input + Drop, W: CutBackOutput, P: Progress>(
    alloc: Global,
    job: FilesJob,
    files: Vec<JobFile<'f, F, R>>,
    ways: &[FileWay],
    out: &mut W,
    progress: &mut P,
) -> Result<Option<Counts>, Fault>
    requires any { job.order ≡ order.Any }
    requires fit { FilesFit F.bytes order.Any files.items ways.now }
    ensures written { IfOk result (λ made. IfSome made (IsFilesJob F.bytes R.can_give job files.entry.items
        (change_of W.Output out.old out.new))) }
    ensures undone { result ≡ Ok None → NothingStands W.Output out.old out.new }
    ensures refused { IfErr result (RefusesAnyOrder F.fails F.bytes R.can_give W.Output true job
        files.entry.items out.old out.new) }
    ensures good { IfOk result (λ made. IfSome made (λ _. W.failed out.new ≡ false)) }
{
    match run_or_undo(alloc, job, files, ways, out, progress)? {
        Ok(counts) => Ok(Some(counts)),
        Err(fault) => {
            if leaves_open(ways, fault) {
                return Ok(None);
            }
            Err(fault)
        }
    }
}

/// Splits the files that may still be split, and runs a turn that decides the job. After a refusal the output is cut
/// back.
fn last_turn<'f, F: ReadAt, R: Input + Drop, W: CutBackOutput, P: Progress>(
    alloc: Global,
    job: FilesJob,
    files: Vec<JobFile<'f, F, R>>,
    ways: Vec<FileWay>,
    out: &mut W,
    progress: &mut P,
) -> Result<Counts, Fault>
    requires any { job.order ≡ order.Any }
    requires fit { FilesFit F.bytes order.Any files.items ways.items }
    ensures written { IfOk result (IsFilesJob F.bytes R.can_give job files.entry.items
        (change_of W.Output out.old out.new)) }
    ensures refused { IfErr result (RefusesAnyOrder F.fails F.bytes R.can_give W.Output true job
        files.entry.items out.old out.new) }
    ensures good { OnOk result (W.failed out.new ≡ false) }
{
    let settled = split_ways(alloc, files.as_slice(), ways, None)?;
    run_or_undo(alloc, job, files, settled.as_slice(), out, progress)?
}

/// Runs a turn. If it is refused, the output is cut back. `Ok` has the result of the turn.
///
/// # Errors
///
/// `WriteFault` if the length of the output can't be read, or if the output can't be cut back.
fn run_or_undo<'f, F: ReadAt, R: Input + Drop, W: CutBackOutput, P: Progress>(
    alloc: Global,
    job: FilesJob,
    files: Vec<JobFile<'f, F, R>>,
    ways: &[FileWay],
    out: &mut W,
    progress: &mut P,
) -> Result<Result<Counts, Fault>, Fault>
    requires any { job.order ≡ order.Any }
    requires fit { FilesFit F.bytes order.Any files.items ways.now }
    ensures written { IfOk result (λ turn. IfOk turn (IsFilesJob F.bytes R.can_give job files.entry.items
        (change_of W.Output out.old out.new))) }
    ensures undone { IfOk result (λ turn. OnErr turn (NothingStands W.Output out.old out.new)) }
    ensures decided { IfOk result (λ turn. IfErr turn (λ fault. DecidesJob ways.now fault
        → RefusesAnyOrder F.fails F.bytes R.can_give W.Output true job files.entry.items out.old out.new fault)) }
    ensures refused { IfErr result (RefusesAnyOrder F.fails F.bytes R.can_give W.Output true job
        files.entry.items out.old out.new) }
    ensures good { IfOk result (λ turn. OnOk turn (W.failed out.new ≡ false)) }
{
    let number = files.as_slice().len();
    let start = length_of(out, number)?;
    match run_turn(alloc, job, files, ways, out, progress) {
        Ok(counts) => Ok(Ok(counts)),
        Err(fault) => {
            cut_back(out, number, start)?;
            Ok(Err(fault))
        }
    }
}

/// The files once more, unless one is a stream; none if they aren't `wanted`.
fn copies<'f, F: ReadAt, R: Drop>(
    alloc: Global,
    wanted: bool,
    files: &[JobFile<'f, F, R>],
) -> Result<Option<Vec<JobFile<'f, F, R>>>, Fault>
    ensures same { IfOk result (λ copied. IfSome copied (λ copies. copies.items ≡ files.now)) }
    ensures memory { IfErr result (λ fault. fault ≡ memory_fault) }
{
    if !wanted {
        return Ok(None);
    }
    let mut copies = Vec::new(alloc);
    'files: for file in files {
        match file {
            JobFile::File(file, end) => copies.push(JobFile::File(*file, *end))?,
            JobFile::Stream(_, _) => return Ok(None),
        }
    }
    Ok(Some(copies))
}

/// The number of bytes that the output holds, whose number is `number`.
fn length_of<W: CutBackOutput>(out: &mut W, number: usize) -> Result<u64, Fault>
    ensures length { IfOk result (HasLength (W.holds out.new)) }
    ensures same { OnOk result (NothingStands W.Output out.old out.new) }
    ensures fault { IfErr result (λ fault. fault ≡ write_fault number 0) }
    ensures failed { OnErr result (W.failed out.new ≡ true) }
{
    match out.length() {
        Ok(length) => Ok(length),
        Err(Broken) => Err(Fault::at(number, 0, Reason::WriteFault)),
    }
}

/// Cuts the output, whose number is `number`, back to `length` bytes.
fn cut_back<W: CutBackOutput>(out: &mut W, number: usize, length: u64) -> Result<(), Fault>
    ensures cut { OnOk result (IsCutBack (W.holds out.old) (W.holds out.new) length) }
    ensures lasts { OnOk result (W.failed out.new ≡ W.failed out.old) }
    ensures fault { IfErr result (λ fault. fault ≡ write_fault number 0) }
    ensures failed { OnErr result (W.failed out.new ≡ true) }
{
    match out.cut_back(length) {
        Ok(()) => Ok(()),
        Err(Broken) => Err(Fault::at(number, 0, Reason::WriteFault)),
    }
}

#[cfg(test)]
mod tests;
