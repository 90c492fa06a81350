//! The job for one of several shards of an output. From the same files all jobs find the same shards, each by itself.
ghost use Rattle.std.specs.Prelude.{◌≡◌, ◌⊎◌, ◌<◌, ◌≤◌, ◌^◌, true, List, ℕ, length, Some, IfOk, IfErr};
ghost use Rattle.std.specs.Prelude.{OnOk, IfSome, map, sum_by};
ghost use Rattle.osm_files.specs.Change.{change_of};
ghost use Rattle.osm_files.specs.Fault.{memory_fault};
ghost use Rattle.osm_files.specs.Held.{HoldsSorted};
ghost use Rattle.osm_files.specs.Output.{IsGoodThroughout};
ghost use Rattle.osm_model.specs.Pairwise.{Pairwise};
ghost use Rattle.osm_model.specs.VersionSet.{VersionSet};
ghost use Rattle.osm_merge.specs.Merged.{Grows};
ghost use Rattle.osm_merge.specs.Slice.{is_ascending, is_ascending_between};
ghost use Rattle.osm_mirror.specs.run.Bounds.{opl_size, shard_span, total_weight};
ghost use Rattle.osm_mirror.specs.run.Probes.{HaveBytes, Ascend};
ghost use Rattle.osm_mirror.specs.run.ShardExtent.{IsWayWithin, AreWaysWithin, opened_as_whole};
ghost use Rattle.osm_mirror.specs.run.ShardRefusal.{IsFileRefusal, AreRefused};
ghost use Rattle.osm_mirror.specs.run.ShardRefusal.{RefusesSpan};
ghost use Rattle.osm_mirror.specs.run.ShardRefusal.{RefusesShardJob, IsFaultByRule, EndByRule};
ghost use Rattle.osm_mirror.specs.run.ShardJob.{IsShardJob, IsSpanJob};
ghost use Rattle.osm_mirror.specs.run.ShardSpan.{bound_after, span_of_number};
ghost use Rattle.osm_mirror.specs.run.ShardsRead.{HasReadShard, HasReadSpan};

use crate::run::bounds::{Found, bound, find_objects};
use crate::run::file_end::refuse_cut_file;
use crate::run::file_way::FileWay;
use crate::run::files_job::{FilesJob, JobFile, Order};
use crate::run::files_turn::run_ways;
use crate::run::first_fault::first_fault_of;
use crate::run::input::ReadAs;
use crate::run::shard::Shard;
use crate::run::shard_extent::extent_of;
use osm_files::{EndRule, Fault, Format, FramedExtent, Output, ReadAt};
use osm_merge::{Counts, Progress, Selection, Span};
use osm_model::Object;
use std::alloc::Global;

/// What the job for a shard writes.
#[derive(Clone, Copy, Debug, PartialEq, Eq)]
pub struct ShardJob {
    /// Which of the output's shards the job writes.
    pub shard: Shard,
    /// The versions that are selected from the union of the files' sets.
    pub selection: Selection,
    /// The format of the output.
    pub format: Format,
    /// The rule for the end of each file, which needs no mark: see [`EndRule::of_file`].
    pub end: EndRule,
}

/// Appends the one file that holds what a shard has of the selection of the versions of all files, each once.
///
/// The bounds of the shards are objects of the OPL files, and are the same for any order of the files. Of an OPL file
/// only the lines within the shard are read, besides single lines that the search for the bounds reads. An o5 file, and
/// a file of at most 4 KB, is read up to the upper bound. If there are fewer spans than shards, the last shards have no
/// versions. The job looks at the end of each file first. So the jobs of all shards are refused if a file is cut.
///
/// The job for one shard may succeed over a file that isn't sorted. If the jobs for all shards do, each file is sorted:
/// [`shards_read_sorted_files`](crate::laws::shards_read_sorted_files).
///
/// # Errors
///
/// The files are numbered from 0, and the number of the output is the number of files. If a file that is read can't be
/// read or isn't sorted, the fault has its number, the reason and the offset in the file. If the file's bytes aren't a
/// sorted file, this is their first fault, wherever it is, as without shards: the file is read once more up to there. A
/// file that lacks its end is refused as `NoEnd` at its length, unless a whole unit before is at fault.
/// `WriteFault` if the output failed, `TooLong` if the OPL files together have 2^62 bytes or more, and `Memory` if
/// memory ran out.
pub fn run_shard<F: ReadAt, W: Output, P: Progress>(
    alloc: Global,
    job: ShardJob,
    files: &[&F],
    out: &mut W,
    progress: &mut P,
) -> Result<Counts, Fault>
    ensures written { IfOk result (λ counts. (all : List (List ℕ)) (held : List VersionSet)
        → HaveBytes (λ file. F.bytes file.now) files.now all → Pairwise HoldsSorted all held
        → IsShardJob job all held (change_of W.Output out.old out.new) counts) }
    ensures read { OnOk result ((all : List (List ℕ)) → HaveBytes (λ file. F.bytes file.now) files.now all
        → HasReadShard job.shard.number job.shard.count all) }
    ensures refused { IfErr result (RefusesShardJob (λ file. F.bytes file.now) (λ file. F.fails file.now) W.Output job
        files.now out.old out.new) }
    ensures ended { OnOk result (EndByRule (λ file. F.bytes file.now) (λ file. F.fails file.now) job.end files.now) }
    ensures kept { Grows (change_of W.Output out.old out.new) }
    ensures good { OnOk result (IsGoodThroughout (change_of W.Output out.old out.new)) }
{
    refuse_cut_files(alloc, files, job.end)?;
    let span = match span_of_shard(alloc, files, job.shard) {
        Ok(span) => span,
        Err(fault) => return Err(first_fault(alloc, files, job.end, fault)),
    };
    match write_span(alloc, job, span, files, out, progress) {
        Ok(counts) => Ok(counts),
        Err(fault) => Err(first_fault(alloc, files, job.end, fault)),
    }
}

/// Refuses the files if one of them lacks the end that `end` asks for.
fn refuse_cut_files<F: ReadAt>(alloc: Global, files: &[&F], end: EndRule) -> Result<(), Fault>
    ensures ended { OnOk result (EndByRule (λ file. F.bytes file.now) (λ file. F.fails file.now) end files.now) }
    ensures refused { IfErr result (AreRefused (λ file. F.bytes file.now) (λ file. F.fails file.now)
        (IsFaultByRule end) files.now) }
{
    'files: for (input, file) in files.iter().enumerate() {
        if let Err(fault) = refuse_cut_file(alloc, Order::Sorted, *file, end) {
            return Err(fault.of_input(input));
        }
    }
    Ok(())
}

/// The span of a shard, or none if there are fewer spans.
fn span_of_shard<F: ReadAt>(
    alloc: Global,
    files: &[&F],
    shard: Shard,
) -> Result<Option<Span>, Fault>
    ensures span { IfOk result (λ span. (all : List (List ℕ)) → HaveBytes (λ file. F.bytes file.now) files.now all
        → span ≡ shard_span shard.number shard.count all) }
    ensures short { IfOk result (λ _. (all : List (List ℕ)) → HaveBytes (λ file. F.bytes file.now) files.now all
        → sum_by opl_size all < 2 ^ 62) }
    ensures ascends { IfOk result (λ span. IfSome span (λ span. is_ascending span ≡ true)) }
    ensures refused { IfErr result (AreRefused (λ file. F.bytes file.now) (λ file. F.fails file.now) IsFileRefusal
        files.now) }
{
    let found = find_objects(alloc, files, shard.count)?;
    Ok(span_between(found.as_slice(), shard))
}

/// The span of a shard between the bounds that objects determine. The objects ascend.
fn span_between(found: &[Found], shard: Shard) -> Option<Span>
    requires ascend { Ascend found.now }
    ensures span { total_weight found.now < 2 ^ 62 → result ≡ span_of_number shard.number shard.count found.now }
    ensures ascends { IfSome result (λ span. is_ascending span ≡ true) }
{
    let to = bound_after(found, shard);
    if shard.number == 1 {
        return Some(Span { from: None, to });
    }
    match bound(found, shard.number - 1, shard.count) {
        Some(from) => Some(Span {
            from: Some(from),
            to: not_below(from, to),
        }),
        None => None,
    }
}

/// The upper bound `to`, or `from` if `to` is below it.
fn not_below(from: Object, to: Option<Object>) -> Option<Object>
    ensures ascends { is_ascending_between (Some from) result ≡ true }
    ensures same { is_ascending_between (Some from) to ≡ true → result ≡ to }
{
    match to {
        Some(to) if to.order(&from).is_lt() => Some(from),
        _ => to,
    }
}

/// The upper bound of a shard; none for the last one.
fn bound_after(found: &[Found], shard: Shard) -> Option<Object>
    requires ascend { Ascend found.now }
    ensures { total_weight found.now < 2 ^ 62 → result ≡ bound_after shard.number shard.count found.now }
{
    if shard.number < shard.count {
        bound(found, shard.number, shard.count)
    } else {
        None
    }
}

/// Appends what the files have within `span`, or what no files have if there is no span.
fn write_span<F: ReadAt, W: Output, P: Progress>(
    alloc: Global,
    job: ShardJob,
    span: Option<Span>,
    files: &[&F],
    out: &mut W,
    progress: &mut P,
) -> Result<Counts, Fault>
    requires ascends { IfSome span (λ span. is_ascending span ≡ true) }
    ensures written { IfOk result (λ counts. (all : List (List ℕ)) (held : List VersionSet)
        → HaveBytes (λ file. F.bytes file.now) files.now all → Pairwise HoldsSorted all held
        → IsSpanJob job.selection span held job.format (change_of W.Output out.old out.new) counts) }
    ensures read { IfOk result (λ _. (all : List (List ℕ)) → HaveBytes (λ file. F.bytes file.now) files.now all
        → HasReadSpan span all) }
    ensures refused { IfErr result (RefusesSpan (λ file. F.bytes file.now) (λ file. F.fails file.now) IsFileRefusal
        job.selection job.format (λ _. span) files.now (change_of W.Output out.old out.new)) }
    ensures kept { Grows (change_of W.Output out.old out.new) }
    ensures good { OnOk result (IsGoodThroughout (change_of W.Output out.old out.new)) }
{
    let ways = ways_within(alloc, span, files)?;
    let opened = opened_whole(alloc, files)?;
    let whole = FilesJob {
        selection: job.selection,
        order: Order::Sorted,
        tries_largest: false,
        format: job.format,
    };
    run_ways(alloc, whole, opened, ways.as_slice(), out, progress)
}

/// The files as those of a job, which may end after any byte: their ends were looked at before.
fn opened_whole<'f, F: ReadAt>(
    alloc: Global,
    files: &[&'f F],
) -> Result<Vec<JobFile<'f, F, FramedExtent<'f, F>>>, Fault>
    ensures opened { IfOk result (λ opened. opened.items ≡ map opened_as_whole files.now) }
    ensures memory { IfErr result (λ fault. fault ≡ memory_fault) }
{
    let mut opened = Vec::new(alloc);
    'files: for file in files {
        opened.push(JobFile::File(*file, EndRule::Any))?;
    }
    Ok(opened)
}

/// The ways in which the files are read for the objects within `span`.
fn ways_within<F: ReadAt>(
    alloc: Global,
    span: Option<Span>,
    files: &[&F],
) -> Result<Vec<FileWay>, Fault>
    requires ascends { IfSome span (λ span. is_ascending span ≡ true) }
    ensures ways { IfOk result (λ ways. AreWaysWithin F.bytes span files.now ways.items) }
    ensures refused { IfErr result (AreRefused (λ file. F.bytes file.now) (λ file. F.fails file.now) IsFileRefusal
        files.now) }
{
    let mut ways = Vec::new(alloc);
    'files: for (input, file) in files.iter().enumerate() {
        match way_within(alloc, *file, span) {
            Ok(way) => ways.push(way)?,
            Err(fault) => return Err(fault.of_input(input)),
        }
    }
    Ok(ways)
}

/// The way in which a file is read for the objects within `span`: its extent is the one input. Without a span there is
/// no input.
fn way_within<F: ReadAt>(alloc: Global, file: &F, span: Option<Span>) -> Result<FileWay, Fault>
    requires ascends { IfSome span (λ span. is_ascending span ≡ true) }
    ensures way { IfOk result (IsWayWithin span (F.bytes file.now)) }
    ensures refused { IfErr result (IsFileRefusal (F.fails file.now) (F.bytes file.now)) }
{
    let mut runs = Vec::new(alloc);
    let Some(span) = span else {
        return Ok(FileWay {
            read_as: ReadAs::InOrder(Order::Sorted),
            runs,
            size: 0,
            may_be_split: false,
        });
    };
    let extent = extent_of(alloc, file, span)?;
    runs.push(extent.run)?;
    Ok(FileWay {
        read_as: ReadAs::Within(span, extent.outside),
        runs,
        size: extent.size,
        may_be_split: false,
    })
}

/// The first fault of the file that a fault names, if it isn't a sorted file that ends as `end` requires; otherwise the
/// fault itself.
///
/// Why: an extent of a file shows some fault of the file, and not the first one.
fn first_fault<F: ReadAt>(alloc: Global, files: &[&F], end: EndRule, fault: Fault) -> Fault
    ensures file { AreRefused (λ file. F.bytes file.now) (λ file. F.fails file.now) IsFileRefusal files.now fault
        → AreRefused (λ file. F.bytes file.now) (λ file. F.fails file.now) (IsFaultByRule end) files.now result }
    ensures same { (fault ≡ memory_fault) ⊎ (length files.now ≤ fault.input) → result ≡ fault }
{
    if fault == Fault::memory() {
        return fault;
    }
    match files.get(fault.input) {
        Some(file) => first_fault_of(alloc, Order::Sorted, end, *file, fault),
        None => fault,
    }
}

#[cfg(test)]
mod tests;
