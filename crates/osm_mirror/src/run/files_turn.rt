//! One turn of a job over files: each file is read in its way, and the output is written once.
ghost use Rattle.std.specs.Prelude.{◌≡◌, ◌+◌, ◌-◌, ◌<◌, ◌^◌, length, IfOk, IfErr, OnOk};
ghost use Rattle.osm_files.specs.Change.{change_of};
ghost use Rattle.osm_files.specs.Fault.{memory_fault};
ghost use Rattle.osm_files.specs.FileInput.{FileInputCanGive};
ghost use Rattle.osm_files.specs.Output.{IsGoodThroughout};
ghost use Rattle.osm_merge.specs.Merged.{Grows};
ghost use Rattle.osm_mirror.specs.run.FilesRefusal.{RefusesTurn};
ghost use Rattle.osm_mirror.specs.run.FilesJob.{IsFilesJob, FilesFit, OpensFiles, AddsFile, fault_in_files};
ghost use Rattle.osm_mirror.specs.run.WaysJob.{IsJobInWays, RefusesInWays};

use crate::laws::sorted_runs_hold_the_file;
use crate::run::file_way::FileWay;
use crate::run::files_job::{FilesJob, JobFile};
use crate::run::input::InputFile;
use crate::run::run_selected;
use osm_files::{EndRule, Fault, FileInput, FramedExtent, Input, Output, ReadAt};
use osm_merge::{Counts, Progress};
use std::alloc::Global;

/// Reads each file in its way, and appends the file that `job` is to write. Fault numbers are those of files.
pub(crate) fn run_turn<'f, F: ReadAt, R: Input + Drop, W: Output, P: Progress>(
    alloc: Global,
    job: FilesJob,
    files: Vec<JobFile<'f, F, R>>,
    ways: &[FileWay],
    out: &mut W,
    progress: &mut P,
) -> Result<Counts, Fault>
    requires fit { FilesFit F.bytes job.order files.items ways.now }
    ensures written { IfOk result (λ counts.
        IsFilesJob F.bytes R.can_give job files.entry.items (change_of W.Output out.old out.new) counts) }
    ensures refused { IfErr result (λ fault.
        RefusesTurn F.fails F.bytes R.can_give W.Output job files.entry.items ways.now out.old out.new fault) }
    ensures kept { Grows (change_of W.Output out.old out.new) }
    ensures good { OnOk result (IsGoodThroughout (change_of W.Output out.old out.new)) }
{
    sorted_runs_hold_the_file();
    run_ways(alloc, job, files, ways, out, progress)
}

/// Reads each file in its way, which may be any, and appends what `job` selects of what was read. Fault numbers are
/// those of files.
pub(crate) fn run_ways<'f, F: ReadAt, R: Input + Drop, W: Output, P: Progress>(
    alloc: Global,
    job: FilesJob,
    files: Vec<JobFile<'f, F, R>>,
    ways: &[FileWay],
    out: &mut W,
    progress: &mut P,
) -> Result<Counts, Fault>
    requires same { length files.items ≡ length ways.now }
    ensures written { IfOk result (IsJobInWays F.fails F.bytes R.can_give
        (FileInputCanGive F.fails F.bytes R.can_give) files.entry.items ways.now job
        (change_of W.Output out.old out.new)) }
    ensures refused { IfErr result (RefusesInWays F.fails F.bytes R.can_give
        (FileInputCanGive F.fails F.bytes R.can_give) files.entry.items ways.now job W.Output out.old out.new) }
    ensures kept { Grows (change_of W.Output out.old out.new) }
    ensures good { OnOk result (IsGoodThroughout (change_of W.Output out.old out.new)) }
{
    let inputs = open_files(alloc, files, ways)?;
    progress.begin();
    match run_selected(alloc, job.selection, inputs, job.format, out, progress) {
        Ok(counts) => Ok(counts),
        Err(fault) => Err(fault_of_file(ways, fault)),
    }
}

/// The inputs of the files, each read in its way.
fn open_files<'f, F: ReadAt, R: Input + Drop>(
    alloc: Global,
    files: Vec<JobFile<'f, F, R>>,
    ways: &[FileWay],
) -> Result<Vec<InputFile<FileInput<'f, F, R>>>, Fault>
    requires same { length files.items ≡ length ways.now }
    ensures opened { IfOk result (λ inputs. OpensFiles F.fails F.bytes R.can_give
        (FileInputCanGive F.fails F.bytes R.can_give) files.entry.items ways.now inputs.items) }
    ensures memory { IfErr result (λ fault. fault ≡ memory_fault) }
{
    let mut inputs = Vec::new(alloc);
    'files: for (file, way) in files.into_iter().zip(ways) {
        push_inputs(file, way, &mut inputs)?;
    }
    Ok(inputs)
}

/// Appends the inputs of a file.
fn push_inputs<'f, F: ReadAt, R: Input + Drop>(
    file: JobFile<'f, F, R>,
    way: &FileWay,
    inputs: &mut Vec<InputFile<FileInput<'f, F, R>>>,
) -> Result<(), Fault>
    ensures added { OnOk result (AddsFile F.fails F.bytes R.can_give (FileInputCanGive F.fails F.bytes R.can_give)
        file.entry way.now inputs.old.items inputs.new.items) }
    ensures memory { IfErr result (λ fault. fault ≡ memory_fault) }
{
    match file {
        JobFile::File(file, _) => push_runs(file, way, inputs),
        JobFile::Stream(stream, end) => push_stream(stream, end, way, inputs),
    }
}

/// Appends a stream, which has to end as `end` requires, as one input.
fn push_stream<'f, F: ReadAt, R: Input + Drop>(
    stream: R,
    end: EndRule,
    way: &FileWay,
    inputs: &mut Vec<InputFile<FileInput<'f, F, R>>>,
) -> Result<(), Fault>
    ensures added { OnOk result (AddsFile F.fails F.bytes R.can_give (FileInputCanGive F.fails F.bytes R.can_give)
        (JobFile.Stream stream end) way.now inputs.old.items inputs.new.items) }
    ensures memory { IfErr result (λ fault. fault ≡ memory_fault) }
{
    Ok(inputs.push(InputFile {
        reader: FileInput::Stream(stream),
        read_as: way.read_as,
        end,
    })?)
}

/// Appends the runs of a file, each as one input. The end of the file was looked at before.
fn push_runs<'f, F: ReadAt, R: Input + Drop>(
    file: &'f F,
    way: &FileWay,
    inputs: &mut Vec<InputFile<FileInput<'f, F, R>>>,
) -> Result<(), Fault>
    ensures added { OnOk result ((end : EndRule) → AddsFile F.fails F.bytes R.can_give
        (FileInputCanGive F.fails F.bytes R.can_give) (JobFile.File file.entry end) way.now inputs.old.items
        inputs.new.items) }
    ensures memory { IfErr result (λ fault. fault ≡ memory_fault) }
{
    'runs: for index in 0..way.runs.len() {
        let run = way.runs[index];
        inputs.push(InputFile {
            reader: FileInput::Extent(FramedExtent::of_run(file, way.size, run)),
            read_as: way.read_as,
            end: EndRule::Any,
        })?;
    }
    Ok(())
}

/// The fault of an input as the fault of its file. Its place is the offset in the file. A fault of the output gets the
/// number of files.
fn fault_of_file(ways: &[FileWay], fault: Fault) -> Fault
    ensures same { result ≡ fault_in_files 0 ways.now fault.input fault }
    ensures place { fault.place < 2 ^ 64 }
{
    let mut input = fault.input;
    'files: for file in 0..ways.len() {
        let runs = &ways[file].runs;
        if let Some(run) = runs.as_slice().get(input) {
            return Fault::at(file, run.offset_in_file(fault.place), fault.reason);
        }
        input = input.saturating_sub(runs.len());
    }
    Fault::at(ways.len(), fault.place, fault.reason)
}
