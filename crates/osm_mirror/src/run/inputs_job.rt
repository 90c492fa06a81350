//! The one job over open inputs, which the program runs.
ghost use Rattle.std.specs.Prelude.{◌≡◌, ◌⊎◌, false, IfOk, IfErr, OnOk};
ghost use Rattle.osm_files.specs.Change.{change_of};
ghost use Rattle.osm_merge.specs.Merged.{Grows};
ghost use Rattle.osm_mirror.specs.run.InputsJob.{IsInputsJob, RefusesInputsJob, KeepsOutput};

use crate::run::files_job::{FilesJob, run_files};
use crate::run::job_input::{JobInput, job_files, regular_files};
use crate::run::shard_job::{ShardJob, run_shard};
use osm_files::{CutBackOutput, Fault, Input, ReadAt};
use osm_merge::{Counts, Progress};
use std::alloc::Global;

/// A job over open inputs.
#[derive(Clone, Copy, Debug, PartialEq, Eq)]
pub enum InputsJob {
    /// The job that writes all of the output.
    Whole(FilesJob),
    /// The job for one of the output's shards. Each input has to be a regular file.
    Part(ShardJob),
}

/// Runs the job over the files of `inputs`, in their order. An input without a regular file is the next one of
/// `streams`. See [`run_files`] and [`run_shard`].
///
/// # Errors
///
/// Those of the job over these files, and `Failed` if the streams aren't those of the inputs.
pub fn run_inputs<N, F: ReadAt, R: Input + Drop, W: CutBackOutput, P: Progress>(
    alloc: Global,
    job: InputsJob,
    inputs: &[JobInput<N, F>],
    streams: Vec<R>,
    out: &mut W,
    progress: &mut P,
) -> Result<Counts, Fault>
    ensures written { IfOk result (IsInputsJob F.fails F.bytes R.can_give job inputs.now streams.items
        (change_of W.Output out.old out.new)) }
    ensures refused { IfErr result (RefusesInputsJob F.fails F.bytes R.can_give W.Output (W.can_cut out.old) job
        inputs.now streams.items out.old out.new) }
    ensures kept { KeepsOutput job ⊎ (W.can_cut out.old ≡ false) → Grows (change_of W.Output out.old out.new) }
    ensures good { OnOk result (W.failed out.new ≡ false) }
{
    match job {
        InputsJob::Whole(job) => {
            let files = job_files(alloc, inputs, streams)?;
            run_files(alloc, job, files, out, progress)
        }
        InputsJob::Part(job) => {
            let files = regular_files(alloc, inputs)?;
            run_shard(alloc, job, files.as_slice(), out, progress)
        }
    }
}

#[cfg(test)]
mod tests;
