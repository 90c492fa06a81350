//! The one job over files, which writes the selection of the union of their sets as one file. Its modules are its
//! inputs, the jobs of the commands and of shards, and the check of a file.
ghost use Rattle.std.specs.Prelude.{IfOk, IfErr, OnOk};
ghost use Rattle.osm_files.specs.Output.{IsGoodThroughout};
ghost use Rattle.osm_files.specs.Change.{change_of};
ghost use Rattle.osm_merge.specs.Giving.{SomeInputsGive};
ghost use Rattle.osm_merge.specs.Merged.{Grows};
ghost use Rattle.osm_mirror.specs.run.Given.{InputFileCanGive};
ghost use Rattle.osm_mirror.specs.run.SelectedJob.{IsJob, RefusesJob};

mod any_order;
mod bounds;
mod check;
mod cut;
mod file_end;
mod file_way;
mod files_job;
mod files_turn;
mod first_fault;
mod input;
mod inputs_job;
mod job_input;
mod lines_from;
mod merge;
mod metered;
mod names;
mod out_part;
mod probe;
mod request;
mod retried;
mod shard;
mod shard_extent;
mod shard_job;
mod source;
mod tally;
mod tally_file;

use crate::run::source::open_inputs;
pub use any_order::{run_apply, run_period_filter, run_sort, run_time_filter};
pub use check::{CheckReport, Checked, run_check, run_check_sorted, run_tally, run_tally_sorted};
pub use cut::cut_offset;
pub use files_job::{FilesJob, JobFile, Order, run_files};
pub(crate) use input::files_as;
pub use input::{InputFile, ReadAs};
pub use inputs_job::{InputsJob, run_inputs};
pub use job_input::JobInput;
pub use merge::run_merge;
pub use metered::{Metered, Watch};
pub use names::{NamesFault, read_names};
use osm_files::{Fault, Format, Input, Output, Sink};
use osm_merge::{Counts, Progress, Selection, merge_selected};
pub use out_part::{Place, folder_of, is_part, last_of, part_name};
pub use request::{Command, FileRequest, RequestFault, read_moment};
pub use retried::{read_retried, write_retried};
pub use shard::{Shard, is_opl};
pub use shard_job::{ShardJob, run_shard};
use std::alloc::Global;
pub use tally::Tally;
pub use tally_file::run_tally_file;

/// Appends the one file of the format `format` that holds the selection of the versions of all inputs, each once.
///
/// If it returns `Ok`, every input is a file of its grammar, and sorted if it is read as `Sorted`. The bytes written
/// are the one spelling of the selection of the union of the inputs' versions. Of an input that is read as `Within`
/// only the versions within its span count; a whole file is read only up to the span's upper bound.
///
/// Each input of any order is read to its end before anything is written. The others are read in parallel, one key at a
/// time. `progress` observes the job, and changes nothing.
///
/// # Errors
///
/// The inputs are numbered from 0, and the number of the output is the number of inputs. If an input can't be read, or
/// isn't sorted though it isn't read as `Any`, the fault has its number, the reason and the offset. A version outside
/// of a span whose rule is `Refused` is `Unsorted`, at the offset 0. If several inputs are faulty, it is the fault of
/// one of them. `WriteFault` if the output failed, `TooLong` if a file has 2^62 bytes or more, `Memory` if memory ran
/// out. If an input of any order is refused, nothing was written. Otherwise the bytes that were written are a front of
/// the file.
pub fn run_selected<R: Input + Drop, W: Output, P: Progress>(
    alloc: Global,
    selection: Selection,
    inputs: Vec<InputFile<R>>,
    format: Format,
    out: &mut W,
    progress: &mut P,
) -> Result<Counts, Fault>
    ensures written { IfOk result (λ counts. SomeInputsGive (InputFileCanGive R.can_give) inputs.items (λ all.
        IsJob selection all format (change_of W.Output out.old out.new) counts)) }
    ensures refused { IfErr result (λ fault. SomeInputsGive (InputFileCanGive R.can_give) inputs.items (λ all.
        RefusesJob W.Output selection all format out.old out.new fault)) }
    ensures kept { Grows (change_of W.Output out.old out.new) }
    ensures good { OnOk result (IsGoodThroughout (change_of W.Output out.old out.new)) }
{
    let output = inputs.len();
    let sources = open_inputs(alloc, inputs)?;
    let mut sink = Sink::new(alloc, format, output)?;
    merge_selected(alloc, selection, sources, &mut sink, out, progress)
}
