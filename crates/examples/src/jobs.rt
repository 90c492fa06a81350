//! Callers of the jobs that the program's commands run.
ghost use Rattle.std.specs.Prelude.{◌≡◌, ◌++◌, List, map, IfOk, IfSome};
ghost use Rattle.osm_model.specs.VersionSet.{VersionSet};
ghost use Rattle.osm_model.specs.Pairwise.{Pairwise};
ghost use Rattle.osm_files.specs.Held.{Holds, HoldsSorted};
ghost use Rattle.osm_files.specs.Recorded.{all_bytes};
ghost use Rattle.osm_files.specs.Spell.{spell};
ghost use Rattle.osm_files.specs.declared.format.Format.TheVariants as format;
ghost use Rattle.osm_merge.specs.Selected.{selection_of};
ghost use Rattle.osm_merge.specs.declared.selection.Selection.TheVariants as selection;
ghost use Rattle.osm_mirror.specs.run.Job.{union_of};
ghost use Rattle.osm_mirror.specs.run.ShardJob.{shard_set};

use osm_files::{EndRule, Fault, Format, Recorded, SliceIn, VecOut};
use osm_mirror::{
    FilesJob, InputsJob, JobInput, NoProgress, Order, Selection, Shard, ShardJob, run_inputs,
    run_shard,
};
use std::alloc::Global;

/// The map of files whose versions may have any order, as OPL: the newest version of each object that isn't deleted.
///
/// The files are read at offsets, as the program reads regular files. Each file is the results of its reads: the bytes
/// that they returned, in whatever pieces, and their failures. If the call returns `Ok`, the bytes of each file are a
/// file of its grammar, and the map is the one spelling of what they hold together.
///
/// # Errors
///
/// The first fault of a file, by its index in the list; of the output, by the length of the list; or `Memory`. `Failed`
/// if an input has no regular file.
pub fn map_of_reads(alloc: Global, inputs: &[JobInput<(), Recorded<'_>>]) -> Result<Vec<u8>, Fault>
    ensures { IfOk result (λ file. (held : List VersionSet)
        × Pairwise (λ input set. IfSome input.regular (λ reads. Holds (reads.front ++ all_bytes reads.results) set))
        inputs.now held
        × (file.items ≡ spell format.Opl (selection_of selection.NewestVisible (union_of held)))) }
{
    let job = InputsJob::Whole(FilesJob {
        selection: Selection::NewestVisible,
        order: Order::Any,
        tries_largest: true,
        format: Format::Opl,
    });
    let streams: Vec<SliceIn<'_>> = Vec::new(alloc);
    let mut output = VecOut::new(alloc);
    run_inputs(alloc, job, inputs, streams, &mut output, &mut NoProgress)?;
    Ok(output.into_vec())
}

/// What the shard `shard` has of the map of sorted files in memory, as OPL. The jobs of all shards find the same
/// bounds, each by itself.
///
/// # Errors
///
/// The first fault of a file, by its index in the list; of the output, by the length of the list; or `Memory`.
pub fn part_of_map(alloc: Global, shard: Shard, files: &[&&[u8]]) -> Result<Vec<u8>, Fault>
    ensures { IfOk result (λ part. (held : List VersionSet)
        → Pairwise HoldsSorted (map (λ file. file.now.now) files.now) held
        → part.items ≡ spell format.Opl (shard_set selection.NewestVisible shard.number shard.count
        (map (λ file. file.now.now) files.now) held)) }
{
    let job = ShardJob {
        shard,
        selection: Selection::NewestVisible,
        format: Format::Opl,
        end: EndRule::Any,
    };
    let mut output = VecOut::new(alloc);
    run_shard(alloc, job, files, &mut output, &mut NoProgress)?;
    Ok(output.into_vec())
}
