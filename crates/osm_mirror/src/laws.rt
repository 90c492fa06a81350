//! Laws of merges, fleets, plans, files that are split, and inputs that report their bytes. Each is the `ensures`
//! clause of a function with an empty body, which runs no code.
//!
//! The contracts of the jobs are about some bytes that the inputs can give. By the last five laws they are about the
//! bytes that the inputs report beforehand.
ghost use Rattle.osm_mirror.specs.fleet.FleetLaws.{LatestMirrorsAgree, FullMirrorsAgree};
ghost use Rattle.osm_mirror.specs.fleet.Merges.{MergesOfTheSameFiles};
ghost use Rattle.osm_mirror.specs.fleet.PlanLaws.{OnePlan, FaultySpellsNothing};
ghost use Rattle.osm_mirror.specs.run.KnownInputs.{KnownIsGiven, MergesOfKnown, JobsOfKnown};
ghost use Rattle.osm_mirror.specs.run.KnownInputs.{MergesWriteASet, JobsWriteASet};
ghost use Rattle.osm_mirror.specs.run.KnownInputs.{RefusedMergesHaveBegun, RefusedJobsHaveBegun};
ghost use Rattle.osm_mirror.specs.run.ShardJob.{ShardJobsWriteTheJob};
ghost use Rattle.osm_mirror.specs.run.Shards.{ExtentsHoldTheFile, ShardsWriteTheJob};
ghost use Rattle.osm_mirror.specs.run.ShardsRead.{ShardsReadSortedFiles};
ghost use Rattle.osm_mirror.specs.run.Slices.{SlicesHoldTheFile, SlicesWriteTheJob};
ghost use Rattle.osm_mirror.specs.run.SortedRuns.{SortedRunsHoldTheFile, SortedRunsWriteTheFile};

use osm_files::{Input, Output};

/// Merges of the same files write the same bytes, for any order of the files, any grouping of the merges, any formats,
/// and any number of repetitions.
pub fn merges_of_the_same_files()
    ensures { MergesOfTheSameFiles }
{}

/// If the same files reached two latest mirrors of a new fleet, through any kinds of mirrors, the two hold the same
/// history, and write the same bytes in each format.
pub fn latest_mirrors_agree()
    ensures { LatestMirrorsAgree }
{}

/// If the same files reached two full mirrors of a new fleet, through full mirrors only, the two hold the same history,
/// and write the same bytes in each format.
pub fn full_mirrors_agree()
    ensures { FullMirrorsAgree }
{}

/// A file that is split after lines or at resets into files holds the union of their sets.
pub fn sorted_runs_hold_the_file()
    ensures { SortedRunsHoldTheFile }
{}

/// A job over a file in any order writes the same bytes as a job over the files into which that file is split.
pub fn sorted_runs_write_the_file()
    ensures { SortedRunsWriteTheFile }
{}

/// If a file is split at objects into sorted files, each within its span, the file is sorted, and each of the sorted
/// files holds its slice.
pub fn slices_hold_the_file()
    ensures { SlicesHoldTheFile }
{}

/// The jobs over the slices of the inputs' sets, one job for each span, write the same bytes as one job over the
/// inputs.
pub fn slices_write_the_job()
    ensures { SlicesWriteTheJob }
{}

/// If the extents of an OPL file between offsets are sorted files, each within its span, the file is sorted, and each
/// extent holds its slice.
pub fn extents_hold_the_file()
    ensures { ExtentsHoldTheFile }
{}

/// The jobs over the slices of several files, one job for each span, write the same bytes as one job over the files.
pub fn shards_write_the_job()
    ensures { ShardsWriteTheJob }
{}

/// A text spells at most one plan.
pub fn one_plan()
    ensures { OnePlan }
{}

/// A text that has a fault spells no plan.
pub fn faulty_spells_nothing()
    ensures { FaultySpellsNothing }
{}

/// The jobs for all shards of an output write, in sequence, the same bytes as one job over the files.
pub fn shard_jobs_write_the_job()
    ensures { ShardJobsWriteTheJob }
{}

/// If the jobs for all shards of an output succeed over the same files, each of these files is sorted. A job shows
/// this of what it reads, by the clause `read` of [`run_shard`](crate::run_shard).
pub fn shards_read_sorted_files()
    ensures { ShardsReadSortedFiles }
{}

/// Inputs that report their bytes can give nothing else. So a property of some bytes that they can give is a property
/// of the bytes that they report.
pub fn known_is_given<R: Input>(inputs: &[R])
    ensures { KnownIsGiven R.can_give inputs.now }
{}

/// The clauses `merged` and `refused` of [`run_merge`](crate::run_merge) hold of the bytes that the inputs report. If
/// the merge succeeds, each input that reports its bytes is a sorted file.
pub fn merges_of_known<R: Input, W: Output>(_inputs: &[R], _out: &W)
    ensures { MergesOfKnown R.can_give W.Output }
{}

/// The clauses `written` and `refused` of [`run_selected`](crate::run_selected) hold of the bytes that the inputs
/// report. If the job succeeds, each input that reports its bytes is a file, and sorted if it is read as `Sorted`.
pub fn jobs_of_known<R: Input, W: Output>(_inputs: &[R], _out: &W)
    ensures { JobsOfKnown R.can_give W.Output }
{}

/// A merge that succeeds, or a job, wrote the file of a set, whatever its inputs report.
pub fn jobs_write_a_set<W: Output>(_out: &W)
    ensures merges { MergesWriteASet W.Output }
    ensures jobs { JobsWriteASet W.Output }
{}

/// A merge that is refused, or a job, wrote a front of the file that it would have written.
pub fn refused_jobs_have_begun<W: Output>(_out: &W)
    ensures merges { RefusedMergesHaveBegun W.Output }
    ensures jobs { RefusedJobsHaveBegun W.Output }
{}
