//! Calls of the jobs over whole files.
use crate::device::{Buffer, OUTPUT_CAPACITY, Pieces};
use crate::given::{Given, PacedFile};
use crate::streams::outcome_text;
use anyhow::{Result, bail};
use osm_files::{CutBackOutput, EndRule, Fault, Format, FromRead, Output, ToWrite};
use osm_merge::{Counts, NoProgress, Selection};
use osm_mirror::{
    FilesJob, JobFile, Order, Shard, ShardJob, run_apply, run_files, run_merge, run_shard, run_sort,
};
use std::alloc::Global;

/// The names of the calls of this module. The files of `run_files` may have any order. Those of `run_streams` are
/// streams, which end with the mark.
pub const CALLS: &[&str] = &[
    "run_merge",
    "run_apply",
    "run_sort",
    "run_files",
    "run_files_sorted",
    "run_streams",
    "run_shard",
];

/// The files of a job.
type Files<'f, 'a> = Vec<JobFile<'f, PacedFile<'a>, FromRead<Pieces<'a>>>>;

/// The result of a call, and its output.
pub fn run_call(alloc: Global, call: &str, given: &Given) -> Result<Vec<u8>> {
    let (format, pace) = given.output()?;
    let mut taken = Vec::with_capacity(alloc, OUTPUT_CAPACITY)?;
    let mut out = ToWrite::new(Buffer::new(&mut taken, pace));
    let outcome = match call {
        "run_shard" => write_shard(alloc, given, format, &mut out)?,
        "run_files" | "run_files_sorted" | "run_streams" => {
            write_files(alloc, call, given, format, &mut out)?
        }
        _ => combine(alloc, call, given, format, &mut out)?,
    };
    outcome_text(alloc, outcome, &taken)
}

/// Runs a call that reads several files.
fn combine<W: Output>(
    alloc: Global,
    call: &str,
    given: &Given,
    format: Format,
    out: &mut W,
) -> Result<Result<Counts, Fault>> {
    let inputs = given.readers(alloc)?;
    Ok(match call {
        "run_merge" => run_merge(alloc, inputs, format, out),
        "run_apply" => run_apply(alloc, inputs, false, format, out),
        _ => run_sort(alloc, inputs, format, out),
    })
}

/// Runs `run_files` over files that are read at offsets, or over streams.
fn write_files<W: CutBackOutput>(
    alloc: Global,
    call: &str,
    given: &Given,
    format: Format,
    out: &mut W,
) -> Result<Result<Counts, Fault>> {
    let opened = given.paced_files(alloc)?;
    let mut files: Files<'_, '_> = Vec::new(alloc);
    if call == "run_streams" {
        for reader in given.readers(alloc)? {
            files.push(JobFile::Stream(reader, EndRule::Mark))?;
        }
    } else {
        for file in &opened {
            files.push(JobFile::File(file, EndRule::Any))?;
        }
    }
    let job = FilesJob {
        selection: Selection::All,
        order: if call == "run_files_sorted" {
            Order::Sorted
        } else {
            Order::Any
        },
        tries_largest: true,
        format,
    };
    Ok(run_files(alloc, job, files, out, &mut NoProgress))
}

/// Runs `run_shard` for the shard that the second word spells.
fn write_shard<W: Output>(
    alloc: Global,
    given: &Given,
    format: Format,
    out: &mut W,
) -> Result<Result<Counts, Fault>> {
    let Some(shard) = Shard::read(given.word(1)?) else {
        bail!("there is no such shard");
    };
    let job = ShardJob {
        shard,
        selection: Selection::All,
        format,
        end: EndRule::Any,
    };
    let opened = given.paced_files(alloc)?;
    let mut files = Vec::new(alloc);
    for file in &opened {
        files.push(file)?;
    }
    Ok(run_shard(alloc, job, files.as_slice(), out, &mut NoProgress))
}
