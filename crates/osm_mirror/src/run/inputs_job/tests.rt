//! Jobs over open inputs: a regular file, and another one or a stream.
use super::{InputsJob, run_inputs};
use crate::run::files_job::{FilesJob, Order};
use crate::run::job_input::JobInput;
use crate::run::shard::Shard;
use crate::run::shard_job::ShardJob;
use osm_files::{EndRule, Format, SliceIn, VecOut};
use osm_merge::{NoProgress, Selection};
use std::alloc::Global;

const FIRST: &[u8] = b"n1 v1 dD\nn2 v1 dD\n";

const SECOND: &[u8] = b"n3 v1 dD\nn4 v1 dD\n";

/// The job for a shard, or for all of the output.
fn job(shard: Option<Shard>) -> InputsJob {
    let (selection, format, end) = (Selection::All, Format::Opl, EndRule::Any);
    match shard {
        Some(shard) => InputsJob::Part(ShardJob {
            shard,
            selection,
            format,
            end,
        }),
        None => InputsJob::Whole(FilesJob {
            selection,
            order: Order::Sorted,
            tries_largest: false,
            format,
        }),
    }
}

/// The objects that a job writes of `FIRST` and then of `SECOND`, which may be a stream; or its fault.
fn outcome(alloc: Global, shard: Option<Shard>, has_stream: bool) -> String {
    let (end, mut streams, mut out) = (EndRule::Any, Vec::new(alloc), VecOut::new(alloc));
    let regular = Some(SECOND).filter(|_| !has_stream);
    if has_stream {
        let _ = streams.push(SliceIn::new(SECOND));
    }
    let inputs = [(Some(FIRST), 1), (regular, 2)].map(|(regular, note)| JobInput {
        note,
        regular,
        end,
    });
    let mut text = String::new(alloc);
    match run_inputs(
        alloc,
        job(shard),
        &inputs,
        streams,
        &mut out,
        &mut NoProgress,
    ) {
        Ok(_) => {
            let written = out.into_vec();
            for line in str::from_utf8(written.as_slice()).unwrap_or("").lines() {
                let _ = text.push_str(line.split(' ').next().unwrap_or(""));
            }
        }
        Err(fault) => {
            let _ = write!(text, "{fault}");
        }
    }
    text
}

#[test]
fn jobs_read_their_inputs(rt: HostRuntime) {
    for (shard, has_stream, text) in [
        (None, false, "n1n2n3n4"),
        (None, true, "n1n2n3n4"),
        (Shard::new(2, 2), false, "n3n4"),
        (Shard::new(2, 2), true, "file 1, byte 0: Failed"),
    ] {
        assert_eq!(rt; outcome(rt.alloc(), shard, has_stream).as_str(), text);
    }
}
