//! Jobs over files that were cut.
use crate::run::files_job::{FilesJob, JobFile, Order, run_files};
use crate::run::shard::Shard;
use crate::run::shard_job::{ShardJob, run_shard};
use osm_files::{EndRule, Fault, Format, SliceIn, VecOut};
use osm_merge::{Counts, NoProgress, Selection};
use std::alloc::Global;

/// A node.
const GOOD: &[u8] = b"n7 v1 dD\n";

/// A job's result, and the number of bytes that it wrote.
fn text_of(alloc: Global, outcome: Result<Counts, Fault>, out: VecOut) -> String {
    let mut text = String::new(alloc);
    let bytes = out.into_vec();
    let _ = match outcome {
        Ok(_) => write!(text, "{} bytes", bytes.len()),
        Err(fault) => write!(
            text,
            "{}, {}: {}, {} bytes",
            fault.input,
            fault.place,
            fault.reason.name(),
            bytes.len()
        ),
    };
    text
}

/// The files of a job: a good one and another one, which may be a stream. They have to end as `end` requires.
fn files_of<'f>(
    alloc: Global,
    files: &'f [&'f [u8]],
    end: EndRule,
    is_stream: bool,
) -> Vec<JobFile<'f, &'f [u8], SliceIn<'f>>> {
    let mut inputs = Vec::new(alloc);
    for (index, file) in files.iter().enumerate() {
        let input = if is_stream && index > 0 {
            JobFile::Stream(SliceIn::new(*file), end)
        } else {
            JobFile::File(file, end)
        };
        let _ = inputs.push(input);
    }
    inputs
}

/// A job over two files, which have to end as `end` requires.
fn job_text(alloc: Global, order: Order, end: EndRule, files: &[&[u8]], is_stream: bool) -> String {
    let run = FilesJob {
        selection: Selection::All,
        order,
        tries_largest: true,
        format: Format::Opl,
    };
    let inputs = files_of(alloc, files, end, is_stream);
    let mut out = VecOut::new(alloc);
    let outcome = run_files(alloc, run, inputs, &mut out, &mut NoProgress);
    text_of(alloc, outcome, out)
}

/// The job for the first of two shards of `file`.
fn shard_text(alloc: Global, end: EndRule, file: &[u8]) -> String {
    let Some(shard) = Shard::new(1, 2) else {
        return String::new(alloc);
    };
    let run = ShardJob {
        shard,
        selection: Selection::All,
        format: Format::Opl,
        end,
    };
    let mut out = VecOut::new(alloc);
    let outcome = run_shard(alloc, run, &[&file], &mut out, &mut NoProgress);
    text_of(alloc, outcome, out)
}

#[test]
fn cut_files_are_refused(rt: HostRuntime) {
    for (order, end, file, is_stream, text) in [
        (
            Order::Sorted,
            EndRule::Any,
            b"n8 v1 dD".as_slice(),
            false,
            "50 bytes",
        ),
        (
            Order::Sorted,
            EndRule::LineFeed,
            b"n8 v1 dD",
            false,
            "1, 8: NoEnd, 0 bytes",
        ),
        (
            Order::Any,
            EndRule::LineFeed,
            b"n8 v1 dD",
            false,
            "1, 8: NoEnd, 0 bytes",
        ),
        (Order::Any, EndRule::Mark, b"n8 v1 dD\n", false, "50 bytes"),
        (
            Order::Any,
            EndRule::LineFeed,
            b"n8 v1\n#",
            false,
            "1, 0: NoLocation, 0 bytes",
        ),
        (
            Order::Sorted,
            EndRule::LineFeed,
            b"n8 v1 dD\nn7 v1 dD\n#",
            false,
            "1, 9: Unsorted, 0 bytes",
        ),
        (
            Order::Any,
            EndRule::LineFeed,
            b"n8 v1 dD\nn7 v1 dD\n#",
            false,
            "1, 19: NoEnd, 0 bytes",
        ),
        (
            Order::Any,
            EndRule::Mark,
            b"n8 v1 dD\n",
            true,
            "1, 9: NoEnd, 0 bytes",
        ),
    ] {
        assert_eq!(rt;
            job_text(rt.alloc(), order, end, &[GOOD, file], is_stream).as_str(),
            text
        );
    }
}

#[test]
fn all_shards_of_a_cut_file_are_refused(rt: HostRuntime) {
    for (end, file, text) in [
        (EndRule::Any, b"#".as_slice(), "0 bytes"),
        (EndRule::LineFeed, b"#", "0, 1: NoEnd, 0 bytes"),
        (EndRule::LineFeed, b"", "0 bytes"),
    ] {
        assert_eq!(rt; shard_text(rt.alloc(), end, file).as_str(), text);
    }
}
