//! The line about a job.
use super::{JobSummary, JobTally};
use crate::run::{Command, Order, ReadAs, files_as, run_selected};
use osm_files::{Fault, Format, SliceIn, VecOut};
use osm_merge::Selection;
use std::alloc::Global;

/// Two nodes of one key, a way that comes twice, and its deletion as another version of the same number.
const FILE: &[u8] = b"n1 v1 dV x1 y1\nn1 v1 dV x2 y1\nw1 v1 dV Nn1\nw1 v1 dV Nn1\nw1 v1 dD\n";

/// The line about a sort of the file.
fn line_of(alloc: Global) -> Result<String, Fault> {
    let mut inputs = Vec::new(alloc);
    inputs.push(SliceIn::new(FILE))?;
    let files = files_as(alloc, ReadAs::InOrder(Order::Sorted), inputs)?;
    let mut out = VecOut::new(alloc);
    let mut tally = JobTally::new();
    let counts = run_selected(
        alloc,
        Selection::All,
        files,
        Format::Opl,
        &mut out,
        &mut tally,
    )?;
    let summary = JobSummary {
        command: Command::Sort,
        inputs: 1,
        counts,
        tally,
        milliseconds: 12_345,
        output: "o\u{1b}",
    };
    Ok(format!(in alloc; "{summary}")?)
}

#[test]
fn runs_have_a_line(rt: HostRuntime) {
    let line =
        "osm_hist: sort: 1 inputs, 4 versions read, 4 written (2 nodes, 2 ways, 0 relations), \
        2 keys with several data, 1 clashing keys, 12.3 s, to o\\x1b";
    assert!(rt; line_of(rt.alloc()).is_ok_and(|found| found.as_str() == line));
}
