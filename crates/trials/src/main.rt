//! Makes one call of the libraries in each run, for tests in which memory is refused or devices fail.
//!
//! The arguments are a call, such as `load_any`, and the arguments of the call. A file is given as `@NAME`, as
//! `@NAME:STEP` if a read gives at most STEP bytes, or as `@NAME:STEP:END` if the file fails after END bytes. The
//! program prints the result of the call.
//!
//! Without arguments the program prints the names of the calls, one on each line.
#![tactic(auto)]

use crate::given::Given;
use anyhow::{Result, bail};
use std::alloc::Global;
use std::env;
use std::io::Write;

mod device;
mod given;
mod jobs;
mod mirrors;
mod printed;
mod streams;
mod values;

/// The names of the calls, module by module.
const GROUPS: [&[&str]; 4] = [values::CALLS, streams::CALLS, mirrors::CALLS, jobs::CALLS];

fn main(rt: HostRuntime) -> Result<()> {
    let words: Vec<String> = env::args(&rt)?.skip(1).collect(rt.alloc())?;
    let output = match words.as_slice() {
        [] => names(rt.alloc())?,
        [call, words @ ..] => run_call(rt.alloc(), call.as_str(), &Given::read(&rt, words)?)?,
    };
    rt.stdout().write_all(&output)?;
    Ok(())
}

/// The result of a call.
fn run_call(alloc: Global, call: &str, given: &Given) -> Result<Vec<u8>> {
    if values::CALLS.contains(&call) {
        return values::run_call(alloc, call, given);
    }
    if streams::CALLS.contains(&call) {
        return streams::run_call(alloc, call, given);
    }
    if mirrors::CALLS.contains(&call) {
        return mirrors::run_call(alloc, call, given);
    }
    if jobs::CALLS.contains(&call) {
        return jobs::run_call(alloc, call, given);
    }
    bail!("there is no such call")
}

/// The names of the calls, one on each line.
fn names(alloc: Global) -> Result<Vec<u8>> {
    let mut names = Vec::new(alloc);
    for calls in GROUPS {
        for call in calls {
            names.extend_from_slice(call.as_bytes())?;
            names.push(b'\n')?;
        }
    }
    Ok(names)
}
