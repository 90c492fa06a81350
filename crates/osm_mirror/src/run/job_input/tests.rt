//! The files of a job over open inputs.
use super::{JobInput, job_files, regular_files};
use crate::run::files_job::JobFile;
use osm_files::{EndRule, Fault};
use std::alloc::Global;

/// An open input with a regular file, or without one.
fn input(regular: Option<u8>) -> JobInput<(), u8> {
    JobInput {
        note: (),
        regular,
        end: EndRule::Any,
    }
}

/// The files of a job over these inputs, as numbers: a regular file as it is, a stream plus 100.
fn numbers(alloc: Global, regular: &[Option<u8>], streams: &[u8]) -> Result<Vec<u8>, Fault> {
    let mut inputs = Vec::new(alloc);
    for file in regular {
        inputs.push(input(*file))?;
    }
    let streams = Vec::from_slice(alloc, streams)?;
    let mut numbers = Vec::new(alloc);
    for file in &job_files(alloc, inputs.as_slice(), streams)? {
        numbers.push(match file {
            JobFile::File(number, _) => **number,
            JobFile::Stream(number, _) => number.saturating_add(100),
        })?;
    }
    Ok(numbers)
}

#[test]
fn each_input_has_its_file(rt: HostRuntime) {
    let regular = [Some(1), None, Some(2), None];
    let files = numbers(rt.alloc(), regular.as_slice(), &[3, 4]);
    assert!(rt; files.is_ok_and(|files| files.as_slice() == [1, 103, 2, 104].as_slice()));
}

#[test]
fn streams_are_all_taken(rt: HostRuntime) {
    let one = [Some(1), None];
    assert!(rt; numbers(rt.alloc(), one.as_slice(), &[]).err() == Some(Fault::failed(1)));
    assert!(rt; numbers(rt.alloc(), one.as_slice(), &[2, 3]).err() == Some(Fault::failed(2)));
}

#[test]
fn regular_files_are_all_inputs(rt: HostRuntime) {
    let alloc = rt.alloc();
    let inputs = [input(Some(5)), input(Some(6))];
    let files = regular_files(alloc, inputs.as_slice());
    assert!(rt; files.is_ok_and(|files| files.len() == 2 && *files[0] == 5 && *files[1] == 6));
    let inputs = [input(Some(5)), input(None)];
    assert!(rt; regular_files(alloc, inputs.as_slice()).err() == Some(Fault::failed(1)));
}
