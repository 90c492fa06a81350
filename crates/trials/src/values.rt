//! Calls that make versions and histories, and that select versions of a history.
use crate::given::Given;
use crate::printed::{history_of, line_of, lines_of, printed};
use anyhow::{Result, bail};
use osm_merge::{at, between, snapshot, visible};
use osm_model::{Body, History, Meta, Tag, Tags, Text, Version};
use std::alloc::Global;

/// The names of the calls of this module.
pub const CALLS: &[&str] = &[
    "Version::new",
    "Version::copy",
    "History::from_versions",
    "History::join",
    "History::copy",
    "compare_all",
    "snapshot",
    "visible",
    "at",
    "between",
];

/// The result of a call.
pub fn run_call(alloc: Global, call: &str, given: &Given) -> Result<Vec<u8>> {
    match call {
        "Version::new" => new_version(alloc, u64::from(given.time(0)?)),
        "Version::copy" => copy_version(alloc, given.file(0)?),
        "History::from_versions" => from_versions(alloc, given),
        "History::join" => join(alloc, given.file(0)?, given.file(1)?),
        "History::copy" => copy_history(alloc, given.file(0)?),
        "compare_all" => compare_all(alloc, u64::from(given.time(0)?), given.file(0)?),
        _ => select(alloc, call, given),
    }
}

/// The line of a new node with the time `time`.
fn new_version(alloc: Global, time: u64) -> Result<Vec<u8>> {
    let mut tags = Vec::new(alloc);
    tags.push(Tag {
        key: Text::from_str(alloc, "natural")?,
        value: Text::from_str(alloc, "tree")?,
    })?;
    let body = Body::Node {
        lon: 0,
        lat: 0,
        tags: Tags::from_vec(tags),
    };
    let meta = Meta {
        version: 1,
        time: Some(time),
        changeset: 1,
        uid: 1,
        user: Text::from_str(alloc, "a")?,
    };
    line_of(alloc, &Version::new(alloc, 1, meta, body)?)
}

/// The line of a copy of the first version of a file.
fn copy_version(alloc: Global, file: &[u8]) -> Result<Vec<u8>> {
    let history = history_of(alloc, file)?;
    if history.is_empty() {
        bail!("there is no version");
    }
    line_of(alloc, &history.get(0).copy()?)
}

/// The history that is made from the versions of all files, file by file.
fn from_versions(alloc: Global, given: &Given) -> Result<Vec<u8>> {
    let mut versions = Vec::new(alloc);
    for index in 0..given.count() {
        let history = history_of(alloc, given.file(index)?)?;
        for version in history.into_versions() {
            versions.push(version)?;
        }
    }
    lines_of(alloc, &History::from_versions(versions)?)
}

/// The union of two files. If the union is refused: why, and the histories of both files after that.
fn join(alloc: Global, left: &[u8], right: &[u8]) -> Result<Vec<u8>> {
    let left = history_of(alloc, left)?;
    let right = history_of(alloc, right)?;
    let outcome = left.join(&right);
    match outcome {
        Ok(union) => lines_of(alloc, &union),
        Err(refused) => {
            let mut lines = lines_of(alloc, &left)?;
            lines.extend_from_slice(&lines_of(alloc, &right)?)?;
            printed(alloc, format!(in alloc; "{refused}")?.as_str(), &lines)
        }
    }
}

/// A copy of a history. If the copy is refused: why, and the history after that.
fn copy_history(alloc: Global, file: &[u8]) -> Result<Vec<u8>> {
    let history = history_of(alloc, file)?;
    let outcome = history.copy();
    match outcome {
        Ok(copy) => lines_of(alloc, &copy),
        Err(refused) => {
            let lines = lines_of(alloc, &history)?;
            printed(alloc, format!(in alloc; "{refused}")?.as_str(), &lines)
        }
    }
}

/// Compares each version of a file with each, `rounds` times. Only reading the file takes memory, not comparing.
fn compare_all(alloc: Global, rounds: u64, file: &[u8]) -> Result<Vec<u8>> {
    let history = history_of(alloc, file)?;
    for _ in 0..rounds {
        if !is_ascending(&history) {
            bail!("a history does not ascend");
        }
    }
    printed(alloc, "compared", b"")
}

/// Whether each version is greater than those before it, equal to itself, and less than those after it.
fn is_ascending(history: &History) -> bool {
    for index in 0..history.len() {
        for other in 0..history.len() {
            if history.get(index).cmp(history.get(other)) != index.cmp(&other) {
                return false;
            }
        }
    }
    true
}

/// The lines of the selected versions of a file.
fn select(alloc: Global, call: &str, given: &Given) -> Result<Vec<u8>> {
    let history = history_of(alloc, given.file(0)?)?;
    let selected = match call {
        "snapshot" => snapshot(alloc, &history),
        "visible" => visible(alloc, &history),
        "at" => at(alloc, &history, given.time(0)?),
        _ => between(alloc, &history, given.time(0)?, given.time(1)?),
    };
    lines_of(alloc, &selected?)
}
