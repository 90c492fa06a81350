//! Calls that read files and write them, version by version.
use crate::device::{Buffer, OUTPUT_CAPACITY};
use crate::given::Given;
use crate::printed::{history_of, line_of, lines_of, printed};
use anyhow::{Result, bail};
use o5_codec::Encoder;
use osm_files::{Fault, FileSource, Format, Output, Sink, Source, ToWrite, load_any};
use osm_merge::Counts;
use osm_model::{History, Kind};
use std::alloc::Global;
use std::fmt::Display;

/// The names of the calls of this module.
pub const CALLS: &[&str] = &["load_any", "FileSource", "Sink", "write_set"];

/// The result of a call.
pub fn run_call(alloc: Global, call: &str, given: &Given) -> Result<Vec<u8>> {
    match call {
        "load_any" => load(alloc, given),
        "FileSource" => read(alloc, given),
        "write_set" => write_sets(alloc, given.file(0)?),
        _ => write(alloc, given),
    }
}

/// The format of a file, whether it is sorted, and its versions.
fn load(alloc: Global, given: &Given) -> Result<Vec<u8>> {
    let loaded = load_any(alloc, 0, given.reader(0)?)?;
    let order = if loaded.sorted { "sorted" } else { "unsorted" };
    let line = format!(in alloc; "{}, {order}", loaded.format.name())?;
    printed(alloc, line.as_str(), &lines_of(alloc, &loaded.history)?)
}

/// The most calls of a source. The file of a trial has fewer versions.
const TURNS: usize = 100;

/// The versions of a source, and its end.
fn read(alloc: Global, given: &Given) -> Result<Vec<u8>> {
    let mut source = FileSource::new(alloc, 0, given.reader(0)?)?;
    let mut lines = Vec::new(alloc);
    for _ in 0..TURNS {
        let given = source.next();
        match given {
            Ok(Some(version)) => lines.extend_from_slice(&line_of(alloc, &version)?)?,
            Ok(None) => return printed(alloc, "whole", &lines),
            Err(fault) => return refused(alloc, fault, source.next().err(), &lines),
        }
    }
    bail!("a source has no end")
}

/// Why a call was refused, why the next one was refused, and the bytes that were there before.
fn refused<E: Display + Drop>(
    alloc: Global,
    fault: E,
    then: Option<E>,
    bytes: &[u8],
) -> Result<Vec<u8>> {
    let Some(then) = then else {
        bail!("a call goes on that was refused");
    };
    let line = format!(in alloc; "{fault}, then {then}")?;
    printed(alloc, line.as_str(), bytes)
}

/// The data sets of a file. If one is refused: why, why the encoder's next call is refused, and those before.
fn write_sets(alloc: Global, file: &[u8]) -> Result<Vec<u8>> {
    let history = history_of(alloc, file)?;
    let mut encoder = Encoder::new(alloc)?;
    let mut sets = Vec::new(alloc);
    let mut last = Kind::Node;
    for index in 0..history.len() {
        let version = history.get(index);
        if version.kind().index() < last.index() {
            bail!("the kinds fall");
        }
        match encoder.write_set(version) {
            Ok(set) => sets.extend_from_slice(&set)?,
            Err(fault) => {
                return refused(alloc, fault, encoder.write_set(version).err(), &sets);
            }
        }
        last = version.kind();
    }
    Ok(sets)
}

/// The output of a sink for the first version of a file, and the fault of the sink, if there is one.
fn write(alloc: Global, given: &Given) -> Result<Vec<u8>> {
    let history = history_of(alloc, given.file(0)?)?;
    let (format, pace) = given.output()?;
    let mut taken = Vec::with_capacity(alloc, OUTPUT_CAPACITY)?;
    let mut out = ToWrite::new(Buffer::new(&mut taken, pace));
    match put_first(alloc, format, &history, &mut out) {
        Ok(()) => printed(alloc, "written", &taken),
        Err(fault) => printed(alloc, format!(in alloc; "{fault}")?.as_str(), &taken),
    }
}

/// Writes the file of the first version of a history, or of no version if the history is empty.
fn put_first<W: Output>(
    alloc: Global,
    format: Format,
    history: &History,
    out: &mut W,
) -> Result<(), Fault> {
    let mut sink = Sink::new(alloc, format, 0)?;
    sink.begin(out)?;
    if !history.is_empty() {
        sink.put(out, history.get(0))?;
    }
    sink.end(out)
}

/// The counts of a run, or why the run was refused, and then its output.
pub fn outcome_text(
    alloc: Global,
    outcome: Result<Counts, Fault>,
    taken: &[u8],
) -> Result<Vec<u8>> {
    match outcome {
        Ok(counts) => {
            let line = format!(in alloc; "read {}, written {}", counts.read, counts.written)?;
            printed(alloc, line.as_str(), taken)
        }
        Err(fault) => printed(alloc, format!(in alloc; "{fault}")?.as_str(), taken),
    }
}
