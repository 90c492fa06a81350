//! The results of calls as texts, for the tests. If memory runs out, the text is shorter and the test fails.
use crate::fault::Fault;
use crate::input::Input;
use crate::load::{Loaded, load_any};
use crate::source::{FileSource, Source};
use opl_line::write_line;
use osm_model::{History, Version};
use std::alloc::Global;

/// Appends a fault as a line.
pub(crate) fn push_fault(text: &mut String, fault: Fault) {
    let _ = writeln!(text, "{fault}");
}

/// Appends the line of a version.
pub(crate) fn push_version(alloc: Global, text: &mut String, version: &Version) {
    let Ok(line) = write_line(alloc, version) else {
        return;
    };
    if let Ok(line) = str::from_utf8(&line) {
        let _ = writeln!(text, "{line}");
    }
}

/// Appends the lines of the versions of a history.
fn push_history(alloc: Global, text: &mut String, history: &History) {
    for index in 0..history.len() {
        push_version(alloc, text, history.get(index));
    }
}

/// Appends the result of loading a file: the file's format, its order and its versions, or the fault.
pub(crate) fn push_loaded(alloc: Global, text: &mut String, outcome: Result<Loaded, Fault>) {
    match outcome {
        Err(fault) => push_fault(text, fault),
        Ok(loaded) => {
            let order = if loaded.sorted { "sorted" } else { "unsorted" };
            let _ = writeln!(text, "{} {order}", loaded.format.name());
            push_history(alloc, text, &loaded.history);
        }
    }
}

/// Appends the next result of a source: a version, `end` or a fault. Gives the version back to the source. Returns
/// whether the result was a version.
pub(crate) fn push_next<S: Source>(alloc: Global, text: &mut String, source: &mut S) -> bool {
    match source.next() {
        Ok(Some(version)) => {
            push_version(alloc, text, &version);
            source.reuse(version);
            true
        }
        Ok(None) => {
            let _ = text.push_str("end\n");
            false
        }
        Err(fault) => {
            push_fault(text, fault);
            false
        }
    }
}

/// Appends up to a hundred versions of a source and the result after them, and then the results of two more calls.
pub(crate) fn push_given<S: Source>(alloc: Global, text: &mut String, source: &mut S) {
    for _ in 0..100 {
        if !push_next(alloc, text, source) {
            break;
        }
    }
    push_next(alloc, text, source);
    push_next(alloc, text, source);
}

/// The result of loading the input `input`.
pub(crate) fn loaded_text<R: Input + Drop>(alloc: Global, input: usize, reader: R) -> String {
    let mut text = String::new(alloc);
    push_loaded(alloc, &mut text, load_any(alloc, input, reader));
    text
}

/// The versions of a new source of a file, or the fault of opening it.
pub(crate) fn given_text<R: Input + Drop>(
    alloc: Global,
    opened: Result<FileSource<R>, Fault>,
) -> String {
    let mut text = String::new(alloc);
    match opened {
        Err(fault) => push_fault(&mut text, fault),
        Ok(mut source) => push_given(alloc, &mut text, &mut source),
    }
    text
}
