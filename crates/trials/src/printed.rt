//! The lines in which results are printed.
use anyhow::Result;
use osm_files::{SliceIn, load_any};
use osm_model::{History, Version};
use std::alloc::Global;

/// The canonical line of a version, with its line end.
pub fn line_of(alloc: Global, version: &Version) -> Result<Vec<u8>> {
    let mut line = Vec::new(alloc);
    version.append_line(&mut line)?;
    line.push(b'\n')?;
    Ok(line)
}

/// The canonical lines of the versions of a history.
pub fn lines_of(alloc: Global, history: &History) -> Result<Vec<u8>> {
    let mut lines = Vec::new(alloc);
    for index in 0..history.len() {
        history.get(index).append_line(&mut lines)?;
        lines.push(b'\n')?;
    }
    Ok(lines)
}

/// The line `line`, with its line end and `bytes` after it.
pub fn printed(alloc: Global, line: &str, bytes: &[u8]) -> Result<Vec<u8>> {
    let mut printed = Vec::new(alloc);
    printed.extend_from_slice(line.as_bytes())?;
    printed.push(b'\n')?;
    printed.extend_from_slice(bytes)?;
    Ok(printed)
}

/// The history of a file.
pub fn history_of(alloc: Global, file: &[u8]) -> Result<History> {
    Ok(load_any(alloc, 0, SliceIn::new(file))?.history)
}
