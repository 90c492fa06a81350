//! A look at a few versions of an OPL file. It shows that some files aren't sorted before they are read, and decides
//! only in which way a file is read.
use osm_files::{FileSource, ReadAt, SliceIn, Source};
use osm_model::Object;
use std::alloc::Global;

/// The number of offsets at which a file is looked at.
const PROBES: u64 = 64;

/// The number of bytes that are read at each of them.
const PROBE_SIZE: usize = 4096;

/// The size of the smallest file that is looked at. A smaller one is read twice in less than a tenth of a second.
const LEAST_SIZE: u64 = 1 << 24;

/// Whether the file isn't sorted by what the probes show: the object found at one offset is below the one found before.
/// A file that can't be read, or that isn't OPL, shows nothing.
pub(crate) fn descends<F: ReadAt>(alloc: Global, file: &F) -> bool {
    let size = file.size().unwrap_or(0);
    if size < LEAST_SIZE {
        return false;
    }
    let mut last: Option<Object> = None;
    for index in 0..PROBES {
        if let Some(object) = object_near(alloc, file, size / PROBES * index) {
            if last.is_some_and(|last| object.order(&last).is_lt()) {
                return true;
            }
            last = Some(object);
        }
    }
    false
}

/// The object of the first version after the line at `offset`; `None` if none is found in a few bytes.
fn object_near<F: ReadAt>(alloc: Global, file: &F, offset: u64) -> Option<Object> {
    let mut buffer = [0u8; PROBE_SIZE];
    let count = file.read_at(&mut buffer, offset).ok()?;
    let bytes = &buffer[..count];
    let end = bytes.iter().position(|byte| *byte == b'\n')?;
    let mut source = FileSource::new(alloc, 0, SliceIn::new(&bytes[end..])).ok()?;
    let version = source.next().ok()?;
    version.map(|version| Object::of(&version))
}

#[cfg(test)]
mod tests;
