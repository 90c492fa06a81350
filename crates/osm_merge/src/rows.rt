//! Versions as lines, for the tests, and histories of them.
use osm_files::{Format, SliceIn, VecOut, load_any, write_history};
use osm_model::{History, Memory};
use std::alloc::Global;

/// A node that came after 10 seconds.
pub const CAME_AT_10: &[u8] = b"n1 v1 dV c0 t1970-01-01T00:00:10Z i0 u T x1 y1\n";

/// The node, moved after 20 seconds.
pub const MOVED_AT_20: &[u8] = b"n1 v2 dV c0 t1970-01-01T00:00:20Z i0 u T x2 y1\n";

/// The deletion of the node, after 30 seconds.
pub const DELETED_AT_30: &[u8] = b"n1 v3 dD c0 t1970-01-01T00:00:30Z i0 u T x y\n";

/// The deletion of the first version of the node, after 5 seconds.
pub const DELETED_AT_5: &[u8] = b"n1 v1 dD c0 t1970-01-01T00:00:05Z i0 u T x y\n";

/// The deletion of the first version of the node, after 20 seconds.
pub const DELETED_AT_20: &[u8] = b"n1 v1 dD c0 t1970-01-01T00:00:20Z i0 u T x y\n";

/// A second version of the node, with a time before that of the first.
pub const MOVED_AT_5: &[u8] = b"n1 v2 dV c0 t1970-01-01T00:00:05Z i0 u T x2 y1\n";

/// Another node, of which two versions came after 20 seconds.
pub const OTHER_AT_20: &[u8] = b"n2 v1 dV c0 t1970-01-01T00:00:20Z i0 u T x1 y1\n";

/// The second version of the other node.
pub const OTHER_MOVED_AT_20: &[u8] = b"n2 v2 dV c0 t1970-01-01T00:00:20Z i0 u T x2 y1\n";

/// A node without a time.
pub const VISIBLE: &[u8] = b"n1 v1 dV c0 t i0 u T x1 y1\n";

/// The deletion of the node without a time, as its second version.
pub const DELETED_NEXT: &[u8] = b"n1 v2 dD c0 t i0 u T x y\n";

/// The deletion of the node without a time, as another version of the same number.
pub const DELETED_TOO: &[u8] = b"n1 v1 dD c0 t i0 u T x y\n";

/// The first of two versions of one number without a time.
pub const AT_10_EAST: &[u8] = b"n1 v1 dV c0 t i0 u T x10 y1\n";

/// The second of the two. It is greater, since its line has the greater byte.
pub const AT_9_EAST: &[u8] = b"n1 v1 dV c0 t i0 u T x9 y1\n";

/// A way that has the id of node 1.
pub const WAY: &[u8] = b"w1 v1 dV c0 t i0 u T N\n";

/// The deletion of the way, as another version of the same number.
pub const DELETED_WAY: &[u8] = b"w1 v1 dD c0 t i0 u T N\n";

/// The file of `lines`, in sequence.
pub fn text(alloc: Global, lines: &[&[u8]]) -> Vec<u8> {
    let mut text = Vec::new(alloc);
    for line in lines {
        let _ = text.extend_from_slice(line);
    }
    text
}

/// The history of the versions that a file has; an empty one if the file is refused.
pub fn history_of(alloc: Global, file: &[u8]) -> History {
    match load_any(alloc, 0, SliceIn::new(file)) {
        Ok(loaded) => loaded.history,
        Err(_) => History::new(alloc),
    }
}

/// The history of the versions that `lines` spell.
pub fn history(alloc: Global, lines: &[&[u8]]) -> History {
    let text = text(alloc, lines);
    history_of(alloc, &text)
}

/// Whether `made` is a history, and has the versions that `lines` spell.
pub fn holds(alloc: Global, made: Result<History, Memory>, lines: &[&[u8]]) -> bool {
    let Ok(history) = made else {
        return false;
    };
    let mut out = VecOut::new(alloc);
    let is_written = write_history(alloc, 0, Format::Opl, &history, &mut out).is_ok();
    is_written && out.into_vec() == text(alloc, lines)
}
