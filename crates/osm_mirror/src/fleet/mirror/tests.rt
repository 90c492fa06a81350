//! Mirrors over small files, with their output worked out by hand.
use super::Mirror;
use crate::fleet::keep::{Keep, Taken};
use crate::tests::NODE_THEN_DELETION;
use osm_files::{Fault, Format};
use std::alloc::Global;

const CREATED: &[u8] = b"n1 v1 dV x1 y1\n";

const DELETED: &[u8] = b"n1 v2 dD\n";

/// A mirror that keeps `keep`, and holds nothing yet.
fn new_mirror(alloc: Global, keep: Keep) -> Mirror {
    match keep {
        Keep::Full => Mirror::new_full(alloc),
        Keep::Latest => Mirror::new_latest(alloc),
    }
}

/// Appends the number of versions that a mirror took, or the fault.
fn push_taken(text: &mut String, outcome: Result<Taken, Fault>) {
    let _ = match outcome {
        Ok(taken) => writeln!(text, "{} taken", taken.versions),
        Err(fault) => writeln!(text, "{fault}"),
    };
}

/// Appends the file of a mirror, as OPL.
fn push_written(text: &mut String, mirror: &Mirror) {
    let Ok(file) = mirror.write(Format::Opl) else {
        return;
    };
    let _ = text.push_str(str::from_utf8(&file).unwrap_or("?"));
}

/// The results of a mirror that keeps `keep` and takes `files`, and the file that it writes afterwards.
fn mirror_text(alloc: Global, keep: Keep, files: &[&[u8]]) -> String {
    let mut text = String::new(alloc);
    let mut mirror = new_mirror(alloc, keep);
    for file in files {
        push_taken(&mut text, mirror.take(file));
    }
    push_written(&mut text, &mirror);
    text
}

/// A kind of mirror, the files that the mirror takes, and the text of its results.
type Row = (Keep, &'static [&'static [u8]], &'static str);

/// Mirrors that take one file, and mirrors that take another one after it.
const SECOND_FILE: [Row; 6] = [
    (
        Keep::Latest,
        &[CREATED],
        "1 taken\nn1 v1 dV c0 t i0 u T x1 y1\n",
    ),
    (
        Keep::Latest,
        &[DELETED],
        "1 taken\nn1 v2 dD c0 t i0 u T x y\n",
    ),
    (
        Keep::Latest,
        &[DELETED, DELETED],
        "1 taken\n1 taken\nn1 v2 dD c0 t i0 u T x y\n",
    ),
    (
        Keep::Latest,
        &[CREATED, DELETED],
        "1 taken\n1 taken\nn1 v2 dD c0 t i0 u T x y\n",
    ),
    (
        Keep::Latest,
        &[DELETED, CREATED],
        "1 taken\n1 taken\nn1 v2 dD c0 t i0 u T x y\n",
    ),
    (
        Keep::Full,
        &[DELETED, CREATED],
        "1 taken\n1 taken\nn1 v1 dV c0 t i0 u T x1 y1\nn1 v2 dD c0 t i0 u T x y\n",
    ),
];

#[test]
fn deletion_from_second_file(rt: HostRuntime) {
    for (keep, files, text) in SECOND_FILE {
        assert_eq!(rt; mirror_text(rt.alloc(), keep, files).as_str(), text);
    }
}

/// The first `length` bytes of the file of a node and its deletion.
fn cut(length: usize) -> &'static [u8] {
    NODE_THEN_DELETION.get(..length).unwrap_or(b"")
}

#[test]
fn cut_file(rt: HostRuntime) {
    let files = [
        CREATED,
        cut(1),
        cut(6),
        cut(7),
        cut(8),
        cut(20),
        cut(27),
        DELETED,
    ];
    let text =
        "1 taken\nfile 0, byte 0: BadHeader\nfile 0, byte 0: BadHeader\nfile 0, byte 7: NoEnd\n\
         file 0, byte 7: Truncated\n\
        file 0, byte 20: NoEnd\nfile 0, byte 27: NoEnd\n1 taken\nn1 v1 dV c0 t i0 u T x1 y1\n\
        n1 v2 dD c0 t i0 u T x y\n";
    assert_eq!(rt; mirror_text(rt.alloc(), Keep::Full, &files).as_str(), text);
}

/// The result of a latest mirror that takes `file`. Then the number of versions of a copy of the mirror, whether the
/// two write the same file in o5c, and the copy's file as OPL.
fn copied_text(alloc: Global, file: &[u8]) -> String {
    let mut text = String::new(alloc);
    let mut mirror = Mirror::new_latest(alloc);
    push_taken(&mut text, mirror.take(file));
    if let Ok(again) = mirror.copy() {
        let held = again.held().len();
        let is_same = again.write(Format::O5c) == mirror.write(Format::O5c);
        let _ = writeln!(text, "{held} held, {is_same}");
        push_written(&mut text, &again);
    }
    text
}

#[test]
fn unsorted_file(rt: HostRuntime) {
    assert_eq!(rt;
        copied_text(rt.alloc(), b"n2 v1 x1 y1\nn1 v1 x1 y1\n").as_str(),
        "2 taken\n2 held, true\nn1 v1 dV c0 t i0 u T x1 y1\nn2 v1 dV c0 t i0 u T x1 y1\n"
    );
}
