//! Sources of small files.
use super::FileSource;
use crate::end_rule::EndRule;
use crate::input::SliceIn;
use crate::tests::{NODE_THEN_DELETION, UNSORTED};
use crate::texts::{given_text, push_fault, push_given};
use std::alloc::Global;

/// The versions of a source that is opened to learn the file's format, and that format.
fn opened_text(alloc: Global, file: &[u8]) -> String {
    let mut text = String::new(alloc);
    match FileSource::open(alloc, 2, EndRule::Any, SliceIn::new(file)) {
        Err(fault) => push_fault(&mut text, fault),
        Ok((format, mut source)) => {
            let _ = writeln!(text, "{}", format.name());
            push_given(alloc, &mut text, &mut source);
        }
    }
    text
}

/// The versions of a source that is one of 500 in a merge.
fn beside_text(alloc: Global, file: &[u8]) -> String {
    given_text(
        alloc,
        FileSource::with_peers(alloc, 2, EndRule::Any, SliceIn::new(file), 500),
    )
}

/// Files, and what their sources give. A group is sorted and has no repeats. A fault replaces its group. A version that
/// was given back lends its lists to a later one.
const GIVEN: [(&[u8], &str); 7] = [
    (
        b"n1 v1 x2 y1\nn1 v1 x1 y1\nn1 v1 x2 y1\nn2 v1 x1 y1",
        "n1 v1 dV c0 t i0 u T x1 y1\nn1 v1 dV c0 t i0 u T x2 y1\nn2 v1 dV c0 t i0 u T x1 y1\nend\nend\nend\n",
    ),
    (
        b"n1 v1 x1 y1\nn2 v1 x1 y1\nn2 v1 x1",
        "n1 v1 dV c0 t i0 u T x1 y1\nfile 2, byte 24: NoLocation\nfile 2, byte 0: Failed\nfile 2, byte 0: Failed\n",
    ),
    (
        UNSORTED,
        "file 2, byte 12: Unsorted\nfile 2, byte 0: Failed\nfile 2, byte 0: Failed\n",
    ),
    (
        b"\xff\xe0\x04o5m2\x10\x0b\x02\x01\x02\x02\x00\x01\x00a\x00\x00\x00\xfe",
        "n1 v1 dV c1 t1970-01-01T00:00:01Z i1 ua T x0 y0\nend\nend\nend\n",
    ),
    (
        b"\xff\xe0\x04o5m2\x10\x05\x02\x01\x00\x02\x04\x10\x05\x02\x01\x00\x02\x04\x10\x05\x02\x01\x00\x02\x04\xfe",
        "n1 v1 dV c0 t i0 u T x0.0000001 y0.0000002\nn2 v1 dV c0 t i0 u T x0.0000002 y0.0000004\n\
         n3 v1 dV c0 t i0 u T x0.0000003 y0.0000006\nend\nend\nend\n",
    ),
    (
        b"n1 v1 Ta=b x1 y2\nn2 v1 x3 y4\n# a comment\nw1 v1 Nn1\n",
        "n1 v1 dV c0 t i0 u Ta=b x1 y2\nn2 v1 dV c0 t i0 u T x3 y4\nw1 v1 dV c0 t i0 u T Nn1\nend\nend\nend\n",
    ),
    (b"", "end\nend\nend\n"),
];

#[test]
fn source_gives_its_versions(rt: HostRuntime) {
    let alloc = rt.alloc();
    for (file, text) in GIVEN {
        assert_eq!(rt;
            given_text(alloc, FileSource::new(alloc, 2, SliceIn::new(file))).as_str(),
            text
        );
        assert_eq!(rt; beside_text(alloc, file).as_str(), text);
    }
}

#[test]
fn opened_source_determines_its_format(rt: HostRuntime) {
    let alloc = rt.alloc();
    assert_eq!(rt;
        opened_text(alloc, NODE_THEN_DELETION).as_str(),
        "o5m\nn1 v1 dV c1 t1970-01-01T00:00:01Z i1 ua T x0 y0\nn1 v2 dD c1 t1970-01-01T00:00:02Z i1 ua T x y\nend\n\
         end\nend\n"
    );
}
