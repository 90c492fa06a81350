//! Files in any order, loaded from inputs that end and inputs that fail.
use crate::devices::Dripping;
use crate::end_rule::EndRule;
use crate::fault::Fault;
use crate::input::SliceIn;
use crate::load::load_ended;
use crate::reason::Reason;
use crate::tests::{NODE_THEN_DELETION, UNSORTED};
use crate::texts::{loaded_text, push_fault};
use opl_line::OplReason;
use std::alloc::Global;

/// The result of loading an input that gives `bytes` one by one, and then ends, or fails if `fails` is set.
fn dripping_text(alloc: Global, bytes: &[u8], fails: bool) -> String {
    loaded_text(alloc, 3, Dripping { rest: bytes, fails })
}

const NODE_AND_DELETION_LOADED: &str =
    "o5m sorted\nn1 v1 dV c1 t1970-01-01T00:00:01Z i1 ua T x0 y0\nn1 v2 dD c1 t1970-01-01T00:00:02Z i1 ua T x y\n";

#[test]
fn files_are_loaded(rt: HostRuntime) {
    for (file, text) in [
        (b"".as_slice(), "opl sorted\n"),
        (
            UNSORTED,
            "opl unsorted\nn1 v1 dV c0 t i0 u T x1 y1\nn2 v1 dV c0 t i0 u T x1 y1\n",
        ),
        (NODE_THEN_DELETION, NODE_AND_DELETION_LOADED),
        (
            b"\xff\xe0\x04o5c2\x10\x0b\x02\x01\x02\x02\x00\x01\x00a\x00\x00\x00\xfe",
            "o5c sorted\nn1 v1 dV c1 t1970-01-01T00:00:01Z i1 ua T x0 y0\n",
        ),
        (
            b"\xff\xe0\x04o5m2\x10\x0b\x02\x01\x02\x02\x00\x01\x00a\x00\x00\x00\x10\x05\x00\x02\x02\x00\x01\xfe\x00",
            "file 3, byte 28: AfterEnd\n",
        ),
        (b"\xff\xe0\x04o5m3\xfe", "file 3, byte 0: BadHeader\n"),
    ] {
        assert_eq!(rt;
            loaded_text(rt.alloc(), 3, SliceIn::new(file)).as_str(),
            text
        );
        assert_eq!(rt; dripping_text(rt.alloc(), file, false).as_str(), text);
    }
}

/// Whether the file of a node and its deletion is refused after `length` bytes if the input fails there.
fn is_refused_after(alloc: Global, length: usize) -> bool {
    let mut text = String::new(alloc);
    let fault = Fault {
        input: 3,
        place: length as u64,
        reason: Reason::ReadFault,
    };
    push_fault(&mut text, fault);
    match NODE_THEN_DELETION.get(..length) {
        Some(front) => dripping_text(alloc, front, true) == text,
        None => false,
    }
}

#[test]
fn failing_devices(rt: HostRuntime) {
    for length in 0..NODE_THEN_DELETION.len() + 1 {
        assert!(rt; is_refused_after(rt.alloc(), length));
    }
    for (file, text) in [
        (b"c5 k1\nn1 v1".as_slice(), "file 3, byte 0: UnknownKind\n"),
        (b"n1 v1 x1 y1\nc5 k1", "file 3, byte 17: ReadFault\n"),
    ] {
        assert_eq!(rt; dripping_text(rt.alloc(), file, true).as_str(), text);
    }
}

/// The refusal of an input that gives `bytes` one by one, and has to end as `end` says.
fn refused(alloc: Global, end: EndRule, bytes: &[u8]) -> Option<(u64, Reason)> {
    let rest = bytes;
    match load_ended(alloc, 3, end, Dripping { rest, fails: false }) {
        Ok(_) => None,
        Err(fault) => Some((fault.place, fault.reason)),
    }
}

#[test]
fn files_end_by_their_rule(rt: HostRuntime) {
    for (end, file, refusal) in [
        (EndRule::Any, b"#".as_slice(), None),
        (EndRule::LineFeed, b"", None),
        (EndRule::LineFeed, b"#\n", None),
        (EndRule::LineFeed, b"#", Some((1, Reason::NoEnd))),
        (EndRule::LineFeed, b"#\r", Some((2, Reason::NoEnd))),
        (EndRule::LineFeed, b"#\nn1 v1 x1", Some((10, Reason::NoEnd))),
        (
            EndRule::LineFeed,
            b"n1 v1 x1\n#",
            Some((0, Reason::Opl(OplReason::NoLocation))),
        ),
        (EndRule::Mark, b"", Some((0, Reason::NoEnd))),
        (EndRule::Mark, b"# end", Some((5, Reason::NoEnd))),
        (EndRule::Mark, b"# end\n", None),
        (EndRule::Mark, b"#\n# end\n", None),
        (EndRule::Mark, b"#\r# end\n", Some((8, Reason::NoEnd))),
        (EndRule::Mark, b"#\n## end\n", Some((9, Reason::NoEnd))),
        (EndRule::Mark, b"# end\n\n", Some((7, Reason::NoEnd))),
        (EndRule::Mark, b"\xff\xe0\x04o5m2\xfe", None),
        (EndRule::Mark, b"\xff\xe0\x04o5m2", Some((7, Reason::NoEnd))),
    ] {
        assert_eq!(rt; refused(rt.alloc(), end, file), refusal);
    }
}
