//! Runs of small files.
use super::find_runs;
use crate::extent::FramedExtent;
use crate::fault::Fault;
use crate::reason::Reason;
use crate::source::FileSource;
use crate::texts::{given_text, push_fault};
use std::alloc::Global;

/// Two nodes in o5m whose ids descend, with a reset between them. The second one's type byte is at offset 15.
const DATA_SETS: &[u8] =
    b"\xff\xe0\x04o5m2\x10\x05\x04\x01\x00\x02\x04\xff\x10\x05\x02\x01\x00\x02\x04\xfe";

/// The same two nodes without a reset between them.
const WITHOUT_RESET: &[u8] =
    b"\xff\xe0\x04o5m2\x10\x05\x04\x01\x00\x02\x04\x10\x05\x01\x01\x00\x00\x00\xfe";

/// The same as `DATA_SETS`, but the first node's user is a reference to an empty string table.
const FAULTY_SET: &[u8] =
    b"\xff\xe0\x04o5m2\x10\x05\x04\x01\x02\x00\x09\xff\x10\x05\x02\x01\x00\x02\x04\xfe";

/// A node whose data set is cut by the file's end.
const CUT_SET: &[u8] = b"\xff\xe0\x04o5m2\x10\x06\x04\x01\x00\x02\xfe";

/// The same two nodes with a byte `ff` between them that isn't a reset, but the content of a skipped data set.
const WITHIN_A_SET: &[u8] =
    b"\xff\xe0\x04o5m2\x10\x05\x04\x01\x00\x02\x04\xdb\x01\xff\x10\x05\x01\x01\x00\x00\x00\xfe";

/// The runs of `file`, at most `most`: the offset of each, whether it lacks a header and the end byte, and the results
/// of its source.
fn runs_text(alloc: Global, file: &[u8], most: usize) -> String {
    let mut text = String::new(alloc);
    let size = file.len() as u64;
    match find_runs(alloc, &file, size, most) {
        Ok(Some(runs)) => {
            for run in &runs {
                let given = given_text(
                    alloc,
                    FileSource::new(alloc, 0, FramedExtent::of_run(&file, size, *run)),
                );
                let (start, lacks_header, lacks_end) = (run.start, run.lacks_header, run.lacks_end);
                let _ = write!(text, "{start} {lacks_header} {lacks_end}\n{given}");
            }
        }
        Ok(None) => {
            let _ = text.push_str("none\n");
        }
        Err(fault) => push_fault(&mut text, fault),
    }
    text
}

/// Files, the most runs that are wanted, and the runs found.
const RUNS: [(&[u8], usize, &str); 14] = [
    (b"", 1, "0 false false\nend\nend\nend\n"),
    (b"", 0, "none\n"),
    (
        b"n1 v1 dD\nn2 v1 dD\n",
        1,
        "0 false false\nn1 v1 dD c0 t i0 u T x y\nn2 v1 dD c0 t i0 u T x y\nend\nend\nend\n",
    ),
    (
        b"n3 v1 dD\n#\nn2 v1 dD\rn1 v1 dD",
        3,
        "0 false false\nn3 v1 dD c0 t i0 u T x y\nend\nend\nend\n\
        11 false false\nn2 v1 dD c0 t i0 u T x y\nend\nend\nend\n\
        20 false false\nn1 v1 dD c0 t i0 u T x y\nend\nend\nend\n",
    ),
    (b"n3 v1 dD\n#\nn2 v1 dD\rn1 v1 dD", 2, "none\n"),
    (
        b"n2 v1 dD\nn1 v1 dD\nn0\n",
        9,
        "file 0, byte 18: NoVersion\n",
    ),
    (
        b"n2 v1 dD\nn3 v1\nn1 v1 dD\n",
        9,
        "0 false false\nfile 0, byte 9: NoLocation\nfile 0, byte 0: Failed\nfile 0, byte 0: Failed\n\
        15 false false\nn1 v1 dD c0 t i0 u T x y\nend\nend\nend\n",
    ),
    (
        b"n3 v1\r\nn2 dD v1\r\nn2 v1 u\xff",
        9,
        "0 false false\nfile 0, byte 0: NoLocation\nfile 0, byte 0: Failed\nfile 0, byte 0: Failed\n\
        7 false false\nfile 0, byte 10: NotUtf8\nfile 0, byte 0: Failed\nfile 0, byte 0: Failed\n",
    ),
    (
        DATA_SETS,
        2,
        "0 false true\nn2 v1 dV c0 t i0 u T x0.0000001 y0.0000002\nend\nend\nend\n\
        15 true false\nn1 v1 dV c0 t i0 u T x0.0000001 y0.0000002\nend\nend\nend\n",
    ),
    (DATA_SETS, 1, "none\n"),
    (WITHOUT_RESET, 9, "none\n"),
    (WITHIN_A_SET, 9, "none\n"),
    (
        FAULTY_SET,
        2,
        "0 false true\nfile 0, byte 7: BadReference\nfile 0, byte 0: Failed\nfile 0, byte 0: Failed\n\
        15 true false\nn1 v1 dV c0 t i0 u T x0.0000001 y0.0000002\nend\nend\nend\n",
    ),
    (CUT_SET, 9, "file 0, byte 7: Truncated\n"),
];

#[test]
fn runs_are_found(rt: HostRuntime) {
    for (file, most, text) in RUNS {
        assert_eq!(rt; runs_text(rt.alloc(), file, most).as_str(), text);
    }
}

#[test]
fn a_file_that_became_shorter_is_refused(rt: HostRuntime) {
    let file = b"n1 v1 dD\n".as_slice();
    match find_runs(rt.alloc(), &file, 12, 9) {
        Err(fault) => assert_eq!(rt; fault, Fault::at(0, 9, Reason::ReadFault)),
        Ok(_) => assert!(rt; false),
    }
}
