//! Splits of runs.
use crate::sorted_run::{BytesAtSplit, SortedRun};

/// Two lines, which end in LF and in CR, and a third one.
const LINES: &[u8] = b"n3 v1\nn2 v1\rn1 v1\n";

/// Three data sets with a reset after each of the first two. The second one's content is LF.
const DATA_SETS: &[u8] = b"\xff\xe0\x04o5m2\x10\x01c\xff\x10\x01\n\xff\x10\x01a\xfe";

/// The byte before the offset.
fn byte_before(file: &[u8], offset: usize) -> Option<u8> {
    if offset == 0 {
        None
    } else {
        file.get(offset - 1).copied()
    }
}

/// The result of splitting the run of the file at the offset.
fn split(file: &[u8], run: SortedRun, offset: usize) -> Option<(SortedRun, SortedRun)> {
    let bytes = BytesAtSplit {
        first: file.get(run.start as usize).copied(),
        before: byte_before(file, offset),
        at: file.get(offset).copied(),
    };
    run.split(offset as u64, bytes)
}

/// The part of an OPL file from `start` on, of at most `size` bytes.
fn lines(start: u64, size: u64) -> SortedRun {
    SortedRun {
        start,
        size,
        lacks_header: false,
        lacks_end: false,
    }
}

/// The part of an o5 file from `start` on, of at most `size` bytes.
fn data_sets(start: u64, size: u64, lacks_header: bool, lacks_end: bool) -> SortedRun {
    SortedRun {
        start,
        size,
        lacks_header,
        lacks_end,
    }
}

#[test]
fn runs_are_split(rt: HostRuntime) {
    let whole = SortedRun::whole();
    for (file, run, offset, front, rest) in [
        (LINES, whole, 6_usize, lines(0, 6), lines(6, u64::MAX - 6)),
        (LINES, whole, 12, lines(0, 12), lines(12, u64::MAX - 12)),
        (
            LINES,
            lines(6, u64::MAX - 6),
            12,
            lines(6, 6),
            lines(12, u64::MAX - 12),
        ),
        (LINES, lines(0, 9), 6, lines(0, 6), lines(6, 3)),
        (
            DATA_SETS,
            whole,
            11,
            data_sets(0, 10, false, true),
            data_sets(11, u64::MAX - 11, true, false),
        ),
        (
            DATA_SETS,
            data_sets(11, u64::MAX - 11, true, false),
            15,
            data_sets(11, 3, true, true),
            data_sets(15, u64::MAX - 15, true, false),
        ),
        (
            DATA_SETS,
            data_sets(0, 14, false, true),
            11,
            data_sets(0, 10, false, true),
            data_sets(11, 3, true, true),
        ),
    ] {
        assert_eq!(rt; split(file, run, offset), Some((front, rest)));
    }
}

#[test]
fn runs_are_not_split(rt: HostRuntime) {
    let whole = SortedRun::whole();
    for (file, run, offset) in [
        (b"".as_slice(), whole, 0_usize),
        (LINES, whole, 0),
        (LINES, whole, 5),
        (LINES, whole, LINES.len()),
        (LINES, whole, LINES.len() + 1),
        (LINES, lines(6, 6), 6),
        (LINES, lines(6, 6), 12),
        (LINES, lines(12, 6), 6),
        (b"n2 v1\n\xff\xe0\x04o5m2\xfe", whole, 6),
        (DATA_SETS, whole, 0),
        (DATA_SETS, whole, 1),
        (DATA_SETS, whole, 7),
        (DATA_SETS, whole, 10),
        (DATA_SETS, data_sets(11, u64::MAX - 11, true, false), 14),
        (b"\xff\xe0\x04o5m2\xff", whole, 8),
    ] {
        assert_eq!(rt; split(file, run, offset), None);
    }
}

#[test]
fn bytes_around_runs(rt: HostRuntime) {
    for (run, before, after, offset) in [
        (SortedRun::whole(), b"".as_slice(), b"".as_slice(), 9_u64),
        (
            data_sets(11, 3, true, true),
            b"\xff\xe0\x04o5m2",
            b"\xfe",
            13,
        ),
    ] {
        assert_eq!(rt; run.bytes_before(), before);
        assert_eq!(rt; run.bytes_after(), after);
        assert_eq!(rt; run.offset_in_file(9), offset);
    }
}
