//! Files split from the front on.
use crate::sorted_run::{BytesAtSplit, SortedRun};
use crate::split_file::SplitFile;

/// The part of an OPL file from `start` on, of at most `size` bytes.
fn lines(start: u64, size: u64) -> SortedRun {
    SortedRun {
        start,
        size,
        lacks_header: false,
        lacks_end: false,
    }
}

#[test]
fn file_is_split_into_runs(rt: HostRuntime) {
    let mut file = SplitFile::new(rt.alloc());
    for (offset, before, front, rest) in [
        (6_u64, b'\n', Some(lines(0, 6)), lines(6, u64::MAX - 6)),
        (9, b' ', None, lines(6, u64::MAX - 6)),
        (20, b'\r', Some(lines(6, 14)), lines(20, u64::MAX - 20)),
    ] {
        let bytes = BytesAtSplit {
            first: Some(b'n'),
            before: Some(before),
            at: Some(b'n'),
        };
        assert_eq!(rt; file.split(offset, bytes), Ok(front));
        assert_eq!(rt; file.rest(), rest);
    }
    let runs = file.into_runs();
    let expected = [lines(0, 6), lines(6, 14), lines(20, u64::MAX - 20)];
    assert!(rt; runs.is_ok_and(|runs| runs.as_slice() == expected.as_slice()));
}
