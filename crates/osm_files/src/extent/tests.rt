//! Extents of slices.
use super::{Extent, FramedExtent};
use crate::input::Input;
use crate::sorted_run::SortedRun;
use std::alloc::Global;

/// The file of the tests.
const FILE: &[u8] = b"abcdef";

/// The bytes that each read into `size` bytes, at most 4, gives, and then `end` or `broken`.
fn given<I: Input>(alloc: Global, size: usize, input: &mut I) -> String {
    let mut text = String::new(alloc);
    for _ in 0..20 {
        let mut buffer = [0u8; 4];
        let end = size.min(buffer.len());
        match input.read(&mut buffer[..end]) {
            Ok(0) => {
                let _ = text.push_str("end");
                return text;
            }
            Ok(count) => {
                let bytes = str::from_utf8(&buffer[..count]).unwrap_or("?");
                let _ = write!(text, "{bytes} ");
            }
            Err(_) => {
                let _ = text.push_str("broken");
                return text;
            }
        }
    }
    text
}

#[test]
fn extents_give_their_bytes(rt: HostRuntime) {
    let alloc = rt.alloc();
    for (start, end, size, text) in [
        (0u64, 6u64, 4usize, "abcd ef end"),
        (0, 6, 1, "a b c d e f end"),
        (2, 5, 4, "cde end"),
        (2, 5, 2, "cd e end"),
        (3, 3, 4, "end"),
        (4, 2, 4, "end"),
        (6, 6, 4, "end"),
        (7, 7, 4, "end"),
        (0, 7, 4, "abcd ef broken"),
        (5, 9, 4, "f broken"),
        (6, 7, 4, "broken"),
        (8, 9, 4, "broken"),
        (4, u64::MAX, 4, "ef broken"),
        (u64::MAX, u64::MAX, 4, "end"),
    ] {
        assert_eq!(rt;
            given(alloc, size, &mut Extent::new(&FILE, start, end)).as_str(),
            text
        );
    }
}

#[test]
fn extents_are_cut_anywhere(rt: HostRuntime) {
    let alloc = rt.alloc();
    for start in 0..FILE.len() + 1 {
        for end in start..FILE.len() + 1 {
            let mut expected = String::new(alloc);
            let bytes = str::from_utf8(&FILE[start..end]).unwrap_or("?");
            for byte in bytes.chars() {
                let _ = write!(expected, "{byte} ");
            }
            let _ = expected.push_str("end");
            let mut extent = Extent::new(&FILE, start as u64, end as u64);
            assert_eq!(rt; given(alloc, 1, &mut extent).as_str(), expected.as_str());
        }
    }
}

#[test]
fn bytes_are_before_and_after_extents(rt: HostRuntime) {
    let alloc = rt.alloc();
    for (start, end, text) in [
        (0u64, 3u64, "xyz abc w end"),
        (2, 2, "xyz w end"),
        (5, 8, "xyz f broken"),
    ] {
        let mut framed = FramedExtent::new(b"xyz", Extent::new(&FILE, start, end), b"w");
        assert_eq!(rt; given(alloc, 4, &mut framed).as_str(), text);
    }
}

#[test]
fn runs_have_the_bytes_of_a_file(rt: HostRuntime) {
    let alloc = rt.alloc();
    for (start, run_size, size, text) in [
        (0u64, u64::MAX, 6u64, "abcd ef end"),
        (2, 3, 6, "cde end"),
        (2, 9, 6, "cdef end"),
        (2, 9, 8, "cdef broken"),
    ] {
        let run = SortedRun {
            start,
            size: run_size,
            lacks_header: false,
            lacks_end: false,
        };
        let mut input = FramedExtent::of_run(&FILE, size, run);
        assert_eq!(rt; given(alloc, 4, &mut input).as_str(), text);
    }
}
