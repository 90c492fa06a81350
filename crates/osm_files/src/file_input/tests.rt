//! Inputs over extents and over streams.
use super::FileInput;
use crate::extent::FramedExtent;
use crate::input::{Input, SliceIn};
use crate::sorted_run::SortedRun;
use std::alloc::Global;

/// The bytes of the tests.
const BYTES: &[u8] = b"abc";

/// The bytes that two reads of an input give.
fn given<R: Input + Drop>(alloc: Global, mut input: FileInput<'_, &[u8], R>) -> String {
    let mut text = String::new(alloc);
    for _ in 0..2 {
        let mut buffer = [0u8; 2];
        if let Ok(count) = input.read(&mut buffer) {
            let bytes = str::from_utf8(&buffer[..count]).unwrap_or("?");
            let _ = write!(text, "{bytes} ");
        }
    }
    text
}

#[test]
fn inputs_give_the_bytes_of_files_and_streams(rt: HostRuntime) {
    let run = SortedRun {
        start: 1,
        ..SortedRun::whole()
    };
    let extent: FileInput<'_, &[u8], SliceIn<'_>> = FileInput::Extent(FramedExtent::of_run(
        &BYTES, 3, run,
    ));
    assert_eq!(rt; given(rt.alloc(), extent).as_str(), "bc  ");
    let stream: FileInput<'_, &[u8], SliceIn<'_>> = FileInput::Stream(SliceIn::new(BYTES));
    assert_eq!(rt; given(rt.alloc(), stream).as_str(), "ab c ");
}
