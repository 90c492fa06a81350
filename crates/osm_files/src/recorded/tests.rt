//! Recorded reads that are replayed.
use super::Recorded;
use crate::input::{Broken, Input};
use crate::read_at::ReadAt;
use std::alloc::Global;

/// Six bytes in three reads, with a failure after each of the first two, and bytes after the end.
const READS: [Result<&[u8], Broken>; 7] = [
    Ok(b"abc"),
    Err(Broken),
    Ok(b"d"),
    Err(Broken),
    Ok(b"ef"),
    Ok(b""),
    Ok(b"g"),
];

/// What eleven reads of two bytes give, and one into no buffer.
fn given(alloc: Global, input: &mut Recorded<'_>) -> String {
    let mut text = String::new(alloc);
    let mut buffer = *b"--";
    for _ in 0..11 {
        match input.read(&mut buffer) {
            Ok(count) => {
                let bytes = str::from_utf8(&buffer[..count]).unwrap_or("?");
                let _ = write!(text, "{count}{bytes} ");
            }
            Err(Broken) => {
                let _ = text.push_str("broken ");
            }
        }
    }
    text
}

/// What a read of four bytes at each offset of `file` gives, up to the first that gives nothing.
fn given_at(alloc: Global, file: &Recorded<'_>) -> String {
    let mut text = String::new(alloc);
    for offset in 0..20 {
        let mut buffer = *b"----";
        match file.read_at(&mut buffer, offset) {
            Ok(0) => break,
            Ok(count) => {
                let bytes = str::from_utf8(&buffer[..count.min(4)]).unwrap_or("?");
                let _ = write!(text, "{bytes} ");
            }
            Err(Broken) => {
                let _ = text.push_str("broken ");
            }
        }
    }
    text
}

#[test]
fn an_input_gives_each_result_again(rt: HostRuntime) {
    let mut input = Recorded::new(&READS);
    assert_eq!(rt;
        given(rt.alloc(), &mut input).as_str(),
        "2ab 1c broken 1d broken 2ef 0 0 0 0 0 "
    );
}

#[test]
fn a_read_into_no_buffer_takes_nothing(rt: HostRuntime) {
    let mut input = Recorded::new(&READS);
    assert_eq!(rt; input.read(&mut []), Ok(0));
    assert_eq!(rt;
        given(rt.alloc(), &mut input).as_str(),
        "2ab 1c broken 1d broken 2ef 0 0 0 0 0 "
    );
}

#[test]
fn a_file_gives_one_result_at_each_offset(rt: HostRuntime) {
    let file = Recorded::new(&READS);
    assert_eq!(rt; file.size(), Ok(7));
    assert_eq!(rt;
        given_at(rt.alloc(), &file).as_str(),
        "abc bc c broken broken f g "
    );
}

#[test]
fn a_begun_result_is_at_the_front_of_the_file(rt: HostRuntime) {
    let mut input = Recorded::new(&READS);
    let mut buffer = *b"--";
    assert_eq!(rt; input.read(&mut buffer), Ok(2));
    assert_eq!(rt; input.size(), Ok(5));
    assert_eq!(rt;
        given_at(rt.alloc(), &input).as_str(),
        "c broken broken f g "
    );
}

#[test]
fn no_results_are_an_empty_file(rt: HostRuntime) {
    let mut input = Recorded::new(&[]);
    assert_eq!(rt; input.size(), Ok(0));
    let mut buffer = *b"--";
    assert_eq!(rt; input.read(&mut buffer), Ok(0));
}
