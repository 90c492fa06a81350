//! Inputs that end and inputs that fail.
use super::{FromRead, Input, SliceIn};
use crate::devices::Pieces;
use std::alloc::Global;
use std::cell::Cell;

/// Appends the bytes that one read into two bytes gives, or `broken`.
fn push_read<I: Input>(text: &mut String, input: &mut I) {
    let mut buffer = [0u8; 2];
    let given = match input.read(&mut buffer) {
        Ok(count) => str::from_utf8(&buffer[..count]).unwrap_or("?"),
        Err(_) => "broken",
    };
    let _ = writeln!(text, "{given}");
}

/// The results of four reads.
fn read_text<I: Input>(alloc: Global, input: &mut I) -> String {
    let mut text = String::new(alloc);
    for _ in 0..4 {
        push_read(&mut text, input);
    }
    text
}

/// The results of four reads of a reader that gives one byte a read and then fails.
fn broken_text(alloc: Global) -> String {
    let read = Cell::new(0usize);
    let pieces = Pieces {
        rest: b"n1",
        step: 1,
        read: &read,
        fails: true,
    };
    read_text(alloc, &mut FromRead::new(pieces))
}

#[test]
fn inputs_are_read_to_their_ends(rt: HostRuntime) {
    let alloc = rt.alloc();
    assert_eq!(rt;
        read_text(alloc, &mut SliceIn::new(b"abc")).as_str(),
        "ab\nc\n\n\n"
    );
    assert_eq!(rt;
        read_text(alloc, &mut FromRead::new(b"n3".as_slice())).as_str(),
        "n3\n\n\n\n"
    );
    assert_eq!(rt; broken_text(alloc).as_str(), "n\n1\nbroken\nbroken\n");
}

#[test]
fn no_room_takes_no_bytes(rt: HostRuntime) {
    let mut input = SliceIn::new(b"c");
    assert_eq!(rt; input.read(&mut []), Ok(0));
    let mut buffer = [0u8; 2];
    assert_eq!(rt; input.read(&mut buffer), Ok(1));
}
