//! Outputs that take what they are given, and outputs that fail.
use super::{Output, ToWrite, VecOut};
use crate::devices::{Device, Full};
use crate::fault::{Fault, LENGTH_LIMIT};
use crate::texts::push_fault;
use crate::write::write_all;
use std::alloc::Global;

/// Appends `ok`, or the fault of a call.
fn push_outcome(text: &mut String, outcome: Result<(), Fault>) {
    match outcome {
        Ok(()) => {
            let _ = text.push_str("ok\n");
        }
        Err(fault) => push_fault(text, fault),
    }
}

/// Appends the results of a write of a line to the output 2 after 10 bytes, of a write of nothing, and of a flush.
fn push_writes<W: Output>(text: &mut String, out: &mut W) {
    push_outcome(text, write_all(out, 2, 10, b"n1 v1\n"));
    let is_written = out.write(b"").is_ok();
    let is_flushed = out.flush().is_ok();
    let _ = writeln!(text, "{is_written} {is_flushed}");
}

/// Appends the bytes that an output took.
fn push_taken(text: &mut String, taken: &[u8]) {
    let _ = text.push_str(str::from_utf8(taken).unwrap_or("?"));
}

/// The results of `push_writes` to memory, and the bytes that the memory took.
fn memory_text(alloc: Global) -> String {
    let mut text = String::new(alloc);
    let mut out = VecOut::new(alloc);
    push_writes(&mut text, &mut out);
    push_taken(&mut text, &out.into_vec());
    text
}

/// The results of `push_writes` to a device that takes `capacity` bytes, and the bytes that the device took.
fn device_text(alloc: Global, capacity: usize, full: Full) -> String {
    let mut text = String::new(alloc);
    let mut taken = Vec::new(alloc);
    let mut out = ToWrite::new(Device {
        taken: &mut taken,
        capacity,
        full,
        flushes: true,
    });
    push_writes(&mut text, &mut out);
    push_taken(&mut text, &taken);
    text
}

#[test]
fn outputs_take_what_they_have_room_for(rt: HostRuntime) {
    let alloc = rt.alloc();
    assert_eq!(rt; memory_text(alloc).as_str(), "ok\ntrue true\nn1 v1\n");
    for (capacity, full, text) in [
        (9, Full::Refuses, "ok\ntrue true\nn1 v1\n"),
        (
            4,
            Full::Refuses,
            "file 2, byte 14: WriteFault\nfalse false\nn1 v",
        ),
        (
            4,
            Full::TakesNothing,
            "file 2, byte 14: WriteFault\nfalse false\nn1 v",
        ),
    ] {
        assert_eq!(rt; device_text(alloc, capacity, full).as_str(), text);
    }
}

/// The results of a write to memory that would make the output 1 too long, and of one that would not; and the bytes
/// that it took.
fn long_text(alloc: Global) -> String {
    let mut text = String::new(alloc);
    let mut out = VecOut::new(alloc);
    let written = LENGTH_LIMIT - 3;
    push_outcome(&mut text, write_all(&mut out, 1, written, b"n1\n"));
    push_outcome(&mut text, write_all(&mut out, 1, written, b"n1"));
    push_taken(&mut text, &out.into_vec());
    text
}

#[test]
fn too_long_output_is_not_written(rt: HostRuntime) {
    assert_eq!(rt;
        long_text(rt.alloc()).as_str(),
        "file 1, byte 4611686018427387904: TooLong\nok\nn1"
    );
}
