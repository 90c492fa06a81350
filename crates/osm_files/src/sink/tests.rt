//! Files as a sink writes them, and sinks over outputs that fail.
ghost use Rattle.std.specs.Prelude.{◌≡◌};
ghost use Rattle.osm_files.specs.Sink.{new_sink};

use super::{Sink, write_history};
use crate::devices::{Device, Full};
use crate::fault::Fault;
use crate::format::Format;
use crate::input::SliceIn;
use crate::load::load_any;
use crate::output::{Output, ToWrite, VecOut};
use crate::reason::Reason;
use crate::tests::NODE_THEN_DELETION;
use opl_line::read_line;
use osm_model::Version;
use std::alloc::Global;

const NODE: &[u8] = b"n1 v1 dV c1 t1970-01-01T00:00:01Z i1 ua T x0 y0\n";

const NODE_AND_DELETION: &[u8] =
    b"n1 v1 dV c1 t1970-01-01T00:00:01Z i1 ua T x0 y0\nn1 v2 dD c1 t1970-01-01T00:00:02Z i1 ua T x y\n";

const WAYS: &[u8] = b"w5 v1 dV c0 t i0 u T N\nw5 v2 dD c0 t i0 u T N\n";

/// Writes the file of the versions of a text to the output 2.
fn write_text<W: Output>(
    alloc: Global,
    format: Format,
    text: &[u8],
    out: &mut W,
) -> Result<(), Fault> {
    match load_any(alloc, 0, SliceIn::new(text)) {
        Err(fault) => Err(fault),
        Ok(loaded) => write_history(alloc, 2, format, &loaded.history, out),
    }
}

/// The file of the versions of a text.
fn spelled(alloc: Global, format: Format, text: &[u8]) -> Vec<u8> {
    let mut out = VecOut::new(alloc);
    let _ = write_text(alloc, format, text, &mut out);
    out.into_vec()
}

/// Whether the versions of a text are written as `header` and then `sets`.
fn is_spelled(alloc: Global, format: Format, text: &[u8], header: &[u8], sets: &[u8]) -> bool {
    spelled(alloc, format, text).strip_prefix(header) == Some(sets)
}

/// Whether the versions of the canonical lines `text` are written as `text` in OPL, and as `sets` after the header in
/// o5m and o5c.
fn is_written(alloc: Global, text: &[u8], sets: &[u8]) -> bool {
    is_spelled(alloc, Format::Opl, text, b"", text)
        && is_spelled(alloc, Format::O5m, text, b"\xff\xe0\x04o5m2", sets)
        && is_spelled(alloc, Format::O5c, text, b"\xff\xe0\x04o5c2", sets)
}

#[test]
fn empty_inputs(rt: HostRuntime) {
    assert!(rt; is_written(rt.alloc(), b"", b"\xfe"));
}

#[test]
fn one_node_o5m(rt: HostRuntime) {
    let sets = b"\x10\x0b\x02\x01\x02\x02\x00\x01\x00a\x00\x00\x00\xfe";
    assert!(rt; is_written(rt.alloc(), NODE, sets));
}

#[test]
fn node_then_deletion_o5m(rt: HostRuntime) {
    let sets = b"\x10\x0b\x02\x01\x02\x02\x00\x01\x00a\x00\x00\x00\x10\x05\x00\x02\x02\x00\x01\xfe";
    assert!(rt; is_written(rt.alloc(), NODE_AND_DELETION, sets));
}

#[test]
fn way_without_references(rt: HostRuntime) {
    let sets = b"\xff\x11\x04\x0a\x01\x00\x00\x11\x03\x00\x02\x00\xfe";
    assert!(rt; is_written(rt.alloc(), WAYS, sets));
}

/// The result of writing a node and its deletion as o5m to a device that takes `capacity` bytes; and whether the device
/// took the first `capacity` bytes of the file.
fn write_to_device(
    alloc: Global,
    capacity: usize,
    full: Full,
    flushes: bool,
) -> (Result<(), Fault>, bool) {
    let mut taken = Vec::new(alloc);
    let mut out = ToWrite::new(Device {
        taken: &mut taken,
        capacity,
        full,
        flushes,
    });
    let outcome = write_text(alloc, Format::O5m, NODE_AND_DELETION, &mut out);
    let is_front = NODE_THEN_DELETION.get(..capacity) == Some(taken.as_slice());
    (outcome, is_front)
}

/// The fault of the output 2, which failed after it took `place` bytes.
fn write_fault(place: usize) -> Fault {
    Fault {
        input: 2,
        place: place as u64,
        reason: Reason::WriteFault,
    }
}

#[test]
fn front_is_written_where_the_output_fails(rt: HostRuntime) {
    for full in [Full::Refuses, Full::TakesNothing] {
        for capacity in 0..NODE_THEN_DELETION.len() {
            let (outcome, is_front) = write_to_device(rt.alloc(), capacity, full, true);
            assert!(rt; outcome == Err(write_fault(capacity)) && is_front);
        }
    }
}

#[test]
fn flush_that_fails_is_a_write_fault(rt: HostRuntime) {
    for (flushes, wanted) in [(true, Ok(())), (false, Err(write_fault(28)))] {
        let (outcome, is_front) = write_to_device(rt.alloc(), 28, Full::Refuses, flushes);
        assert!(rt; outcome == wanted && is_front);
    }
}

/// The results of writing a version with a new sink and of ending the file; or the fault of beginning the file.
fn put_one<W: Output>(
    sink: &mut Sink,
    out: &mut W,
    version: &Version,
) -> Result<[Result<(), Fault>; 2], Fault>
    requires { sink.old ≡ new_sink sink.old.format sink.old.number }
{
    sink.begin(out)?;
    let put = sink.put(out, version);
    let end = sink.end(out);
    Ok([put, end])
}

/// The results of writing a deletion with a sink to the output 2 and of ending the file; or the fault of beginning the
/// file.
fn put_deletion<W: Output>(
    alloc: Global,
    format: Format,
    out: &mut W,
) -> Result<[Result<(), Fault>; 2], Fault> {
    let Ok(Some(version)) = read_line(alloc, b"n1 v2 dD") else {
        return Err(Fault::memory());
    };
    match Sink::new(alloc, format, 2) {
        Err(fault) => Err(fault),
        Ok(mut sink) => put_one(&mut sink, out, &version),
    }
}

#[test]
fn calls_write_at_once(rt: HostRuntime) {
    let mut out = VecOut::new(rt.alloc());
    let outcomes = put_deletion(rt.alloc(), Format::Opl, &mut out);
    let written = out.into_vec();
    assert!(rt;
        outcomes == Ok([Ok(()), Ok(())])
            && written.as_slice() == b"n1 v2 dD c0 t i0 u T x y\n".as_slice()
    );
}

#[test]
fn refused_sink_fails_from_then_on(rt: HostRuntime) {
    let mut taken = Vec::new(rt.alloc());
    let mut out = ToWrite::new(Device {
        taken: &mut taken,
        capacity: 9,
        full: Full::TakesNothing,
        flushes: true,
    });
    let outcomes = put_deletion(rt.alloc(), Format::O5c, &mut out);
    let wanted = [Err(write_fault(9)), Err(Fault::failed(2))];
    assert!(rt;
        outcomes == Ok(wanted) && taken.as_slice() == b"\xff\xe0\x04o5c2\x10\x03".as_slice()
    );
}
