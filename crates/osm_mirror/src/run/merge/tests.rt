//! Whole files merged, with their output and their faults worked out by hand.
use crate::run::merge::run_merge;
use crate::tests::{NODE_THEN_DELETION, readers};
use osm_files::{Fault, Format, FromRead, Input, Reason, SliceIn, ToWrite, VecOut};
use osm_merge::Counts;
use std::alloc::Global;
use std::io;
use std::io::{Read, Write};
use std::process::Abort;

const A: &[u8] = b"n1 v1 dV x1.5 y2\n";

const B: &[u8] = b"n1 v2 dV x1.5 y3\n";

const BOTH: &[u8] = b"n1 v1 dV c0 t i0 u T x1.5 y2\nn1 v2 dV c0 t i0 u T x1.5 y3\n";

/// The result of a merge of `inputs` in the format `format`, and the bytes that it wrote.
fn merged<R: Input + Drop>(
    alloc: Global,
    inputs: Vec<R>,
    format: Format,
) -> (Result<Counts, Fault>, Vec<u8>) {
    let mut out = VecOut::new(alloc);
    let outcome = run_merge(alloc, inputs, format, &mut out);
    (outcome, out.into_vec())
}

/// The output of a merge of `files` to OPL, and then its counts or its fault.
fn merged_text(alloc: Global, files: &[&[u8]]) -> String {
    let mut text = String::new(alloc);
    let (outcome, written) = merged(alloc, readers(alloc, files), Format::Opl);
    let _ = text.push_str(str::from_utf8(&written).unwrap_or("?"));
    let _ = match outcome {
        Ok(counts) => writeln!(text, "read {}, written {}", counts.read, counts.written),
        Err(fault) => writeln!(text, "{fault}"),
    };
    text
}

/// Files, and the text of their merge to OPL.
type Row = (&'static [&'static [u8]], &'static str);

/// Asserts that the merge of each row has its text.
fn assert_rows<R: AllocGlobal + Abort>(rt: &R, rows: &[Row]) {
    for (files, text) in rows {
        assert_eq!(rt; merged_text(rt.alloc(), files).as_str(), *text);
    }
}

const TWO_VERSIONS: &[Row] = &[
    (
        &[A, B],
        "n1 v1 dV c0 t i0 u T x1.5 y2\nn1 v2 dV c0 t i0 u T x1.5 y3\nread 2, written 2\n",
    ),
    (
        &[B, A, A],
        "n1 v1 dV c0 t i0 u T x1.5 y2\nn1 v2 dV c0 t i0 u T x1.5 y3\nread 3, written 2\n",
    ),
];

#[test]
fn merge_two_versions(rt: HostRuntime) {
    assert_rows(&rt, TWO_VERSIONS);
}

const NOTHING: &[Row] = &[
    (&[], "read 0, written 0\n"),
    (&[b"", b"\n\r\n# n1 v1 \xff\n"], "read 0, written 0\n"),
];

#[test]
fn empty_inputs(rt: HostRuntime) {
    assert_rows(&rt, NOTHING);
    assert_written(&rt, EMPTY);
}

const TWO_LOCATIONS: &[Row] = &[(
    &[b"n1 v1 dV x9 y1\n", b"n1 v1 dV x10 y1\n"],
    "n1 v1 dV c0 t i0 u T x10 y1\nn1 v1 dV c0 t i0 u T x9 y1\nread 2, written 2\n",
)];

#[test]
fn same_key_two_locations(rt: HostRuntime) {
    assert_rows(&rt, TWO_LOCATIONS);
}

const TIE: &[Row] = &[(
    &[b"n1 v1 dD\n", b"n1 v1 dV x1 y1\n"],
    "n1 v1 dV c0 t i0 u T x1 y1\nn1 v1 dD c0 t i0 u T x y\nread 2, written 2\n",
)];

#[test]
fn visible_and_deleted_tie(rt: HostRuntime) {
    assert_rows(&rt, TIE);
}

const ANY_ORDER: &[Row] = &[
    (
        &[b"n1 v1 dV x9 y1\nn1 v1 dV x10 y1\n"],
        "n1 v1 dV c0 t i0 u T x10 y1\nn1 v1 dV c0 t i0 u T x9 y1\nread 2, written 2\n",
    ),
    (
        &[b"n1 v1 dV x9 y1\nn1 v1 dV x10 y1\nn1 v1 dV x9 y1\n"],
        "n1 v1 dV c0 t i0 u T x10 y1\nn1 v1 dV c0 t i0 u T x9 y1\nread 2, written 2\n",
    ),
];

#[test]
fn key_group_in_any_order(rt: HostRuntime) {
    assert_rows(&rt, ANY_ORDER);
}

/// Lines as others write them: blanks, fields in any order, leading zeros, CR and LF, a last line without its end,
/// contents of a deletion.
const WRITTEN_ELSEWHERE: &[Row] = &[
    (
        &[
            b"# a comment\r\nn-0\tv01  x-0.0 y00 \r\rn1 y0.0000001 x-180 T u i0 t c0 dV v2\nn2 v1 dD x1 y",
        ],
        "n0 v1 dV c0 t i0 u T x0 y0\nn1 v2 dV c0 t i0 u T x-180 y0.0000001\nn2 v1 dD c0 t i0 u T x y\n\
         read 3, written 3\n",
    ),
    (
        &[b"\r\n\nn1 v1 dD\r\r\n\n#\rn2 v1 dD"],
        "n1 v1 dD c0 t i0 u T x y\nn2 v1 dD c0 t i0 u T x y\nread 2, written 2\n",
    ),
    (
        &[b"n1 v1 dD\n\rn2 v1 dD\r"],
        "n1 v1 dD c0 t i0 u T x y\nn2 v1 dD c0 t i0 u T x y\nread 2, written 2\n",
    ),
    (
        &[b"# n1 v1 dD \xff\nn1 v1 dD \t \nn2\tv1  dD\n"],
        "n1 v1 dD c0 t i0 u T x y\nn2 v1 dD c0 t i0 u T x y\nread 2, written 2\n",
    ),
    (
        &[
            b"w5 v1 Nn1,n-2\nr6 v1 dV Mw5@outer,n1@\n",
            b"w5 v2 dD Nn1\r\nr6 v1 Tb=1,a=2 Mw5@outer,n1@",
        ],
        "w5 v1 dV c0 t i0 u T Nn1,n-2\nw5 v2 dD c0 t i0 u T N\nr6 v1 dV c0 t i0 u T Mw5@outer,n1@\n\
         r6 v1 dV c0 t i0 u Ta=2,b=1 Mw5@outer,n1@\nread 4, written 4\n",
    ),
];

#[test]
fn lines_are_read_as_they_are_written_elsewhere(rt: HostRuntime) {
    assert_rows(&rt, WRITTEN_ELSEWHERE);
}

const UNSORTED: &[Row] = &[(
    &[b"n2 v1 x1 y1\nn1 v1 x1 y1\n"],
    "file 0, byte 12: Unsorted\n",
)];

#[test]
fn unsorted_file(rt: HostRuntime) {
    assert_rows(&rt, UNSORTED);
}

const FAULTY: &[Row] = &[
    (&[b"n1 dV x1 y1"], "file 0, byte 0: NoVersion\n"),
    (&[b"n1 v0 dV x1 y1"], "file 0, byte 0: NoVersion\n"),
    (&[b"n1 v1 dV x y"], "file 0, byte 0: NoLocation\n"),
    (&[b"\n\n \n"], "file 0, byte 2: UnknownKind\n"),
    (
        &[b"n1 v1 x1 y1\nn1 vx x1 y1\n"],
        "file 0, byte 12: BadNumber\n",
    ),
    (&[A, b"n1 v1 d"], "file 1, byte 0: BadText\n"),
    (&[b"n1 v1 dD\rn2 \x80"], "file 0, byte 9: NotUtf8\n"),
    (&[b"n1 v1 c5 x1 y1"], "file 0, byte 0: NoTime\n"),
    (&[b"\n n1 v1"], "file 0, byte 1: UnknownKind\n"),
    (&[b"n1 v1 Ta=b=c x1 y1"], "file 0, byte 0: BadList\n"),
    (&[b"n1 v1 ua=b x1 y1"], "file 0, byte 0: BadText\n"),
];

#[test]
fn a_faulty_line_is_refused_at_its_place(rt: HostRuntime) {
    assert_rows(&rt, FAULTY);
}

const REAL: &[Row] = &[
    (
        &[b"n1 v3 dV c12 t2014-05-06T07:08:09Z i5 uanna Tnatural=tree x8.6868047 y49.0000001\n"],
        "n1 v3 dV c12 t2014-05-06T07:08:09Z i5 uanna Tnatural=tree x8.6868047 y49.0000001\nread 1, written 1\n",
    ),
    (
        &[
            b"\xff\xe0\x04o5m2\xdc\x01\x02\xf3\xff\x10\x0b\x02\x01\x02\x02\x00\x01\x00a\x00\x00\x00\xfe",
        ],
        "n1 v1 dV c1 t1970-01-01T00:00:01Z i1 ua T x0 y0\nread 1, written 1\n",
    ),
];

#[test]
fn real_line_and_skipped_sets(rt: HostRuntime) {
    assert_rows(&rt, REAL);
}

const TEXTS: &[Row] = &[(
    &[b"r7 v1 dV c1 t1970-01-01T00:00:01Z i1 ua%20%b T%1F600%=%3d%,%e9%=1 Mn1@\xe2\x82\xac\n"],
    "r7 v1 dV c1 t1970-01-01T00:00:01Z i1 ua%20%b Té=1,%1f600%=%3d% Mn1@%20ac%\nread 1, written 1\n",
)];

#[test]
fn canonical_texts(rt: HostRuntime) {
    assert_rows(&rt, TEXTS);
}

const TIES: &[Row] = &[
    (
        &[b"n1 v1 x1 y1 T\xc3\xa9=1\n", b"n1 v1 x1 y1 T%1f600%=1\n"],
        "n1 v1 dV c0 t i0 u T%1f600%=1 x1 y1\nn1 v1 dV c0 t i0 u Té=1 x1 y1\nread 2, written 2\n",
    ),
    (
        &[b"w1 v1 Nn1\n", b"w1 v1\n"],
        "w1 v1 dV c0 t i0 u T N\nw1 v1 dV c0 t i0 u T Nn1\nread 2, written 2\n",
    ),
    (
        &[b"n1 v1 x1.5 y1\n", b"n1 v1 x1 y1\n"],
        "n1 v1 dV c0 t i0 u T x1 y1\nn1 v1 dV c0 t i0 u T x1.5 y1\nread 2, written 2\n",
    ),
];

#[test]
fn byte_order_ties(rt: HostRuntime) {
    assert_rows(&rt, TIES);
}

const MIXED: &[Row] = &[
    (
        &[b"\xff\xe0\x04o5m2\x11\x05\x02\x01\x00\x01\x02\x12\x08\x00\x01\x00\x04\x02\x000\x00\xfe"],
        "file 0, byte 14: MixedSegment\n",
    ),
    (
        &[
            b"\xff\xe0\x04o5m2\x11\x05\x02\x01\x00\x01\x02\xff\x12\x08\x00\x01\x00\x04\x02\x000\x00\xfe",
        ],
        "w1 v1 dV c0 t i0 u T Nn1\nr0 v1 dV c0 t i0 u T Mn1@\nread 2, written 2\n",
    ),
];

#[test]
fn mixed_segment(rt: HostRuntime) {
    assert_rows(&rt, MIXED);
}

const HOSTILE: &[Row] = &[
    (
        &[b"\xff\xe0\x04o5m2\x10\xff\xff\xff\xff\xff\xff\xff\xff\xff\x01\xfe"],
        "file 0, byte 7: Truncated\n",
    ),
    (
        &[b"\xff\xe0\x04o5m2\x10\xff\xff\xff\xff\xff\xff\xff\xff\xff\x02\xfe"],
        "file 0, byte 7: BadNumber\n",
    ),
    (
        &[b"\xff\xe0\x04o5m2\x10\x80\x80\x80\x80\x80\x80\x80\x80\x80\x80\x00\xfe"],
        "file 0, byte 7: BadNumber\n",
    ),
    (
        &[b"\xff\xe0\x04o5m2\x10\x80\x80\x80\x80\x80\x80\x80\x80\x80\x80"],
        "file 0, byte 7: Truncated\n",
    ),
    (
        &[b"\xff\xe0\x04o5m2\x10\x01\x80\xfe"],
        "file 0, byte 7: BadNumber\n",
    ),
];

#[test]
fn hostile_numbers(rt: HostRuntime) {
    assert_rows(&rt, HOSTILE);
}

/// The text of a merge of the first `length` bytes of `NODE_THEN_DELETION`.
fn cut_text(alloc: Global, length: usize) -> String {
    merged_text(alloc, &[NODE_THEN_DELETION.get(..length).unwrap_or(b"?")])
}

const BYTE_AFTER_THE_END: &[Row] = &[(
    &[
        b"\xff\xe0\x04o5m2\x10\x0b\x02\x01\x02\x02\x00\x01\x00a\x00\x00\x00\x10\x05\x00\x02\x02\x00\x01\xfe\x00",
    ],
    "n1 v1 dV c1 t1970-01-01T00:00:01Z i1 ua T x0 y0\nfile 0, byte 28: AfterEnd\n",
)];

#[test]
fn cut_file(rt: HostRuntime) {
    for (lengths, text) in [
        (0..1usize, "read 0, written 0\n"),
        (1..7, "file 0, byte 0: BadHeader\n"),
        (7..8, "file 0, byte 7: NoEnd\n"),
        (8..20, "file 0, byte 7: Truncated\n"),
        (20..21, "file 0, byte 20: NoEnd\n"),
        (21..27, "file 0, byte 20: Truncated\n"),
        (
            27..28,
            "n1 v1 dV c1 t1970-01-01T00:00:01Z i1 ua T x0 y0\nfile 0, byte 27: NoEnd\n",
        ),
    ] {
        for length in lengths {
            assert_eq!(rt; cut_text(rt.alloc(), length).as_str(), text);
        }
    }
    assert_rows(&rt, BYTE_AFTER_THE_END);
}

/// The bytes that a merge of `files` in the format `format` writes; none if it is refused.
fn written(alloc: Global, files: &[&[u8]], format: Format) -> Vec<u8> {
    let (outcome, written) = merged(alloc, readers(alloc, files), format);
    if outcome.is_ok() {
        written
    } else {
        Vec::new(alloc)
    }
}

/// Files, a format, and the bytes that are written.
type WrittenRow = (&'static [&'static [u8]], Format, &'static [u8]);

/// Asserts that the merge of each row writes its bytes.
fn assert_written<R: AllocGlobal + Abort>(rt: &R, rows: &[WrittenRow]) {
    for (files, format, bytes) in rows {
        assert_eq!(rt; written(rt.alloc(), files, *format).as_slice(), *bytes);
    }
}

const EMPTY: &[WrittenRow] = &[
    (&[], Format::O5m, b"\xff\xe0\x04o5m2\xfe"),
    (
        &[b"\xff\xe0\x04o5m2\xfe", b""],
        Format::O5c,
        b"\xff\xe0\x04o5c2\xfe",
    ),
    (&[b"\xff\xe0\x04o5c2\xfe"], Format::Opl, b""),
];

/// The lines of the node and its deletion.
const LINES: &[u8] =
    b"n1 v1 dV c1 t1970-01-01T00:00:01Z i1 ua T x0 y0\nn1 v2 dD c1 t1970-01-01T00:00:02Z i1 ua T x y\n";

/// The node and its deletion in o5c.
const O5C: &[u8] =
    b"\xff\xe0\x04o5c2\x10\x0b\x02\x01\x02\x02\x00\x01\x00a\x00\x00\x00\x10\x05\x00\x02\x02\x00\x01\xfe";

const THREE_FORMATS: &[WrittenRow] = &[
    (&[LINES], Format::Opl, LINES),
    (&[NODE_THEN_DELETION], Format::Opl, LINES),
    (&[O5C], Format::Opl, LINES),
    (&[LINES, LINES], Format::O5m, NODE_THEN_DELETION),
    (
        &[NODE_THEN_DELETION, LINES],
        Format::O5m,
        NODE_THEN_DELETION,
    ),
    (&[O5C, LINES], Format::O5m, NODE_THEN_DELETION),
    (&[NODE_THEN_DELETION, LINES, O5C], Format::O5c, O5C),
    (
        &[NODE_THEN_DELETION, NODE_THEN_DELETION, O5C],
        Format::O5c,
        O5C,
    ),
    (&[NODE_THEN_DELETION, O5C, O5C], Format::O5c, O5C),
];

#[test]
fn node_then_deletion_o5m(rt: HostRuntime) {
    assert_written(&rt, THREE_FORMATS);
}

const WAYS: &[WrittenRow] = &[
    (
        &[b"w5 v1 dV\n", b"w5 v2 dD\n"],
        Format::O5m,
        b"\xff\xe0\x04o5m2\xff\x11\x04\x0a\x01\x00\x00\x11\x03\x00\x02\x00\xfe",
    ),
    (
        &[b"\xff\xe0\x04o5m2\xff\x11\x04\x0a\x01\x00\x00\x11\x03\x00\x02\x00\xfe"],
        Format::Opl,
        b"w5 v1 dV c0 t i0 u T N\nw5 v2 dD c0 t i0 u T N\n",
    ),
];

#[test]
fn way_without_references(rt: HostRuntime) {
    assert_written(&rt, WAYS);
}

/// Two nodes at the longitudes -180 and 180, by the plain difference.
const PLAIN: &[u8] =
    b"\xff\xe0\x04o5m2\x10\x09\x02\x01\x00\xff\xc7\xce\xb4\x0d\x00\x10\x09\x02\x01\x00\x80\x90\x9d\xe9\x1a\x00\xfe";

/// The same nodes, by a difference that wraps around.
const WRAPPED: &[u8] =
    b"\xff\xe0\x04o5m2\x10\x09\x02\x01\x00\xff\xc7\xce\xb4\x0d\x00\x10\x09\x02\x01\x00\xff\xef\xe2\x96\x05\x00\xfe";

const LONGITUDES: &[WrittenRow] = &[
    (&[PLAIN], Format::O5m, PLAIN),
    (&[WRAPPED], Format::O5m, PLAIN),
];

#[test]
fn longitude_wrap(rt: HostRuntime) {
    assert_written(&rt, LONGITUDES);
}

const DELETION_LAST: &[u8] =
    b"\xff\xe0\x04o5m2\x10\x0b\x02\x01\x00\x80\xda\xc4\x09\x80\xda\xc4\x09\x10\x03\x00\x01\x00\xfe";

const OLD_ORDER: &[WrittenRow] = &[
    (
        &[
            b"\xff\xe0\x04o5m2\x10\x03\x02\x01\x00\x10\x0b\x00\x01\x00\x80\xda\xc4\x09\x80\xda\xc4\x09\xfe",
        ],
        Format::O5m,
        DELETION_LAST,
    ),
    (&[DELETION_LAST], Format::O5m, DELETION_LAST),
];

#[test]
fn old_order_files(rt: HostRuntime) {
    assert_written(&rt, OLD_ORDER);
}

/// The number of comparisons of a merge of `files`; the greatest number if the merge is refused.
fn compared(alloc: Global, files: &[&[u8]]) -> u64 {
    let mut out = VecOut::new(alloc);
    match run_merge(alloc, readers(alloc, files), Format::Opl, &mut out) {
        Ok(counts) => counts.compared,
        Err(_) => u64::MAX,
    }
}

/// Files, and the least and the most comparisons of their merge.
const COMPARISONS: &[(&[&[u8]], u64, u64)] = &[
    (&[], 0, 0),
    (&[BOTH], 1, 2),
    (&[B, A, A], 2, 11),
    (
        &[
            b"n1 v1 dD\nn5 v1 dD\n",
            b"n2 v1 dD\nn6 v1 dD\n",
            b"n3 v1 dD\nn7 v1 dD\n",
            b"n4 v1 dD\nn8 v1 dD\n",
        ],
        7,
        27,
    ),
];

#[test]
fn comparison_bounds(rt: HostRuntime) {
    for (files, least, most) in COMPARISONS {
        let compared = compared(rt.alloc(), files);
        assert!(rt; *least <= compared && compared <= *most);
    }
}

/// A writer that takes one byte in each write until it has taken `capacity` bytes, and then fails. Its flush fails
/// unless `flushes` is set.
#[derive(Drop)]
struct Narrow<'a> {
    taken: &'a mut Vec<u8>,
    capacity: usize,
    flushes: bool,
}

impl Write for Narrow<'_> {
    fn write(&mut self, bytes: &[u8]) -> io::Result<usize> {
        match bytes.first() {
            Some(byte) if self.taken.len() < self.capacity => {
                self.taken.push(*byte)?;
                Ok(1)
            }
            _ => Err(io::Error::from(io::ErrorKind::Interrupted)),
        }
    }

    fn flush(&mut self) -> io::Result<()> {
        if self.flushes {
            Ok(())
        } else {
            Err(io::Error::from(io::ErrorKind::Interrupted))
        }
    }
}

/// Whether a merge of A and B to a writer that takes `capacity` bytes fails there, and the writer took the front of the
/// file.
fn fails_after(alloc: Global, capacity: usize, flushes: bool) -> bool {
    let mut taken = Vec::new(alloc);
    let device = Narrow {
        taken: &mut taken,
        capacity,
        flushes,
    };
    let outcome = run_merge(
        alloc,
        readers(alloc, &[A, B]),
        Format::Opl,
        &mut ToWrite::new(device),
    );
    let fault = Fault {
        input: 2,
        place: capacity as u64,
        reason: Reason::WriteFault,
    };
    outcome == Err(fault) && BOTH.get(..capacity) == Some(taken.as_slice())
}

#[test]
fn failing_devices(rt: HostRuntime) {
    for capacity in 0..58usize {
        assert!(rt; fails_after(rt.alloc(), capacity, true));
    }
    assert!(rt; fails_after(rt.alloc(), 58, false));
}

/// A reader that gives `step` bytes in each read, and then ends or fails.
#[derive(Drop)]
struct Slow<'a> {
    rest: &'a [u8],
    step: usize,
    fails: bool,
}

impl Read for Slow<'_> {
    fn read(&mut self, buffer: &mut [u8]) -> io::Result<usize> {
        if self.rest.is_empty() && self.fails {
            return Err(io::Error::from(io::ErrorKind::Interrupted));
        }
        let count = self.step.min(self.rest.len()).min(buffer.len());
        let (front, rest) = self.rest.split_at(count);
        buffer[..count].copy_from_slice(front);
        self.rest = rest;
        Ok(count)
    }
}

/// The output of a merge to OPL of two files, of which each read gives `step` bytes, and the fault, if there is one.
/// The second file fails if `fails` is set.
fn slow_text(alloc: Global, files: [&[u8]; 2], step: usize, fails: bool) -> String {
    let mut inputs = Vec::new(alloc);
    let [rest, second] = files;
    let _ = inputs.push(FromRead::new(Slow {
        rest,
        step,
        fails: false,
    }));
    let _ = inputs.push(FromRead::new(Slow {
        rest: second,
        step,
        fails,
    }));
    let mut text = String::new(alloc);
    let (outcome, written) = merged(alloc, inputs, Format::Opl);
    let _ = text.push_str(str::from_utf8(&written).unwrap_or("?"));
    if let Err(fault) = outcome {
        let _ = writeln!(text, "{fault}");
    }
    text
}

#[test]
fn files_come_in_any_pieces(rt: HostRuntime) {
    let text =
        "n1 v1 dV c1 t1970-01-01T00:00:01Z i1 ua T x0 y0\nn1 v2 dD c1 t1970-01-01T00:00:02Z i1 ua T x y\n";
    for step in 1..4usize {
        assert_eq!(rt;
            slow_text(rt.alloc(), [NODE_THEN_DELETION, LINES], step, false).as_str(),
            text
        );
    }
}

#[test]
fn a_reader_that_fails_is_named(rt: HostRuntime) {
    assert_eq!(rt;
        slow_text(rt.alloc(), [A, B], 1, true).as_str(),
        "file 1, byte 17: ReadFault\n"
    );
}

/// The output of a merge in the format `format` of `count` inputs that hold the same versions. The inputs are `files`
/// by turns, beginning with the file at the index `first`.
fn in_turns(
    alloc: Global,
    files: [&[u8]; 3],
    first: usize,
    count: usize,
    format: Format,
) -> Vec<u8> {
    let mut inputs = Vec::new(alloc);
    for turn in 0..count {
        let _ = inputs.push(SliceIn::new(files[first.saturating_add(turn) % 3]));
    }
    let (outcome, written) = merged(alloc, inputs, format);
    if outcome.is_ok() {
        written
    } else {
        Vec::new(alloc)
    }
}

/// Whether `count` inputs by turns make `files`, whichever file is first.
fn is_same_in_turns(alloc: Global, files: [&[u8]; 3], count: usize) -> bool {
    for first in 0..3usize {
        for (format, file) in [Format::Opl, Format::O5m, Format::O5c]
            .into_iter()
            .zip(files)
        {
            if in_turns(alloc, files, first, count, format).as_slice() != file {
                return false;
            }
        }
    }
    true
}

/// A node, a way and a relation.
const ALL_KINDS: &[u8] =
    b"n1 v1 dV c1 t1970-01-01T00:00:01Z i1 ua T x0 y0\nw5 v1 dV c0 t i0 u Ta=b Nn1,n-2\n\
      r6 v2 dV c0 t i0 u T Mw5@outer,n1@\n";

/// Whether `count` inputs that hold `ALL_KINDS`, in the three formats by turns, make one file in each format.
fn is_one_mixture(alloc: Global, count: usize) -> bool {
    let o5m = written(alloc, &[ALL_KINDS], Format::O5m);
    let o5c = written(alloc, &[ALL_KINDS], Format::O5c);
    is_same_in_turns(alloc, [ALL_KINDS, &o5m, &o5c], count)
}

#[test]
fn mixtures_of_formats(rt: HostRuntime) {
    for count in [1, 2, 3, 7, 64] {
        assert!(rt; is_one_mixture(rt.alloc(), count));
    }
}
