//! Files that come in pieces: the results depend on their bytes only.
use crate::devices::Pieces;
use crate::end_rule::EndRule;
use crate::input::{FromRead, SliceIn};
use crate::source::FileSource;
use crate::texts::{given_text, loaded_text, push_next};
use std::alloc::Global;
use std::cell::Cell;

/// A node and its deletion, in o5m. The deletion refers to the user of the node.
pub(crate) const NODE_THEN_DELETION: &[u8] =
    b"\xff\xe0\x04o5m2\x10\x0b\x02\x01\x02\x02\x00\x01\x00a\x00\x00\x00\x10\x05\x00\x02\x02\x00\x01\xfe";

/// Two nodes, of which the second has the lesser key.
pub(crate) const UNSORTED: &[u8] = b"n2 v1 x1 y1\nn1 v1 x1 y1\n";

/// Whether a file that comes by `step` bytes a read is loaded as the text `loaded`, and given as the text `given`.
fn is_same(alloc: Global, file: &[u8], step: usize, loaded: &str, given: &str) -> bool {
    let read = Cell::new(0usize);
    let pieces = Pieces {
        rest: file,
        step,
        read: &read,
        fails: false,
    };
    let again = Pieces {
        rest: file,
        step,
        read: &read,
        fails: false,
    };
    let in_pieces = loaded_text(alloc, 0, FromRead::new(pieces));
    let given_in_pieces = given_text(alloc, FileSource::new(alloc, 0, FromRead::new(again)));
    in_pieces.as_str() == loaded && given_in_pieces.as_str() == given
}

/// Appends the lines of a text; of a line of 100 bytes or more it appends only the length.
fn push_abridged(text: &mut String, whole: &str) {
    for line in whole.lines() {
        let length = line.len();
        let _ = if length < 100 {
            writeln!(text, "{line}")
        } else {
            writeln!(text, "{length} bytes")
        };
    }
}

/// The result of loading a file, and each number of bytes in a read with which the result differs.
fn text_in_pieces(alloc: Global, file: &[u8]) -> String {
    let loaded = loaded_text(alloc, 0, SliceIn::new(file));
    let given = given_text(alloc, FileSource::new(alloc, 0, SliceIn::new(file)));
    let mut text = String::new(alloc);
    push_abridged(&mut text, loaded.as_str());
    for step in 1..4usize {
        if !is_same(alloc, file, step, loaded.as_str(), given.as_str()) {
            let _ = writeln!(text, "differs in pieces of {step}");
        }
    }
    text
}

/// A file, and the result of loading it.
type Row = (&'static [u8], &'static str);

/// A node and its deletion, in each format; in o5c with a reset, a lone byte and a data set that is skipped.
const FORMATS: [Row; 3] = [
    (
        b"# a comment\nn1 v1 c1 t1970-01-01T00:00:01Z i1 ua x0 y0\r\n\nn1 v2 dD c1 t1970-01-01T00:00:02Z i1 ua",
        "opl sorted\nn1 v1 dV c1 t1970-01-01T00:00:01Z i1 ua T x0 y0\nn1 v2 dD c1 t1970-01-01T00:00:02Z i1 ua T x y\n",
    ),
    (
        NODE_THEN_DELETION,
        "o5m sorted\nn1 v1 dV c1 t1970-01-01T00:00:01Z i1 ua T x0 y0\nn1 v2 dD c1 t1970-01-01T00:00:02Z i1 ua T x y\n",
    ),
    (
        b"\xff\xe0\x04o5c2\xdc\x01\x02\xf3\xff\x10\x0b\x02\x01\x02\x02\x00\x01\x00a\x00\x00\x00\x10\x05\x00\x02\x02\x00\
          \x01\xfe",
        "o5c sorted\nn1 v1 dV c1 t1970-01-01T00:00:01Z i1 ua T x0 y0\nn1 v2 dD c1 t1970-01-01T00:00:02Z i1 ua T x y\n",
    ),
];

const LINES: [Row; 6] = [
    (b"", "opl sorted\n"),
    (
        b"n1 v1 dV x9 y1\nn1 v1 dV x10 y1\nn1 v1 dV x9 y1\n",
        "opl sorted\nn1 v1 dV c0 t i0 u T x10 y1\nn1 v1 dV c0 t i0 u T x9 y1\n",
    ),
    (
        UNSORTED,
        "opl unsorted\nn1 v1 dV c0 t i0 u T x1 y1\nn2 v1 dV c0 t i0 u T x1 y1\n",
    ),
    (
        b"# \xff\r\n\nn1 v1 dD\r\r\n\nw2 v1 Nn1\nr7 v2 Mn1@a",
        "opl sorted\nn1 v1 dD c0 t i0 u T x y\nw2 v1 dV c0 t i0 u T Nn1\nr7 v2 dV c0 t i0 u T Mn1@a\n",
    ),
    (
        b"n1 v1 x1 y1\nn2 v1 q\nn3 v1 x1 y1\n",
        "file 0, byte 12: UnknownField\n",
    ),
    (
        b"n1 v3 dV c12 t2014-05-06T07:08:09Z i5 uanna Tnatural=tree x8.6868047 y49.0000001",
        "opl sorted\nn1 v3 dV c12 t2014-05-06T07:08:09Z i5 uanna Tnatural=tree x8.6868047 y49.0000001\n",
    ),
];

/// Empty files, two ways without references, skipped data sets, a deletion that ends after the changeset, and a
/// deletion that comes before the visible version of its key.
const DATA_SETS: [Row; 6] = [
    (b"\xff\xe0\x04o5m2\xfe", "o5m sorted\n"),
    (b"\xff\xe0\x04o5c2\xfe", "o5c sorted\n"),
    (
        b"\xff\xe0\x04o5c2\xff\x11\x04\x0a\x01\x00\x00\x11\x03\x00\x02\x00\xfe",
        "o5c sorted\nw5 v1 dV c0 t i0 u T N\nw5 v2 dD c0 t i0 u T N\n",
    ),
    (
        b"\xff\xe0\x04o5m2\xdc\x01\x02\xf3\xff\x10\x0b\x02\x01\x02\x02\x00\x01\x00a\x00\x00\x00\xfe",
        "o5m sorted\nn1 v1 dV c1 t1970-01-01T00:00:01Z i1 ua T x0 y0\n",
    ),
    (
        b"\xff\xe0\x04o5m2\x10\x04\x02\x01\x02\x02\xfe",
        "o5m sorted\nn1 v1 dD c1 t1970-01-01T00:00:01Z i0 u T x y\n",
    ),
    (
        b"\xff\xe0\x04o5m2\x10\x03\x02\x01\x00\x10\x0b\x00\x01\x00\x80\xda\xc4\x09\x80\xda\xc4\x09\xfe",
        "o5m sorted\nn1 v1 dV c0 t i0 u T x1 y1\nn1 v1 dD c0 t i0 u T x y\n",
    ),
];

/// A relation after a way: in one segment, and after a reset.
const MIXED_SEGMENT: [Row; 2] = [
    (
        b"\xff\xe0\x04o5m2\x11\x05\x02\x01\x00\x01\x02\x12\x08\x00\x01\x00\x04\x02\x000\x00\xfe",
        "file 0, byte 14: MixedSegment\n",
    ),
    (
        b"\xff\xe0\x04o5m2\x11\x05\x02\x01\x00\x01\x02\xff\x12\x08\x00\x01\x00\x04\x02\x000\x00\xfe",
        "o5m sorted\nw1 v1 dV c0 t i0 u T Nn1\nr0 v1 dV c0 t i0 u T Mn1@\n",
    ),
];

const HOSTILE_NUMBERS: [Row; 9] = [
    (
        b"\xff\xe0\x04o5m2\x10\xff\xff\xff\xff\xff\xff\xff\xff\xff\x01\xfe",
        "file 0, byte 7: Truncated\n",
    ),
    (
        b"\xff\xe0\x04o5m2\x10\xff\xff\xff\xff\xff\xff\xff\xff\xff\x02\xfe",
        "file 0, byte 7: BadNumber\n",
    ),
    (
        b"\xff\xe0\x04o5m2\x10\x80\x80\x80\x80\x80\x80\x80\x80\x80\x80\x00\xfe",
        "file 0, byte 7: BadNumber\n",
    ),
    (
        b"\xff\xe0\x04o5m2\x10\x80\x80\x80\x80\x80\x80\x80\x80\x80\x80",
        "file 0, byte 7: Truncated\n",
    ),
    (
        b"\xff\xe0\x04o5m2\x10\x01\x80\xfe",
        "file 0, byte 7: BadNumber\n",
    ),
    (
        b"\xff\xe0\x04o5m2\x10\x06\x02\x01\x00\x00\x00\x05\xfe",
        "file 0, byte 7: BadReference\n",
    ),
    (
        b"\xff\xe0\x04o5m2\x10\x07\x02\x01\x00\x00\x00\x80\x00\xfe",
        "file 0, byte 7: BadReference\n",
    ),
    (
        b"\xff\xe0\x04o5m2\x11\x04\x02\x01\x00\x05\xfe",
        "file 0, byte 7: BadSection\n",
    ),
    (b"\xff\xe0\x04o5m2\xfe\x00", "file 0, byte 8: AfterEnd\n"),
];

const LONGITUDE_WRAP: [Row; 2] = [
    (
        b"\xff\xe0\x04o5m2\x10\x09\x02\x01\x00\xff\xc7\xce\xb4\x0d\x00\x10\x09\x02\x01\x00\x80\x90\x9d\xe9\x1a\x00\xfe",
        "o5m sorted\nn1 v1 dV c0 t i0 u T x-180 y0\nn2 v1 dV c0 t i0 u T x180 y0\n",
    ),
    (
        b"\xff\xe0\x04o5m2\x10\x09\x02\x01\x00\xff\xc7\xce\xb4\x0d\x00\x10\x09\x02\x01\x00\xff\xef\xe2\x96\x05\x00\xfe",
        "o5m sorted\nn1 v1 dV c0 t i0 u T x-180 y0\nn2 v1 dV c0 t i0 u T x180 y0\n",
    ),
];

#[test]
fn files_in_pieces(rt: HostRuntime) {
    let tables: [&[Row]; 6] = [
        &FORMATS,
        &LINES,
        &DATA_SETS,
        &MIXED_SEGMENT,
        &HOSTILE_NUMBERS,
        &LONGITUDE_WRAP,
    ];
    for rows in tables {
        for (file, text) in rows {
            assert_eq!(rt; text_in_pieces(rt.alloc(), file).as_str(), *text);
        }
    }
}

/// The result of the first `length` bytes of the file of a node and its deletion, in pieces.
fn cut_text(alloc: Global, length: usize) -> String {
    match NODE_THEN_DELETION.get(..length) {
        Some(cut) => text_in_pieces(alloc, cut),
        None => String::new(alloc),
    }
}

#[test]
fn cut_file(rt: HostRuntime) {
    for (lengths, text) in [
        (0..1usize, "opl sorted\n"),
        (1..7, "file 0, byte 0: BadHeader\n"),
        (7..8, "file 0, byte 7: NoEnd\n"),
        (8..20, "file 0, byte 7: Truncated\n"),
        (20..21, "file 0, byte 20: NoEnd\n"),
        (21..27, "file 0, byte 20: Truncated\n"),
        (27..28, "file 0, byte 27: NoEnd\n"),
    ] {
        for length in lengths {
            assert_eq!(rt; cut_text(rt.alloc(), length).as_str(), text);
        }
    }
}

/// The result of loading a node with a tag and a second node that refers to this tag. The tag has the key `k` and a
/// value of `letters` letters. `length` is the length of the first data set, as o5m spells it.
fn long_tag_text(alloc: Global, length: &[u8], letters: usize) -> String {
    let mut file = Vec::new(alloc);
    let _ = file.extend_from_slice(b"\xff\xe0\x04o5m2\x10");
    let _ = file.extend_from_slice(length);
    let _ = file.extend_from_slice(b"\x02\x01\x00\x00\x00\x00k\x00");
    for _ in 0..letters {
        let _ = file.push(b'a');
    }
    let _ = file.extend_from_slice(b"\x00\x10\x06\x02\x01\x00\x00\x00\x01\xfe");
    text_in_pieces(alloc, &file)
}

/// Appends a file of two nodes. The first has the tags `1` to `15001` with empty values. The second has one tag, which
/// `reference` refers to.
fn push_many_tags(alloc: Global, file: &mut Vec<u8>, reference: &[u8]) {
    let mut tags = String::new(alloc);
    for key in 1..15_002u32 {
        let _ = write!(tags, "\0{key}\0\0");
    }
    let _ = file.extend_from_slice(b"\xff\xe0\x04o5m2\x10\xeb\xd2\x06\x02\x01\x00\x00\x00");
    let _ = file.extend_from_slice(tags.as_bytes());
    let _ = file.extend_from_slice(b"\x10\x07\x02\x01\x00\x00\x00");
    let _ = file.extend_from_slice(reference);
    let _ = file.push(b'\xfe');
}

/// The result of loading the file of `push_many_tags`, of which each read gives `step` bytes.
fn many_tags_text(alloc: Global, reference: &[u8], step: usize) -> String {
    let mut file = Vec::new(alloc);
    push_many_tags(alloc, &mut file, reference);
    let read = Cell::new(0usize);
    let pieces = Pieces {
        rest: &file,
        step,
        read: &read,
        fails: false,
    };
    let loaded = loaded_text(alloc, 0, FromRead::new(pieces));
    let mut text = String::new(alloc);
    push_abridged(&mut text, loaded.as_str());
    text
}

#[test]
fn table_limits(rt: HostRuntime) {
    let alloc = rt.alloc();
    for (length, letters, text) in [
        (
            b"\x82\x02".as_slice(),
            249,
            "o5m sorted\n277 bytes\n277 bytes\n",
        ),
        (b"\x83\x02", 250, "file 0, byte 269: BadReference\n"),
    ] {
        assert_eq!(rt; long_tag_text(alloc, length, letters).as_str(), text);
    }
}

/// The reference 15000 is the key `2`, and 15001 is no entry.
#[test]
fn full_table_in_pieces(rt: HostRuntime) {
    let held = "o5m sorted\n93926 bytes\nn2 v1 dV c0 t i0 u T2= x0 y0\n";
    for (step, reference, text) in [
        (1, b"\x98\x75".as_slice(), held),
        (2, b"\x98\x75", held),
        (3, b"\x98\x75", held),
        (4_096, b"\x98\x75", held),
        (4_096, b"\x99\x75", "file 0, byte 108918: BadReference\n"),
    ] {
        assert_eq!(rt; many_tags_text(rt.alloc(), reference, step).as_str(), text);
    }
}

/// The result of a file whose first line is longer than any buffer.
fn long_line_text(alloc: Global) -> String {
    let mut file = Vec::new(alloc);
    let _ = file.extend_from_slice(b"n1 v1 dV x1 y1 Tk=");
    let _ = file.resize(300_000, b'a');
    let _ = file.extend_from_slice(b"\nn2 v1 dV x1 y1\n");
    text_in_pieces(alloc, &file)
}

#[test]
fn long_line_in_pieces(rt: HostRuntime) {
    let text = "opl sorted\n300010 bytes\nn2 v1 dV c0 t i0 u T x1 y1\n";
    assert_eq!(rt; long_line_text(rt.alloc()).as_str(), text);
}

/// The versions of a file with a comment of 200,000 bytes and `after` after it. The file comes by `step` bytes a read
/// and has to end as `end` says.
fn long_comment_text(alloc: Global, end: EndRule, after: &[u8], step: usize) -> String {
    let mut file = Vec::new(alloc);
    let _ = file.extend_from_slice(b"n1 v1 x1 y1\n#");
    let _ = file.resize(200_012, b'a');
    let _ = file.extend_from_slice(after);
    let read = Cell::new(0usize);
    let pieces = Pieces {
        rest: &file,
        step,
        read: &read,
        fails: false,
    };
    given_text(
        alloc,
        FileSource::with_peers(alloc, 0, end, FromRead::new(pieces), 1),
    )
}

#[test]
fn long_comment_in_pieces(rt: HostRuntime) {
    let given = "n1 v1 dV c0 t i0 u T x1 y1\nend\nend\nend\n";
    let more = "n1 v1 dV c0 t i0 u T x1 y1\nn2 v1 dV c0 t i0 u T x1 y1\nend\nend\nend\n";
    let faulty =
        "file 0, byte 200014: NoLocation\nfile 0, byte 0: Failed\nfile 0, byte 0: Failed\n";
    let cut = "file 0, byte 200012: NoEnd\nfile 0, byte 0: Failed\nfile 0, byte 0: Failed\n";
    for (end, after, text) in [
        (EndRule::Any, b"".as_slice(), given),
        (EndRule::Any, b"\nn2 v1 x1 y1", more),
        (EndRule::Any, b"\r\nn2 v1 x1\n", faulty),
        (EndRule::LineFeed, b"\n", given),
        (EndRule::LineFeed, b"", cut),
        (EndRule::Mark, b"\n# end\n", given),
        (EndRule::Mark, b"", cut),
    ] {
        for step in [1, 4_096, 65_536] {
            assert_eq!(rt;
                long_comment_text(rt.alloc(), end, after, step).as_str(),
                text
            );
        }
    }
}

/// The versions of a file of a node and a line of three parts, of which the second is repeated 70,000 times. The file
/// comes by `step` bytes a read and has to end as `end` says. After its last byte the reader fails if `fails` is set.
fn unknown_line_text(
    alloc: Global,
    line: [&[u8]; 3],
    end: EndRule,
    fails: bool,
    step: usize,
) -> String {
    let [front, repeated, after] = line;
    let mut file = Vec::new(alloc);
    let _ = file.extend_from_slice(b"n1 v1 x1 y1\n");
    let _ = file.extend_from_slice(front);
    for _ in 0..70_000 {
        let _ = file.extend_from_slice(repeated);
    }
    let _ = file.extend_from_slice(after);
    let read = Cell::new(0usize);
    let pieces = Pieces {
        rest: &file,
        step,
        read: &read,
        fails,
    };
    given_text(
        alloc,
        FileSource::with_peers(alloc, 0, end, FromRead::new(pieces), 1),
    )
}

/// A long line that begins no version has the place and the reason of a short one. Characters of two bytes are cut
/// where a read ends.
#[test]
fn unknown_line_in_pieces(rt: HostRuntime) {
    let unknown = "file 0, byte 12: UnknownKind\n";
    let not_utf8 = "file 0, byte 12: NotUtf8\n";
    let more = b"\nn2 v1 x1 y1\n".as_slice();
    for (line, text) in [
        ([b"".as_slice(), b"\0\0", more], unknown),
        ([b"", b"\0\0", b""], unknown),
        ([b" n1", b"\xc3\xa9", more], unknown),
        ([b" n1", b"\xc3\xa9", b""], unknown),
        ([b" n1", b"\xc3\xa9", b"\xff\n"], not_utf8),
        ([b" n1", b"\xc3\xa9", b"\xc3"], not_utf8),
        ([b" n1", b"\xa9\xc3", more], not_utf8),
    ] {
        for step in [1, 4_096, 65_536] {
            let given = unknown_line_text(rt.alloc(), line, EndRule::Any, false, step);
            assert_eq!(rt; given.as_str().starts_with(text), true);
        }
    }
}

/// Where a long line that begins no version is the last one, a missing end and a failed read come first.
#[test]
fn unknown_line_at_the_end(rt: HostRuntime) {
    let (rule, unknown) = (EndRule::LineFeed, "file 0, byte 12: UnknownKind\n");
    for (after, end, fails, text) in [
        (b"\n".as_slice(), rule, false, unknown),
        (b"", rule, false, "file 0, byte 140012: NoEnd\n"),
        (b"", EndRule::Any, true, "file 0, byte 140012: ReadFault\n"),
    ] {
        for step in [1, 4_096, 65_536] {
            let given = unknown_line_text(rt.alloc(), [b"", b"\0\0", after], end, fails, step);
            assert_eq!(rt; given.as_str().starts_with(text), true);
        }
    }
}

/// Five nodes, each in a line of 15 bytes.
const NODES: &[u8] =
    b"n1 v1 dV x1 y1\nn2 v1 dV x1 y1\nn3 v1 dV x1 y1\nn4 v1 dV x1 y1\nn5 v1 dV x1 y1\n";

/// The first version of the five nodes, and whether at most 30 bytes were read for it.
fn first_text(alloc: Global) -> String {
    let mut text = String::new(alloc);
    let read = Cell::new(0usize);
    let pieces = Pieces {
        rest: NODES,
        step: 1,
        read: &read,
        fails: false,
    };
    if let Ok(mut source) = FileSource::new(alloc, 0, FromRead::new(pieces)) {
        push_next(alloc, &mut text, &mut source);
    }
    let _ = writeln!(text, "{}", read.get() <= 30);
    text
}

/// The versions of a source whose reader fails after 30 bytes.
fn broken_text(alloc: Global) -> String {
    let read = Cell::new(0usize);
    let pieces = Pieces {
        rest: &NODES[..30],
        step: 1,
        read: &read,
        fails: true,
    };
    given_text(alloc, FileSource::new(alloc, 0, FromRead::new(pieces)))
}

#[test]
fn read_ahead(rt: HostRuntime) {
    let alloc = rt.alloc();
    assert_eq!(rt;
        first_text(alloc).as_str(),
        "n1 v1 dV c0 t i0 u T x1 y1\ntrue\n"
    );
    assert_eq!(rt;
        broken_text(alloc).as_str(),
        "n1 v1 dV c0 t i0 u T x1 y1\nfile 0, byte 30: ReadFault\nfile 0, byte 0: Failed\nfile 0, byte 0: Failed\n"
    );
}
