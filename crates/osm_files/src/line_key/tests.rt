//! Keys of single lines.
use super::{read_key, usual_key};
use opl_line::{LineReader, read_line};
use osm_model::Key;
use std::alloc::Global;

/// Whether the key of `line` is that of the version of the whole line, or both readings return the same without one.
fn has_key_of_whole_line(alloc: Global, line: &[u8]) -> bool {
    let mut reader = LineReader::new(alloc);
    match (read_key(&mut reader, line), read_line(alloc, line)) {
        (Ok(Some(key)), Ok(Some(version))) => key == Key::of(&version),
        (Ok(None), Ok(None)) => true,
        (Err(found), Err(reason)) => found == reason,
        _ => false,
    }
}

#[test]
fn keys_are_those_of_whole_lines(rt: HostRuntime) {
    let alloc = rt.alloc();
    for (line, is_usual) in [
        (b"n1 v1 dD".as_slice(), true),
        (b"w-12 v7 dD Tk=v", true),
        (b"r0 v999999999 dD", true),
        (b"n007 v02 dD c1 t2015-01-02T03:04:05Z", true),
        (b"n-0 v1 dD", true),
        (b"w1 v3 ", true),
        (b"w1 v3", true),
        (b"r1 v4294967295 dD", false),
        (b"n4611686018427387903 v1 dD", false),
        (b"n1 dD v2", false),
        (b"n1 dD Tv=v9 v2", false),
        (b"n1  v3 dD", false),
        (b"n1\tv3 dD", false),
        (b"n1 v3\tdD", false),
        (b"n1 v4294967296 dD", false),
        (b"n4611686018427387904 v1 dD", false),
        (b"n+1 v1 dD", false),
        (b"n v1 dD", false),
        (b"n1 v dD", false),
        (b"n1 v1d dD", false),
        (b"n1 dD", false),
        (b"c1 v1", false),
        (b" n1 v1 dD", false),
        (b"#n1 v1 dD", false),
        (b"", false),
        (b"n1 dD u\xff", false),
    ] {
        assert_eq!(rt; usual_key(line).is_some(), is_usual);
        assert!(rt; has_key_of_whole_line(alloc, line));
    }
}

#[test]
fn faulty_lines_have_keys(rt: HostRuntime) {
    let mut reader = LineReader::new(rt.alloc());
    for line in [
        b"n1 v1".as_slice(),
        b"n1 v0 dD",
        b"n1 v1 v1 dD",
        b"n1 v1 u\xff",
        b"w1 v1 dX",
    ] {
        assert!(rt; matches!(read_key(&mut reader, line), Ok(Some(_))));
        assert!(rt; read_line(rt.alloc(), line).is_err());
    }
}
