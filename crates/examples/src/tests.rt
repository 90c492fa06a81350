//! Tests of each caller with input that has no fault.
use crate::{
    canonical, first_version, map_of_reads, one_file, one_file_of_reads, part_of_map, to_o5m,
    visible_map, with_version,
};
use osm_files::{Broken, EndRule, Reason, Recorded, SliceIn, load_any};
use osm_mirror::{JobInput, Shard};
use osm_model::{History, Kind};
use std::test::Fail;

/// A node with its deletion, and another node.
const LINES: &[u8] =
    b"n1 v1 dV c0 t i0 u T x1 y2\nn1 v2 dD c0 t i0 u T x y\nn2 v1 dV c0 t i0 u T x1 y2\n";

#[test]
fn a_line_is_made_canonical(rt: HostRuntime) -> Result<(), Fail> {
    let line = canonical(rt.alloc(), b"n1 y2 x1.0 v1")?;
    let line = line.as_ref().map(|bytes| bytes.as_slice());
    assert_eq!(rt; line, Some(b"n1 v1 dV c0 t i0 u T x1 y2".as_slice()));
    assert!(rt; canonical(rt.alloc(), b"# a comment")?.is_none());
    Ok(())
}

#[test]
fn a_first_set_is_read(rt: HostRuntime) -> Result<(), Fail> {
    let (version, _) = first_version(rt.alloc(), Kind::Node, b"\x02\x01\x00\x00\x00")?;
    assert_eq!(rt; version.id(), 1);
    Ok(())
}

#[test]
fn files_of_both_kinds_are_one(rt: HostRuntime) -> Result<(), Fail> {
    let file = to_o5m(rt.alloc(), LINES)?;
    let lines = one_file(rt.alloc(), &[LINES, file.as_slice(), LINES])?;
    assert_eq!(rt; lines.as_slice(), LINES);
    Ok(())
}

#[test]
fn reads_are_replayed(rt: HostRuntime) -> Result<(), Fail> {
    let (front, rest) = LINES.split_at(7);
    let whole = [Ok(front), Ok(rest), Ok(b"".as_slice())];
    let failed = [Ok(front), Err(Broken), Ok(rest)];
    let mut files = Vec::new(rt.alloc());
    files.push(Recorded::new(&whole))?;
    assert_eq!(rt; one_file_of_reads(rt.alloc(), files)?.as_slice(), LINES);
    let mut files = Vec::new(rt.alloc());
    files.push(Recorded::new(&whole))?;
    files.push(Recorded::new(&failed))?;
    let Err(fault) = one_file_of_reads(rt.alloc(), files) else {
        assert!(rt; false);
        return Ok(());
    };
    assert_eq!(rt;
        (fault.input, fault.place, fault.reason),
        (1, 7, Reason::ReadFault)
    );
    Ok(())
}

#[test]
fn a_map_is_made_of_reads(rt: HostRuntime) -> Result<(), Fail> {
    let (front, rest) = LINES.split_at(7);
    let reads = [Ok(front), Ok(rest)];
    let inputs = [JobInput {
        note: (),
        regular: Some(Recorded::new(&reads)),
        end: EndRule::Any,
    }];
    let map = map_of_reads(rt.alloc(), inputs.as_slice())?;
    assert_eq!(rt; map.as_slice(), b"n2 v1 dV c0 t i0 u T x1 y2\n".as_slice());
    Ok(())
}

#[test]
fn the_parts_of_a_map_are_the_map(rt: HostRuntime) -> Result<(), Fail> {
    let mut map = Vec::new(rt.alloc());
    for number in 1..=2 {
        let part = part_of_map(rt.alloc(), Shard { number, count: 2 }, &[&LINES])?;
        map.extend_from_slice(part.as_slice())?;
    }
    assert_eq!(rt; map.as_slice(), b"n2 v1 dV c0 t i0 u T x1 y2\n".as_slice());
    Ok(())
}

#[test]
fn versions_are_added_and_chosen(rt: HostRuntime) -> Result<(), Fail> {
    let history = load_any(rt.alloc(), 0, SliceIn::new(LINES))?.history;
    let map = visible_map(rt.alloc(), &history)?;
    assert_eq!(rt; map.len(), 1);
    let (version, _) = first_version(rt.alloc(), Kind::Node, b"\x02\x01\x00\x00\x00")?;
    let more = with_version(rt.alloc(), &history, version)?;
    assert_eq!(rt; more.len(), 4);
    assert_eq!(rt;
        with_version(rt.alloc(), &more, more.get(0).copy()?)?.len(),
        4
    );
    let none = History::new(rt.alloc());
    assert!(rt; visible_map(rt.alloc(), &none)?.is_empty());
    Ok(())
}
