//! Lines with their results, worked out by hand from the rules of the format.
use crate::{LineReader, OplReason, find_line_end, read_line, read_time, write_line};
use osm_model::{Body, Meta, Tags, Text, Version};
use std::alloc::Global;
use std::process::Abort;
use std::str;
use std::test::Fail;

/// Checks that `write_line` and `Version::append_line` both write `line` for a version.
fn check_line(rt: &impl Abort, alloc: Global, version: &Version, line: &str) -> Result<(), Fail> {
    let text = write_line(alloc, version)?;
    assert_eq!(rt; str::from_utf8(&text)?, line);
    let mut appended = Vec::new(alloc);
    version.append_line(&mut appended)?;
    assert_eq!(rt; appended, text);
    Ok(())
}

/// Checks the result of reading a line: its canonical line, the name of the reason, or `skipped`.
fn check(rt: &impl Abort, alloc: Global, line: &[u8], expected: &str) -> Result<(), Fail> {
    match read_line(alloc, line) {
        Ok(Some(version)) => check_line(rt, alloc, &version, expected)?,
        Ok(None) => assert_eq!(rt; "skipped", expected),
        Err(reason) => assert_eq!(rt; reason.name(), expected),
    }
    Ok(())
}

/// Checks rows of a line and its result.
fn check_rows(rt: &impl Abort, alloc: Global, rows: &str) -> Result<(), Fail> {
    for row in rows.lines() {
        let (line, expected) = row.split_once(" => ").ok_or("no result")?;
        check(rt, alloc, line.as_bytes(), expected)?;
    }
    Ok(())
}

#[test]
fn lines_of_each_kind(rt: HostRuntime) -> Result<(), Fail> {
    let rows = "\
n1 v3 dV c12 t2014-05-06T07:08:09Z i5 uanna Tnatural=tree x8.6868047 y49.0000001 \
    => n1 v3 dV c12 t2014-05-06T07:08:09Z i5 uanna Tnatural=tree x8.6868047 y49.0000001
n-0 v01 x-0.0 y00 => n0 v1 dV c0 t i0 u T x0 y0
r1 v1 Mn1@a@b => r1 v1 dV c0 t i0 u T Mn1@a%40%b
r7 v1 dV c1 t1970-01-01T00:00:01Z i1 ua%20%b T%1F600%=%3d%,%e9%=1 Mn1@\u{20ac} \
    => r7 v1 dV c1 t1970-01-01T00:00:01Z i1 ua%20%b T\u{e9}=1,%1f600%=%3d% Mn1@%20ac%
n1 v2 dD Ta=b x1 y1 => n1 v2 dD c0 t i0 u T x y
w5 v1 dV => w5 v1 dV c0 t i0 u T N
w5 v2 dD Nn1 => w5 v2 dD c0 t i0 u T N
w-7 Nn3,n-2,n3 v9 => w-7 v9 dV c0 t i0 u T Nn3,n-2,n3
r0 v1 Mn1@,w02@,r-3@x => r0 v1 dV c0 t i0 u T Mn1@,w2@,r-3@x
n1\tv1 \t x1.5  y2\t  => n1 v1 dV c0 t i0 u T x1.5 y2
n1 y2 x-1.0500000 v1 T => n1 v1 dV c0 t i0 u T x-1.05 y2
n1 v1 c i t u T dV x214.7483647 y-214.7483648 => n1 v1 dV c0 t i0 u T x214.7483647 y-214.7483648
n4611686018427387903 v4294967295 x0 y000 => n4611686018427387903 v4294967295 dV c0 t i0 u T x0 y0
w1 v1 Tb=1,a=2,b=1,b=0,= => w1 v1 dV c0 t i0 u T=,a=2,b=0,b=1 N
n1 v1 c4294967295 i0004294967295 t2106-02-07T06:28:15Z dD \
    => n1 v1 dD c4294967295 t2106-02-07T06:28:15Z i4294967295 u T x y
w1 v1 t1972-02-29T23:59:59Z ua@\u{a0}%7%%10FFFF%%00000041% \
    => w1 v1 dV c0 t1972-02-29T23:59:59Z i0 ua%40%%a0%%07%%10ffff%A T N";
    check_rows(&rt, rt.alloc(), rows)
}

/// Canonical lines of each kind, with texts, lists and numbers of each size.
const CANONICAL: [&str; 8] = [
    "n-4611686018427387903 v4294967295 dV c4294967295 t2106-02-07T06:28:15Z i4294967295 u T x-214.7483648 y214.7483647",
    "n0 v1 dV c0 t i0 u Tname=one_more_than_lies_within_it x0.0000001 y-0.0000001",
    "n0 v1 dD c0 t1970-01-01T00:00:01Z i0 uone_more_than_lies_within_it T x y",
    "w7 v10 dV c9 t2000-02-29T12:34:56Z i99 uä%20%%1f600%%07% T=%6771%,a=ß%2c%b Nn1,n-2,n3,n-4,n5,n-6,n7",
    "w4611686018427387903 v1 dV c0 t i0 u T Nn-4611686018427387903,n4611686018427387903,n0,n0,n0",
    "w-1 v100 dD c100 t1972-02-29T23:59:59Z i1 u%25% T N",
    "r-1 v1 dV c0 t i0 u T Mn-4611686018427387903@,w0@%40%,r4611686018427387903@one_more_than_lies_within_it",
    "r1 v1 dD c0 t i0 u T M",
];

#[test]
fn both_writers_write_one_line(rt: HostRuntime) -> Result<(), Fail> {
    for line in CANONICAL {
        check(&rt, rt.alloc(), line.as_bytes(), line)?;
    }
    Ok(())
}

#[test]
fn both_writers_write_users_that_are_plain(rt: HostRuntime) -> Result<(), Fail> {
    let alloc = rt.alloc();
    for (name, escaped) in [
        ("", ""),
        ("anna", "anna"),
        ("as_many_as_lie_within_it", "as_many_as_lie_within_it"),
        ("a b", "a%20%b"),
    ] {
        let user = Text::from_tested_str(alloc, name)?;
        let meta = Meta {
            version: 1,
            time: Some(1),
            changeset: 2,
            uid: 3,
            user,
        };
        let tags = Tags::from_vec(Vec::new(alloc));
        let node = Version::new(
            alloc,
            4,
            meta,
            Body::Node {
                lon: 5,
                lat: -6,
                tags,
            },
        )?;
        let line = format!(in alloc;
            "n4 v1 dV c2 t1970-01-01T00:00:01Z i3 u{escaped} T x0.0000005 y-0.0000006"
        )?;
        check_line(&rt, alloc, &node, &line)?;
    }
    Ok(())
}

#[test]
fn skipped_lines(rt: HostRuntime) -> Result<(), Fail> {
    let rows = "\
# => skipped
 => skipped
 #x => UnknownKind
  => UnknownKind";
    check_rows(&rt, rt.alloc(), rows)?;
    check(&rt, rt.alloc(), b"#n1 \xff\xfe", "skipped")
}

#[test]
fn faulty_fields(rt: HostRuntime) -> Result<(), Fail> {
    let rows = "\
c5 k1 => UnknownKind
 n1 v1 x1 y1 => UnknownKind
n1 v1 q5 x1 y1 => UnknownField
n1 v1 \u{e9}5 => UnknownField
n1 v1 Nn1 => UnknownField
w1 v1 x1 => UnknownField
w1 v1 Mn1@ => UnknownField
r1 v1 y => UnknownField
n1 v1 v2 x1 y1 => RepeatedField
n1 v1 v x1 y1 => RepeatedField
n1 v1 x x2 => RepeatedField
n1 vx q5 => BadNumber
n1 q5 vx => UnknownField
n v1 => BadNumber
n+1 v1 => BadNumber
n--1 v1 => BadNumber
n1 v+1 => BadNumber
n1 v-1 => BadNumber
n1 v99999999999999999999x => BadNumber
n4611686018427387904 v1 => OutOfRange
w-4611686018427387904 v1 => OutOfRange
n1 v4294967296 => OutOfRange
n1 v1 c4294967296 => OutOfRange
n1 v1 i99999999999999999999 => OutOfRange
n1 v1 d => BadText
n1 v1 dVV => BadText
n1 v1 dv => BadText";
    check_rows(&rt, rt.alloc(), rows)?;
    check(&rt, rt.alloc(), b"n1 v1 u\xff", "NotUtf8")?;
    check(&rt, rt.alloc(), b"q \xff", "NotUtf8")
}

#[test]
fn letters_of_each_kind(rt: HostRuntime) -> Result<(), Fail> {
    let rows = "\
N1 v1 => UnknownKind
n1 V1 => UnknownField
n1 v1 Mn1@ x1 y1 => UnknownField
n1 v1 dD N => UnknownField
w1 v1 y1 => UnknownField
r1 v1 x1 => UnknownField
r1 v1 Nn1 => UnknownField
w1 v1 N => w1 v1 dV c0 t i0 u T N
r1 v1 M => r1 v1 dV c0 t i0 u T M
r1 v1 dD Mw2@a => r1 v1 dD c0 t i0 u T M
w1 v1 T= => w1 v1 dV c0 t i0 u T= N
n1 \t \tv1 dD x y\t => n1 v1 dD c0 t i0 u T x y
n1 v1 dD t1970-01-01T00:00:01Z u%e9%\u{e9} => n1 v1 dD c0 t1970-01-01T00:00:01Z i0 u\u{e9}\u{e9} T x y";
    check_rows(&rt, rt.alloc(), rows)
}

#[test]
fn faulty_numbers(rt: HostRuntime) -> Result<(), Fail> {
    let rows = "\
n1v1 => BadNumber
n1 v => BadNumber
n1 v1 cx => BadNumber
n1 v1 c-1 => BadNumber
n1 v1 i1.0 => BadNumber
n1 v1 t2014 => BadTime
n1 v1 dD x999 => OutOfRange
n1 v1 dD t ux => NoTime";
    check_rows(&rt, rt.alloc(), rows)
}

#[test]
fn faulty_coordinates(rt: HostRuntime) -> Result<(), Fail> {
    let rows = "\
n1 v1 x1.12345678 y1 => BadCoordinate
n1 v1 x-.5 y1 => BadCoordinate
n1 v1 x1. y1 => BadCoordinate
n1 v1 x0001 y1 => BadCoordinate
n1 v1 x1.2.3 y1 => BadCoordinate
n1 v1 x- y1 => BadCoordinate
n1 v1 x1e2 y1 => BadCoordinate
n1 v1 x214.7483648 y0 => OutOfRange
n1 v1 x0 y-214.7483649 => OutOfRange
n1 v1 x999.9999999 y0 => OutOfRange";
    check_rows(&rt, rt.alloc(), rows)
}

#[test]
fn faulty_texts(rt: HostRuntime) -> Result<(), Fail> {
    let rows = "\
n1 v1 ua=b x1 y1 => BadText
n1 v1 ua,b => BadText
n1 v1 ua\rb => BadText
n1 v1 ua\0b => BadText
n1 v1 ua%41 => BadText
n1 v1 u%% => BadText
n1 v1 u%0% => BadText
n1 v1 u%d800% => BadText
n1 v1 u%110000% => BadText
n1 v1 u%000000041% => BadText
n1 v1 u%+41% => BadText
n1 v1 u%4g% => BadText
n1 v1 u%4eac%%4eag% => BadText
n1 v1 u%4eac%%dfff% => BadText
n1 v1 u%4eac%%4eac => BadText";
    check_rows(&rt, rt.alloc(), rows)
}

#[test]
fn faulty_lists(rt: HostRuntime) -> Result<(), Fail> {
    let rows = "\
n1 v1 Ta=b=c x1 y1 => BadList
n1 v1 Ta => BadList
n1 v1 Ta=b, => BadList
n1 v1 T, => BadList
n1 v1 Ta=%,b => BadText
n1 v1 Tb,a=% => BadList
w1 v1 Nn1, => BadList
w1 v1 N1 => BadList
w1 v1 Nn => BadList
w1 v1 Nw1 => BadList
w1 v1 Nn4611686018427387904,x => OutOfRange
r1 v1 Mn1 => BadList
r1 v1 Mx1@ => BadList
r1 v1 M@a => BadList
r1 v1 Mn1a@a => BadList
r1 v1 Mn-4611686018427387904@= => OutOfRange
r1 v1 Mn1@= => BadText";
    check_rows(&rt, rt.alloc(), rows)
}

#[test]
fn faulty_times(rt: HostRuntime) -> Result<(), Fail> {
    let rows = "\
n1 v1 t2100-02-29T00:00:00Z x1 y1 => BadTime
n1 v1 t0000-02-29T00:00:00Z x1 y1 => OutOfRange
n1 v1 t1970-01-01T00:00:00Z x1 y1 => OutOfRange
n1 v1 t2106-02-07T06:28:16Z => OutOfRange
n1 v1 t2016-12-31T23:59:60Z => BadTime";
    check_rows(&rt, rt.alloc(), rows)?;
    assert_eq!(rt; read_time(b"1970-01-01T00:00:01Z"), Ok(1));
    assert_eq!(rt; read_time(b"2106-02-07T06:28:15Z"), Ok(4_294_967_295));
    assert_eq!(rt; read_time(b"2014-05-06T07:08:09Z"), Ok(1_399_360_089));
    assert_eq!(rt; read_time(b""), Err(OplReason::BadTime));
    assert_eq!(rt; read_time(b"2014-05-06T24:00:00Z"), Err(OplReason::BadTime));
    assert_eq!(rt; read_time(b"2014-05-06T07:60:00Z"), Err(OplReason::BadTime));
    assert_eq!(rt; read_time(b"2014-13-06T07:08:09Z"), Err(OplReason::BadTime));
    assert_eq!(rt; read_time(b"2014-00-06T07:08:09Z"), Err(OplReason::BadTime));
    assert_eq!(rt; read_time(b"2014-05-06 07:08:09Z"), Err(OplReason::BadTime));
    assert_eq!(rt; read_time(b"2014-05-06T07:08:09z"), Err(OplReason::BadTime));
    assert_eq!(rt; read_time(b"+014-05-06T07:08:09Z"), Err(OplReason::BadTime));
    Ok(())
}

#[test]
fn missing_fields(rt: HostRuntime) -> Result<(), Fail> {
    let rows = "\
n1 dV x1 y1 => NoVersion
n1 v0 dV x1 y1 => NoVersion
n1 v0 c5 => NoVersion
n1 v0 q => UnknownField
n1 v1 c5 x1 y1 => NoTime
n1 v1 i5 => NoTime
n1 v1 dD ua => NoTime
n1 v1 dV x y => NoLocation
n1 v1 x1 => NoLocation
n1 v1 dD Ta x1 => BadList";
    check_rows(&rt, rt.alloc(), rows)
}

#[test]
fn appends_a_line(rt: HostRuntime) -> Result<(), Fail> {
    let mut out = Vec::new(rt.alloc());
    let version = read_line(rt.alloc(), b"w1 v1 Nn1")?.ok_or("skipped")?;
    version.append_line(&mut out)?;
    version.append_line(&mut out)?;
    assert_eq!(rt;
        str::from_utf8(&out)?,
        "w1 v1 dV c0 t i0 u T Nn1w1 v1 dV c0 t i0 u T Nn1"
    );
    Ok(())
}

#[test]
fn memory_of_a_version_is_used_again(rt: HostRuntime) -> Result<(), Fail> {
    let alloc = rt.alloc();
    let mut reader = LineReader::new(alloc);
    let way = reader.read(b"w1 v1 Ta=b Nn1,n2")?.ok_or("skipped")?;
    reader.reuse(way);
    assert!(rt; reader.read(b"# a comment")?.is_none());
    let line = b"n2 v1 dV c0 t i0 u Tc=d x1 y2";
    let version = reader.read(line)?.ok_or("skipped")?;
    assert_eq!(rt; write_line(alloc, &version)?.as_slice(), line.as_slice());
    Ok(())
}

#[test]
fn line_ends_are_found(rt: HostRuntime) {
    assert_eq!(rt; find_line_end(b"n1 v1\nn2\n"), Some(5));
    assert_eq!(rt;
        find_line_end(b"n1 v1 dV c8 t2014-05-06T07:08:09Z\rn2\n"),
        Some(33)
    );
    assert_eq!(rt; find_line_end(b"n1 v1 dV c8 t i5"), None);
    assert_eq!(rt; find_line_end(b""), None);
}
