//! Lines of the usual form, and lines that nearly have it.
use super::read_straight;
use super::shared_author::SharedAuthor;
use crate::LineReader;
use osm_model::Spare;
use std::alloc::Global;
use std::process::Abort;
use std::str;
use std::test::Fail;

/// Reads a line, and checks the canonical line of its version.
fn check_written(
    rt: &impl Abort,
    alloc: Global,
    reader: &mut LineReader,
    line: &str,
    canonical: &str,
) -> Result<(), Fail> {
    let version = reader.read(line.as_bytes())?.ok_or("skipped")?;
    let mut out = Vec::new(alloc);
    version.append_line(&mut out)?;
    assert_eq!(rt; str::from_utf8(&out)?, canonical);
    reader.reuse(version);
    Ok(())
}

/// Whether the straight reader reads a line.
fn is_straight(alloc: Global, line: &str) -> bool {
    let mut spare = Spare::new(alloc);
    let mut shared_author = SharedAuthor::new(alloc);
    read_straight(alloc, &mut spare, &mut shared_author, line.as_bytes()).is_some()
}

#[test]
fn canonical_lines_are_read_straight_on(rt: HostRuntime) -> Result<(), Fail> {
    let alloc = rt.alloc();
    let lines = "\
n1 v1 dV c5 t2014-05-06T07:08:09Z i5 uanna T x8.6 y49.1
n-3 v4294967295 dV c0 t i0 u T x-0.5 y-180
n0 v1 dV c0 t i0 u T x0.0000001 y0
n1 v2 dV c9 t2015-01-02T03:04:05Z i6 uK. Ta=b,natural=tree x8.6868051 y49.0000004
n1 v3 dD c12 t2016-02-29T23:59:59Z i5 uanna T x y
w4 v1 dV c9 t2015-01-02T03:04:06Z i6 u T=,highway=path Nn1,n-7,n7
w4 v2 dV c0 t i0 u T N
w-999999999999999999 v3 dD c0 t i0 u T N
r2 v1 dV c12 t1970-01-01T00:00:01Z i0 u Ttype=route Mw4@,n7@end,r-1@x
r2 v2 dV c0 t i0 u T M
r2 v3 dD c0 t i0 u T M";
    let mut reader = LineReader::new(alloc);
    for line in lines.lines() {
        assert!(&rt; is_straight(alloc, line));
        check_written(&rt, alloc, &mut reader, line, line)?;
    }
    Ok(())
}

#[test]
fn escapes_are_read_straight_on(rt: HostRuntime) -> Result<(), Fail> {
    let alloc = rt.alloc();
    let lines = "\
n1 v1 dV c5 t2014-05-06T07:08:09Z i5 uAnna%20%Groß T x8.6 y49.1
n1 v1 dV c5 t2014-05-06T07:08:09Z i5 u%20% T x8.6 y49.1
n1 v2 dV c9 t2015-01-02T03:04:05Z i6 u¡¢¬®¿ÀÿĀͿ֐׿ Tname=Улица%20%Ленина%20%7,ä%3d%b=c%2c%ö x8.6 y49
n1 v3 dV c9 t2015-01-02T03:04:05Z i6 u%0600%%fffd%%1f600%%10ffff% Tname=%1e9e%%a0%%ad%%07%%7f% x8.6 y49
w4 v1 dV c0 t i0 u Tname=a%20%name%20%that%20%takes%20%memory%20%of%20%its%20%own,note=%25%%25%%40% Nn1
r2 v2 dV c0 t i0 u T Mw4@%20%,n7@end%20%ß,r-1@%0904%
n2 v1 dV c9 t2015-01-02T03:04:05Z i6 u%0600%%07ff%%0800%%d7ff%%e000%%ffff% T x8.6 y49
n2 v2 dV c9 t2015-01-02T03:04:05Z i6 u%0645%a%062f%É%4eac%%20%%1f600%%4eac% Tname=%4eac%-%90fd%,to=%2e80% x8.6 y49
w5 v1 dV c0 t i0 u T%4eac%=%9999%%4e00%%4e01%%4e02%%4e03%%4e04%%4e05%%4e06%%4e07%%4e08%%4e09%%4e0a%%4e0b%%4e0c%%4e0d%\
%4e0e%%4e0f%%4e10%%4e11%%4e12%%4e13%%4e14%%4e15%%4e16%%4e17% Nn1";
    let mut reader = LineReader::new(alloc);
    for line in lines.lines() {
        assert!(&rt; is_straight(alloc, line));
        check_written(&rt, alloc, &mut reader, line, line)?;
    }
    Ok(())
}

#[test]
fn tags_in_any_order_are_read_straight_on(rt: HostRuntime) -> Result<(), Fail> {
    let alloc = rt.alloc();
    let rows = "\
n1 v1 dV c0 t i0 u Tb=1,a=2 x1 y2 => n1 v1 dV c0 t i0 u Ta=2,b=1 x1 y2
n1 v1 dV c0 t i0 u Ta=1,a=1 x1 y2 => n1 v1 dV c0 t i0 u Ta=1 x1 y2
w1 v1 dV c0 t i0 u Tc=1,b=2,a=3,b=1,b=2 Nn2,n1 => w1 v1 dV c0 t i0 u Ta=3,b=1,b=2,c=1 Nn2,n1";
    let mut reader = LineReader::new(alloc);
    for row in rows.lines() {
        let (line, canonical) = row.split_once(" => ").ok_or("no result")?;
        assert!(&rt; is_straight(alloc, line));
        check_written(&rt, alloc, &mut reader, line, canonical)?;
    }
    Ok(())
}

#[test]
fn other_lines_are_left(rt: HostRuntime) -> Result<(), Fail> {
    let alloc = rt.alloc();
    let rows = "\
n01 v1 dV c0 t i0 u T x1 y2 => n1 v1 dV c0 t i0 u T x1 y2
n-0 v1 dV c0 t i0 u T x1 y2 => n0 v1 dV c0 t i0 u T x1 y2
n1 v01 dV c0 t i0 u T x1 y2 => n1 v1 dV c0 t i0 u T x1 y2
n1 v1 c0 dV t i0 u T x1 y2 => n1 v1 dV c0 t i0 u T x1 y2
n1 v1 dV c t i0 u T x1 y2 => n1 v1 dV c0 t i0 u T x1 y2
n1 v1 dV c0 t i0 u T x08.5 y2 => n1 v1 dV c0 t i0 u T x8.5 y2
n1 v1 dV c0 t i0 u T x8.50 y2 => n1 v1 dV c0 t i0 u T x8.5 y2
n1 v1 dV c0 t i0 u T x-0 y2.0 => n1 v1 dV c0 t i0 u T x0 y2
n1 v1 dV c0 t i0 u T y2 x1 => n1 v1 dV c0 t i0 u T x1 y2
n1 v1 dV c0 t i0 u T x1 y2  => n1 v1 dV c0 t i0 u T x1 y2
n1\tv1 dV c0 t i0 u T x1 y2 => n1 v1 dV c0 t i0 u T x1 y2
n1 v1 dD c0 t i0 u Ta=1 x1 y2 => n1 v1 dD c0 t i0 u T x y
n1 v1 dV c1 t2014-05-06T07:08:09Z i5 u%41% T x1 y2 => n1 v1 dV c1 t2014-05-06T07:08:09Z i5 uA T x1 y2
n1 v1 dV c1 t2014-05-06T07:08:09Z i5 u%05d0% T x1 y2 => n1 v1 dV c1 t2014-05-06T07:08:09Z i5 u\u{5d0} T x1 y2
n1 v1 dV c1 t2014-05-06T07:08:09Z i5 u%4eac%%4EAC% T x1 y2 => n1 v1 dV c1 t2014-05-06T07:08:09Z i5 u%4eac%%4eac% T x1 y2
n1 v1 dV c1 t2014-05-06T07:08:09Z i5 u%04eac% T x1 y2 => n1 v1 dV c1 t2014-05-06T07:08:09Z i5 u%4eac% T x1 y2
w1 v1 dV c0 t i0 u T Nn1,n02 => w1 v1 dV c0 t i0 u T Nn1,n2
r1 v1 dV c0 t i0 u T Mn1@a@b => r1 v1 dV c0 t i0 u T Mn1@a%40%b
w1 v1 dV c0 t i0 u Ta=%2C% N => w1 v1 dV c0 t i0 u Ta=%2c% N
w1 v1 dV c0 t i0 u Ta=%020%b N => w1 v1 dV c0 t i0 u Ta=%20%b N
w1 v1 dV c0 t i0 u Ta=%600% N => w1 v1 dV c0 t i0 u Ta=%0600% N
w1 v1 dV c0 t i0 u Ta=%df% N => w1 v1 dV c0 t i0 u Ta=ß N
w1 v1 dV c0 t i0 u Ta=\u{1e9e} N => w1 v1 dV c0 t i0 u Ta=%1e9e% N
w1 v1 dV c0 t i0 u Ta=\u{a0} N => w1 v1 dV c0 t i0 u Ta=%a0% N
w1 v1 dV c0 t i0 u Ta=\u{ad} N => w1 v1 dV c0 t i0 u Ta=%ad% N
w1 v1 dV c0 t i0 u Ta=ß@ N => w1 v1 dV c0 t i0 u Ta=ß%40% N
w1 v1 dV c0 t i0 u Ta=b%20% Nn01 => w1 v1 dV c0 t i0 u Ta=b%20% Nn1";
    let mut reader = LineReader::new(alloc);
    for row in rows.lines() {
        let (line, canonical) = row.split_once(" => ").ok_or("no result")?;
        assert!(&rt; !is_straight(alloc, line));
        check_written(&rt, alloc, &mut reader, line, canonical)?;
    }
    Ok(())
}

#[test]
fn faulty_lines_are_left(rt: HostRuntime) {
    let lines = "\
n1 v0 dV c0 t i0 u T x1 y2
n1 v1 dV c5 t i0 u T x1 y2
n1 v4294967296 dV c0 t i0 u T x1 y2
n1 v1 dV c0 t2014-02-30T07:08:09Z i5 u T x1 y2
n1 v1 dV c0 t i0 u T x214.7483648 y2
n1 v1 dV c0 t i0 u T x y
n1 v1 dV c0 t i0 u T x1 y2 Nn1
w1 v1 dV c0 t i0 u T Nn1,
w1 v1 dV c0 t i0 u Ta=%20 N
w1 v1 dV c0 t i0 u Ta=%% N
w1 v1 dV c0 t i0 u Ta=%00% N
w1 v1 dV c0 t i0 u Ta=%d800% N
w1 v1 dV c0 t i0 u Ta=ß
q1 v1 dV c0 t i0 u T x1 y2";
    for line in lines.lines() {
        assert!(&rt; !is_straight(rt.alloc(), line));
    }
}

/// Lines in sequence. Some were uploaded together, and others differ in one field from the line before.
const NEIGHBOURS: &str = "\
n1 v1 dV c5 t2014-05-06T07:08:09Z i5 uanna T x8.6 y49.1
n2 v1 dV c5 t2014-05-06T07:08:09Z i5 uanna T x8.6 y49.2
n3 v2 dV c5 t2014-05-06T07:08:09Z i5 uanna Ta=b x8.6 y49.3
n3 v3 dD c5 t2014-05-06T07:08:09Z i5 uanna T x y
n4 v1 dV c5 t2014-05-06T07:08:09Z i5 uannabel T x8.6 y49.4
n5 v1 dV c5 t2014-05-06T07:08:09Z i5 uann T x8.6 y49.5
n6 v1 dV c5 t2014-05-06T07:08:09Z i55 uann T x8.6 y49.6
n7 v1 dV c5 t2014-05-06T07:08:10Z i55 uann T x8.6 y49.7
n8 v1 dV c55 t2014-05-06T07:08:10Z i55 uann T x8.6 y49.8
n9 v1 dV c0 t i0 u T x8.6 y49.9
n10 v1 dV c0 t i0 u T x8.6 y50
n11 v1 dV c0 t i0 u T x8.6 y50.1
w1 v1 dV c5 t2014-05-06T07:08:09Z i5 uanna%20%B. Ta=b Nn1,n2
w2 v1 dV c5 t2014-05-06T07:08:09Z i5 uanna%20%B. T Nn2,n3
w3 v1 dV c5 t2014-05-06T07:08:09Z i5 uanna%20%B. T Nn3,n4
r1 v1 dV c5 t2014-05-06T07:08:09Z i5 uanna%20%B. T Mw1@";

#[test]
fn neighbours_are_read_as_single_lines(rt: HostRuntime) -> Result<(), Fail> {
    let alloc = rt.alloc();
    let mut shared_author = SharedAuthor::new(alloc);
    let mut reader = LineReader::new(alloc);
    for line in NEIGHBOURS.lines() {
        let mut spare = Spare::new(alloc);
        let version = read_straight(alloc, &mut spare, &mut shared_author, line.as_bytes());
        assert!(&rt; version.is_some());
        check_written(&rt, alloc, &mut reader, line, line)?;
    }
    Ok(())
}
