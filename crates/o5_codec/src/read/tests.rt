//! Contents of data sets, each with the line of the version that it spells, or the name of the reason.
use crate::{Decoder, O5Reason, read_number};
use osm_model::Kind;
use std::alloc::Global;
use std::process::Abort;
use std::test::Fail;

/// The kind of the object, and the digits of its content. The letter `w` before the digits means a way, `r` a relation,
/// and no letter a node.
fn split_kind(content: &str) -> (Kind, &str) {
    if let Some(digits) = content.strip_prefix("w ") {
        return (Kind::Way, digits);
    }
    if let Some(digits) = content.strip_prefix("r ") {
        return (Kind::Relation, digits);
    }
    (Kind::Node, content)
}

/// Reads a content in hexadecimal digits, and compares the line of its version, or the name of its reason, with
/// `expected`. The decoder takes the version back, so the next one is made in its memory.
fn read(
    rt: &impl Abort,
    alloc: Global,
    decoder: &mut Decoder,
    content: &str,
    expected: &str,
) -> Result<(), Fail> {
    let (kind, digits) = split_kind(content);
    let mut bytes = Vec::new(alloc);
    for byte in digits.split_whitespace() {
        bytes.push(u8::from_str_radix(byte, 16)?)?;
    }
    let mut line = Vec::new(alloc);
    match decoder.read_set(kind, &bytes) {
        Ok(version) => {
            version.append_line(&mut line)?;
            decoder.reuse(version);
        }
        Err(reason) => line.extend_from_slice(reason.name().as_bytes())?,
    }
    assert_eq!(rt; line.as_slice(), expected.as_bytes());
    Ok(())
}

/// Reads rows, each a content and the line or reason expected for it. A segment begins at the row `reset`, and a new
/// decoder at an empty row.
fn read_all(rt: &impl Abort, alloc: Global, rows: &str) -> Result<(), Fail> {
    let mut decoder = Decoder::new(alloc)?;
    for row in rows.lines() {
        match row.split_once(" = ") {
            Some((content, expected)) => read(rt, alloc, &mut decoder, content, expected)?,
            None if row == "reset" => decoder.reset(),
            None => decoder = Decoder::new(alloc)?,
        }
    }
    Ok(())
}

#[test]
fn reads_nodes_and_deletions(rt: HostRuntime) -> Result<(), Fail> {
    let rows = "\
02 01 02 02 00 01 00 61 00 00 00 = n1 v1 dV c1 t1970-01-01T00:00:01Z i1 ua T x0 y0
00 02 02 00 01 = n1 v2 dD c1 t1970-01-01T00:00:02Z i1 ua T x y

02 01 02 02 = n1 v1 dD c1 t1970-01-01T00:00:01Z i0 u T x y

02 01 02 02 00 00 00 = n1 v1 dD c1 t1970-01-01T00:00:01Z i0 u T x y
00 02 01 = n1 v2 dD c0 t i0 u T x y
00 03 02 00 01 = n1 v3 dD c1 t1970-01-01T00:00:01Z i0 u T x y";
    read_all(&rt, rt.alloc(), rows)
}

#[test]
fn reads_ways_and_relations(rt: HostRuntime) -> Result<(), Fail> {
    let rows = "\
w 0a 01 00 00 = w5 v1 dV c0 t i0 u T N
w 00 02 00 = w5 v2 dD c0 t i0 u T N

r 02 01 00 04 02 00 30 00 00 30 00 00 = r1 v1 dV c0 t i0 u T0= Mn1@

r 02 01 00 0e 02 00 30 61 00 04 00 31 61 00 02 02 02 01 = r1 v1 dV c0 t i0 u T Mn1@a,w2@a,n2@a,w3@a

w 02 01 00 01 02 = w1 v1 dV c0 t i0 u T Nn1
reset
r 00 01 00 04 02 00 30 00 = r0 v1 dV c0 t i0 u T Mn1@

w 02 01 00 01 02 = w1 v1 dV c0 t i0 u T Nn1
r 00 01 00 04 02 00 30 00 = MixedSegment";
    read_all(&rt, rt.alloc(), rows)
}

#[test]
fn reads_numbers_at_their_limits(rt: HostRuntime) -> Result<(), Fail> {
    let rows = "\
fd ff ff ff ff ff ff ff 7f 01 00 00 00 = n-4611686018427387903 v1 dV c0 t i0 u T x0 y0
fc ff ff ff ff ff ff ff ff 01 01 00 00 00 = n4611686018427387903 v1 dV c0 t i0 u T x0 y0

02 01 fe ff ff ff 1f 00 00 00 00 00 00 = n1 v1 dV c0 t2106-02-07T06:28:15Z i0 u T x0 y0

02 01 80 80 80 80 20 = OutOfRange

02 ff ff ff ff 0f 00 00 00 = n1 v4294967295 dV c0 t i0 u T x0 y0

02 80 80 80 80 10 = OutOfRange

82 00 01 00 00 00 = n1 v1 dV c0 t i0 u T x0 y0

82 80 80 80 80 80 80 80 80 00 01 00 00 00 = n1 v1 dV c0 t i0 u T x0 y0";
    read_all(&rt, rt.alloc(), rows)
}

#[test]
fn reduces_longitudes(rt: HostRuntime) -> Result<(), Fail> {
    let rows = "\
02 01 00 ff c7 ce b4 0d 00 = n1 v1 dV c0 t i0 u T x-180 y0
02 01 00 80 90 9d e9 1a 00 = n2 v1 dV c0 t i0 u T x180 y0

02 01 00 ff c7 ce b4 0d 00 = n1 v1 dV c0 t i0 u T x-180 y0
02 01 00 ff ef e2 96 05 00 = n2 v1 dV c0 t i0 u T x180 y0

02 01 00 fe ff ff ff 1f 00 = n1 v1 dV c0 t i0 u T x-0.0000001 y0

02 01 00 fd ff ff ff 1f 00 = n1 v1 dV c0 t i0 u T x0.0000001 y0

02 01 00 80 80 80 80 10 00 = n1 v1 dV c0 t i0 u T x-214.7483648 y0

02 01 00 80 80 80 80 20 00 = OutOfRange

02 01 00 ff ff ff ff 1f 00 = OutOfRange";
    read_all(&rt, rt.alloc(), rows)
}

#[test]
fn refuses_bad_numbers(rt: HostRuntime) -> Result<(), Fail> {
    let rows = "\
 = BadNumber

80 = BadNumber

82 80 80 80 80 80 80 80 80 80 00 = BadNumber

80 80 80 80 80 80 80 80 80 02 = BadNumber

ff ff ff ff ff ff ff ff ff 01 = OutOfRange

80 80 80 80 80 80 80 80 80 01 = OutOfRange

02 00 = NoVersion

02 80 00 = NoVersion";
    read_all(&rt, rt.alloc(), rows)
}

#[test]
fn refuses_metadata(rt: HostRuntime) -> Result<(), Fail> {
    let rows = "\
02 = BadNumber

02 01 = BadNumber

02 01 01 = OutOfRange

02 01 02 01 = OutOfRange

02 01 02 02 00 01 = BadText

02 01 02 02 00 01 00 = BadText

02 01 02 02 01 = BadReference";
    read_all(&rt, rt.alloc(), rows)
}

#[test]
fn refuses_users(rt: HostRuntime) -> Result<(), Fail> {
    let rows = "\
02 01 02 02 00 81 00 00 = BadNumber

02 01 02 02 00 01 01 00 00 = BadNumber

02 01 02 02 00 80 80 80 80 10 00 00 = OutOfRange

02 01 02 02 00 ff ff ff ff 0f 00 00 = n1 v1 dD c1 t1970-01-01T00:00:01Z i4294967295 u T x y

02 01 02 02 00 01 00 ff 00 = NotUtf8

02 01 02 02 00 81 00 ff 00 = BadNumber";
    read_all(&rt, rt.alloc(), rows)
}

#[test]
fn refuses_tags(rt: HostRuntime) -> Result<(), Fail> {
    let rows = "\
02 01 00 00 = BadNumber

02 01 00 00 00 00 6b 00 = BadText

02 01 00 00 00 00 ff 00 00 = NotUtf8

02 01 00 00 00 05 = BadReference

02 01 00 00 00 80 00 = BadReference

02 01 00 00 00 00 62 00 00 00 61 00 00 01 = n1 v1 dV c0 t i0 u Ta=,b= x0 y0";
    read_all(&rt, rt.alloc(), rows)
}

#[test]
fn refuses_sections(rt: HostRuntime) -> Result<(), Fail> {
    let rows = "\
w 02 01 00 05 = BadSection

w 02 01 00 01 80 = BadNumber

w 02 01 00 01 80 00 = BadNumber

w 02 01 00 0a ff ff ff ff ff ff ff ff ff 01 = OutOfRange

w 02 01 00 02 02 02 = w1 v1 dV c0 t i0 u T Nn1,n2
w 02 01 00 01 02 = w2 v1 dV c0 t i0 u T Nn3

r 02 01 00 04 02 00 30 00 = r1 v1 dV c0 t i0 u T Mn1@
w 02 01 00 00 = w2 v1 dV c0 t i0 u T N
w 02 01 00 01 80 = MixedSegment";
    read_all(&rt, rt.alloc(), rows)
}

#[test]
fn refuses_members(rt: HostRuntime) -> Result<(), Fail> {
    let rows = "\
r 02 01 00 03 02 00 00 = BadMemberType

r 02 01 00 04 02 00 33 00 = BadMemberType

r 02 01 00 03 02 00 30 00 = BadText

r 02 01 00 01 02 = BadText

r 02 01 00 0d ff ff ff ff ff ff ff ff ff 01 00 33 00 = BadMemberType

r 02 01 00 0d ff ff ff ff ff ff ff ff ff 01 00 30 00 = OutOfRange

r 02 01 00 05 02 00 30 ff 00 = NotUtf8

w 02 01 00 01 02 = w1 v1 dV c0 t i0 u T Nn1
r 02 01 00 0d ff ff ff ff ff ff ff ff ff 01 00 30 00 = MixedSegment";
    read_all(&rt, rt.alloc(), rows)
}

#[test]
fn stays_failed(rt: HostRuntime) -> Result<(), Fail> {
    let rows = "\
80 = BadNumber
02 01 00 = Failed
reset
02 01 00 = Failed";
    read_all(&rt, rt.alloc(), rows)
}

#[test]
fn takes_strings_by_reference(rt: HostRuntime) -> Result<(), Fail> {
    let rows = "\
02 01 00 00 00 00 61 00 62 00 01 = n1 v1 dV c0 t i0 u Ta=b x0 y0

02 01 00 00 00 00 00 00 01 = n1 v1 dV c0 t i0 u T= x0 y0

02 01 02 02 00 01 00 61 00 00 00 01 = n1 v1 dV c1 t1970-01-01T00:00:01Z i1 ua T%01%=a x0 y0

02 01 00 00 00 00 61 00 00 81 00 = n1 v1 dV c0 t i0 u Ta= x0 y0

02 01 00 00 00 00 61 00 00 00 62 00 00 = n1 v1 dV c0 t i0 u Ta=,b= x0 y0
00 02 00 00 00 02 = n1 v2 dV c0 t i0 u Ta= x0 y0
00 03 00 00 00 01 = n1 v3 dV c0 t i0 u Tb= x0 y0
00 04 00 00 00 03 = BadReference";
    read_all(&rt, rt.alloc(), rows)
}

#[test]
fn takes_strings_of_the_other_form(rt: HostRuntime) -> Result<(), Fail> {
    let rows = "\
02 01 00 00 00 00 30 61 00 62 00 = n1 v1 dV c0 t i0 u T0a=b x0 y0
r 00 01 00 02 02 01 = r1 v1 dV c0 t i0 u T Mn1@a

r 02 01 00 05 02 00 31 61 00 01 = r1 v1 dV c0 t i0 u T1a= Mw1@a

02 01 00 00 00 00 61 00 62 00 = n1 v1 dV c0 t i0 u Ta=b x0 y0
r 00 01 00 02 02 01 = BadMemberType";
    read_all(&rt, rt.alloc(), rows)
}

#[test]
fn takes_strings_by_what_they_mean(rt: HostRuntime) -> Result<(), Fail> {
    let rows = "\
02 01 00 00 00 00 61 00 62 00 = n1 v1 dV c0 t i0 u Ta=b x0 y0
00 02 02 02 01 = n1 v2 dD c1 t1970-01-01T00:00:01Z i97 ub T x y

02 01 00 00 00 00 61 61 00 62 00 = n1 v1 dV c0 t i0 u Taa=b x0 y0
00 02 02 02 01 = BadNumber

02 01 02 02 00 ff ff ff ff 0f 00 61 00 = n1 v1 dD c1 t1970-01-01T00:00:01Z i4294967295 ua T x y
00 02 00 00 01 = n1 v2 dD c1 t1970-01-01T00:00:01Z i4294967295 ua T x y
00 03 00 00 01 00 00 01 = NotUtf8

02 01 02 02 00 80 01 00 61 00 = n1 v1 dD c1 t1970-01-01T00:00:01Z i128 ua T x y
00 02 00 00 01 = n1 v2 dD c1 t1970-01-01T00:00:01Z i128 ua T x y

02 01 00 00 00 00 61 00 62 63 64 65 66 67 68 69 6a 6b 6c 6d 6e 6f 70 71 72 73 74 75 76 77 78 79 7a 00 \
    = n1 v1 dV c0 t i0 u Ta=bcdefghijklmnopqrstuvwxyz x0 y0
00 02 02 02 01 00 00 01 = n1 v2 dV c1 t1970-01-01T00:00:01Z i97 ubcdefghijklmnopqrstuvwxyz \
    Ta=bcdefghijklmnopqrstuvwxyz x0 y0

02 01 00 00 00 00 61 20 62 00 c3 9f 25 00 = n1 v1 dV c0 t i0 u Ta%20%b=ß%25% x0 y0
00 02 00 00 00 01 = n1 v2 dV c0 t i0 u Ta%20%b=ß%25% x0 y0";
    read_all(&rt, rt.alloc(), rows)
}

#[test]
fn keeps_bases_until_a_reset(rt: HostRuntime) -> Result<(), Fail> {
    let rows = "\
02 01 00 0a 0e 00 61 00 00 = n1 v1 dV c0 t i0 u Ta= x0.0000005 y0.0000007
00 02 00 = n1 v2 dD c0 t i0 u T x y
02 01 00 00 00 01 = n2 v1 dV c0 t i0 u Ta= x0.0000005 y0.0000007
reset
02 01 00 00 00 = n1 v1 dV c0 t i0 u T x0 y0
02 01 00 00 00 01 = BadReference";
    read_all(&rt, rt.alloc(), rows)
}

#[test]
fn keeps_the_changeset_without_a_time(rt: HostRuntime) -> Result<(), Fail> {
    let rows = "\
02 01 04 06 = n1 v1 dD c3 t1970-01-01T00:00:02Z i0 u T x y
00 02 03 = n1 v2 dD c0 t i0 u T x y
00 03 02 00 = n1 v3 dD c3 t1970-01-01T00:00:01Z i0 u T x y
00 04 00 05 = n1 v4 dD c0 t1970-01-01T00:00:01Z i0 u T x y
00 05 00 01 = OutOfRange";
    read_all(&rt, rt.alloc(), rows)
}

#[test]
fn reads_times_and_changesets_at_their_limits(rt: HostRuntime) -> Result<(), Fail> {
    let rows = "\
02 01 02 fe ff ff ff 1f = n1 v1 dD c4294967295 t1970-01-01T00:00:01Z i0 u T x y
00 02 00 02 = OutOfRange

02 01 02 80 80 80 80 20 = OutOfRange

02 01 fe ff ff ff 1f 00 = n1 v1 dD c0 t2106-02-07T06:28:15Z i0 u T x y
00 02 02 = OutOfRange

02 01 ff ff ff ff ff ff ff ff ff 01 = OutOfRange

02 01 fe ff ff ff ff ff ff ff ff 01 = OutOfRange";
    read_all(&rt, rt.alloc(), rows)
}

#[test]
fn reads_users(rt: HostRuntime) -> Result<(), Fail> {
    let rows = "\
02 01 02 02 00 00 61 00 = n1 v1 dD c1 t1970-01-01T00:00:01Z i0 ua T x y

02 01 02 02 00 05 00 c3 a9 00 = n1 v1 dD c1 t1970-01-01T00:00:01Z i5 ué T x y

02 01 02 02 00 05 00 = BadText

02 01 02 02 00 80 00 61 00 = BadNumber";
    read_all(&rt, rt.alloc(), rows)
}

#[test]
fn reads_ids_at_their_limits(rt: HostRuntime) -> Result<(), Fail> {
    let rows = "\
00 01 00 = n0 v1 dD c0 t i0 u T x y
fe ff ff ff ff ff ff ff 7f 01 00 = n4611686018427387903 v1 dD c0 t i0 u T x y
02 01 00 = OutOfRange

ff ff ff ff ff ff ff ff 7f 01 00 = OutOfRange

w 02 01 00 09 fd ff ff ff ff ff ff ff 7f = w1 v1 dV c0 t i0 u T Nn-4611686018427387903
w 02 01 00 01 01 = OutOfRange

w 02 01 00 09 ff ff ff ff ff ff ff ff 7f = OutOfRange

r 02 01 00 0c fe ff ff ff ff ff ff ff 7f 00 32 00 = r1 v1 dV c0 t i0 u T Mr4611686018427387903@
r 02 01 00 04 02 00 31 00 = r2 v1 dV c0 t i0 u T Mw1@
r 02 01 00 04 02 00 32 00 = OutOfRange";
    read_all(&rt, rt.alloc(), rows)
}

#[test]
fn reads_sections_to_their_ends(rt: HostRuntime) -> Result<(), Fail> {
    let rows = "\
r 02 01 00 00 = r1 v1 dV c0 t i0 u T M

w 02 01 00 81 00 02 = w1 v1 dV c0 t i0 u T Nn1

w 02 01 00 01 = BadSection

w 02 01 00 ff ff ff ff ff ff ff ff ff 01 = BadSection

w 02 01 00 ff ff ff ff ff ff ff ff ff 02 = BadNumber

r 02 01 00 01 80 = BadNumber

r 02 01 00 02 02 05 = BadReference

r 02 01 00 02 02 80 01 = BadNumber

r 02 01 00 02 02 00 30 00 = BadText";
    read_all(&rt, rt.alloc(), rows)
}

#[test]
fn refuses_mixed_segments_only(rt: HostRuntime) -> Result<(), Fail> {
    let rows = "\
r 02 01 00 04 02 00 31 00 = r1 v1 dV c0 t i0 u T Mw1@
w 00 01 00 01 02 = w1 v1 dV c0 t i0 u T Nn1
r 02 01 00 04 00 00 32 00 = r2 v1 dV c0 t i0 u T Mr0@
r 02 01 00 04 02 00 30 00 = MixedSegment

r 02 01 00 04 02 00 30 00 = r1 v1 dV c0 t i0 u T Mn1@
w 02 01 00 00 = w2 v1 dV c0 t i0 u T N
w 02 01 00 01 02 = MixedSegment";
    read_all(&rt, rt.alloc(), rows)
}

#[test]
fn reads_locations_at_their_limits(rt: HostRuntime) -> Result<(), Fail> {
    let rows = "\
02 01 00 00 fe ff ff ff 1f = n1 v1 dV c0 t i0 u T x0 y-0.0000001

02 01 00 00 80 80 80 80 20 = OutOfRange

02 01 00 fe ff ff ff 0f ff ff ff ff 0f = n1 v1 dV c0 t i0 u T x214.7483647 y-214.7483648
02 01 00 02 01 = n2 v1 dV c0 t i0 u T x-214.7483648 y214.7483647

02 01 00 ff ff ff ff ff ff ff ff ff 01 00 = OutOfRange";
    read_all(&rt, rt.alloc(), rows)
}

#[test]
fn reads_texts(rt: HostRuntime) -> Result<(), Fail> {
    let rows = "\
02 01 00 00 00 00 f4 8f bf bf 00 00 = n1 v1 dV c0 t i0 u T%10ffff%= x0 y0

02 01 00 00 00 00 ed a0 80 00 00 = NotUtf8

02 01 00 00 00 00 c0 80 00 00 = NotUtf8

02 01 00 00 00 00 6b 00 ff 00 = NotUtf8

02 01 00 00 00 00 6b 00 76 = BadText

02 01 00 00 00 80 80 = BadNumber";
    read_all(&rt, rt.alloc(), rows)
}

/// A decoder that has read a node with the content `content`.
fn decoder_after(alloc: Global, content: &[u8]) -> Result<Decoder, Fail> {
    let mut decoder = Decoder::new(alloc)?;
    let version = decoder.read_set(Kind::Node, content)?;
    decoder.reuse(version);
    Ok(decoder)
}

/// Reads a content as `read` does, after a node with the content `first`.
fn read_after(
    rt: &impl Abort,
    alloc: Global,
    first: &[u8],
    content: &str,
    expected: &str,
) -> Result<(), Fail> {
    let mut decoder = decoder_after(alloc, first)?;
    read(rt, alloc, &mut decoder, content, expected)
}

/// `count` letters `a`.
fn letters(alloc: Global, count: usize) -> Result<String, Fail> {
    let mut text = String::new(alloc);
    for _ in 0..count {
        text.push('a')?;
    }
    Ok(text)
}

/// The content of a node with one tag, whose key is `k`.
fn tagged(alloc: Global, value: &str) -> Result<Vec<u8>, Fail> {
    let mut content = Vec::from_slice(alloc, b"\x02\x01\x00\x00\x00\x00k\x00")?;
    content.extend_from_slice(value.as_bytes())?;
    content.push(0)?;
    Ok(content)
}

#[test]
fn stores_a_pair_of_250_bytes(rt: HostRuntime) -> Result<(), Fail> {
    let value = letters(rt.alloc(), 249)?;
    let line = format!(in rt.alloc(); "n2 v1 dV c0 t i0 u Tk={value} x0 y0")?;
    let content = tagged(rt.alloc(), value.as_str())?;
    read_after(
        &rt,
        rt.alloc(),
        &content,
        "02 01 00 00 00 01",
        line.as_str(),
    )
}

#[test]
fn stores_no_pair_of_251_bytes(rt: HostRuntime) -> Result<(), Fail> {
    let value = letters(rt.alloc(), 250)?;
    let content = tagged(rt.alloc(), value.as_str())?;
    read_after(
        &rt,
        rt.alloc(),
        &content,
        "02 01 00 00 00 01",
        "BadReference",
    )
}

/// The content of a node with tags whose keys are the numbers from 1 on, and whose values are empty.
fn many_tags(alloc: Global, count: usize) -> Result<Vec<u8>, Fail> {
    let mut content = Vec::from_slice(alloc, b"\x02\x01\x00\x00\x00")?;
    for number in 0..count {
        let key = format!(in alloc; "{}", number + 1)?;
        content.push(0)?;
        content.extend_from_slice(key.as_bytes())?;
        content.extend_from_slice(b"\x00\x00")?;
    }
    Ok(content)
}

#[test]
fn stores_the_last_15000_pairs(rt: HostRuntime) -> Result<(), Fail> {
    let content = many_tags(rt.alloc(), 15_001)?;
    let line = "n2 v1 dV c0 t i0 u T2= x0 y0";
    read_after(&rt, rt.alloc(), &content, "02 01 00 00 00 98 75", line)?;
    read_after(
        &rt,
        rt.alloc(),
        &content,
        "02 01 00 00 00 99 75",
        "BadReference",
    )
}

#[test]
fn a_number_is_read_with_what_is_after_it(rt: HostRuntime) {
    match read_number(b"\xc3\x02\x05") {
        Ok((number, rest)) => {
            assert_eq!(rt; number, 323);
            assert_eq!(rt; rest, b"\x05".as_slice());
        }
        Err(_) => panic!(rt; "the number was refused"),
    }
    assert_eq!(rt; read_number(b"\x80").err(), Some(O5Reason::BadNumber));
}
