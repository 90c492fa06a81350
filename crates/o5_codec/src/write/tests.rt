//! Versions, each with its line and the data set that is written for it.
ghost use Rattle.std.specs.Prelude.{◌≡◌, false};

use crate::write::entry::Entry;
use crate::write::segment::EncoderSegment;
use crate::write::set_buffer::SetBuffer;
use crate::write::string_key::StringKey;
use crate::{Decoder, Encoder, read_number};
use osm_model::{Body, Kind, Meta, Tag, Tags, Text, Version};
use std::alloc::Global;
use std::process::Abort;
use std::test::Fail;

/// An encoder, and the kind of the version written last.
#[derive(Drop)]
struct Writer {
    encoder: Encoder,
    last: Kind,
    ghost follows: { encoder.failed ≡ false → encoder.written.last ≡ last },
}

impl Writer {
    fn new(alloc: Global) -> Result<Writer, Fail> {
        Ok(Writer {
            encoder: Encoder::new(alloc)?,
            last: Kind::Node,
        })
    }

    fn write(&mut self, v: &Version) -> Result<Vec<u8>, Fail> {
        if v.kind().index() < self.last.index() {
            return Err(Fail::from("the kinds fall"));
        }
        let set = self.encoder.write_set(v)?;
        self.last = v.kind();
        Ok(set)
    }
}

/// The bytes that `digits` has in hexadecimal.
fn bytes_of(alloc: Global, digits: &str) -> Result<Vec<u8>, Fail> {
    let mut bytes = Vec::new(alloc);
    for byte in digits.split_whitespace() {
        bytes.push(u8::from_str_radix(byte, 16)?)?;
    }
    Ok(bytes)
}

/// The kind of a type byte.
fn kind_of(type_byte: u8) -> Result<Kind, Fail> {
    match type_byte {
        0x10 => Ok(Kind::Node),
        0x11 => Ok(Kind::Way),
        0x12 => Ok(Kind::Relation),
        _ => Err(Fail::from("no type byte")),
    }
}

/// The version of a data set, after a reset if there is one.
fn read_back(reader: &mut Decoder, set: &[u8]) -> Result<Version, Fail> {
    let set = match set {
        [0xff, rest @ ..] => {
            reader.reset();
            rest
        }
        _ => set,
    };
    let (type_byte, rest) = set.split_first().ok_or("an empty set")?;
    let (length, content) = read_number(rest)?;
    if length != content.len() as u64 {
        return Err(Fail::from("another length"));
    }
    Ok(reader.read_set(kind_of(*type_byte)?, content)?)
}

/// Writes a version, compares its data set, and reads it back.
fn check(
    rt: &impl Abort,
    writer: &mut Writer,
    reader: &mut Decoder,
    version: &Version,
    expected: &[u8],
) -> Result<(), Fail> {
    let set = writer.write(version)?;
    assert_eq!(rt; set.as_slice(), expected);
    let read = read_back(reader, &set)?;
    assert_eq!(rt; &read, version);
    Ok(())
}

/// Checks a row: a data set that spells a version at the start of a segment, the line of the version, and the data set
/// that `writer` is expected to write for the version.
fn check_row(
    rt: &impl Abort,
    alloc: Global,
    writer: &mut Writer,
    reader: &mut Decoder,
    row: &str,
) -> Result<(), Fail> {
    let (only, rest) = row.split_once(" = ").ok_or("no line")?;
    let (line, written) = rest.split_once(" = ").ok_or("no data set")?;
    let version = read_back(&mut Decoder::new(alloc)?, &bytes_of(alloc, only)?)?;
    let mut text = Vec::new(alloc);
    version.append_line(&mut text)?;
    assert_eq!(rt; text.as_slice(), line.as_bytes());
    check(rt, writer, reader, &version, &bytes_of(alloc, written)?)
}

/// Checks rows. Another encoder begins at an empty row.
fn check_rows(rt: &impl Abort, alloc: Global, rows: &str) -> Result<(), Fail> {
    for file in rows.split("\n\n") {
        check_file(rt, alloc, file)?;
    }
    Ok(())
}

/// Checks rows by one encoder.
fn check_file(rt: &impl Abort, alloc: Global, rows: &str) -> Result<(), Fail> {
    let mut writer = Writer::new(alloc)?;
    let mut reader = Decoder::new(alloc)?;
    for row in rows.lines() {
        check_row(rt, alloc, &mut writer, &mut reader, row)?;
    }
    Ok(())
}

#[test]
fn writes_nodes_and_deletions(rt: HostRuntime) -> Result<(), Fail> {
    let rows = "\
10 0b 02 01 02 02 00 01 00 61 00 00 00 = n1 v1 dV c1 t1970-01-01T00:00:01Z i1 ua T x0 y0 \
    = 10 0b 02 01 02 02 00 01 00 61 00 00 00
10 09 02 02 04 02 00 01 00 61 00 = n1 v2 dD c1 t1970-01-01T00:00:02Z i1 ua T x y = 10 05 00 02 02 00 01

10 07 02 01 02 02 00 00 00 = n1 v1 dD c1 t1970-01-01T00:00:01Z i0 u T x y = 10 07 02 01 02 02 00 00 00
10 03 02 02 00 = n1 v2 dD c0 t i0 u T x y = 10 03 00 02 01
10 07 02 03 02 02 00 00 00 = n1 v3 dD c1 t1970-01-01T00:00:01Z i0 u T x y = 10 05 00 03 02 00 01

10 05 00 01 00 00 00 = n0 v1 dV c0 t i0 u T x0 y0 = 10 05 00 01 00 00 00
10 05 01 01 00 00 00 = n-1 v1 dV c0 t i0 u T x0 y0 = 10 05 01 01 00 00 00
10 05 03 01 00 00 00 = n-2 v1 dV c0 t i0 u T x0 y0 = 10 05 01 01 00 00 00
10 05 06 01 00 00 00 = n3 v1 dV c0 t i0 u T x0 y0 = 10 05 0a 01 00 00 00";
    check_rows(&rt, rt.alloc(), rows)
}

#[test]
fn writes_numbers_at_their_limits(rt: HostRuntime) -> Result<(), Fail> {
    let rows = "\
10 0d fd ff ff ff ff ff ff ff 7f 01 00 00 00 = n-4611686018427387903 v1 dV c0 t i0 u T x0 y0 \
    = 10 0d fd ff ff ff ff ff ff ff 7f 01 00 00 00
10 0d fe ff ff ff ff ff ff ff 7f 01 00 00 00 = n4611686018427387903 v1 dV c0 t i0 u T x0 y0 \
    = 10 0e fc ff ff ff ff ff ff ff ff 01 01 00 00 00

10 09 02 01 00 ff c7 ce b4 0d 00 = n1 v1 dV c0 t i0 u T x-180 y0 = 10 09 02 01 00 ff c7 ce b4 0d 00
10 09 04 01 00 80 c8 ce b4 0d 00 = n2 v1 dV c0 t i0 u T x180 y0 = 10 09 02 01 00 80 90 9d e9 1a 00

10 0d 02 01 00 ff ff ff ff 0f fe ff ff ff 0f = n1 v1 dV c0 t i0 u T x-214.7483648 y214.7483647 \
    = 10 0d 02 01 00 ff ff ff ff 0f fe ff ff ff 0f
10 0d 02 01 00 fe ff ff ff 0f ff ff ff ff 0f = n1 v1 dV c0 t i0 u T x214.7483647 y-214.7483648 \
    = 10 0d 00 01 00 fe ff ff ff 1f fd ff ff ff 1f

10 18 02 ff ff ff ff 0f fe ff ff ff 1f fe ff ff ff 1f 00 ff ff ff ff 0f 00 00 \
    = n1 v4294967295 dD c4294967295 t2106-02-07T06:28:15Z i4294967295 u T x y \
    = 10 18 02 ff ff ff ff 0f fe ff ff ff 1f fe ff ff ff 1f 00 ff ff ff ff 0f 00 00";
    check_rows(&rt, rt.alloc(), rows)
}

#[test]
fn writes_ways_and_relations(rt: HostRuntime) -> Result<(), Fail> {
    let rows = "\
11 04 0a 01 00 00 = w5 v1 dV c0 t i0 u T N = ff 11 04 0a 01 00 00
11 03 0a 02 00 = w5 v2 dD c0 t i0 u T N = 11 03 00 02 00

12 0c 02 01 00 04 02 00 30 00 00 30 00 00 = r1 v1 dV c0 t i0 u T0= Mn1@ = ff 12 0c 02 01 00 04 02 00 30 00 00 30 00 00

12 12 02 01 00 0e 02 00 30 61 00 04 00 31 61 00 02 02 02 01 = r1 v1 dV c0 t i0 u T Mn1@a,w2@a,n2@a,w3@a \
    = ff 12 12 02 01 00 0e 02 00 30 61 00 04 00 31 61 00 02 02 02 01

10 0a 02 01 00 00 00 00 6b 00 76 00 = n1 v1 dV c0 t i0 u Tk=v x0 y0 = 10 0a 02 01 00 00 00 00 6b 00 76 00
11 0b 02 01 00 02 02 04 00 6b 00 76 00 = w1 v1 dV c0 t i0 u Tk=v Nn1,n3 = ff 11 0b 02 01 00 02 02 04 00 6b 00 76 00
11 06 04 01 00 02 02 01 = w2 v1 dV c0 t i0 u T Nn1,n0 = 11 06 02 01 00 02 03 01
12 04 02 01 00 00 = r1 v1 dV c0 t i0 u T M = ff 12 04 02 01 00 00";
    check_rows(&rt, rt.alloc(), rows)
}

fn tag(alloc: Global, key: &str, value: &str) -> Result<Tag, Fail> {
    Ok(Tag {
        key: Text::from_string(String::from_str(alloc, key)?),
        value: Text::from_string(String::from_str(alloc, value)?),
    })
}

/// A node at 0, 0 without a time.
fn node(alloc: Global, id: i64, tags: Vec<Tag>) -> Result<Version, Fail> {
    let meta = Meta {
        version: 1,
        time: None,
        changeset: 0,
        uid: 0,
        user: Text::new(),
    };
    let body = Body::Node {
        lon: 0,
        lat: 0,
        tags: Tags::from_vec(tags),
    };
    Ok(Version::new(alloc, id, meta, body)?)
}

/// Node 1, whose tags have the numbers from 1 on as keys, in five digits, and empty values.
fn with_many_tags(alloc: Global, count: u32) -> Result<Version, Fail> {
    let mut tags = Vec::new(alloc);
    for number in 0..count {
        let key = format!(in alloc; "{:05}", number.wrapping_add(1))?;
        tags.push(tag(alloc, key.as_str(), "")?)?;
    }
    node(alloc, 1, tags)
}

/// Writes a version, and reads it back.
fn pass_on(writer: &mut Writer, reader: &mut Decoder, version: &Version) -> Result<(), Fail> {
    let set = writer.write(version)?;
    let read = read_back(reader, &set)?;
    reader.reuse(read);
    Ok(())
}

/// An encoder and a decoder after a node with `count` tags.
fn after_many_tags(alloc: Global, count: u32) -> Result<(Writer, Decoder), Fail> {
    let mut writer = Writer::new(alloc)?;
    let mut reader = Decoder::new(alloc)?;
    pass_on(&mut writer, &mut reader, &with_many_tags(alloc, count)?)?;
    Ok((writer, reader))
}

/// Writes a version, compares its data set with one in hexadecimal, and reads it back.
fn check_digits(
    rt: &impl Abort,
    alloc: Global,
    writer: &mut Writer,
    reader: &mut Decoder,
    version: &Version,
    expected: &str,
) -> Result<(), Fail> {
    let expected = bytes_of(alloc, expected)?;
    check(rt, writer, reader, version, &expected)
}

/// Writes node 1 with `count` tags, and node 2 with one tag, whose data set is compared.
fn check_second(
    rt: &impl Abort,
    alloc: Global,
    count: u32,
    key: &str,
    expected: &str,
) -> Result<(), Fail> {
    let (mut writer, mut reader) = after_many_tags(alloc, count)?;
    let version = node(alloc, 2, vec![in alloc; tag(alloc, key, "")?]?)?;
    check_digits(rt, alloc, &mut writer, &mut reader, &version, expected)
}

#[test]
fn refers_to_the_last_15000_pairs(rt: HostRuntime) -> Result<(), Fail> {
    let alloc = rt.alloc();
    check_second(&rt, alloc, 15_000, "00001", "10 07 02 01 00 00 00 98 75")?;
    check_second(
        &rt,
        alloc,
        15_001,
        "00001",
        "10 0d 02 01 00 00 00 00 30 30 30 30 31 00 00",
    )?;
    check_second(&rt, alloc, 15_001, "00002", "10 07 02 01 00 00 00 98 75")
}

/// The table as the format defines it: the numbers of the entries stored last, the newest at the end. A search compares
/// each number.
#[derive(Drop)]
struct Plain {
    stored: Vec<u32>,
    entry: Entry,
}

impl Plain {
    fn append(&mut self, out: &mut SetBuffer, number: u32, key: StringKey<'_>) -> Result<(), Fail> {
        for (index, other) in self.stored.iter().enumerate() {
            if *other == number {
                return Ok(out.append_number((self.stored.len() - index) as u64)?);
            }
        }
        self.entry.fill(key)?;
        self.entry.append_inline(out)?;
        if self.entry.is_short() {
            self.stored.push(number)?;
        }
        if self.stored.len() > 15_000 {
            let _ = self.stored.remove(0);
        }
        Ok(())
    }
}

/// The bytes of a buffer.
fn all_of(alloc: Global, set_buffer: &SetBuffer) -> Result<Vec<u8>, Fail> {
    let mut bytes = Vec::new(alloc);
    set_buffer.append_to(&mut bytes)?;
    Ok(bytes)
}

/// A text with two letters fewer than an entry may have.
fn long_text(alloc: Global) -> Result<String, Fail> {
    let mut text = String::new(alloc);
    for _ in 0..248u32 {
        text.push('a')?;
    }
    Ok(text)
}

/// Strings that depend on `number`: those of a user, a tag or a member. Some of them are long.
fn key_of<'a>(number: u32, digits: &'a [u8], long: &'a [u8]) -> StringKey<'a> {
    match number % 16 {
        0..=3 => StringKey::User {
            uid: u64::from(number),
            name: b"u",
        },
        4..=7 => StringKey::Tag {
            key: digits,
            value: &[],
        },
        8..=11 => StringKey::Tag {
            key: &[],
            value: digits,
        },
        12..=14 => StringKey::Member {
            kind: Kind::Way,
            role: digits,
        },
        _ => StringKey::Tag {
            key: digits,
            value: long,
        },
    }
}

/// Appends the strings of `number` with both tables, and compares the bytes.
fn append_to_both(
    rt: &impl Abort,
    alloc: Global,
    segment: &mut EncoderSegment,
    plain: &mut Plain,
    number: u32,
    long: &[u8],
) -> Result<(), Fail> {
    let digits = format!(in alloc; "{number}")?;
    let key = key_of(number, digits.as_str().as_bytes(), long);
    let mut written = SetBuffer::new(alloc);
    segment.append_strings(&mut written, key)?;
    let mut expected = SetBuffer::new(alloc);
    plain.append(&mut expected, number, key)?;
    let written = all_of(alloc, &written)?;
    assert_eq!(rt; written.as_slice(), all_of(alloc, &expected)?.as_slice());
    Ok(())
}

#[test]
fn refers_as_a_plain_search_does(rt: HostRuntime) -> Result<(), Fail> {
    let alloc = rt.alloc();
    let mut segment = EncoderSegment::new(alloc)?;
    let mut plain = Plain {
        stored: Vec::new(alloc),
        entry: Entry::new(alloc),
    };
    let long = long_text(alloc)?;
    let mut random: u64 = 1;
    for _ in 0..20_000u32 {
        random = random
            .wrapping_mul(6_364_136_223_846_793_005)
            .wrapping_add(1);
        let number = (random >> 33) as u32 % 60_000;
        append_to_both(
            &rt,
            alloc,
            &mut segment,
            &mut plain,
            number,
            long.as_str().as_bytes(),
        )?;
    }
    assert_eq!(rt; plain.stored.len(), 15_000);
    Ok(())
}
