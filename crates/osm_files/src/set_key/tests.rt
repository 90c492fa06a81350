//! Keys of single parts.
use super::read_part;
use crate::o5::kind_of_type;
use o5_codec::{Decoder, read_number};
use osm_model::Key;
use std::alloc::Global;

/// Whether the key of a data set is that of the version that the whole content spells at the start of a segment.
fn has_key_of_whole_set(alloc: Global, set: &[u8]) -> bool {
    let Some((type_byte, rest)) = set.split_first() else {
        return false;
    };
    let Some(kind) = kind_of_type(*type_byte) else {
        return false;
    };
    let Ok((_, content)) = read_number(rest) else {
        return false;
    };
    let Ok(mut decoder) = Decoder::new(alloc) else {
        return false;
    };
    let Some(part) = read_part(set, 0, set.len() as u64) else {
        return false;
    };
    match (decoder.read_set(kind, content), part.key) {
        (Ok(version), Some(key)) => {
            part.size == set.len() as u64 && part.base == version.id() && key == Key::of(&version)
        }
        _ => false,
    }
}

#[test]
fn keys_are_those_of_whole_sets(rt: HostRuntime) {
    for set in [
        b"\x10\x05\x04\x01\x00\x02\x04".as_slice(),
        b"\x10\x03\x04\x01\x00",
        b"\x10\x06\xd8\x04\x07\x00\x02\x04",
        b"\x10\x06\x84\x00\x01\x00\x02\x04",
        b"\x10\x07\x04\xff\xff\xff\xff\x0f\x00",
        b"\x10\x0b\xfe\xff\xff\xff\xff\xff\xff\xff\x7f\x01\x00",
        b"\x11\x04\x03\x02\x00\x00",
        b"\x11\x06\x03\x02\x00\x02\x02\x02",
        b"\x12\x04\x04\x01\x00\x00",
        b"\x12\x84\x00\x04\x01\x00\x00",
    ] {
        assert!(rt; has_key_of_whole_set(rt.alloc(), set));
    }
}

#[test]
fn faulty_sets_have_keys(rt: HostRuntime) {
    for set in [
        b"\x10\x06\x04\x01\x02\x00\x09\x00".as_slice(),
        b"\x10\x04\x04\x01\x00\x02",
        b"\x10\x03\x04\x00\x00",
        b"\x11\x04\x04\x01\x00\x05",
    ] {
        let part = read_part(set, 0, set.len() as u64);
        assert!(rt; matches!(part, Some(part) if part.key.is_some()));
        assert!(rt; !has_key_of_whole_set(rt.alloc(), set));
    }
}

#[test]
fn other_parts_have_no_keys(rt: HostRuntime) {
    for (bytes, size, base) in [
        (b"\xff\x10".as_slice(), 1u64, 0i64),
        (b"\xf0\x10", 1, 7),
        (b"\xfd", 1, 7),
        (b"\xe0\x04o5m2\x10", 6, 7),
        (b"\xdb\x00", 2, 7),
        (b"\x00\x02\x10", 4, 7),
    ] {
        let part = read_part(bytes, 7, 9);
        assert!(rt;
            matches!(part, Some(part) if part.size == size && part.base == base && part.key.is_none())
        );
    }
}

#[test]
fn parts_of_other_forms_are_not_read(rt: HostRuntime) {
    for bytes in [
        b"".as_slice(),
        b"\xfe",
        b"\x10",
        b"\x10\x05\x04\x01\x00\x02",
        b"\x10\x00",
        b"\x10\x01\x04\x01",
        b"\x10\x80",
        b"\x10\x02\x84\x80\x01",
        b"\x10\x0c\xff\xff\xff\xff\xff\xff\xff\xff\xff\x01\x01\x00",
        b"\x10\x0b\xff\xff\xff\xff\xff\xff\xff\xff\x7f\x01\x00",
        b"\xe0\xff\xff\xff\xff\xff\xff\xff\xff\xff\x01",
        b"\x10\x80\x80\x80\x80\x80\x80\x80\x80\x80\x80\x00",
    ] {
        assert!(rt; read_part(bytes, 0, bytes.len() as u64).is_none());
    }
}
