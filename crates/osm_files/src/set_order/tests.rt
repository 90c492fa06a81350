//! The order of the data sets of small files, and of a file with a data set that is longer than a window.
use super::{SetOrder, WINDOW, order_of_run};
use crate::input::Broken;
use crate::read_at::ReadAt;
use crate::sorted_run::SortedRun;
use crate::texts::push_fault;
use osm_model::Memory;
use std::alloc::Global;

/// A file that gives at most `most` bytes in each read, and fails at offsets from `broken` up to `sound`.
#[derive(Drop)]
struct Dripping<'a> {
    bytes: &'a [u8],
    most: usize,
    broken: u64,
    sound: u64,
}

impl ReadAt for Dripping<'_> {
    ghost use Rattle.std.specs.Prelude.{None};

    ghost bytes = { λ _. None };

    ghost fails = { λ _. Unit {0} };

    fn size(&self) -> Result<u64, Broken> {
        Ok(self.bytes.len() as u64)
    }

    fn read_at(&self, buffer: &mut [u8], offset: u64) -> Result<usize, Broken> {
        if offset >= self.broken && offset < self.sound {
            return Err(Broken);
        }
        let count = buffer.len().min(self.most);
        self.bytes.read_at(&mut buffer[..count], offset)
    }
}

/// The order of the data sets of a run of `file`, or the fault.
fn order_text<F: ReadAt>(alloc: Global, file: &F, size: u64, run: SortedRun) -> String {
    let mut text = String::new(alloc);
    match order_of_run(alloc, file, size, run) {
        Ok(SetOrder::Rises) => {
            let _ = text.push_str("rises");
        }
        Ok(SetOrder::Falls(offset)) => {
            let _ = write!(text, "{offset}");
        }
        Ok(SetOrder::Unknown) => {
            let _ = text.push_str("unknown");
        }
        Err(fault) => push_fault(&mut text, fault),
    }
    text
}

/// Files, each with the order of its keys: `rises`, the offset of the data set whose key falls, or `unknown`.
const ORDERS: [(&[u8], &str); 17] = [
    (b"\xff\xe0\x04o5m2\xfe", "rises"),
    (b"\xff\xe0\x04o5c2\xff\xf0\xdb\x01x\xfe", "rises"),
    (
        b"\xff\xe0\x04o5m2\x10\x03\x04\x01\x00\x10\x03\x00\x01\x00\x10\x03\x00\x02\x00\xfe",
        "rises",
    ),
    (
        b"\xff\xe0\x04o5m2\x10\x03\x04\x02\x00\x10\x03\x00\x01\x00\xfe",
        "12",
    ),
    (
        b"\xff\xe0\x04o5m2\x10\x03\x04\x01\x00\x10\x03\x01\x01\x00\xfe",
        "12",
    ),
    (
        b"\xff\xe0\x04o5m2\x10\x03\x04\x01\x00\x10\x03\x07\x01\x00\xfe",
        "12",
    ),
    (
        b"\xff\xe0\x04o5m2\x10\x03\x04\x01\x00\xff\x10\x03\x02\x01\x00\xfe",
        "13",
    ),
    (
        b"\xff\xe0\x04o5m2\x10\x03\x04\x01\x00\xff\x10\x03\x06\x01\x00\xfe",
        "rises",
    ),
    (
        b"\xff\xe0\x04o5m2\x10\x03\x04\x01\x00\x11\x03\x01\x01\x00\x12\x03\x00\x01\x00\xfe",
        "rises",
    ),
    (
        b"\xff\xe0\x04o5m2\x12\x03\x04\x01\x00\xf0\xdb\x01x\x11\x03\x00\x01\x00\xfe",
        "16",
    ),
    (
        b"\xff\xe0\x04o5m2\x10\x03\x04\x01\x00\x10\x04\x01\x01\x00\xfe",
        "unknown",
    ),
    (
        b"\xff\xe0\x04o5m2\x10\x03\x04\x01\x00\x10\x01\x01\xfe",
        "unknown",
    ),
    (b"\xff\xe0\x04o5m2\xfe\xfe", "unknown"),
    (b"\xff\xe0\x04o5m2", "unknown"),
    (b"\xff\xe0\x04o5m\xfe", "unknown"),
    (b"\xff\xe0\x04o5x2\xfe", "unknown"),
    (b"", "unknown"),
];

#[test]
fn keys_decide(rt: HostRuntime) {
    for (file, text) in ORDERS {
        let size = file.len() as u64;
        let whole = SortedRun::whole();
        assert_eq!(rt; order_text(rt.alloc(), &file, size, whole).as_str(), text);
        let dripping = Dripping {
            bytes: file,
            most: 1,
            broken: 0,
            sound: 0,
        };
        assert_eq!(rt;
            order_text(rt.alloc(), &dripping, size, whole).as_str(),
            text
        );
    }
}

#[test]
fn the_sets_of_a_run_are_read(rt: HostRuntime) {
    let file =
        b"\xff\xe0\x04o5m2\x10\x03\x04\x01\x00\xff\x10\x03\x02\x01\x00\xff\x10\x03\x00\x01\x00\xfe".as_slice();
    for (start, size, lacks_header, lacks_end, text) in [
        (0u64, 12u64, false, true, "rises"),
        (0, 13, false, true, "rises"),
        (0, 12, false, false, "unknown"),
        (0, 18, false, true, "13"),
        (13, 5, true, true, "rises"),
        (13, 99, true, false, "19"),
        (19, 99, true, false, "rises"),
        (24, 99, true, false, "rises"),
        (25, 99, true, false, "unknown"),
        (25, 99, true, true, "rises"),
        (30, 99, true, true, "unknown"),
        (13, 5, false, true, "unknown"),
    ] {
        let run = SortedRun {
            start,
            size,
            lacks_header,
            lacks_end,
        };
        let text_found = order_text(rt.alloc(), &file, file.len() as u64, run);
        assert_eq!(rt; text_found.as_str(), text);
    }
}

#[test]
fn the_bytes_after_a_key_are_skipped(rt: HostRuntime) -> Result<(), Memory> {
    let mut file = Vec::new(rt.alloc());
    file.extend_from_slice(b"\xff\xe0\x04o5m2\x10\xc0\x84\x3d\x04\x01\x00")?;
    file.resize(1_000_000 + 11, b'#')?;
    file.extend_from_slice(b"\x10\x03\x01\x01\x00\xfe")?;
    let bytes = file.as_slice();
    let size = bytes.len() as u64;
    let whole = SortedRun::whole();
    assert_eq!(rt;
        order_text(rt.alloc(), &bytes, size, whole).as_str(),
        "1000011"
    );
    for (broken, sound, text) in [
        (WINDOW + 7, 1_000_011u64, "1000011"),
        (
            WINDOW + 6 - 4095,
            1_000_011,
            "file 0, byte 61447: ReadFault\n",
        ),
        (WINDOW + 7, 1_000_012, "file 0, byte 1000011: ReadFault\n"),
    ] {
        let file = Dripping {
            bytes,
            most: 4096,
            broken,
            sound,
        };
        assert_eq!(rt; order_text(rt.alloc(), &file, size, whole).as_str(), text);
    }
    Ok(())
}
