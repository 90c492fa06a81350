//! Files read at offsets.
use super::{FromFile, ReadAt};
use std::alloc::Global;
use std::cell::Cell;
use std::fs::File;
use std::io;
use std::io::ErrorKind;
use std::os::unix::fs::FileExt;

/// The bytes of the tests.
const BYTES: &[u8] = b"abcdef";

/// A file of one byte. Its first read fails with `first`, and each later one gives a byte.
#[derive(Drop)]
struct FailsOnce {
    first: Cell<Option<ErrorKind>>,
}

impl FileExt for FailsOnce {
    fn read_at(&self, buffer: &mut [u8], _offset: u64) -> io::Result<usize> {
        if let Some(kind) = self.first.take() {
            return Err(io::Error::from(kind));
        }
        let Some(byte) = buffer.first_mut() else {
            return Ok(0);
        };
        *byte = b'a';
        Ok(1)
    }

    fn write_at(&self, _buffer: &[u8], _offset: u64) -> io::Result<usize> {
        Err(io::Error::from(ErrorKind::Unsupported))
    }
}

/// The length of `file`, and what reads of three bytes at some offsets give.
fn reads<F: ReadAt>(alloc: Global, file: &F) -> String {
    let mut text = String::new(alloc);
    match file.size() {
        Ok(size) => {
            let _ = write!(text, "{size}:");
        }
        Err(_) => {
            let _ = text.push_str("unknown:");
        }
    }
    for offset in [0u64, 2, 4, 5, 6, 9, u64::MAX] {
        let mut buffer = *b"---";
        match file.read_at(&mut buffer, offset) {
            Ok(count) => {
                let bytes = str::from_utf8(&buffer).unwrap_or("?");
                let _ = write!(text, " {count} {bytes}");
            }
            Err(_) => {
                let _ = text.push_str(" broken");
            }
        }
    }
    text
}

#[test]
fn slices_are_read_at_offsets(rt: HostRuntime) {
    assert_eq!(rt;
        reads(rt.alloc(), &BYTES).as_str(),
        "6: 3 abc 3 cde 2 ef- 1 f-- 0 --- 0 --- 0 ---"
    );
    assert_eq!(rt; BYTES.read_at(&mut [], 0), Ok(0));
}

#[test]
fn an_interrupted_read_is_tried_again(rt: HostRuntime) {
    for (first, text) in [
        (
            ErrorKind::Interrupted,
            "1: 1 a-- 1 a-- 1 a-- 1 a-- 1 a-- 1 a-- 1 a--",
        ),
        (
            ErrorKind::Other,
            "1: broken 1 a-- 1 a-- 1 a-- 1 a-- 1 a-- 1 a--",
        ),
    ] {
        let file = FailsOnce {
            first: Cell::new(Some(first)),
        };
        assert_eq!(rt; reads(rt.alloc(), &FromFile::new(file, 1)).as_str(), text);
    }
}

#[test]
fn a_device_is_read_at_offsets(rt: HostRuntime) {
    let text = match File::open(&rt, "/dev/null") {
        Ok(file) => reads(rt.alloc(), &FromFile::new(file, 9)),
        Err(_) => String::new(rt.alloc()),
    };
    assert_eq!(rt;
        text.as_str(),
        "9: 0 --- 0 --- 0 --- 0 --- 0 --- 0 --- broken"
    );
}
