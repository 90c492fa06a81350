//! The order of the lines of small files, and of a file with a line that is longer than a window.
use super::{WINDOW, first_falling};
use crate::input::Broken;
use crate::read_at::ReadAt;
use crate::texts::push_fault;
use std::alloc::Global;

/// A file that gives one byte in each read, and fails at the offset `broken`.
#[derive(Drop)]
struct Dripping<'a> {
    bytes: &'a [u8],
    broken: u64,
}

impl ReadAt for Dripping<'_> {
    ghost use Rattle.std.specs.Prelude.{None};

    ghost bytes = { λ _. None };

    ghost fails = { λ _. Unit {0} };

    fn size(&self) -> Result<u64, Broken> {
        Ok(self.bytes.len() as u64)
    }

    fn read_at(&self, buffer: &mut [u8], offset: u64) -> Result<usize, Broken> {
        if offset >= self.broken || buffer.is_empty() {
            return Err(Broken);
        }
        self.bytes.read_at(&mut buffer[..1], offset)
    }
}

/// The offset of the first line of `file` from `start` on whose key is below the key before it, or the fault.
fn order_text<F: ReadAt>(alloc: Global, file: &F, start: u64, end: u64) -> String {
    let mut text = String::new(alloc);
    match first_falling(alloc, file, start, end) {
        Ok(Some(offset)) => {
            let _ = write!(text, "{offset}");
        }
        Ok(None) => {
            let _ = text.push_str("none");
        }
        Err(fault) => push_fault(&mut text, fault),
    }
    text
}

#[test]
fn keys_decide(rt: HostRuntime) {
    for (file, text) in [
        (b"".as_slice(), "none"),
        (b"\n\r\n# end\n", "none"),
        (b"n-1 v1\nn-2 v1\nn1 v1\nn1 v1\nn1 v2\nw1 v1\nr1 v1", "none"),
        (b"n1 v2 dD\r\nn1 v1 dD\r\n", "10"),
        (b"n1 v1 dD\nn-1 v1 dD\n", "9"),
        (b"n2 v1 dD\n# end\n\nn1 dD v1", "16"),
        (b"n10 v1 dD\nn9 v1 dD\nn8 v1 dD", "10"),
        (b"w1 v1 dD\nn1 v1 dD", "9"),
        (b"n1 v1 dD\nn1\nn0 v1", "file 0, byte 9: NoVersion\n"),
        (b"n2 v1 dD\nn1 v1\nn3", "9"),
        (b"n2 v1\nn3", "file 0, byte 6: NoVersion\n"),
    ] {
        let end = file.len() as u64;
        assert_eq!(rt; order_text(rt.alloc(), &file, 0, end).as_str(), text);
        let dripping = Dripping {
            bytes: file,
            broken: u64::MAX,
        };
        assert_eq!(rt; order_text(rt.alloc(), &dripping, 0, end).as_str(), text);
    }
}

#[test]
fn the_lines_of_a_part_are_read(rt: HostRuntime) {
    let file = b"n3 v1 dD\nn1 v1 dD\nn2 v1 dD\nn0 v1 dD\n".as_slice();
    for (start, end, broken, text) in [
        (0u64, 36u64, 99u64, "9"),
        (9, 36, 99, "27"),
        (9, 27, 99, "none"),
        (27, 9, 99, "none"),
        (0, 37, 99, "file 0, byte 36: ReadFault\n"),
        (0, 36, 20, "file 0, byte 20: ReadFault\n"),
    ] {
        let dripping = Dripping {
            bytes: file,
            broken,
        };
        assert_eq!(rt;
            order_text(rt.alloc(), &dripping, start, end).as_str(),
            text
        );
    }
}

/// The order of a deletion, a line of `front` and zeros or `#`s, and a deletion with a lesser key.
fn long_line_text(alloc: Global, front: &[u8], repeated: u8) -> String {
    let mut file = Vec::new(alloc);
    let _ = file.extend_from_slice(b"n2 v1 dD\n");
    let _ = file.extend_from_slice(front);
    let _ = file.resize(3 * WINDOW as usize, repeated);
    let _ = file.extend_from_slice(b"\nn1 v1 dD\n");
    let bytes = file.as_slice();
    order_text(alloc, &bytes, 0, bytes.len() as u64)
}

#[test]
fn a_line_may_be_longer_than_a_window(rt: HostRuntime) {
    for (front, repeated, text) in [
        (b"#".as_slice(), b'#', "196609"),
        (b"n2 v1 dD u", b'a', "196609"),
        (b"n1 v1 dD u", b'a', "9"),
        (b"", b'\0', "file 0, byte 9: UnknownKind\n"),
        (b" ", b'\xff', "file 0, byte 9: UnknownKind\n"),
    ] {
        assert_eq!(rt; long_line_text(rt.alloc(), front, repeated).as_str(), text);
    }
}
