//! Lines from an offset on.
use super::{FAR, first_object, line_start};
use crate::input::Broken;
use crate::read_at::ReadAt;
use osm_model::Memory;
use std::alloc::Global;

/// Two nodes, a comment, an empty line, a way and a line that is no version. Lines begin at 0, 9, 19, 28, 29 and 38.
const FILE: &[u8] = b"n1 v1 dD\n# comment\nn2 v1 dD\r\nw3 v1 dD\nn4";

/// A file with the bytes of `FILE`. Each read from the offset `end` on fails.
#[derive(Drop)]
struct FailsFrom {
    end: u64,
}

impl ReadAt for FailsFrom {
    ghost use Rattle.std.specs.Prelude.{None};

    ghost bytes = { λ _. None };

    ghost fails = { λ _. Unit {0} };

    fn size(&self) -> Result<u64, Broken> {
        FILE.size()
    }

    fn read_at(&self, buffer: &mut [u8], offset: u64) -> Result<usize, Broken> {
        if offset >= self.end {
            return Err(Broken);
        }
        let most = buffer.len().min((self.end - offset) as usize);
        FILE.read_at(&mut buffer[..most], offset)
    }
}

/// The offset of the first line of `file` that begins at `offset` or after it, or `end`, and the id of the first
/// version from there up to `end`.
fn line_text<F: ReadAt>(alloc: Global, file: &F, offset: u64, end: u64) -> String {
    let mut text = String::new(alloc);
    let start = match line_start(file, offset, end) {
        Ok(start) => start,
        Err(fault) => {
            let _ = write!(text, "{fault}");
            return text;
        }
    };
    let _ = write!(text, "{start}: ");
    match first_object(alloc, file, start, end) {
        Ok(Some(object)) => {
            let _ = write!(text, "{}", object.id);
        }
        Ok(None) => {
            let _ = text.push_str("none");
        }
        Err(fault) => {
            let _ = write!(text, "{fault}");
        }
    }
    text
}

#[test]
fn lines_from_an_offset(rt: HostRuntime) {
    for (offset, end, text) in [
        (0, 40, "0: 1"),
        (1, 40, "9: 2"),
        (10, 40, "19: 2"),
        (20, 40, "28: 3"),
        (29, 40, "29: 3"),
        (30, 40, "38: file 0, byte 38: NoVersion"),
        (39, 40, "40: none"),
        (50, 40, "40: none"),
        (0, 0, "0: none"),
        (1, 19, "9: none"),
        (1, 9, "9: none"),
        (1, 5, "5: none"),
        (20, 38, "28: 3"),
    ] {
        assert_eq!(rt; line_text(rt.alloc(), &FILE, offset, end).as_str(), text);
    }
}

#[test]
fn lines_of_a_failing_file(rt: HostRuntime) {
    for (broken, offset, end, text) in [
        (9, 0, 40, "0: 1"),
        (8, 0, 40, "0: 1"),
        (25, 1, 40, "9: 2"),
        (22, 1, 40, "9: file 0, byte 22: ReadFault"),
        (25, 1, 19, "9: none"),
        (28, 9, 40, "9: 2"),
        (5, 1, 40, "file 0, byte 5: ReadFault"),
        (5, 1, 5, "5: none"),
    ] {
        let file = FailsFrom { end: broken };
        assert_eq!(rt; line_text(rt.alloc(), &file, offset, end).as_str(), text);
    }
}

#[test]
fn a_line_may_be_longer_than_a_read(rt: HostRuntime) -> Result<(), Memory> {
    let mut file = Vec::new(rt.alloc());
    file.resize(3 * FAR, b'#')?;
    file.extend_from_slice(b"\nn7 v1 dD\n")?;
    let bytes = file.as_slice();
    for (offset, end, text) in [
        (0, 196_619, "0: 7"),
        (1, 196_619, "196609: 7"),
        (1, 196_608, "196608: none"),
        (100_000, 196_619, "196609: 7"),
        (1, 4_097, "4097: none"),
        (1, 4_098, "4098: none"),
    ] {
        assert_eq!(rt; line_text(rt.alloc(), &bytes, offset, end).as_str(), text);
    }
    Ok(())
}

/// The text of a search in a line of about 90 KB that begins with `front`, after a comment.
fn long_line_text(alloc: Global, front: &[u8]) -> Result<String, Memory> {
    let mut file = Vec::new(alloc);
    file.extend_from_slice(b"# comment\n")?;
    file.extend_from_slice(front)?;
    for _ in 0..30_000 {
        file.extend_from_slice(b"n1,")?;
    }
    file.extend_from_slice(b"n1\nw8 v1 dD\n")?;
    Ok(line_text(alloc, &file.as_slice(), 0, file.len() as u64))
}

#[test]
fn long_lines_have_keys(rt: HostRuntime) -> Result<(), Memory> {
    for (front, text) in [
        (b"w7 v1 N".as_slice(), "0: 7"),
        (b"w7 v1  N", "0: 7"),
        (b"w7 dV v1 N", "0: 7"),
        (b"w7 v1,N", "0: file 0, byte 10: BadNumber"),
        (b"w7 dV N", "0: file 0, byte 10: NoVersion"),
        (b"x7 v1 N", "0: file 0, byte 10: UnknownKind"),
        (b"##", "0: 8"),
    ] {
        assert_eq!(rt; long_line_text(rt.alloc(), front)?.as_str(), text);
    }
    Ok(())
}
