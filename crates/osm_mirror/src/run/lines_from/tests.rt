//! Searches that read no stretch of a file often.
use crate::run::bounds::find_objects;
use crate::run::cut::cut_offset;
use osm_files::{Broken, ReadAt};
use osm_model::{Kind, Memory, Object};
use std::alloc::Global;
use std::cell::Cell;

/// A file that adds the number of bytes of each read to `read`.
#[derive(Drop)]
struct Counted {
    bytes: Vec<u8>,
    read: Cell<u64>,
}

impl ReadAt for Counted {
    ghost use Rattle.std.specs.Prelude.{None};

    ghost bytes = { λ _. None };

    ghost fails = { λ _. Unit {0} };

    fn size(&self) -> Result<u64, Broken> {
        self.bytes.as_slice().size()
    }

    fn read_at(&self, buffer: &mut [u8], offset: u64) -> Result<usize, Broken> {
        let count = self.bytes.as_slice().read_at(buffer, offset)?;
        self.read.set(self.read.get().saturating_add(count as u64));
        Ok(count)
    }
}

/// A bar if more than `most` bytes were read since the last call, and otherwise a blank.
fn mark(file: &Counted, most: u64) -> &'static str {
    if file.read.replace(0) > most {
        "|"
    } else {
        " "
    }
}

/// A node, `comments` lines of comments, `front`, then `middle` written 30,000 times, and then a line's end and a way.
fn long_file(
    alloc: Global,
    comments: usize,
    front: &[u8],
    middle: &[u8],
) -> Result<Vec<u8>, Memory> {
    let mut bytes = Vec::new(alloc);
    bytes.extend_from_slice(b"n1 v1 dD\n")?;
    for _ in 0..comments {
        bytes.extend_from_slice(b"# comment\n")?;
    }
    bytes.extend_from_slice(front)?;
    for _ in 0..30_000 {
        bytes.extend_from_slice(middle)?;
    }
    bytes.extend_from_slice(b"\nw2 v1 dD\n")?;
    Ok(bytes)
}

/// The number of objects that the probes of a file for four shards find, and the offsets at which it is cut at three
/// ways. A bar, and not a blank, follows a search that read more than about twice the file's length.
fn searches(alloc: Global, bytes: Vec<u8>) -> String {
    let mut text = String::new(alloc);
    let most = (bytes.len() as u64).saturating_mul(2).saturating_add(9999);
    let file = Counted {
        bytes,
        read: Cell::new(0),
    };
    match find_objects(alloc, &[&file], 4) {
        Ok(found) => {
            let _ = write!(text, "{}", found.len());
        }
        Err(fault) => {
            let _ = write!(text, "{fault}");
        }
    }
    for id in 1..4 {
        let _ = text.push_str(mark(&file, most));
        let kind = Kind::Way;
        match cut_offset(alloc, &file, Object { kind, id }) {
            Ok(offset) => {
                let _ = write!(text, "{offset}");
            }
            Err(fault) => {
                let _ = write!(text, "{fault}");
            }
        }
    }
    let _ = text.push_str(mark(&file, most));
    text
}

#[test]
fn stretches_are_read_at_most_twice(rt: HostRuntime) -> Result<(), Memory> {
    let alloc = rt.alloc();
    for (comments, front, middle, text) in [
        (30_000, b"".as_slice(), b"".as_slice(), "65 9 9 300019 "),
        (0, b"#", b"one line..", "65 9 9 300020 "),
        (0, b"w1 v1 dV Nn1", b",n1,n1,n12", "65 9 300022 300031 "),
        (
            30_000,
            b"w1 v1 dV Nn1",
            b",n1,n1,n12",
            "65 9 600022 600031 ",
        ),
    ] {
        let bytes = long_file(alloc, comments, front, middle)?;
        assert_eq!(rt; searches(alloc, bytes).as_str(), text);
    }
    let mut comments = Vec::new(alloc);
    comments.resize(300_000, b'#')?;
    assert_eq!(rt; searches(alloc, comments).as_str(), "0 0 0 0 ");
    Ok(())
}
