//! The offsets at which files are cut at objects.
use super::cut_offset;
use osm_files::{Broken, ReadAt};
use osm_model::{Kind, Object};
use std::alloc::Global;

/// Versions of two nodes and a way. Their lines begin at 0, 9, 22 and 31.
const FILE: &[u8] = b"n1 v1 dD\nn1 v2 dD\n# c\nn3 v1 dD\nw1 v1 dD";

/// A file with the bytes of `FILE`. Each read from the offset `end` on fails. Without an `end` its length isn't known.
#[derive(Drop)]
struct FailsFrom {
    end: Option<u64>,
}

impl ReadAt for FailsFrom {
    ghost use Rattle.std.specs.Prelude.{None};

    ghost bytes = { λ _. None };

    ghost fails = { λ _. Unit {0} };

    fn size(&self) -> Result<u64, Broken> {
        match self.end {
            Some(_) => FILE.size(),
            None => Err(Broken),
        }
    }

    fn read_at(&self, buffer: &mut [u8], offset: u64) -> Result<usize, Broken> {
        match self.end {
            Some(end) if offset < end => {
                let most = buffer.len().min((end - offset) as usize);
                FILE.read_at(&mut buffer[..most], offset)
            }
            _ => Err(Broken),
        }
    }
}

/// The offset at which `file` is cut at the object of the kind `kind` with the id `id`.
fn cut_text<F: ReadAt>(alloc: Global, file: &F, kind: Kind, id: i64) -> String {
    let mut text = String::new(alloc);
    match cut_offset(alloc, file, Object { kind, id }) {
        Ok(offset) => {
            let _ = write!(text, "{offset}");
        }
        Err(fault) => {
            let _ = write!(text, "{fault}");
        }
    }
    text
}

#[test]
fn files_are_cut_at_objects(rt: HostRuntime) {
    for (file, kind, id, text) in [
        (FILE, Kind::Node, 1, "0"),
        (FILE, Kind::Node, 2, "18"),
        (FILE, Kind::Node, 3, "18"),
        (FILE, Kind::Way, 1, "31"),
        (FILE, Kind::Relation, 1, "39"),
        (b"".as_slice(), Kind::Node, 1, "0"),
        (b"# c".as_slice(), Kind::Node, 1, "0"),
        (
            b"n1 v1 dD\n\xff".as_slice(),
            Kind::Node,
            2,
            "file 0, byte 9: NotUtf8",
        ),
        (
            b"n1\n".as_slice(),
            Kind::Node,
            2,
            "file 0, byte 0: NoVersion",
        ),
    ] {
        assert_eq!(rt; cut_text(rt.alloc(), &file, kind, id).as_str(), text);
    }
}

#[test]
fn a_failing_file_is_refused(rt: HostRuntime) {
    for (end, kind, id, text) in [
        (Some(39u64), Kind::Node, 2, "18"),
        (Some(39), Kind::Relation, 1, "file 0, byte 39: ReadFault"),
        (Some(20), Kind::Node, 2, "file 0, byte 20: ReadFault"),
        (Some(0), Kind::Node, 1, "file 0, byte 18: ReadFault"),
        (None, Kind::Node, 1, "file 0, byte 0: ReadFault"),
    ] {
        let file = FailsFrom { end };
        assert_eq!(rt; cut_text(rt.alloc(), &file, kind, id).as_str(), text);
    }
}
