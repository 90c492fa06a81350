//! Files that are opened to be read.
ghost use Rattle.std.specs.Prelude.{◌≡◌, IfOk, IfSome};

use super::target::STANDARD;
use super::{Host, Refusal};
use std::alloc::AllocError;
use std::fs;
use std::fs::{File, Metadata};
use std::io::{ErrorKind, Read};
use std::time::SystemTime;

/// The name of standard input in the line of a refusal.
pub(super) const STANDARD_INPUT: &str = "standard input";

/// The size of a regular file, and the time of its last modification.
#[derive(Clone, Copy, PartialEq, Eq)]
pub(super) struct Stamp {
    /// The size, in bytes.
    pub(super) size: u64,
    /// The time.
    modified: SystemTime,
}

impl Stamp {
    /// The stamp of a file with this metadata, if the file is a regular one and the system knows it.
    pub(super) fn of(metadata: &Metadata) -> Option<Stamp> {
        if !metadata.is_file() {
            return None;
        }
        let (size, modified) = (metadata.len(), metadata.modified().ok()?);
        Some(Stamp { size, modified })
    }

    /// The stamp of an open file, if the file is a regular one and the system knows it.
    pub(super) fn of_file(file: &File) -> Option<Stamp> {
        Stamp::of(&file.metadata().ok()?)
    }

    /// The stamp of standard input, if it is a regular file and the system knows it.
    pub(super) fn of_input(rt: &impl Host) -> Option<Stamp> {
        Stamp::of(&fs::metadata(rt, "/dev/stdin").ok()?)
    }

    /// Refuses the file with the name `name` if its stamp, which is `found` now, was `before` and has changed. Of an
    /// empty file only the size counts: a file of `/proc` has bytes, though its size is always 0.
    pub(super) fn refuse_changed<'a>(
        before: Option<Stamp>,
        found: Option<Stamp>,
        name: &'a str,
    ) -> Result<(), Refusal<'a>> {
        match (before, found) {
            (None, _) => Ok(()),
            (Some(old), Some(new)) if old == new || old.size == 0 && new.size == 0 => Ok(()),
            (Some(_), Some(_)) => Err(Refusal::Changed { name }),
            (Some(_), None) => Err(Refusal::CannotRead { name, code: None }),
        }
    }
}

/// The name of an input file in the line of its fault. The argument `arg` names the file.
pub(super) fn input_name<'a>(arg: &'a str) -> &'a str {
    if arg == STANDARD { STANDARD_INPUT } else { arg }
}

/// Opens the file `name` to be read.
pub(super) fn open<'a>(rt: &impl Host, name: &'a str) -> Result<File, Refusal<'a>> {
    File::open(rt, name).map_err(|error| Refusal::unread(name, &error))
}

/// Opens and reads the file `name`, which may be a pipe or a device. A regular file that changes while it is read is
/// refused.
pub(super) fn read_file<'a>(rt: &impl Host, name: &'a str) -> Result<(Vec<u8>, File), Refusal<'a>> {
    let mut file = open(rt, name)?;
    let stamp = Stamp::of_file(&file);
    let bytes = read_stream(rt, &mut file, name)?;
    Stamp::refuse_changed(stamp, Stamp::of_file(&file), name)?;
    Ok((bytes, file))
}

/// Reads standard input to its end. A regular file that changes while it is read is refused.
pub(super) fn read_input<'a, I: Read>(rt: &impl Host, stdin: &mut I) -> Result<Vec<u8>, Refusal<'a>>
    ensures { IfOk result (λ bytes. IfSome (I.remaining stdin.old) (λ rest. bytes.items ≡ rest)) }
{
    let stamp = Stamp::of_input(rt);
    let bytes = read_stream(rt, stdin, STANDARD_INPUT)?;
    Stamp::refuse_changed(stamp, Stamp::of_input(rt), STANDARD_INPUT)?;
    Ok(bytes)
}

/// Reads the rest of `stream`, whose name is `name`.
fn read_stream<'a, S: Read>(
    rt: &impl Host,
    stream: &mut S,
    name: &'a str,
) -> Result<Vec<u8>, Refusal<'a>>
    ensures { IfOk result (λ bytes. IfSome (S.remaining stream.old) (λ rest. bytes.items ≡ rest)) }
{
    let mut bytes = Vec::new(rt.alloc());
    match stream.read_to_end(&mut bytes) {
        Ok(_) => Ok(bytes),
        Err(error) if error.kind() == ErrorKind::OutOfMemory => Err(Refusal::Memory(AllocError)),
        Err(error) => Err(Refusal::unread(name, &error)),
    }
}
