//! Inputs of commands, each with the rule for its end. Their reads are watched.
use super::files::{STANDARD_INPUT, Stamp, open};
use super::out_part::FileId;
use super::request::InputFiles;
use super::target::STANDARD;
use super::{Host, Refusal};
use either::{Either, Left, Right};
use osm_files::{FromFile, FromRead, ReadAt};
use osm_mirror::{JobInput, Metered, Watch};
use std::fs;
use std::fs::File;
use std::io::Read;

/// A regular file of a command.
pub(super) type RegularInput<M: Watch> = Metered<FromFile<File>, M>;

/// A pipe, a device, an empty file or standard input, as a stream of a command. A file of `/proc` has bytes, though its
/// size is 0.
pub(super) type StreamInput<I, M> = FromRead<Metered<Either<File, I>, M>>;

/// An open input of a command. A stream isn't part of it.
pub(super) type OpenInput<'a, M: Watch> = JobInput<Note<'a>, RegularInput<M>>;

/// What a command notes of an open input.
#[derive(Drop)]
pub(super) struct Note<'a> {
    /// Its name in the line of a fault.
    pub(super) name: &'a str,
    /// The identity of the file, if it is known.
    pub(super) id: Option<FileId>,
    /// The stamp of the moment when it was opened, if it is a regular file: an empty one, or standard input, too.
    stamp: Option<Stamp>,
}

/// Opens the file that `arg` names, or takes standard input from `stdin`. An input that isn't read as a regular file is
/// appended to `streams`: so is an empty file, unless `files` keeps it.
pub(super) fn open_input<'a, I: Read + Drop, M: Watch>(
    rt: &impl Host,
    files: &InputFiles<'a>,
    arg: &'a str,
    stdin: &mut Option<I>,
    streams: &mut Vec<StreamInput<I, M>>,
    watch: M,
) -> Result<OpenInput<'a, M>, Refusal<'a>> {
    let (name, inner, id, stamp) = if arg != STANDARD {
        let file = open(rt, arg)?;
        // The system is asked once: a change after this moment is noticed.
        let metadata = file.metadata().ok();
        let id = metadata.as_ref().map(|metadata| FileId::of(metadata));
        let stamp = metadata.as_ref().and_then(|metadata| Stamp::of(metadata));
        (arg, Left(file), id, stamp)
    } else if let Some(stream) = stdin.take() {
        let (id, stamp) = (FileId::of_input(rt), Stamp::of_input(rt));
        (STANDARD_INPUT, Right(stream), id, stamp)
    } else {
        let name = STANDARD_INPUT;
        return Err(Refusal::CannotRead { name, code: None });
    };
    let end = match (&inner, stamp) {
        (Left(_), Some(_)) => files.end.of_file(),
        _ => files.end,
    };
    let regular = match (inner, stamp) {
        (Left(file), Some(stamp)) if stamp.size > 0 || files.keeps_empty => {
            Some(Metered::new(FromFile::new(file, stamp.size), watch))
        }
        (inner, _) => {
            streams.push(FromRead::new(Metered::new(inner, watch)))?;
            None
        }
    };
    let note = Note { name, id, stamp };
    Ok(JobInput { note, regular, end })
}

/// The size of an input that is read as a regular file, in bytes.
pub(super) fn size_of<M: Watch>(input: &OpenInput<'_, M>) -> Option<u64> {
    input.regular.as_ref()?.size().ok()
}

/// Refuses a regular file that has changed since it was opened. An empty file is looked up by its name; if another file
/// has this name now, it counts as unchanged.
pub(super) fn refuse_changed<'a, M: Watch>(
    rt: &impl Host,
    input: &OpenInput<'a, M>,
) -> Result<(), Refusal<'a>> {
    let name = input.note.name;
    let found = match &input.regular {
        Some(file) => Stamp::of_file(file.get_ref().get_ref()),
        None if name == STANDARD_INPUT => Stamp::of_input(rt),
        None => match fs::metadata(rt, name) {
            Ok(found) if input.note.id == Some(FileId::of(&found)) => Stamp::of(&found),
            _ => return Ok(()),
        },
    };
    Stamp::refuse_changed(input.note.stamp, found, name)
}
