//! Targets of a job: a file that the job makes, an existing pipe or device, or standard output.
ghost use Rattle.std.specs.Prelude.{◌≡◌, None, Err, OnOk, IfOk, MatchResult};
ghost use Rattle.either.specs.Either.{either};
ghost use Rattle.osm_files.specs.CutBack.{IsCutBackIfKnown};

use super::out_part::{FileId, OutPart, id_of_regular, is_named};
use super::{Host, Refusal};
use either::{Either, Left, Right};
use osm_files::CutBack;
use osm_mirror::{folder_of, is_part, last_of, write_retried};
use std::fs::File;
use std::io::{ErrorKind, Seek, SeekFrom, Write};
use std::{fs, io};

/// The argument for standard input as an input file, and for standard output as OUT.
pub(super) const STANDARD: &str = "-";

/// The target of a job.
#[derive(Clone, Copy, Debug)]
pub(super) enum Target<'a> {
    /// The file of this name. The job writes it as OUT.part and renames it at the end.
    File(&'a str),
    /// An existing pipe or device, which the job writes as it is, or the regular file to which a name in `/dev` or
    /// `/proc` leads. Then the job appends to it.
    Existing { name: &'a str, appends: bool },
    /// Standard output.
    StandardOutput,
}

impl<'a> Target<'a> {
    /// The target that the argument of `--output` names.
    pub(super) fn of_arg(rt: &impl Host, arg: &'a str) -> Target<'a> {
        if arg == STANDARD {
            Target::StandardOutput
        } else {
            Target::of_name(rt, arg)
        }
    }

    /// The target with the name `name`. A name of standard output is standard output even if that is a file. Nothing is
    /// made or renamed in `/dev`, nor in `/proc` or a folder below it.
    pub(super) fn of_name(rt: &impl Host, name: &'a str) -> Target<'a> {
        if can_be_made(rt, name)
            && let Some(target) = Target::of_system(rt, name)
        {
            return target;
        }
        match fs::metadata(rt, name) {
            Ok(metadata) if !metadata.is_file() && !metadata.is_dir() => Target::Existing {
                name,
                appends: false,
            },
            _ => Target::File(name),
        }
    }

    /// The target with a name in `/dev`, in `/proc` or in a folder below it. Links of the folder are followed.
    fn of_system(rt: &impl Host, name: &'a str) -> Option<Target<'a>> {
        let folder = fs::canonicalize(rt, folder_of(name)).ok()?;
        let folder = folder.as_str();
        let last = last_of(name);
        if folder == "/dev" && last == "stdout" || last == "1" && has_descriptors(rt, folder) {
            return Some(Target::StandardOutput);
        }
        if folder != "/dev" && folder != "/proc" && !folder.starts_with("/proc/") {
            return None;
        }
        let appends = fs::metadata(rt, name).is_ok_and(|metadata| metadata.is_file());
        Some(Target::Existing { name, appends })
    }

    /// Refuses an input file that has the name of OUT.part.
    pub(super) fn refuse_part(self, files: &[&'a str]) -> Result<(), Refusal<'a>> {
        match self {
            Target::File(output) if files.iter().any(|name| is_part(name, output)) => {
                Err(Refusal::InputIsOutput { output })
            }
            _ => Ok(()),
        }
    }

    /// Refuses the list of names with the identity `list` if it is OUT.
    pub(super) fn refuse_list(
        self,
        rt: &impl Host,
        list: Option<FileId>,
    ) -> Result<(), Refusal<'a>> {
        match self {
            Target::File(output) if list.is_some_and(|id| is_named(rt, output, id)) => {
                Err(Refusal::ListIsOutput { output })
            }
            _ => Ok(()),
        }
    }

    /// Whether the job makes an OUT.part.
    pub(super) fn has_part(self, rt: &impl Host) -> bool {
        match self {
            Target::File(output) => can_be_made(rt, output),
            _ => false,
        }
    }

    /// The name of the target in the line of a fault.
    pub(super) fn name(self) -> &'a str {
        match self {
            Target::File(name) | Target::Existing { name, .. } => name,
            Target::StandardOutput => "standard output",
        }
    }

    /// Opens the target: an OUT.part that is made for this job, an existing pipe or device, or standard output. None of
    /// `inputs` may be OUT.part.
    pub(super) fn open<O: Drop>(
        self,
        rt: &impl Host,
        inputs: &[Option<FileId>],
        out: O,
    ) -> Result<Destination<'a, O>, Refusal<'a>> {
        let (part, writer) = match self {
            Target::File(output) if !can_be_made(rt, output) => {
                return Err(Refusal::CannotRename { output });
            }
            Target::File(output) => {
                let (part, file) = OutPart::make(rt, output, inputs)?;
                (Some(part), Left(file))
            }
            Target::Existing { name, appends } => {
                let opened = File::options()
                    .write(!appends)
                    .append(appends)
                    .open(rt, name);
                let file = opened.map_err(|_| Refusal::CannotWrite { name })?;
                (None, Left(file))
            }
            Target::StandardOutput => (None, Right(out)),
        };
        Ok(Destination {
            part,
            writer,
            taken: 0,
            failure: None,
        })
    }
}

/// Refuses standard output if it is a regular file that is an input: `list`, which has the names of files, or one of
/// the files `names`.
pub(super) fn refuse_standard_output<'a>(
    rt: &impl Host,
    list: Option<FileId>,
    names: &[&str],
) -> Result<(), Refusal<'a>> {
    let id = id_of_regular(rt, "/dev/stdout");
    if id.is_some() && (list == id || names.iter().any(|name| id_of_argument(rt, *name) == id)) {
        return Err(Refusal::StandardOutputIsInput);
    }
    Ok(())
}

/// The identity of the regular file that `arg` names as an input.
fn id_of_argument(rt: &impl Host, arg: &str) -> Option<FileId> {
    id_of_regular(rt, if arg == STANDARD { "/dev/stdin" } else { arg })
}

/// Whether a file of the name `name` can be made, as far as the name shows. A folder can't be replaced.
fn can_be_made(rt: &impl Host, name: &str) -> bool {
    let is_folder = fs::symlink_metadata(rt, name).is_ok_and(|metadata| metadata.is_dir());
    !is_folder && !name.is_empty() && !name.ends_with('/')
}

/// Whether `folder` has the descriptors of this process.
fn has_descriptors(rt: &impl Host, folder: &str) -> bool {
    fs::canonicalize(rt, "/proc/self").is_ok_and(|own| folder
        .strip_prefix(own.as_str())
        .is_some_and(|rest| rest == "/fd" || rest.starts_with("/task/") && rest.ends_with("/fd")))
}

/// An open target, whose write errors are noted.
#[derive(Drop)]
pub(super) struct Destination<'a, O> {
    /// OUT.part, which becomes OUT, if the target is a file that the job makes.
    part: Option<OutPart<'a>>,
    /// The file, the pipe or the device; or else standard output.
    writer: Either<File, O>,
    /// The number of bytes that the writer took before its first failure, without those that were cut away.
    pub(super) taken: u64,
    /// The system's number of the first error, if it has one; none if no call failed.
    pub(super) failure: Option<Option<i32>>,
}

impl<'a, O> Destination<'a, O> {
    /// Ends a job with the outcome `written`: OUT.part becomes OUT, or is removed after a refusal. No byte is written.
    pub(super) fn finish<T: Drop>(
        &self,
        rt: &impl Host,
        written: Result<T, Refusal<'a>>,
        fsync: bool,
    ) -> Result<T, Refusal<'a>>
        ensures { MatchResult written.entry (λ done. IfOk result (λ x. x ≡ done)) (λ refusal. result ≡ Err refusal) }
    {
        let (Some(part), Left(file)) = (&self.part, &self.writer) else {
            return written;
        };
        let outcome = match written {
            Ok(done) => part.complete(rt, file, fsync).map(|()| done),
            refused => refused,
        };
        if outcome.is_err() {
            part.discard(rt);
        }
        outcome
    }

    /// Notes the failure of a call.
    fn note<T>(&mut self, outcome: io::Result<T>) -> io::Result<T>
        ensures same { result ≡ outcome }
        ensures writer { self.new.writer ≡ self.old.writer }
    {
        if let Err(error) = &outcome
            && self.failure.is_none()
        {
            self.failure = Some(error.raw_os_error());
        }
        outcome
    }
}

impl<'a, O: Write> Destination<'a, O> {
    /// Keeps the first `length` bytes of OUT.part.
    fn cut(&mut self, length: u64) -> io::Result<()>
        ensures { OnOk result (IsCutBackIfKnown (either (λ _. None) O.contents self.old.writer)
            (either (λ _. None) O.contents self.new.writer) length) }
    {
        match &mut self.writer {
            Left(file) if self.part.is_some() => {
                file.seek(SeekFrom::Start(length))?;
                file.set_len(length)
            }
            _ => Err(io::Error::from(ErrorKind::Unsupported)),
        }
    }
}

/// OUT.part can be cut back and written again.
impl<O: Write> CutBack for Destination<'_, O> {
    ghost use Rattle.std.specs.Prelude.{is_some};

    ghost can_cut = { λ s. is_some s.part };

    fn can_be_cut_back(&self) -> bool {
        self.part.is_some()
    }

    fn length(&self) -> io::Result<u64> {
        match &self.writer {
            Left(file) if self.part.is_some() => Ok(file.metadata()?.len()),
            _ => Err(io::Error::from(ErrorKind::Unsupported)),
        }
    }

    fn cut_back(&mut self, length: u64) -> io::Result<()> {
        let outcome = self.cut(length);
        if outcome.is_ok() && self.failure.is_none() {
            self.taken = length;
        }
        self.note(outcome)
    }
}

impl<O: Write> Write for Destination<'_, O> {
    ghost contents = { λ s. either (λ _. None) O.contents s.writer };

    fn write(&mut self, bytes: &[u8]) -> io::Result<usize> {
        let outcome = write_retried(&mut self.writer, bytes);
        if let Ok(count) = &outcome
            && self.failure.is_none()
        {
            self.taken = self.taken.saturating_add(*count as u64);
        }
        self.note(outcome)
    }

    fn flush(&mut self) -> io::Result<()> {
        let outcome = self.writer.flush();
        self.note(outcome)
    }
}
