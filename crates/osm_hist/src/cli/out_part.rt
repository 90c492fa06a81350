//! OUT.part: the file that a job writes and renames to OUT at the end. It belongs to one job at a time.
//!
//! A job holds a lock on its OUT.part. The lock ends with the process, so the next job can remove the file that a
//! killed job left and make its own.
use super::{Host, Refusal};
use osm_mirror::{Place, folder_of, part_name};
use std::alloc::{AllocError, Global};
use std::fs::{File, Metadata, Permissions, TryLockError};
use std::io::ErrorKind;
use std::os::unix::fs::{MetadataExt, OpenOptionsExt, PermissionsExt, fchown};
use std::{fs, io};

/// The number of attempts to get OUT.part while other jobs make and rename files of that name.
const ATTEMPTS: usize = 16;

/// The bits of a file's mode that permit reading, writing and running it.
const PERMISSION_BITS: u32 = 0o777;

/// Those of these bits that are for the file's owner.
const OWNER_BITS: u32 = 0o700;

/// Those that are for everyone else but the file's group. The bits of the group are three places before them.
const OTHER_BITS: u32 = 0o007;

/// The mode of a new file, before the process's mask.
const NEW_MODE: u32 = 0o666;

/// The mode of OUT.part until it has the owner of an existing OUT.
const PRIVATE_MODE: u32 = 0o600;

/// The identity of a file: its device and its number on that device.
#[derive(Clone, Copy, Debug, PartialEq, Eq)]
pub(super) struct FileId(u64, u64);

impl FileId {
    /// The identity of the file that has this metadata.
    pub(super) fn of(metadata: &Metadata) -> FileId {
        FileId(metadata.dev(), metadata.ino())
    }

    /// The identity of a file, if the system knows its metadata.
    pub(super) fn of_known(found: io::Result<Metadata>) -> Option<FileId> {
        found.ok().map(|metadata| FileId::of(&metadata))
    }

    /// The identity of a regular file, if the system knows its metadata.
    pub(super) fn of_regular(found: io::Result<Metadata>) -> Option<FileId> {
        let metadata = found.ok()?;
        metadata.is_file().then(|| FileId::of(&metadata))
    }

    /// The identity of standard input, which may be a file, too.
    pub(super) fn of_input(rt: &impl Host) -> Option<FileId> {
        FileId::of_known(fs::metadata(rt, "/dev/stdin"))
    }
}

/// What the name `name` of a file to be made names. Links of its folder are followed.
pub(super) fn place_of<'a>(rt: &impl Host, name: &'a str) -> Place<'a, FileId> {
    Place::new(name, FileId::of_known(fs::metadata(rt, folder_of(name))))
}

/// The identity of the regular file `name`, or of the one that a link of that name leads to.
pub(super) fn id_of_regular(rt: &impl Host, name: &str) -> Option<FileId> {
    FileId::of_regular(fs::metadata(rt, name))
}

/// The name of an OUT.part that this job has locked.
#[derive(Drop)]
pub(super) struct OutPart<'a> {
    /// OUT.
    output: &'a str,
    /// OUT.part.
    name: String,
    /// The identity of the file.
    id: FileId,
}

impl<'a> OutPart<'a> {
    /// Makes and locks OUT.part, which must not be one of `inputs`. It gets the mode and the owner of an existing OUT.
    pub(super) fn make(
        rt: &impl Host,
        output: &'a str,
        inputs: &[Option<FileId>],
    ) -> Result<(OutPart<'a>, File), Refusal<'a>> {
        let name = part_name(rt.alloc(), output)?;
        match attempts(rt, name.as_str(), output, inputs) {
            Ok(Some((file, id))) => Ok((OutPart { output, name, id }, file)),
            Ok(None) => Err(Refusal::InputIsOutput { output }),
            Err(error) => {
                let code = error.raw_os_error();
                Err(Refusal::CannotCreate { output, code })
            }
        }
    }

    /// Renames `file`, which is OUT.part, to OUT. With `fsync`, the bytes of the file are synced before the rename, and
    /// its new name after it.
    pub(super) fn complete(
        &self,
        rt: &impl Host,
        file: &File,
        fsync: bool,
    ) -> Result<(), Refusal<'a>> {
        let output = self.output;
        if !fsync {
            return self.rename(rt);
        }
        // The folder is opened first, so that OUT isn't replaced if the folder can't be synced.
        let folder = match File::open(rt, folder_of(output)) {
            Ok(folder) if file.sync_all().is_ok() => folder,
            _ => return Err(Refusal::CannotSync { output }),
        };
        self.rename(rt)?;
        let synced = folder.sync_all();
        synced.map_err(|_| Refusal::NotSynced { output })
    }

    /// Renames the file to OUT.
    fn rename(&self, rt: &impl Host) -> Result<(), Refusal<'a>> {
        let (name, output) = (self.name.as_str(), self.output);
        if is_named(rt, name, self.id) && fs::rename(rt, name, output).is_ok() {
            Ok(())
        } else {
            Err(Refusal::CannotRename { output })
        }
    }

    /// Removes the file if its name still belongs to it. If the removal fails, the file stays.
    pub(super) fn discard(&self, rt: &impl Host) {
        remove_named(rt, self.name.as_str(), self.id);
    }
}

/// Makes OUT.part, in at most `ATTEMPTS` attempts. The result is none if the file of that name is one of `inputs`. An
/// error without the system's number means that another file keeps the name.
fn attempts(
    rt: &impl Host,
    name: &str,
    output: &str,
    inputs: &[Option<FileId>],
) -> io::Result<Option<(File, FileId)>> {
    for _ in 0..ATTEMPTS {
        if let Some(made) = create(rt, name, output)? {
            return Ok(Some(made));
        }
        if !remove_leftover(rt, name, output, inputs)? {
            return Ok(None);
        }
    }
    Err(io::Error::from(ErrorKind::WouldBlock))
}

/// Makes the file and locks it, or returns none if there is a file of that name. Only its owner may open it if OUT
/// exists, since OUT may be private.
fn create(rt: &impl Host, name: &str, output: &str) -> io::Result<Option<(File, FileId)>> {
    let old = existing(rt, output)?;
    let mode = old.as_ref().map_or(NEW_MODE, |_| PRIVATE_MODE);
    let mut options = File::options();
    options.write(true).create_new(true).mode(mode);
    match options.open(rt, name) {
        Ok(file) => own(rt, name, old, file),
        Err(error) if error.kind() == ErrorKind::AlreadyExists => Ok(None),
        Err(error) => Err(error),
    }
}

/// The metadata of OUT, or of the file that it leads to, if that is a regular file.
fn existing(rt: &impl Host, output: &str) -> io::Result<Option<Metadata>> {
    let missing = [ErrorKind::NotFound, ErrorKind::FilesystemLoop];
    match fs::metadata(rt, output) {
        Ok(old) => Ok(Some(old).filter(|old| old.is_file())),
        Err(error) if missing.contains(&error.kind()) => Ok(None),
        Err(error) => Err(error),
    }
}

/// Locks a file that was just made, and gives it the mode and the owner of `old`, which is OUT. The result is none if
/// the file lost its name to another job.
fn own(
    rt: &impl Host,
    name: &str,
    old: Option<Metadata>,
    file: File,
) -> io::Result<Option<(File, FileId)>> {
    let metadata = file.metadata()?;
    let id = FileId::of(&metadata);
    let locked = unless_locked(file.try_lock())?;
    if !is_named(rt, name, id) {
        return Ok(None);
    }
    let outcome = match old {
        _ if !locked => Err(io::Error::from(ErrorKind::Other)),
        Some(old) => copy_mode_and_owner(&file, &metadata, &old),
        None => Ok(()),
    };
    if outcome.is_err() {
        remove_named(rt, name, id);
    }
    outcome.map(|()| Some((file, id)))
}

/// Whether a file may be used after an attempt to lock it. If the file system has no locks, the job continues without
/// one.
///
/// # Errors
///
/// `WouldBlock` if another job has the lock.
pub(super) fn unless_locked(attempt: Result<(), TryLockError>) -> io::Result<bool> {
    match attempt {
        Ok(()) => Ok(true),
        Err(TryLockError::Error(error)) => Ok(error.kind() == ErrorKind::Unsupported),
        Err(TryLockError::WouldBlock) => Err(io::Error::from(ErrorKind::WouldBlock)),
    }
}

/// Gives OUT.part, which has this metadata, the owner of `old` if that is permitted, and then its mode. If the group
/// wasn't set, the new group gets no permissions, and everyone else gets those that the old group had, too.
fn copy_mode_and_owner(file: &File, metadata: &Metadata, old: &Metadata) -> io::Result<()> {
    let mut mode = old.mode() & PERMISSION_BITS;
    if !copy_owner(file, metadata, old) {
        mode = mode & OWNER_BITS | mode & mode >> 3 & OTHER_BITS;
    }
    if mode == metadata.mode() & PERMISSION_BITS {
        return Ok(());
    }
    file.set_permissions(Permissions::from_mode(mode))
}

/// Gives OUT.part the owner and the group of `old`, or only the group, as far as that is permitted. Returns whether it
/// has the group.
fn copy_owner(file: &File, metadata: &Metadata, old: &Metadata) -> bool {
    let (uid, gid) = (old.uid(), old.gid());
    (uid, gid) == (metadata.uid(), metadata.gid())
        || fchown(file, Some(uid), Some(gid)).is_ok()
        || fchown(file, None, Some(gid)).is_ok()
}

/// Removes the regular file that a killed job left, so that OUT.part may be made. Returns false if the file is an
/// input. It doesn't remove a link, a folder, a device, a file of somebody else, or one that another job has locked.
fn remove_leftover(
    rt: &impl Host,
    name: &str,
    output: &str,
    inputs: &[Option<FileId>],
) -> io::Result<bool> {
    let file = match leftover(rt, name) {
        Err(error) if error.kind() == ErrorKind::NotFound => return Ok(true),
        opened => opened?,
    };
    let metadata = file.metadata()?;
    let id = FileId::of(&metadata);
    if !is_of_job(rt, &metadata, output) {
        return Err(io::Error::from(ErrorKind::PermissionDenied));
    }
    if file.try_lock().is_err() {
        return Err(io::Error::from(ErrorKind::WouldBlock));
    }
    if !is_named(rt, name, id) {
        return Ok(true);
    }
    if inputs.contains(&Some(id)) {
        return Ok(false);
    }
    fs::remove_file(rt, name).map(|()| true)
}

/// Whether a job on OUT may have made the file with this metadata: its owner is the user of this process, the owner of
/// OUT or the owner of the folder.
pub(super) fn is_of_job(rt: &impl Host, metadata: &Metadata, output: &str) -> bool {
    ["/proc/self", output, folder_of(output)].iter().any(|name| fs::metadata(rt, *name).is_ok_and(
        |found| found.uid() == metadata.uid(),
    ))
}

/// Opens the regular file `name`. A killed job may have left a file that nobody is permitted to write.
fn leftover(rt: &impl Host, name: &str) -> io::Result<File> {
    if !fs::symlink_metadata(rt, name)?.is_file() {
        return Err(io::Error::from(ErrorKind::Other));
    }
    match File::options().write(true).open(rt, name) {
        Err(error) if error.kind() == ErrorKind::PermissionDenied => File::open(rt, name),
        opened => opened,
    }
}

/// Whether `name` is the name of the file `id` itself, and not of a link to it.
pub(super) fn is_named(rt: &impl Host, name: &str, id: FileId) -> bool {
    FileId::of_regular(fs::symlink_metadata(rt, name)) == Some(id)
}

/// Removes the file `id` if it still has the name `name`.
fn remove_named(rt: &impl Host, name: &str, id: FileId) {
    if is_named(rt, name, id) {
        let _ = fs::remove_file(rt, name);
    }
}
