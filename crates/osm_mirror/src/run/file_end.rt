//! The ends of the regular files of a job, which looks at them before it reads or writes anything.
//!
//! Why: a file that was cut is refused before any output is written. All jobs for shards of it are refused, and with
//! one fault, although only some of them read its last byte.
ghost use Rattle.std.specs.Prelude.{◌≡◌, IfErr, OnOk, IfSome, false};
ghost use Rattle.std.specs.List as list;
ghost use Rattle.osm_files.specs.EndRule.{lacks_its_end, rule_of_file};
ghost use Rattle.osm_mirror.specs.run.FilesJob.{EndsByRule};
ghost use Rattle.osm_mirror.specs.run.FilesRefusal.{AreRefusedByRule, IsRefusedFileBy};

use crate::run::file_way::short_size;
use crate::run::files_job::{JobFile, Order};
use crate::run::first_fault::check_file;
use osm_files::{Broken, EndRule, Fault, Input, ReadAt, Reason, lacks_end_of_file};
use std::alloc::Global;

/// Refuses the files if a regular one lacks the end that its rule asks for.
///
/// # Errors
///
/// The first fault of the file, read in the order `order`: `NoEnd` at its length, unless a whole unit is at fault. Or
/// `ReadFault` or `Memory`.
pub(crate) fn refuse_cut<'f, F: ReadAt, R: Input>(
    alloc: Global,
    order: Order,
    files: &[JobFile<'f, F, R>],
) -> Result<(), Fault>
    ensures ended { OnOk result (list.All (EndsByRule F.bytes) files.now) }
    ensures refused { IfErr result (AreRefusedByRule F.fails F.bytes R.can_give order files.now) }
{
    'files: for (input, file) in files.iter().enumerate() {
        if let JobFile::File(file, end) = file {
            if let Err(fault) = refuse_cut_file(alloc, order, *file, *end) {
                return Err(fault.of_input(input));
            }
        }
    }
    Ok(())
}

/// Refuses `file` if it has 2^62 bytes or more, or lacks the end that `end` asks for.
pub(crate) fn refuse_cut_file<F: ReadAt>(
    alloc: Global,
    order: Order,
    file: &F,
    end: EndRule,
) -> Result<(), Fault>
    ensures ended { OnOk result (IfSome (F.bytes file.now) (λ all.
        lacks_its_end (rule_of_file end) all ≡ false)) }
    ensures refused { IfErr result (IsRefusedFileBy (F.fails file.now) (F.bytes file.now) order end) }
{
    let size = short_size(file)?;
    match lacks_end_of_file(file, end) {
        Ok(false) => Ok(()),
        Ok(true) => {
            check_file(alloc, order, end, file)?;
            Err(Fault::at(0, size, Reason::NoEnd))
        }
        Err(Broken) => Err(Fault::at(0, 0, Reason::ReadFault)),
    }
}

#[cfg(test)]
mod tests;
