//! The first faults of files: a file is read from its start, and no version is kept.
//!
//! Why: a run or an extent of a file shows some fault of the file, and not the first one.
ghost use Rattle.std.specs.Prelude.{◌≡◌, None, length, IfOk, IfErr, OnOk, IfSome, slice_get};
ghost use Rattle.std.specs.List as list;
ghost use Rattle.osm_files.specs.EndRule.{by_rule};
ghost use Rattle.osm_files.specs.Fault.{memory_fault};
ghost use Rattle.osm_files.specs.Input.{GivesOne};
ghost use Rattle.osm_mirror.specs.run.FilesRefusal.{IsSoundFile, IsRefusedFileBy, IsFaultIfSound, StopsIn, IsReadAs};
ghost use Rattle.osm_mirror.specs.run.FilesRefusal.{AreSound, AreRefusedByRule};

use crate::run::check::run_tally_sorted;
use crate::run::file_way::short_size;
use crate::run::files_job::{JobFile, Order};
use osm_files::{EndRule, Fault, FramedExtent, Input, ReadAt, SortedRun, find_fault};
use std::alloc::Global;

/// Reads `file` as a file whose versions must have the order `order` and which has to end as `end` requires. Returns
/// its size.
///
/// # Errors
///
/// The first fault of the file; `ReadFault` if a read fails and no whole unit before is faulty; or `Memory`.
pub(crate) fn check_file<F: ReadAt>(
    alloc: Global,
    order: Order,
    end: EndRule,
    file: &F,
) -> Result<u64, Fault>
    ensures sound { OnOk result (IsSoundFile (F.bytes file.now) order end) }
    ensures size { IfOk result (λ size. IfSome (F.bytes file.now) (λ all. length all ≡ size)) }
    ensures refused { IfErr result (IsRefusedFileBy (F.fails file.now) (F.bytes file.now) order end) }
{
    let size = short_size(file)?;
    let whole = FramedExtent::of_run(file, size, SortedRun::whole());
    read_whole(alloc, order, end.of_file(), whole)?;
    Ok(size)
}

/// Reads a file to its end, or to its first fault as a file whose versions must have the order `order`.
fn read_whole<R: Input + Drop>(
    alloc: Global,
    order: Order,
    end: EndRule,
    reader: R,
) -> Result<(), Fault>
    ensures whole { OnOk result (GivesOne (R.can_give reader) (λ c. IsReadAs order (by_rule end c))) }
    ensures refused { IfErr result (λ fault. GivesOne (R.can_give reader) (λ c. StopsIn order (by_rule end c) fault)) }
{
    match order {
        Order::Sorted => match run_tally_sorted(alloc, end, reader) {
            Ok(_) => Ok(()),
            Err(fault) => Err(fault),
        },
        Order::Any => find_fault(alloc, 0, end, reader),
    }
}

/// The first fault of `file`, which is refused with `fault`; or `fault`, if the whole file can be read. Its place is
/// then at most the size of the file.
pub(crate) fn first_fault_of<F: ReadAt>(
    alloc: Global,
    order: Order,
    end: EndRule,
    file: &F,
    fault: Fault,
) -> Fault
    ensures { IsFaultIfSound (F.fails file.now) (F.bytes file.now) order end fault result }
{
    match check_file(alloc, order, end, file) {
        Ok(size) => Fault::at(fault.input, fault.place.min(size), fault.reason),
        Err(first) => first.of_input(fault.input),
    }
}

/// Refuses the files, whose versions may have any order, if a regular one isn't a file of its grammar.
///
/// # Errors
///
/// The first fault of the first faulty file.
pub(crate) fn refuse_faulty<'f, F: ReadAt, R: Input>(
    alloc: Global,
    files: &[JobFile<'f, F, R>],
) -> Result<(), Fault>
    ensures sound { OnOk result (list.All (AreSound F.bytes) files.now) }
    ensures refused { IfErr result (AreRefusedByRule F.fails F.bytes R.can_give Order.Any files.now) }
{
    'files: for (input, file) in files.iter().enumerate() {
        if let JobFile::File(file, end) = file {
            if let Err(fault) = check_file(alloc, Order::Any, *end, *file) {
                return Err(fault.of_input(input));
            }
        }
    }
    Ok(())
}
