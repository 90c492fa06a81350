//! The check of a file that can be read at any offset.
ghost use Rattle.std.specs.Prelude.{◌≡◌, ◌<◌, ◌^◌, true, length, IfOk, IfErr, IfSome};
ghost use Rattle.osm_mirror.specs.run.Check.{IsCheckedFile};
ghost use Rattle.osm_mirror.specs.run.FilesRefusal.{IsRefusedFileBy};

use crate::run::check::{Checked, run_tally, run_tally_sorted};
use crate::run::file_way::short_size;
use crate::run::files_job::Order;
use crate::run::first_fault::check_file;
use osm_files::{EndRule, Fault, FramedExtent, ReadAt, Reason, SortedRun};
use std::alloc::Global;

/// Checks `file`, whose versions must have the order `order` and which has to end as `end` requires, and tallies its
/// versions. A file of any order is held in memory only if it isn't sorted.
///
/// # Errors
///
/// The first fault of the file, with the number 0: `TooLong` if it has 2^62 bytes or more, by its size and unread;
/// `ReadFault` if a read fails and no whole unit before is faulty; or `Memory`.
pub fn run_tally_file<F: ReadAt>(
    alloc: Global,
    order: Order,
    end: EndRule,
    file: &F,
) -> Result<Checked, Fault>
    ensures checked { IfOk result (λ checked. IfSome (F.bytes file.now) (IsCheckedFile end checked)) }
    ensures sorted { order ≡ Order.Sorted → IfOk result (λ checked. checked.report.sorted ≡ true) }
    ensures refused { IfErr result (IsRefusedFileBy (F.fails file.now) (F.bytes file.now) order end) }
{
    let size = short_size(file)?;
    match tally_as(alloc, Order::Sorted, end, file, size) {
        Ok(checked) => Ok(checked),
        Err(fault) if !order.is_any() => Err(fault),
        Err(fault) => {
            if fault.reason != Reason::Unsorted {
                check_file(alloc, order, end, file)?;
            }
            tally_as(alloc, order, end, file, size)
        }
    }
}

/// Checks a file of `size` bytes, which is held in memory if its versions may have any order.
fn tally_as<F: ReadAt>(
    alloc: Global,
    order: Order,
    end: EndRule,
    file: &F,
    size: u64,
) -> Result<Checked, Fault>
    requires short { size < 2 ^ 62 }
    requires size { IfSome (F.bytes file.now) (λ all. length all ≡ size) }
    ensures checked { IfOk result (λ checked. IfSome (F.bytes file.now) (IsCheckedFile end checked)) }
    ensures sorted { order ≡ Order.Sorted → IfOk result (λ checked. checked.report.sorted ≡ true) }
    ensures refused { IfErr result (IsRefusedFileBy (F.fails file.now) (F.bytes file.now) order end) }
{
    let whole = FramedExtent::of_run(file, size, SortedRun::whole());
    match order {
        Order::Sorted => run_tally_sorted(alloc, end.of_file(), whole),
        Order::Any => run_tally(alloc, end.of_file(), whole),
    }
}

#[cfg(test)]
mod tests;
