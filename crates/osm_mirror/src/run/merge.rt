//! The merge of files.
ghost use Rattle.std.specs.Prelude.{IfOk, IfErr, OnOk};
ghost use Rattle.osm_files.specs.Output.{IsGoodThroughout};
ghost use Rattle.osm_files.specs.Change.{change_of};
ghost use Rattle.osm_merge.specs.Giving.{SomeInputsGive};
ghost use Rattle.osm_merge.specs.Merged.{Grows};
ghost use Rattle.osm_mirror.specs.run.Merge.{IsMerged, Refuses};

use crate::run::files_job::Order;
use crate::run::input::{ReadAs, files_as};
use crate::run::run_selected;
use osm_files::{Fault, Format, Input, Output};
use osm_merge::{Counts, NoProgress, Selection};
use std::alloc::Global;

/// Merges sorted files: appends the one file of the format `format` that holds the versions of all inputs, each once.
///
/// If it returns `Ok`, every input is a sorted file of its grammar, and the bytes written are the one spelling of the
/// union of the inputs' versions. The inputs are read in parallel, one key at a time. Of each input's versions only
/// those of one key, and the first one after them, are in memory.
///
/// # Errors
///
/// The inputs are numbered from 0, and the number of the output is the number of inputs. If an input can't be read or
/// isn't sorted, the fault has its number, the reason and the offset. If several inputs are faulty, it is the fault of
/// one of them. `WriteFault` if the output failed, `TooLong` if a file has 2^62 bytes or more, `Memory` if memory ran
/// out. The bytes that were written are a front of the file.
pub fn run_merge<R: Input + Drop, W: Output>(
    alloc: Global,
    inputs: Vec<R>,
    format: Format,
    out: &mut W,
) -> Result<Counts, Fault>
    ensures merged { IfOk result (λ counts. SomeInputsGive R.can_give inputs.items (λ all.
        IsMerged all format (change_of W.Output out.old out.new) counts)) }
    ensures refused { IfErr result (λ fault. SomeInputsGive R.can_give inputs.items (λ all.
        Refuses all format (change_of W.Output out.old out.new) fault)) }
    ensures kept { Grows (change_of W.Output out.old out.new) }
    ensures good { OnOk result (IsGoodThroughout (change_of W.Output out.old out.new)) }
{
    let files = files_as(alloc, ReadAs::InOrder(Order::Sorted), inputs)?;
    run_selected(alloc, Selection::All, files, format, out, &mut NoProgress)
}

#[cfg(test)]
mod tests;
