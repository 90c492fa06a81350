//! The commands over files in any order: they read all of their inputs before they write.
ghost use Rattle.std.specs.Prelude.{[], ◌∷◌, IfOk, IfErr, OnOk};
ghost use Rattle.osm_files.specs.Input.{GivesOne};
ghost use Rattle.osm_files.specs.Output.{IsGoodThroughout};
ghost use Rattle.osm_files.specs.Change.{change_of};
ghost use Rattle.osm_merge.specs.Giving.{SomeInputsGive};
ghost use Rattle.osm_merge.specs.Selected.{selection_of, visible, at, between};
ghost use Rattle.osm_merge.specs.Merged.{Grows};
ghost use Rattle.osm_mirror.specs.run.Command.{IsWritten, IsNotWritten, apply_result};

use crate::run::files_job::Order;
use crate::run::input::{ReadAs, files_as};
use crate::run::run_selected;
use osm_files::{Fault, Format, Input, Output};
use osm_merge::{Counts, NoProgress, Selection};
use std::alloc::Global;

/// Sorts and merges files whose versions may have any order: appends the one file of the format `format` that holds the
/// versions of all inputs, each once.
///
/// In the counts, `read` is the sum of the inputs' numbers of versions, `written` is the number of versions written,
/// and `compared` is 0.
///
/// # Errors
///
/// The inputs are numbered from 0, and the number of the output is the number of inputs. If an input can't be read, the
/// fault has its number, the reason and the offset, and nothing was written. If several can't be read, it is the fault
/// of one of them. `WriteFault` if the output failed, `TooLong` if a file has 2^62 bytes or more, `Memory` if memory
/// ran out. The bytes that were written are a front of the file.
pub fn run_sort<R: Input + Drop, W: Output>(
    alloc: Global,
    inputs: Vec<R>,
    format: Format,
    out: &mut W,
) -> Result<Counts, Fault>
    ensures written { IfOk result (λ counts. SomeInputsGive R.can_give inputs.items (λ all.
        IsWritten (λ set. set) all format (change_of W.Output out.old out.new) counts)) }
    ensures refused { IfErr result (λ fault. SomeInputsGive R.can_give inputs.items (λ all.
        IsNotWritten W.Output (λ set. set) all format out.old out.new fault)) }
    ensures kept { Grows (change_of W.Output out.old out.new) }
    ensures good { OnOk result (IsGoodThroughout (change_of W.Output out.old out.new)) }
{
    run_any_order(alloc, Selection::All, inputs, format, out)
}

/// Applies changes: appends the one file of the format `format` that holds the newest version of each object in all
/// inputs, unless it is a deletion. If `with_history` is set, the file holds all versions. It makes no difference which
/// of the inputs has a version.
///
/// In the counts, `read` is the sum of the inputs' numbers of versions, `written` is the number of versions written,
/// and `compared` is 0.
///
/// # Errors
///
/// The inputs are numbered from 0, and the number of the output is the number of inputs. If an input can't be read, the
/// fault has its number, the reason and the offset, and nothing was written. If several can't be read, it is the fault
/// of one of them. `WriteFault` if the output failed, `TooLong` if a file has 2^62 bytes or more, `Memory` if memory
/// ran out. The bytes that were written are a front of the file.
pub fn run_apply<R: Input + Drop, W: Output>(
    alloc: Global,
    inputs: Vec<R>,
    with_history: bool,
    format: Format,
    out: &mut W,
) -> Result<Counts, Fault>
    ensures written { IfOk result (λ counts. SomeInputsGive R.can_give inputs.items (λ all.
        IsWritten (apply_result with_history) all format (change_of W.Output out.old out.new) counts)) }
    ensures refused { IfErr result (λ fault. SomeInputsGive R.can_give inputs.items (λ all.
        IsNotWritten W.Output (apply_result with_history) all format out.old out.new fault)) }
    ensures kept { Grows (change_of W.Output out.old out.new) }
    ensures good { OnOk result (IsGoodThroughout (change_of W.Output out.old out.new)) }
{
    if with_history {
        run_any_order(alloc, Selection::All, inputs, format, out)
    } else {
        run_any_order(alloc, Selection::NewestVisible, inputs, format, out)
    }
}

/// Appends the map at the moment `time`: the one file of the format `format` that holds the newest version of each
/// object up to that moment, unless it is a deletion.
///
/// In the counts, `read` is the number of the input's versions, `written` is the number of versions written, and
/// `compared` is 0.
///
/// # Errors
///
/// The input has the number 0 and the output 1. If the input can't be read, the fault has the reason and the offset,
/// and nothing was written. `WriteFault` if the output failed, `TooLong` if a file has 2^62 bytes or more, `Memory` if
/// memory ran out. The bytes that were written are a front of the file.
pub fn run_time_filter<R: Input + Drop, W: Output>(
    alloc: Global,
    input: R,
    time: u32,
    format: Format,
    out: &mut W,
) -> Result<Counts, Fault>
    ensures written { IfOk result (λ counts. GivesOne (R.can_give input) (λ c.
        IsWritten (λ set. visible (at set time)) (c ∷ []) format (change_of W.Output out.old out.new) counts)) }
    ensures refused { IfErr result (λ fault. GivesOne (R.can_give input) (λ c.
        IsNotWritten W.Output (λ set. visible (at set time)) (c ∷ []) format out.old out.new fault)) }
    ensures kept { Grows (change_of W.Output out.old out.new) }
    ensures good { OnOk result (IsGoodThroughout (change_of W.Output out.old out.new)) }
{
    run_one(alloc, Selection::StateVisible(time), input, format, out)
}

/// Appends the history of a period: the one file of the format `format` that holds the versions, deletions too, that
/// came before `to` and were current at `from` or later.
///
/// In the counts, `read` is the number of the input's versions, `written` is the number of versions written, and
/// `compared` is 0.
///
/// # Errors
///
/// The input has the number 0 and the output 1. If the input can't be read, the fault has the reason and the offset,
/// and nothing was written. `WriteFault` if the output failed, `TooLong` if a file has 2^62 bytes or more, `Memory` if
/// memory ran out. The bytes that were written are a front of the file.
pub fn run_period_filter<R: Input + Drop, W: Output>(
    alloc: Global,
    input: R,
    from: u32,
    to: u32,
    format: Format,
    out: &mut W,
) -> Result<Counts, Fault>
    ensures written { IfOk result (λ counts. GivesOne (R.can_give input) (λ c.
        IsWritten (λ set. between set from to) (c ∷ []) format (change_of W.Output out.old out.new) counts)) }
    ensures refused { IfErr result (λ fault. GivesOne (R.can_give input) (λ c.
        IsNotWritten W.Output (λ set. between set from to) (c ∷ []) format out.old out.new fault)) }
    ensures kept { Grows (change_of W.Output out.old out.new) }
    ensures good { OnOk result (IsGoodThroughout (change_of W.Output out.old out.new)) }
{
    run_one(alloc, Selection::Between { from, to }, input, format, out)
}

/// Writes the selection of the versions of one file, whose versions may have any order.
fn run_one<R: Input + Drop, W: Output>(
    alloc: Global,
    selection: Selection,
    input: R,
    format: Format,
    out: &mut W,
) -> Result<Counts, Fault>
    ensures written { IfOk result (λ counts. GivesOne (R.can_give input) (λ c.
        IsWritten (selection_of selection) (c ∷ []) format (change_of W.Output out.old out.new) counts)) }
    ensures refused { IfErr result (λ fault. GivesOne (R.can_give input) (λ c.
        IsNotWritten W.Output (selection_of selection) (c ∷ []) format out.old out.new fault)) }
    ensures kept { Grows (change_of W.Output out.old out.new) }
    ensures good { OnOk result (IsGoodThroughout (change_of W.Output out.old out.new)) }
{
    let mut inputs = Vec::new(alloc);
    inputs.push(input)?;
    run_any_order(alloc, selection, inputs, format, out)
}

/// Writes the selection of the versions of several files, whose versions may have any order.
fn run_any_order<R: Input + Drop, W: Output>(
    alloc: Global,
    selection: Selection,
    inputs: Vec<R>,
    format: Format,
    out: &mut W,
) -> Result<Counts, Fault>
    ensures written { IfOk result (λ counts. SomeInputsGive R.can_give inputs.items (λ all.
        IsWritten (selection_of selection) all format (change_of W.Output out.old out.new) counts)) }
    ensures refused { IfErr result (λ fault. SomeInputsGive R.can_give inputs.items (λ all.
        IsNotWritten W.Output (selection_of selection) all format out.old out.new fault)) }
    ensures kept { Grows (change_of W.Output out.old out.new) }
    ensures good { OnOk result (IsGoodThroughout (change_of W.Output out.old out.new)) }
{
    let files = files_as(alloc, ReadAs::InOrder(Order::Any), inputs)?;
    let counts = run_selected(alloc, selection, files, format, out, &mut NoProgress)?;
    Ok(Counts {
        compared: 0,
        ..counts
    })
}
