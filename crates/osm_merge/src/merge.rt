//! The merge.
ghost use Rattle.std.specs.Prelude.{◌≡◌, ◌≤◌, ◌<◌, ◌-◌, true, None, length, IsSome, IfOk, IfErr, OnOk};
ghost use Rattle.osm_files.specs.Output.{IsGoodThroughout};
ghost use Rattle.osm_files.specs.Change.{change_of};
ghost use Rattle.osm_files.specs.Sink.{new_sink};
ghost use Rattle.osm_files.specs.Source.{SourceSteps};
ghost use Rattle.osm_merge.specs.Giving.{SomeInputsGive, SomePendingGive};
ghost use Rattle.osm_merge.specs.Tree.{IsTree};
ghost use Rattle.osm_merge.specs.Merged.{MergesSources, IsMergedAs, RefusesSources, IsRefusedAs, Grows};

use crate::clash_tally::ClashTally;
use crate::heads::first_versions;
use crate::pending::Pending;
use crate::progress::{NoProgress, Progress};
use crate::selection::Selection;
use crate::tournament::Tournament;
use osm_files::{Fault, Output, Sink, Source};
use osm_model::Version;
use std::alloc::Global;

/// The counts of a merge. A count stops at 2^64 - 1.
#[derive(Clone, Copy, Debug, PartialEq, Eq)]
pub struct Counts {
    /// The number of versions that the sources gave, repeats included.
    pub read: u64,
    /// The number of versions that were written.
    pub written: u64,
    /// The number of comparisons of two versions.
    pub compared: u64,
    /// The number of keys with a visible and a deleted version, whatever is selected.
    pub clashes: u64,
}

/// Writes the union of the versions that the sources still give as one file, each version once.
///
/// The merge keeps one version of each source and the version put last. A version is put before its source is asked
/// again, so if a source fails, all versions up to its last one were written. If sources don't ascend, the merge puts
/// only versions that are greater than all versions put before.
///
/// # Errors
///
/// The fault of a source; the faults of the sink, with the sink's number; or `Memory`. The output then has a front of
/// the file.
pub fn merge_into<S: Source + Drop, W: Output>(
    alloc: Global,
    sources: Vec<S>,
    sink: &mut Sink,
    out: &mut W,
) -> Result<Counts, Fault>
    requires { sink.old ≡ new_sink sink.old.format sink.old.number }
    ensures merged { IfOk result (λ counts. SomeInputsGive S.can_give sources.items (λ all.
        MergesSources all sink.old.format (change_of W.Output out.old out.new) counts)) }
    ensures refused { IfErr result (λ fault. SomeInputsGive S.can_give sources.items (λ all.
        RefusesSources all sink.old.format sink.old.number (change_of W.Output out.old out.new) fault)) }
    ensures kept { Grows (change_of W.Output out.old out.new) }
    ensures good { OnOk result (IsGoodThroughout (change_of W.Output out.old out.new)) }
    ensures ended { OnOk result (sink.new.ended ≡ true) }
{
    merge_selected(alloc, Selection::All, sources, sink, out, &mut NoProgress)
}

/// Writes the selection of the union of the versions that the sources still give as one file, each version once.
///
/// The merge keeps one version of each source and the last version that may be selected, which is put once the version
/// after it is known. If all versions are selected, each is put as soon as it comes. `read` counts the versions that
/// the sources gave, selected or not, and `clashes` the clashes of their union. `progress` only observes.
///
/// # Errors
///
/// The fault of a source; the faults of the sink, with the sink's number; or `Memory`. The output then has a front of
/// the file of the selection.
pub fn merge_selected<S: Source + Drop, W: Output, P: Progress>(
    alloc: Global,
    selection: Selection,
    mut sources: Vec<S>,
    sink: &mut Sink,
    out: &mut W,
    progress: &mut P,
) -> Result<Counts, Fault>
    requires { sink.old ≡ new_sink sink.old.format sink.old.number }
    ensures merged { IfOk result (λ counts. SomeInputsGive S.can_give sources.items (λ all.
        IsMergedAs selection all sink.old.format (change_of W.Output out.old out.new) counts)) }
    ensures refused { IfErr result (λ fault. SomeInputsGive S.can_give sources.items (λ all.
        IsRefusedAs selection all sink.old.format sink.old.number (change_of W.Output out.old out.new) fault)) }
    ensures kept { Grows (change_of W.Output out.old out.new) }
    ensures good { OnOk result (IsGoodThroughout (change_of W.Output out.old out.new)) }
    ensures ended { OnOk result (sink.new.ended ≡ true) }
{
    let inputs: &mut [S] = &mut sources;
    let heads = first_versions(alloc, inputs)?;
    let mut tournament = Tournament::new(alloc, heads)?;
    let mut pending = Pending::new(selection);
    let outcome = write_union(&mut tournament, &mut pending, inputs, sink, out, progress);
    pending.report_end(&outcome, progress);
    outcome
}

/// Writes what is selected of the union of the heads and of what the sources give after them, as one file.
#[inline(never)]
fn write_union<S: Source, W: Output, P: Progress>(
    tournament: &mut Tournament,
    pending: &mut Pending,
    sources: &mut [S],
    sink: &mut Sink,
    out: &mut W,
    progress: &mut P,
) -> Result<Counts, Fault>
    requires tree { IsTree tournament.old.heads.items tournament.old.nodes.items 1 0 }
    requires repeats { tournament.old.repeats ≡ record { tie = None; taken = None } }
    requires compared { tournament.old.compared ≤ length tournament.old.heads.items - 1 }
    requires size { length tournament.old.heads.items ≡ length sources.old }
    requires last { pending.old.last ≡ None }
    requires read { pending.old.counts.read ≡ 0 }
    requires written { pending.old.counts.written ≡ 0 }
    requires sink { sink.old ≡ new_sink sink.old.format sink.old.number }
    ensures merged { IfOk result (λ counts. SomePendingGive S.can_give sources.old tournament.old.heads.items (λ all.
        IsMergedAs pending.old.selection all sink.old.format (change_of W.Output out.old out.new) counts)) }
    ensures refused { IfErr result (λ fault. SomePendingGive S.can_give sources.old tournament.old.heads.items (λ all.
        IsRefusedAs pending.old.selection all sink.old.format sink.old.number
        (change_of W.Output out.old out.new) fault)) }
    ensures kept { Grows (change_of W.Output out.old out.new) }
    ensures good { OnOk result (IsGoodThroughout (change_of W.Output out.old out.new)) }
    ensures ended { OnOk result (sink.new.ended ≡ true) }
{
    sink.begin(out)?;
    let mut tally = ClashTally::new();
    if sources.is_empty() {
        return pending.end(tournament.compared, tally.count, sink, out);
    }
    'versions: loop {
        let winner = tournament.leader();
        let is_repeated = tournament.is_repeated(winner);
        let Some(version) = tournament.take(winner) else {
            return pending.end(tournament.compared, tally.count, sink, out);
        };
        tally.see(version.version());
        let written = pending.counts.written;
        let spare = pending.meet(version, is_repeated, &mut tournament.compared, sink, out)?;
        pending.report(written, spare.as_ref(), progress);
        let next = next_of(&mut sources[winner], spare)?;
        tournament.put(winner, next);
    }
}

/// The next version of a source. The source first gets back the version `spare`, if there is one.
#[inline(always)]
fn next_of<S: Source>(source: &mut S, spare: Option<Version>) -> Result<Option<Version>, Fault>
    ensures step { SourceSteps S.can_give source.old result source.new }
    ensures fewer { IfOk result (λ given. IsSome given → S.left source.new < S.left source.old) }
{
    if let Some(version) = spare {
        source.reuse(version);
    }
    source.next()
}

#[cfg(test)]
mod tests;
