//! Selections of a history.
ghost use Rattle.std.specs.Prelude.{◌≡◌, ◌++◌, IfOk, OnOk};
ghost use Rattle.osm_merge.specs.Selected as set;
ghost use Rattle.osm_merge.specs.Pass.{singleton_if};

use crate::selection::{Selection, keeps, passes, stays};
use osm_model::{History, Memory, Version};
use std::alloc::Global;

/// The newest version of each object, deletions too.
pub fn snapshot(alloc: Global, history: &History) -> Result<History, Memory>
    ensures { IfOk result (λ h. h ≡ set.snapshot history.now) }
{
    choose(alloc, Selection::Newest, history)
}

/// The versions that aren't deletions.
pub fn visible(alloc: Global, history: &History) -> Result<History, Memory>
    ensures { IfOk result (λ h. h ≡ set.visible history.now) }
{
    choose(alloc, Selection::Visible, history)
}

/// The newest one of each object among the versions without a time or with a time of at most `time`, deletions too.
pub fn at(alloc: Global, history: &History, time: u32) -> Result<History, Memory>
    ensures { IfOk result (λ h. h ≡ set.at history.now time) }
{
    choose(alloc, Selection::State(time), history)
}

/// The versions, deletions too, that came before `to` and were current at `from` or later. A version is current until
/// the next one of its object comes; a version without a time came at 0.
pub fn between(alloc: Global, history: &History, from: u32, to: u32) -> Result<History, Memory>
    ensures { IfOk result (λ h. h ≡ set.between history.now from to) }
{
    choose(alloc, Selection::Between { from, to }, history)
}

/// The selection of a history.
fn choose(alloc: Global, selection: Selection, history: &History) -> Result<History, Memory>
    ensures { IfOk result (λ h. h ≡ set.selection_of selection history.now) }
{
    let mut chosen = Vec::new(alloc);
    let mut pending: Option<usize> = None;
    for index in 0..history.len() {
        let version = history.get(index);
        if passes(selection, version) {
            if let Some(before) = pending {
                let before = history.get(before);
                copy_if(keeps(selection, before, version), before, &mut chosen)?;
            }
            pending = Some(index);
        }
    }
    if let Some(last) = pending {
        let last = history.get(last);
        copy_if(stays(selection, last, None), last, &mut chosen)?;
    }
    History::from_versions(chosen)
}

/// Appends a copy of a version to `chosen`, if it stays.
fn copy_if(stays: bool, version: &Version, chosen: &mut Vec<Version>) -> Result<(), Memory>
    ensures { OnOk result (chosen.new.items ≡ chosen.old.items ++ singleton_if stays version.now) }
{
    if stays {
        chosen.push(version.copy()?)?;
    }
    Ok(())
}

#[cfg(test)]
mod tests;
