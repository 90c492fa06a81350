//! Histories.
ghost use Rattle.std.specs.Prelude.{◌≡◌, ◌<◌, ◌++◌, ◌↔◌, IfOk, IsTrue, OnOk, slice_index_or};
ghost use Rattle.std.specs.List.Sorted.{IsStrictlySortedBy};
ghost use Rattle.osm_model.specs.Order.{version_cmp};
ghost use Rattle.osm_model.specs.Sets as set;
ghost use Rattle.osm_model.specs.Merged.{merge};

use crate::ranked::{with_ranks, without_ranks};
use crate::{Memory, Version};
use std::alloc::Global;
use std::cmp::Ordering;
use std::marker::Model;

/// A finite set of versions.
#[derive(Drop)]
pub struct History {
    versions: Vec<Version>,
}

impl Model for History {
    ghost use Rattle.std.specs.List.Sorted.{IsStrictlySortedBy};
    ghost use Rattle.osm_model.specs.Order.{version_cmp};
    ghost use Rattle.osm_model.specs.VersionSet.{VersionSet, version_set_code};
    ghost use Rattle.osm_model.specs.Sets.{from_list};

    ghost Value = { VersionSet };

    ghost coded = { version_set_code };

    ghost view = { λ h. from_list h.versions.items };

    ghost invariant = { λ h. IsStrictlySortedBy version_cmp h.versions.items };
}

impl History {
    /// The empty history. The call allocates nothing.
    pub fn new(alloc: Global) -> History
        ensures { result ≡ set.empty }
    {
        History {
            versions: Vec::new(alloc),
        }
    }

    /// The set of the versions of a list. The list may have any order and repeats. A list of a few ascending runs, like
    /// sorted files in sequence, is sorted fast: the sort merges the runs.
    ///
    /// # Errors
    ///
    /// Only out of memory.
    pub fn from_versions(versions: Vec<Version>) -> Result<History, Memory>
        ensures { IfOk result (λ h. h ≡ set.from_list versions.items) }
    {
        let mut ranked = with_ranks(versions)?;
        ranked.sort()?;
        ranked.dedup();
        let versions = without_ranks(ranked)?;
        Ok(History { versions })
    }

    /// The set of the versions of a strictly ascending list. The call allocates nothing and compares nothing.
    pub fn from_ascending(versions: Vec<Version>) -> History
        requires { IsStrictlySortedBy version_cmp versions.items }
        ensures { result ≡ set.from_list versions.items }
    {
        History { versions }
    }

    /// The union of the two histories, with copies of their versions. Both remain unchanged.
    ///
    /// # Errors
    ///
    /// Only out of memory.
    pub fn join(&self, other: &History) -> Result<History, Memory>
        ensures { IfOk result (λ h. h ≡ set.union self.now other.now) }
    {
        let mut versions = Vec::new(*self.versions.allocator());
        append_merged(&mut versions, &self.versions, &other.versions)?;
        Ok(History { versions })
    }

    /// Whether a version of the history equals `version`. The search halves the rest with each comparison.
    pub fn contains(&self, version: &Version) -> bool
        ensures { result ≡ set.contains self.now version.now }
    {
        self.versions.binary_search(version).is_ok()
    }

    /// The number of versions, each counted once.
    pub fn len(&self) -> usize
        ensures { result ≡ set.size self.now }
    {
        self.versions.len()
    }

    /// Whether the length is 0.
    pub fn is_empty(&self) -> bool
        ensures { IsTrue result ↔ (set.size self.now ≡ 0) }
    {
        self.versions.is_empty()
    }

    /// The version at index `place` of the history in ascending order. `place` is below the length.
    pub fn get(&self, place: usize) -> &Version
        requires { place < set.size self.now }
        ensures { result.now ≡ slice_index_or (set.to_list self.now) place result.now }
    {
        &self.versions[place]
    }

    /// The versions in ascending order. They are moved out, not copied.
    pub fn into_versions(self) -> Vec<Version>
        ensures { result.items ≡ set.to_list self }
    {
        let History { versions } = self;
        versions
    }

    /// An equal history, with copies of the versions.
    ///
    /// # Errors
    ///
    /// Only out of memory.
    pub fn copy(&self) -> Result<History, Memory>
        ensures { IfOk result (λ h. h ≡ self.now) }
    {
        let mut versions = Vec::new(*self.versions.allocator());
        append_copies(&mut versions, &self.versions)?;
        Ok(History { versions })
    }
}

/// Appends copies of the versions of `more` to `versions`.
fn append_copies(versions: &mut Vec<Version>, more: &[Version]) -> Result<(), Memory>
    ensures { OnOk result (versions.new.items ≡ versions.old.items ++ more.now) }
{
    for version in more {
        versions.push(version.copy()?)?;
    }
    Ok(())
}

/// Merges two ascending lists, and appends copies of their versions to `versions`. It copies one of two equal versions.
fn append_merged(
    versions: &mut Vec<Version>,
    left: &[Version],
    right: &[Version],
) -> Result<(), Memory>
    ensures { OnOk result (versions.new.items ≡ versions.old.items ++ merge version_cmp left.now right.now) }
{
    let mut i = 0;
    let mut j = 0;
    'merge: loop {
        if i == left.len() {
            return append_copies(versions, &right[j..]);
        }
        if j == right.len() {
            return append_copies(versions, &left[i..]);
        }
        match left[i].cmp(&right[j]) {
            Ordering::Less => {
                versions.push(left[i].copy()?)?;
                i += 1;
            }
            Ordering::Equal => {
                versions.push(left[i].copy()?)?;
                i += 1;
                j += 1;
            }
            Ordering::Greater => {
                versions.push(right[j].copy()?)?;
                j += 1;
            }
        }
    }
}
