//! Versions taken into a history, without a copy. A search finds the index of each, unless they are many.
ghost use Rattle.std.specs.Prelude.{◌≡◌, ◌+◌, ◌≤◌, ◌++◌, take, drop, MatchResult, vec_len, vec_capacity};
ghost use Rattle.std.specs.List.Sorted.{IsStrictlySortedBy};
ghost use Rattle.std.specs.VecDeque.{deque_len};
ghost use Rattle.osm_model.specs.Sets as set;
ghost use Rattle.osm_merge.specs.Selected.{snapshot};
ghost use Rattle.osm_merge.specs.Taking.{order_of, union_by, greater_of, is_tied, rest_after_tie, greater_tied};
ghost use Rattle.osm_merge.specs.Taking.{merge_by, IsCountBelow};

use crate::into_snapshot;
use osm_model::{History, Memory, Version};
use std::alloc::Global;
use std::cmp::Ordering;
use std::collections::VecDeque;
use std::mem;

/// The order by which two histories are joined.
#[derive(Clone, Copy)]
enum OrderBy {
    /// By all data.
    Versions,
    /// By objects.
    Objects,
}

/// Takes the versions of `more` into `held`, so that `held` has the union. No version is copied, and few are compared:
/// a search finds the index of each version that is taken, and the versions before it move without a comparison.
///
/// # Errors
///
/// `Memory` when out of memory; `held` is unchanged then.
pub fn absorb(alloc: Global, held: &mut History, more: History) -> Result<(), Memory>
    ensures { MatchResult result (λ _. held.new ≡ set.union held.old more) (λ _. held.new ≡ held.old) }
{
    take_in(alloc, OrderBy::Versions, held, more)
}

/// Takes the newest versions of `more` into `held`, which has only the newest version of each object. Then `held` has
/// the snapshot of the union. The function passes once over the versions of `held`, like [`absorb`].
///
/// # Errors
///
/// `Memory` when out of memory; `held` is unchanged then.
pub fn absorb_newest(alloc: Global, held: &mut History, more: History) -> Result<(), Memory>
    requires { held.old ≡ snapshot held.old }
    ensures { MatchResult result (λ _. held.new ≡ snapshot (set.union held.old more)) (λ _. held.new ≡ held.old) }
{
    take_in(alloc, OrderBy::Objects, held, into_snapshot(more))
}

/// Takes the versions of `more` into `held`; both ascend by `order`. Of two versions that tie, the greater one stays.
fn take_in(alloc: Global, order: OrderBy, held: &mut History, more: History) -> Result<(), Memory>
    requires held_ascends { IsStrictlySortedBy (order_of order) (set.to_list held.old) }
    requires more_ascends { IsStrictlySortedBy (order_of order) (set.to_list more) }
    ensures { MatchResult result (λ _. held.new ≡ union_by order held.old more) (λ _. held.new ≡ held.old) }
{
    // The whole memory is allocated before a version is moved, so nothing fails from then on.
    let mut joined = Vec::with_capacity(alloc, held.len().saturating_add(more.len()))?;
    let all = mem::replace(held, History::new(alloc)).into_versions();
    move_joined(order, &mut joined, all, more.into_versions());
    *held = History::from_ascending(joined);
    Ok(())
}

/// Moves the versions of two lists that ascend by `order` to the end of `joined`, which has capacity for all of them.
/// Of two versions that tie, only the greater one is moved.
fn move_joined(order: OrderBy, joined: &mut Vec<Version>, held: Vec<Version>, more: Vec<Version>)
    requires ascends { IsStrictlySortedBy (order_of order) held.items }
    requires fits { vec_len joined.old + (vec_len held + vec_len more) ≤ vec_capacity joined.old }
    ensures { joined.new.items ≡ joined.old.items ++ merge_by (order_of order) held.items more.items }
{
    let stride = held.len() / more.len().max(1);
    let mut held = VecDeque::from_vec(held);
    'more: for version in more {
        let below = count_below(order, &held, stride, &version);
        move_front(joined, &mut held, below);
        joined.push_reserved(take_tied(order, &mut held, version));
    }
    let rest = held.len();
    move_front(joined, &mut held, rest);
}

/// The number of versions of an ascending list that are below `version`. The search looks `stride` versions ahead at a
/// time, until the rest is short enough to halve.
fn count_below(order: OrderBy, held: &VecDeque<Version>, stride: usize, version: &Version) -> usize
    requires { IsStrictlySortedBy (order_of order) held.now.items }
    ensures { IsCountBelow (order_of order) version.now held.now.items result }
{
    let mut low = 0;
    let mut high = held.len();
    'halves: while low < high {
        let probe = low + ((high - low) / 2).min(stride);
        if compare(order, &held[probe], version).is_lt() {
            low = probe + 1;
        } else {
            high = probe;
        }
    }
    low
}

/// The order of two versions.
fn compare(order: OrderBy, version: &Version, other: &Version) -> Ordering
    ensures { result ≡ order_of order version.now other.now }
{
    match order {
        OrderBy::Versions => version.cmp(other),
        OrderBy::Objects => version.object_cmp(other),
    }
}

/// Moves `count` versions from the front of `held` to the end of `joined`, which has capacity for them.
fn move_front(joined: &mut Vec<Version>, held: &mut VecDeque<Version>, count: usize)
    requires enough { count ≤ deque_len held.old }
    requires fits { vec_len joined.old + count ≤ vec_capacity joined.old }
    ensures moved { joined.new.items ≡ joined.old.items ++ take count held.old.items }
    ensures capacity { vec_capacity joined.new ≡ vec_capacity joined.old }
    ensures left { held.new.items ≡ drop count held.old.items }
{
    'moves: for _ in 0..count {
        if let Some(version) = held.pop_front() {
            joined.push_reserved(version);
        }
    }
}

/// Returns `version`, or the first version of `held` if the two tie and the first version isn't less. A first version
/// that ties is removed from `held`.
fn take_tied(order: OrderBy, held: &mut VecDeque<Version>, version: Version) -> Version
    ensures value { result ≡ greater_tied (order_of order) version held.old.items }
    ensures left { held.new.items ≡ rest_after_tie (order_of order) version held.old.items }
{
    if !is_tied(order, held, &version) {
        return version;
    }
    match held.pop_front() {
        Some(first) => greater(first, version),
        None => version,
    }
}

/// Whether the first version of `held` ties with `version`.
fn is_tied(order: OrderBy, held: &VecDeque<Version>, version: &Version) -> bool
    ensures { result ≡ is_tied (order_of order) version.now held.now.items }
{
    match held.front() {
        Some(first) => compare(order, first, version).is_eq(),
        None => false,
    }
}

/// The second version, if it is greater, else the first one.
fn greater(first: Version, second: Version) -> Version
    ensures { result ≡ greater_of first second }
{
    if first.cmp(&second).is_lt() {
        second
    } else {
        first
    }
}

#[cfg(test)]
mod tests;
