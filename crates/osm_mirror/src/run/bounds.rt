//! The bounds of shards. Objects are looked up at regular offsets of all OPL files, and the bounds cut them into shares
//! of about equal size.
ghost use Rattle.std.specs.Prelude.{◌≡◌, ◌++◌, ◌*◌, ◌<◌, ◌≤◌, ◌^◌, nat_le, true, length, List, ℕ, IfOk, OnOk, IfErr};
ghost use Rattle.std.specs.Prelude.{IfSome, sum_by, if◌then◌else◌};
ghost use Rattle.std.specs.List.Sorted.{IsPermutation};
ghost use Rattle.osm_mirror.specs.run.Bounds.{is_opl, opl_size, step_of, found_in_all, found_once, probe_count};
ghost use Rattle.osm_mirror.specs.run.Bounds.{total_weight, bound_of};
ghost use Rattle.osm_mirror.specs.run.Probes.{HaveBytes, IsTotal, FindsInAll, FindsIn, FindsBy, Ascend, is_above};
ghost use Rattle.osm_mirror.specs.run.ShardRefusal.{AreRefused, IsFileRefusal};

use crate::run::lines_from::{LinesFrom, lines_before};
use crate::run::shard_extent::opl_size;
use osm_files::{Fault, LENGTH_LIMIT, ReadAt};
use osm_model::Object;
use std::alloc::{AllocError, Global};

/// The number of probes for each shard.
const PROBES_OF_SHARD: u64 = 16;

/// An object that was found in a file.
#[derive(Clone, Copy, Debug, PartialEq, Eq)]
pub(crate) struct Found {
    /// The object.
    pub(crate) object: Object,
    /// The number of bytes of the file that the object represents.
    pub(crate) weight: u64,
}

/// The objects that are found in the OPL files, ascending, for `count` shards.
pub(crate) fn find_objects<F: ReadAt>(
    alloc: Global,
    files: &[&F],
    count: u64,
) -> Result<Vec<Found>, Fault>
    requires some { 0 < count }
    requires few { count ≤ 9999 }
    ensures ascend { IfOk result (λ found. Ascend found.items) }
    ensures found { IfOk result (λ found. (all : List (List ℕ)) → HaveBytes (λ file. F.bytes file.now) files.now all
        → IsPermutation (found_in_all (step_of count all) all) found.items × (total_weight found.items < 2 ^ 62)) }
    ensures short { IfOk result (λ _. (all : List (List ℕ)) → HaveBytes (λ file. F.bytes file.now) files.now all
        → sum_by opl_size all < 2 ^ 62) }
    ensures refused { IfErr result (AreRefused (λ file. F.bytes file.now) (λ file. F.fails file.now) IsFileRefusal
        files.now) }
{
    let step = (total_size(files)? / (PROBES_OF_SHARD * count)).max(1);
    let mut found = probe_files(alloc, files, step)?;
    found.sort_unstable_by(|a, b| a.object.order(&b.object));
    Ok(found)
}

/// The size of all OPL files together.
fn total_size<F: ReadAt>(files: &[&F]) -> Result<u64, Fault>
    ensures total { IfOk result (IsTotal (λ file. F.bytes file.now) files.now) }
    ensures short { IfOk result (λ total. total < 2 ^ 62) }
    ensures refused { IfErr result (AreRefused (λ file. F.bytes file.now) (λ file. F.fails file.now) IsFileRefusal
        files.now) }
{
    let mut total = 0_u64;
    'files: for (input, file) in files.iter().enumerate() {
        let size = match opl_size(*file) {
            Ok(size) => size.unwrap_or(0),
            Err(fault) => return Err(fault.of_input(input)),
        };
        if size >= LENGTH_LIMIT - total {
            return Err(Fault::too_long(input));
        }
        total += size;
    }
    Ok(total)
}

/// The objects that are found in the OPL files, file by file, at the multiples of `step`.
fn probe_files<F: ReadAt>(alloc: Global, files: &[&F], step: u64) -> Result<Vec<Found>, Fault>
    requires some { 0 < step }
    ensures found { IfOk result (λ found. FindsInAll (λ file. F.bytes file.now) step files.now found.items) }
    ensures refused { IfErr result (AreRefused (λ file. F.bytes file.now) (λ file. F.fails file.now) IsFileRefusal
        files.now) }
{
    let mut found = Vec::new(alloc);
    'files: for (input, file) in files.iter().enumerate() {
        if let Err(fault) = probe_file(alloc, *file, step, &mut found) {
            return Err(fault.of_input(input));
        }
    }
    Ok(found)
}

/// Appends the objects that are found in a file at the multiples of `step`, if it is an OPL file.
fn probe_file<F: ReadAt>(
    alloc: Global,
    file: &F,
    step: u64,
    found: &mut Vec<Found>,
) -> Result<(), Fault>
    requires some { 0 < step }
    ensures found { OnOk result (FindsIn (F.bytes file.now) step found.old.items found.new.items) }
    ensures refused { IfErr result (IsFileRefusal (F.fails file.now) (F.bytes file.now)) }
{
    match opl_size(file)? {
        Some(size) => probe_lines(alloc, file, size, step, found),
        None => Ok(()),
    }
}

/// Appends the objects that are found in an OPL file of `size` bytes at the multiples of `step`, the last one first.
///
/// Why: each probe reads only the lines before those that the next one knows, so no stretch is read by several probes.
fn probe_lines<F: ReadAt>(
    alloc: Global,
    file: &F,
    size: u64,
    step: u64,
    found: &mut Vec<Found>,
) -> Result<(), Fault>
    requires some { 0 < step }
    requires size { IfSome (F.bytes file.now) (λ all. (is_opl all ≡ true) × (size ≡ length all)) }
    ensures found { OnOk result (FindsBy (F.bytes file.now) size step found.old.items found.new.items) }
    ensures refused { IfErr result (IsFileRefusal (F.fails file.now) (F.bytes file.now)) }
{
    let mut lines = LinesFrom::at_end(size);
    let mut left = probe_count(step, size);
    'probes: while left > 0 {
        left -= 1;
        let offset = probe_offset(left, step, size);
        lines = lines_before(alloc, file, offset, lines)?;
        push_found(lines.object, step.min(size - offset), found)?;
    }
    Ok(())
}

/// The number of multiples of `step` that are below `size`.
fn probe_count(step: u64, size: u64) -> u64
    requires some { 0 < step }
    ensures { result ≡ probe_count step size }
{
    if size == 0 { 0 } else { (size - 1) / step + 1 }
}

/// The offset of the probe `number`.
fn probe_offset(number: u64, step: u64, size: u64) -> u64
    requires some { 0 < step }
    requires number { number < probe_count step size }
    ensures offset { result ≡ number * step }
    ensures within { result < size }
{
    number * step
}

/// Appends an object with its weight, if there is an object.
fn push_found(object: Option<Object>, weight: u64, found: &mut Vec<Found>) -> Result<(), AllocError>
    ensures { OnOk result (found.new.items ≡ found.old.items ++ found_once weight object) }
{
    if let Some(object) = object {
        found.push(Found { object, weight })?;
    }
    Ok(())
}

/// The least object with at least `number` of `count` shares of the weight below it, among objects that ascend.
pub(crate) fn bound(found: &[Found], number: u64, count: u64) -> Option<Object>
    requires ascend { Ascend found.now }
    requires number { number ≤ 9999 }
    requires few { count ≤ 9999 }
    ensures { total_weight found.now < 2 ^ 62 → result ≡ bound_of number count found.now }
{
    let weight = weight_of(found);
    // The weight of the objects before the next one, and of those below the last one.
    let mut before = 0_u64;
    let mut below = 0_u64;
    let mut last: Option<Object> = None;
    'found: for index in 0..found.len() {
        let next = found[index];
        below = weight_below(next.object, last, before, below);
        if has_shares(below, weight, number, count) {
            return Some(next.object);
        }
        before = before.saturating_add(next.weight);
        last = Some(next.object);
    }
    None
}

/// The weight below `object`, which comes after `last`. The weight before it is `before`, and that below `last` is
/// `below`.
fn weight_below(object: Object, last: Option<Object>, before: u64, below: u64) -> u64
    ensures { result ≡ (if is_above object last then before else below) }
{
    match last {
        Some(last) if !last.order(&object).is_lt() => below,
        _ => before,
    }
}

/// Whether `below` is at least `number` of `count` shares of `weight`.
fn has_shares(below: u64, weight: u64, number: u64, count: u64) -> bool
    requires number { number ≤ 9999 }
    requires few { count ≤ 9999 }
    ensures { below < 2 ^ 62 → weight < 2 ^ 62 → result ≡ nat_le (weight * number) (below * count) }
{
    let share = u128::from(weight).saturating_mul(u128::from(number));
    u128::from(below).saturating_mul(u128::from(count)) >= share
}

/// The weight of all objects together.
fn weight_of(found: &[Found]) -> u64
    ensures { total_weight found.now < 2 ^ 62 → result ≡ total_weight found.now }
{
    let mut weight = 0_u64;
    'found: for index in 0..found.len() {
        weight = weight.saturating_add(found[index].weight);
    }
    weight
}
