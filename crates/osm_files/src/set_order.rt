//! The order of the data sets of an o5 file by their keys. The data sets are read in windows of the file, and the bytes
//! of a data set after a window are skipped.
ghost use Rattle.std.specs.Prelude.{◌≡◌, ◌+◌, ◌≤◌, ◌<◌, ◌^◌, ◌++◌, List, ℕ, length, IfOk, IfErr, IfSome};
ghost use Rattle.osm_files.specs.FileRuns.{IsReadFailure, IfWhole};
ghost use Rattle.osm_files.specs.SetOrder as spec;

use crate::fault::Fault;
use crate::file_runs::byte_at;
use crate::input::Broken;
use crate::key_order::{WINDOW, read_exact};
use crate::line_key::is_key_below;
use crate::o5::{FILE_END, HEADER_LENGTH, is_header};
use crate::read_at::ReadAt;
use crate::reason::Reason;
use crate::set_key::{KeyPart, read_part};
use crate::sorted_run::SortedRun;
use osm_model::Key;
use std::alloc::Global;

/// The order of data sets by their keys.
#[derive(Clone, Copy, Debug)]
pub(crate) enum SetOrder {
    /// No key is below the key before it.
    Rises,
    /// The key of the data set at this offset is below the key before it, and no earlier one is.
    Falls(u64),
    /// A part that can't be read by its key comes first.
    Unknown,
}

/// Data sets whose keys don't fall.
#[derive(Clone, Copy, Debug)]
struct RisingSets {
    /// The offset of their end.
    end: u64,
    /// The base of ids after them.
    base: i64,
    /// The key of their last version.
    last: Option<Key>,
}

impl RisingSets {
    /// The sets and the part after them; `None` if the part's key is below the last key.
    fn and(self, part: KeyPart) -> Option<RisingSets>
        requires { self.end + part.size < 2 ^ 64 }
        ensures { IfSome result (spec.AreSetsAnd self part) }
    {
        let last = match part.key {
            None => self.last,
            Some(key) => {
                if is_key_below(key, self.last) {
                    return None;
                }
                Some(key)
            }
        };
        Some(RisingSets {
            end: self.end + part.size,
            base: part.base,
            last,
        })
    }
}

/// The order of the data sets of a run of a file, which has `size` bytes. It is `Unknown` if the run isn't a header,
/// parts of the usual form and an end.
///
/// # Errors
///
/// `ReadFault` if the file can't be read; or `Memory`.
pub(crate) fn order_of_run<F: ReadAt>(
    alloc: Global,
    file: &F,
    size: u64,
    run: SortedRun,
) -> Result<SetOrder, Fault>
    ensures order { IfWhole (F.bytes file.now) size (λ all. spec.IsOrderOfRun (F.fails file.now) all run result) }
{
    let end = run.start.saturating_add(run.size).min(size);
    let Some(first) = first_set(alloc, file, run, end)? else {
        return Ok(SetOrder::Unknown);
    };
    let Some(last) = end_of_sets(file, run, end)? else {
        return Ok(SetOrder::Unknown);
    };
    if last < first {
        return Ok(SetOrder::Unknown);
    }
    order_of_sets(alloc, file, first, last)
}

/// The offset of the first data set of a run that ends at the offset `end`, after the run's header; `None` if it has no
/// header.
///
/// # Errors
///
/// `ReadFault` if the file can't be read or is shorter; or `Memory`.
fn first_set<F: ReadAt>(
    alloc: Global,
    file: &F,
    run: SortedRun,
    end: u64,
) -> Result<Option<u64>, Fault>
    ensures header { IfOk result (λ found. IfSome found (λ offset.
        IfSome (F.bytes file.now) (λ all. spec.HasHeader all run offset))) }
    ensures failure { IfErr result (λ fault. IfSome (F.bytes file.now) (λ all. end ≤ length all
        → IsReadFailure (F.fails file.now) fault)) }
{
    if run.lacks_header {
        return Ok(Some(run.start));
    }
    if end < run.start || end - run.start < HEADER_LENGTH as u64 {
        return Ok(None);
    }
    let header = read_exact(alloc, file, run.start, HEADER_LENGTH)?;
    if is_header(&header) {
        Ok(Some(run.start + HEADER_LENGTH as u64))
    } else {
        Ok(None)
    }
}

/// The offset of the end of the data sets of a run that ends at the offset `end`, before the end byte if the run has
/// one in the file; `None` if no end byte is there.
///
/// # Errors
///
/// `ReadFault` if the file can't be read.
fn end_of_sets<F: ReadAt>(file: &F, run: SortedRun, end: u64) -> Result<Option<u64>, Fault>
    ensures end { IfOk result (λ found. IfSome found (λ offset.
        IfSome (F.bytes file.now) (λ all. spec.HasEnd all run end offset))) }
    ensures failure { IfErr result (λ fault. IsReadFailure (F.fails file.now) fault) }
{
    if run.lacks_end {
        return Ok(Some(end));
    }
    if end == 0 {
        return Ok(None);
    }
    match byte_at(file, end - 1) {
        Ok(Some(FILE_END)) => Ok(Some(end - 1)),
        Ok(_) => Ok(None),
        Err(Broken) => Err(Fault::at(0, end - 1, Reason::ReadFault)),
    }
}

/// The order of the data sets of an o5 file from the offset `start`, after the header or a reset, up to `end`.
///
/// # Errors
///
/// `ReadFault` if the file can't be read or is shorter; or `Memory`.
fn order_of_sets<F: ReadAt>(
    alloc: Global,
    file: &F,
    start: u64,
    end: u64,
) -> Result<SetOrder, Fault>
    ensures order { IfSome (F.bytes file.now) (λ all. end ≤ length all
        → spec.IsOrderOfSets (F.fails file.now) all start end result) }
{
    let mut sets = RisingSets {
        end: start,
        base: 0,
        last: None,
    };
    'windows: while sets.end < end {
        let count = (end - sets.end).min(WINDOW);
        let bytes = read_exact(alloc, file, sets.end, count as usize)?;
        match read_sets(&bytes, sets, end) {
            Ok(read) => {
                if read.end == sets.end {
                    return Ok(SetOrder::Unknown);
                }
                sets = read;
            }
            Err(read) => return Ok(SetOrder::Falls(read.end)),
        }
    }
    Ok(SetOrder::Rises)
}

/// The sets of a file with those that begin in `window`, whose bytes follow `sets`, as far as their keys can be read.
/// The last one ends at most at the offset `end`.
///
/// # Errors
///
/// The sets before the first one whose key is below the key before it.
fn read_sets(window: &[u8], sets: RisingSets, end: u64) -> Result<RisingSets, RisingSets>
    requires { sets.end + length window.now ≤ end }
    ensures read { (rest : List ℕ) → sets.end + length (window.now ++ rest) ≡ end
        → spec.ReadsSets (window.now ++ rest) sets result }
    ensures within { IfOk result (λ read. (sets.end ≤ read.end) × (read.end ≤ end)) }
{
    let mut read = sets;
    'parts: while read.end - sets.end < window.len() as u64 {
        let bytes = &window[(read.end - sets.end) as usize..];
        let Some(part) = read_part(bytes, read.base, end - read.end) else {
            return Ok(read);
        };
        match read.and(part) {
            Some(next) => read = next,
            None => return Err(read),
        }
    }
    Ok(read)
}

#[cfg(test)]
mod tests;
