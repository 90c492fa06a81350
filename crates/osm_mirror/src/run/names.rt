//! Lists of names of files.
ghost use Rattle.std.specs.Prelude.{IsTrue, ◌≡◌, ◌⊎◌, ◌↔◌, ◌<◌, ◌≤◌, ◌-◌, ℕ, [], length, take, slice_index_or};
ghost use Rattle.std.specs.Prelude.{IfOk, IfErr};
ghost use Rattle.osm_mirror.specs.run.Names.{SpellsNames, AreNames, IsNamesFault, IsTextsFault};
ghost use Rattle.osm_mirror.specs.run.Names.{between_nuls, texts_of};
ghost use Rattle.osm_mirror.specs.declared.run.names.NamesFault.TheVariants as why;

use std::alloc::{AllocError, AllocFailed, Global};
use thiserror::Error;

/// Why a list of names is refused.
#[derive(Clone, Copy, Debug, PartialEq, Eq, Error)]
pub enum NamesFault {
    /// The list has no name.
    #[error("no names")]
    NoNames,
    /// The name with this number, from 1, is empty.
    #[error("name {number}: empty")]
    EmptyName { number: usize },
    /// The last name lacks its NUL, which is required.
    #[error("not ended by NUL")]
    NotEnded,
    /// Memory ran out.
    #[error("out of memory")]
    Memory,
}

impl From<AllocError> for NamesFault {
    ghost from_gives = { λ _ e. e ≡ why.Memory };

    fn from(_error: AllocError) -> NamesFault {
        NamesFault::Memory
    }
}

impl<T: Drop> From<AllocFailed<T>> for NamesFault {
    ghost from_gives = { λ _ e. e ≡ why.Memory };

    fn from(_error: AllocFailed<T>) -> NamesFault {
        NamesFault::Memory
    }
}

/// The names in a list, each ended by NUL. The last one may lack its NUL unless `must_end` is set: a list that was cut
/// within a name lacks it.
///
/// # Errors
///
/// The list has no name, or an empty one, or lacks its last NUL; or memory ran out.
pub fn read_names<'a>(
    alloc: Global,
    list: &'a str,
    must_end: bool,
) -> Result<Vec<&'a str>, NamesFault>
    ensures names { IfOk result (λ names. SpellsNames must_end list.now (texts_of names.items)) }
    ensures refused { IfErr result (λ fault. (fault ≡ why.Memory) ⊎ IsNamesFault must_end list.now fault) }
{
    let texts = texts_between(alloc, list)?;
    match count_names(texts.as_slice(), must_end) {
        Ok(count) => Ok(Vec::from_slice(alloc, &texts[..count])?),
        Err(fault) => Err(fault),
    }
}

/// The texts between the NULs of a list, in their order. There is at least one.
fn texts_between<'a>(alloc: Global, list: &'a str) -> Result<Vec<&'a str>, AllocError>
    ensures texts { IfOk result (λ texts. texts_of texts.items ≡ between_nuls list.now) }
    ensures some { IfOk result (λ texts. 0 < length texts.items) }
{
    list.split('\0').collect(alloc)
}

/// The number of names among `texts`, the texts between the NULs of a list: all, or all but the last, if that is empty.
fn count_names(texts: &[&str], must_end: bool) -> Result<usize, NamesFault>
    requires { 0 < length texts.now }
    ensures bound { IfOk result (λ count. count ≤ length texts.now) }
    ensures names { IfOk result (λ count. AreNames must_end (texts_of texts.now) (take count (texts_of texts.now))) }
    ensures refused { IfErr result (IsTextsFault must_end (texts_of texts.now)) }
{
    let (empty, is_ended) = (first_empty(texts), is_last_empty(texts));
    if must_end && !is_ended {
        return Err(NamesFault::NotEnded);
    }
    if empty + 1 < texts.len() {
        return Err(NamesFault::EmptyName { number: empty + 1 });
    }
    if empty == 0 && is_ended {
        return Err(NamesFault::NoNames);
    }
    Ok(empty)
}

/// The index of the first text that is empty, or the number of texts.
fn first_empty(texts: &[&str]) -> usize
    ensures bound { result ≤ length texts.now }
    ensures full { (k : ℕ) → k < result → 0 < length (slice_index_or (texts_of texts.now) k []) }
    ensures empty { result < length texts.now → slice_index_or (texts_of texts.now) result [] ≡ [] }
{
    'texts: for index in 0..texts.len() {
        if texts[index].is_empty() {
            return index;
        }
    }
    texts.len()
}

/// Whether the last text is empty.
fn is_last_empty(texts: &[&str]) -> bool
    requires { 0 < length texts.now }
    ensures { IsTrue result ↔ (slice_index_or (texts_of texts.now) (length (texts_of texts.now) - 1) [] ≡ []) }
{
    texts[texts.len() - 1].is_empty()
}

#[cfg(test)]
mod tests;
