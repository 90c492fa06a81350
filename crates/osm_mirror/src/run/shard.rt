//! The shards of an output.
ghost use Rattle.std.specs.Prelude.{◌≡◌, ◌↔◌, ◌≤◌, ℕ, None, IfSome, IsSome, IfOk, IfErr};
ghost use Rattle.osm_files.specs.FileRuns.{IsReadFailure};
ghost use Rattle.osm_mirror.specs.run.Bounds.{is_opl};
ghost use Rattle.osm_mirror.specs.run.Shard.{SpellsShard};

use crate::digits::read_decimal;
use crate::run::shard_extent::opl_size;
use osm_files::{Fault, ReadAt};

/// The greatest number of shards of an output.
const MOST_SHARDS: u64 = 9999;

/// One of several shards of an output.
#[derive(Clone, Copy, Debug, PartialEq, Eq)]
pub struct Shard {
    /// The number of the shard, from 1.
    pub number: u64,
    /// The number of shards, up to 9999.
    pub count: u64,
    ghost first: { 1 ≤ number },
    ghost within: { number ≤ count },
    ghost few: { count ≤ 9999 },
}

impl Shard {
    /// The shard `number` of `count`; none unless `number` is from 1 to `count`, and `count` is at most 9999.
    pub fn new(number: u64, count: u64) -> Option<Shard>
        ensures some { IsSome result ↔ (1 ≤ number) × (number ≤ count) × (count ≤ 9999) }
        ensures numbers { IfSome result (λ shard. (shard.number ≡ number) × (shard.count ≡ count)) }
    {
        if number == 0 || number > count || count > MOST_SHARDS {
            return None;
        }
        Some(Shard { number, count })
    }

    /// The shard that `text` spells as `K/N`, the shard K of N. Each number is of decimal digits.
    pub fn read(text: &str) -> Option<Shard>
        ensures shard { IfSome result (λ shard. SpellsShard text.now shard.number shard.count) }
        ensures none { result ≡ None → (number count : ℕ) → SpellsShard text.now number count → ⊥ }
    {
        let Some((number, count)) = text.split_once('/') else {
            return None;
        };
        match (read_decimal(number), read_decimal(count)) {
            (Some(number), Some(count)) => Shard::new(number, count),
            _ => None,
        }
    }
}

/// Whether a file is OPL, of which a job for a shard reads only a part. It reads an o5 file up to the shard's end.
pub fn is_opl<F: ReadAt>(file: &F) -> Result<bool, Fault>
    ensures opl { IfOk result (λ is_so. IfSome (F.bytes file.now) (λ all. is_so ≡ is_opl all)) }
    ensures refused { IfErr result (IsReadFailure (F.fails file.now)) }
{
    let size = opl_size(file)?;
    Ok(size.is_some())
}

#[cfg(test)]
mod tests;
