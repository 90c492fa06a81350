//! Histories as sources.
ghost use Rattle.std.specs.Prelude.{◌≡◌};

use crate::fault::Fault;
use crate::source::Source;
use osm_model::{History, Version};
use std::marker::Model;
use std::vec::IntoIter;

/// The versions of a history, ascending. Each is moved out, without a copy. No call is refused.
#[derive(Drop)]
pub struct HistorySource {
    /// The versions still to come.
    versions: IntoIter<Version>,
}

impl Model for HistorySource {
    ghost use Rattle.std.specs.List.Sorted.{IsStrictlySortedBy};
    ghost use Rattle.std.specs.Vec.Iter.{into_iter_items};
    ghost use Rattle.osm_model.specs.Order.{version_cmp};
    ghost use Rattle.osm_model.specs.Sets.{from_list};
    ghost use Rattle.osm_model.specs.VersionSet.{VersionSet, version_set_code};

    ghost Value = { VersionSet };

    ghost coded = { version_set_code };

    ghost view = { λ s. from_list (into_iter_items s.versions) };

    ghost invariant = { λ s. IsStrictlySortedBy version_cmp (into_iter_items s.versions) };
}

impl HistorySource {
    /// A source of the versions of a history.
    pub fn new(history: History) -> HistorySource
        ensures { result ≡ history }
    {
        let versions = history.into_versions();
        HistorySource {
            versions: versions.into_iter(),
        }
    }
}

impl Source for HistorySource {
    ghost use Rattle.osm_files.specs.Groups.{set_given, given_set_ascends};
    ghost use Rattle.osm_model.specs.Sets.{size};
    ghost use Rattle.std.specs.Prelude.{◌≡◌, false, refl};

    ghost can_give = { λ s still. still ≡ set_given s };

    ghost one = { set_given };

    ghost left = { size };

    ghost input = { λ _. 0 };

    ghost has_failed = { λ _. false };

    ghost possible = { λ s. refl };

    ghost ascends = { λ s still is. given_set_ascends s still is };

    #[inline(always)]
    fn next(&mut self) -> Result<Option<Version>, Fault> {
        Ok(self.versions.next())
    }
}

#[cfg(test)]
mod tests;
