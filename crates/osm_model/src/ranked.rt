//! Versions with their ranks, which are adjacent in memory while the versions are scattered.
ghost use Rattle.std.specs.Prelude.{◌≡◌, refl, IfOk};
ghost use Rattle.std.specs.Ordering.{eq_by_cmp, as_partial_cmp};
ghost use Rattle.std.specs.Cmp.{eq_by_cmp_equiv, partial_equiv_from_equiv, partial_order_from_agreeing_total};
ghost use Rattle.osm_model.specs.Order.{version_cmp, version_cmp_total};
ghost use Rattle.osm_model.specs.Rank.{rank_of};

use crate::rank::Rank;
use crate::{Memory, Version};
use std::cmp::Ordering;
use std::marker::Model;

impl Version {
    /// Compares two versions as `cmp` does, but tests equality first. It is faster for two versions of one rank: nearly
    /// always they are equal.
    #[inline(always)]
    pub(crate) fn cmp_equal_first(&self, other: &Version) -> Ordering
        ensures { result ≡ version_cmp self.now other.now }
    {
        if self == other {
            Ordering::Equal
        } else {
            self.cmp(other)
        }
    }
}

/// A version with its rank. The rank decides nearly all comparisons without a look at the version, which is elsewhere
/// in memory. Contracts see the version.
#[derive(Debug, Drop)]
pub struct Ranked {
    rank: Rank,
    version: Version,
}

impl Model for Ranked {
    ghost use Rattle.std.specs.Prelude.{◌≡◌};
    ghost use Rattle.osm_model.specs.Data.{VersionData};
    ghost use Rattle.osm_model.specs.Rank.{rank_of};

    ghost Value = { VersionData };

    ghost view = { λ r. r.version };

    ghost invariant = { λ r. r.rank.value ≡ rank_of r.version };
}

impl Ranked {
    /// Computes the rank of `version`.
    #[inline(always)]
    pub fn new(version: Version) -> Ranked
        ensures { result ≡ version }
    {
        Ranked {
            rank: version.rank(),
            version,
        }
    }

    /// The version whose rank is kept.
    #[inline(always)]
    pub fn version(&self) -> &Version
        ensures { result.now ≡ self.now }
    {
        &self.version
    }

    /// The version; its rank is dropped.
    #[inline(always)]
    pub fn into_version(self) -> Version
        ensures { result ≡ self }
    {
        self.version
    }
}

impl PartialEq for Ranked {
    ghost eq = { eq_by_cmp version_cmp };

    ghost laws = { partial_equiv_from_equiv (eq_by_cmp_equiv version_cmp_total) };

    fn eq(&self, other: &Ranked) -> bool {
        self.rank == other.rank && self.version == other.version
    }
}

impl Eq for Ranked {
    ghost laws = { eq_by_cmp_equiv version_cmp_total };
}

impl PartialOrd for Ranked {
    ghost partial_cmp = { as_partial_cmp version_cmp };

    ghost laws = { partial_order_from_agreeing_total version_cmp version_cmp_total (λ x y. refl) (λ x y. refl) };

    fn partial_cmp(&self, other: &Ranked) -> Option<Ordering> {
        Some(self.cmp(other))
    }
}

impl Ord for Ranked {
    ghost cmp = { version_cmp };

    ghost total = { version_cmp_total };

    ghost matches_partial_cmp = { λ x y. refl };

    ghost matches_eq = { λ x y. refl };

    #[inline(always)]
    fn cmp(&self, other: &Ranked) -> Ordering {
        match self.rank.cmp(&other.rank) {
            Ordering::Equal => self.version.cmp_equal_first(&other.version),
            by_rank => by_rank,
        }
    }
}

/// The versions of a list with their ranks.
pub(crate) fn with_ranks(versions: Vec<Version>) -> Result<Vec<Ranked>, Memory>
    ensures { IfOk result (λ ranked. ranked.items ≡ versions.items) }
{
    let mut ranked = Vec::with_capacity(*versions.allocator(), versions.len())?;
    for version in versions {
        ranked.push(Ranked::new(version))?;
    }
    Ok(ranked)
}

/// The versions of a list without their ranks.
pub(crate) fn without_ranks(ranked: Vec<Ranked>) -> Result<Vec<Version>, Memory>
    ensures { IfOk result (λ versions. versions.items ≡ ranked.items) }
{
    let mut versions = Vec::with_capacity(*ranked.allocator(), ranked.len())?;
    for version in ranked {
        versions.push(version.into_version())?;
    }
    Ok(versions)
}
