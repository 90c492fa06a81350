//! The numbers of versions by what they are, and their first and last time.
ghost use Rattle.std.specs.Prelude.{◌≡◌, ◌+◌, min, max};
ghost use Rattle.osm_merge.specs.Union.{capped_count};
ghost use Rattle.osm_mirror.specs.run.Tally.{IsTalliedWith, chosen, is_of, no_versions, one_if};

use osm_model::{Kind, Version};

/// The numbers of versions by what they are, and their first and last time. A number above 2^64 - 1 is given as
/// 2^64 - 1.
#[derive(Clone, Copy, Debug, PartialEq, Eq)]
pub struct Tally {
    /// The number of versions of nodes, deletions included.
    pub nodes: u64,
    /// The number of versions of ways, deletions included.
    pub ways: u64,
    /// The number of versions of relations, deletions included.
    pub relations: u64,
    /// The number of deletions.
    pub deleted: u64,
    /// The least time of a version, in seconds since 1970-01-01T00:00:00Z; none if no version has a time.
    pub first: Option<u64>,
    /// The greatest time of a version, in seconds since 1970-01-01T00:00:00Z; none if no version has a time.
    pub last: Option<u64>,
}

impl Tally {
    /// The tally of no versions.
    pub fn new() -> Tally
        ensures { result ≡ no_versions }
    {
        Tally {
            nodes: 0,
            ways: 0,
            relations: 0,
            deleted: 0,
            first: None,
            last: None,
        }
    }

    /// The tally with one version more.
    #[inline(always)]
    pub fn with(self, version: &Version) -> Tally
        ensures { IsTalliedWith self version.now result }
    {
        let time = version.time();
        Tally {
            nodes: count_if(self.nodes, is_of(Kind::Node, version)),
            ways: count_if(self.ways, is_of(Kind::Way, version)),
            relations: count_if(self.relations, is_of(Kind::Relation, version)),
            deleted: count_if(self.deleted, version.body().is_deleted()),
            first: earlier(self.first, time),
            last: later(self.last, time),
        }
    }
}

/// Whether a version is of this kind.
fn is_of(kind: Kind, version: &Version) -> bool
    ensures { result ≡ is_of kind version.now }
{
    version.kind().index() == kind.index()
}

/// One more than `count` if `is_counted`, at most 2^64 - 1.
fn count_if(count: u64, is_counted: bool) -> u64
    ensures { result ≡ capped_count (count + one_if is_counted) }
{
    count.saturating_add(u64::from(is_counted))
}

/// The earlier one of two times. A missing time is never chosen.
fn earlier(time: Option<u64>, other: Option<u64>) -> Option<u64>
    ensures { result ≡ chosen min time other }
{
    match (time, other) {
        (Some(time), Some(other)) => Some(time.min(other)),
        (Some(time), None) => Some(time),
        (None, other) => other,
    }
}

/// The later one of two times. A missing time is never chosen.
fn later(time: Option<u64>, other: Option<u64>) -> Option<u64>
    ensures { result ≡ chosen max time other }
{
    match (time, other) {
        (Some(time), Some(other)) => Some(time.max(other)),
        (Some(time), None) => Some(time),
        (None, other) => other,
    }
}
