//! Ranks of versions.
ghost use Rattle.std.specs.Prelude.{◌≡◌};
ghost use Rattle.osm_model.specs.Rank.{rank_of};

use crate::Version;

/// From this absolute value on, a rank doesn't distinguish ids.
const RANKED_ID_LIMIT: u64 = (1 << 45) - 1;

/// From this number on, a rank doesn't distinguish version numbers.
const RANKED_NUMBER_LIMIT: u64 = (1 << 16) - 1;

/// The rank of a version: a number that is made of its key. A version of a lower rank is less, so ranks decide nearly
/// all comparisons of versions without a look at their data. Different versions can have the same rank.
#[derive(Clone, Copy, Debug, PartialEq, Eq, PartialOrd, Ord)]
pub(crate) struct Rank {
    value: u64,
}

impl Version {
    /// The rank: the kind, the sign and the absolute value of the id, and the version number, as far as 64 bits hold
    /// them.
    #[inline(always)]
    pub(crate) fn rank(&self) -> Rank
        ensures { result.value ≡ rank_of self.now }
    {
        let id = self.id();
        let class = 2 * u64::from(self.kind().index()) + u64::from(id > 0);
        let size = id.unsigned_abs();
        let value = if size < RANKED_ID_LIMIT {
            (((class << 45) + size) << 16) + self.number().min(RANKED_NUMBER_LIMIT)
        } else {
            ((class << 45) + RANKED_ID_LIMIT) << 16
        };
        Rank { value }
    }
}
