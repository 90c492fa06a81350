//! The metadata of a version: its number and its author.
ghost use Rattle.std.specs.Prelude.{◌≡◌, [], ◌∷◌, None, IfOk};
ghost use Rattle.std.specs.List.{list_all};
ghost use Rattle.osm_model.specs.New.{is_number, is_time, is_dated};

use crate::same::Same;
use crate::{Memory, Text};

/// The metadata of a version: its number and its author. The values may be out of range: `Version::new` checks them.
#[derive(Debug, Drop)]
pub struct Meta {
    /// The version number; 1 to 4294967295 in a version.
    pub version: u64,
    /// Seconds since 1970-01-01T00:00:00Z; 1 to 4294967295 in a version.
    pub time: Option<u64>,
    /// The changeset; at most 4294967295 in a version, and 0 in one without a time.
    pub changeset: u64,
    /// The user id; at most 4294967295 in a version, and 0 in one without a time.
    pub uid: u64,
    /// The user name, which holds no U+0000 in a version and is empty in one without a time.
    pub user: Text,
}

/// The exclusive upper bound of version numbers, changesets, user ids and times.
const NUMBER_LIMIT: u64 = 1 << 32;

impl Meta {
    /// Metadata without a version number, a time and an author. A reader fills it.
    pub fn blank() -> Meta
        ensures { result ≡ record { version = 0; time = None; changeset = 0; uid = 0; user = [] } }
    {
        Meta {
            version: 0,
            time: None,
            changeset: 0,
            uid: 0,
            user: Text::new(),
        }
    }

    /// Whether the version number, the changeset and the user id are below 2^32. Version number 0 passes.
    pub(crate) fn are_numbers(&self) -> bool
        ensures { result ≡ list_all is_number (self.now.version ∷ self.now.changeset ∷ self.now.uid ∷ []) }
    {
        self.version < NUMBER_LIMIT && self.changeset < NUMBER_LIMIT && self.uid < NUMBER_LIMIT
    }

    /// Whether there is no time, or one within its range.
    pub(crate) fn is_time(&self) -> bool
        ensures { result ≡ is_time self.now.time }
    {
        match self.time {
            None => true,
            Some(seconds) => 0 < seconds && seconds < NUMBER_LIMIT,
        }
    }

    /// Whether there is a time, or no author.
    pub fn is_dated(&self) -> bool
        ensures { result ≡ is_dated self.now }
    {
        self.time.is_some() || (self.changeset == 0 && self.uid == 0 && self.user.is_empty())
    }

    /// Equal metadata, with a copy of the user name.
    ///
    /// # Errors
    ///
    /// Only out of memory.
    pub fn copy(&self) -> Result<Meta, Memory>
        ensures { IfOk result (λ m. m ≡ self.now) }
    {
        Ok(Meta {
            version: self.version,
            time: self.time,
            changeset: self.changeset,
            uid: self.uid,
            user: self.user.copy()?,
        })
    }
}

impl Same for Meta {
    fn is_same(&self, other: &Meta) -> bool {
        self.version == other.version
            && self.time == other.time
            && self.changeset == other.changeset
            && self.uid == other.uid
            && self.user.is_same(&other.user)
    }
}
