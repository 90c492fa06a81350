//! Faults of data.
use thiserror::Error;

/// The reason why data makes no version.
#[derive(Clone, Copy, Debug, PartialEq, Eq, Error)]
pub enum ValueFault {
    /// An id, a reference or the id of a member is outside -4611686018427387903 to 4611686018427387903.
    #[error("id out of range")]
    IdRange,
    /// The version number is 0.
    #[error("no version number")]
    NoVersion,
    /// The version number, the changeset or the user id is above 4294967295.
    #[error("number out of range")]
    NumberRange,
    /// The time is 0 or above 4294967295.
    #[error("time out of range")]
    TimeRange,
    /// A text holds the character U+0000.
    #[error("U+0000 in a text")]
    ZeroInText,
    /// An allocation failed.
    #[error("out of memory")]
    Memory,
    /// The time is missing, but there is a changeset, a user id or a user name.
    #[error("author without a time")]
    NoTime,
}
