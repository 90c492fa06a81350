//! Why a data set is refused.
ghost use Rattle.std.specs.Prelude.{◌≡◌};
ghost use Rattle.o5_codec.specs.Reason.{o5_reason_name};

use osm_model::Memory;
use std::alloc::{AllocError, AllocFailed};
use thiserror::Error;

/// Why a data set of an o5m or o5c file can't be read.
#[derive(Clone, Copy, Debug, PartialEq, Eq, Error)]
pub enum O5Reason {
    /// A number isn't ended within its data set or section, has more than 10 bytes, or is 2^64 or more.
    #[error("bad number")]
    BadNumber,
    /// A number is outside the range of its field.
    #[error("out of range")]
    OutOfRange,
    /// The version number is 0.
    #[error("no version")]
    NoVersion,
    /// A reference to the string table is 0 or above the number of entries.
    #[error("bad reference")]
    BadReference,
    /// A string is missing or isn't ended.
    #[error("bad text")]
    BadText,
    /// A text isn't UTF-8.
    #[error("not UTF-8")]
    NotUtf8,
    /// The section of references or members is longer than the rest of the data set.
    #[error("bad section")]
    BadSection,
    /// The text of a member doesn't begin with the digit of a kind.
    #[error("bad member type")]
    BadMemberType,
    /// A segment has both a way with references and a relation with a node member.
    #[error("mixed segment")]
    MixedSegment,
    /// The file ends within the data set. A decoder never returns this reason; a reader of whole files does.
    #[error("truncated")]
    Truncated,
    /// An allocation failed.
    #[error("out of memory")]
    Memory,
    /// An earlier data set was refused.
    #[error("failed before")]
    Failed,
}

impl O5Reason {
    /// The reason's name, which is that of its variant.
    pub fn name(&self) -> &'static str
        ensures { result.now ≡ o5_reason_name self.now }
    {
        match self {
            O5Reason::BadNumber => "BadNumber",
            O5Reason::OutOfRange => "OutOfRange",
            O5Reason::NoVersion => "NoVersion",
            O5Reason::BadReference => "BadReference",
            O5Reason::BadText => "BadText",
            O5Reason::NotUtf8 => "NotUtf8",
            O5Reason::BadSection => "BadSection",
            O5Reason::BadMemberType => "BadMemberType",
            O5Reason::MixedSegment => "MixedSegment",
            O5Reason::Truncated => "Truncated",
            O5Reason::Memory => "Memory",
            O5Reason::Failed => "Failed",
        }
    }
}

impl From<Memory> for O5Reason {
    ghost use Rattle.o5_codec.specs.declared.reason.O5Reason.TheVariants as o5;

    ghost from_gives = { λ _ reason. reason ≡ o5.Memory };

    fn from(_error: Memory) -> O5Reason {
        O5Reason::Memory
    }
}

impl From<AllocError> for O5Reason {
    ghost use Rattle.o5_codec.specs.declared.reason.O5Reason.TheVariants as o5;

    ghost from_gives = { λ _ reason. reason ≡ o5.Memory };

    fn from(_error: AllocError) -> O5Reason {
        O5Reason::Memory
    }
}

impl<T: Drop> From<AllocFailed<T>> for O5Reason {
    ghost use Rattle.o5_codec.specs.declared.reason.O5Reason.TheVariants as o5;

    ghost from_gives = { λ _ reason. reason ≡ o5.Memory };

    fn from(_error: AllocFailed<T>) -> O5Reason {
        O5Reason::Memory
    }
}
