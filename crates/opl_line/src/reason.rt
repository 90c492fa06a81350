//! The reasons for which a line is refused.
ghost use Rattle.std.specs.Prelude.{◌≡◌};
ghost use Rattle.opl_line.specs.Reason.{opl_reason_name};

use osm_model::Memory;
use std::alloc::{AllocError, AllocFailed};
use thiserror::Error;

/// The reason why an OPL line can't be read.
#[derive(Clone, Copy, Debug, PartialEq, Eq, Error)]
pub enum OplReason {
    /// The line isn't UTF-8.
    #[error("not UTF-8")]
    NotUtf8,
    /// The line doesn't begin with the letter of a node, a way or a relation.
    #[error("unknown kind of object")]
    UnknownKind,
    /// A field has a letter that its kind of object doesn't have.
    #[error("unknown field")]
    UnknownField,
    /// The line has a field twice.
    #[error("repeated field")]
    RepeatedField,
    /// A number contains other characters than decimal digits.
    #[error("ill-formed number")]
    BadNumber,
    /// A number, a time or a coordinate is outside its range.
    #[error("out of range")]
    OutOfRange,
    /// A time isn't written as `yyyy-mm-ddThh:mm:ssZ`, or the calendar lacks its day.
    #[error("ill-formed time")]
    BadTime,
    /// A coordinate isn't written as a decimal with at most 7 decimals.
    #[error("ill-formed coordinate")]
    BadCoordinate,
    /// A text has a raw character that must be escaped, or a faulty escape.
    #[error("ill-formed text")]
    BadText,
    /// A list of tags, references or members isn't written as one.
    #[error("ill-formed list")]
    BadList,
    /// The object has no version, or version 0.
    #[error("no version")]
    NoVersion,
    /// The object has a changeset, a user id or a user name, but no time.
    #[error("author without a time")]
    NoTime,
    /// A visible node has no location.
    #[error("visible node without a location")]
    NoLocation,
    /// An allocation failed.
    #[error("out of memory")]
    Memory,
}

impl OplReason {
    /// The reason's name, which is that of its variant.
    pub fn name(&self) -> &'static str
        ensures { result.now ≡ opl_reason_name self.now }
    {
        match self {
            OplReason::NotUtf8 => "NotUtf8",
            OplReason::UnknownKind => "UnknownKind",
            OplReason::UnknownField => "UnknownField",
            OplReason::RepeatedField => "RepeatedField",
            OplReason::BadNumber => "BadNumber",
            OplReason::OutOfRange => "OutOfRange",
            OplReason::BadTime => "BadTime",
            OplReason::BadCoordinate => "BadCoordinate",
            OplReason::BadText => "BadText",
            OplReason::BadList => "BadList",
            OplReason::NoVersion => "NoVersion",
            OplReason::NoTime => "NoTime",
            OplReason::NoLocation => "NoLocation",
            OplReason::Memory => "Memory",
        }
    }
}

impl From<Memory> for OplReason {
    ghost use Rattle.opl_line.specs.declared.reason.OplReason.TheVariants as opl;

    ghost from_gives = { λ _ reason. reason ≡ opl.Memory };

    fn from(_want: Memory) -> OplReason {
        OplReason::Memory
    }
}

impl From<AllocError> for OplReason {
    ghost use Rattle.opl_line.specs.declared.reason.OplReason.TheVariants as opl;

    ghost from_gives = { λ _ reason. reason ≡ opl.Memory };

    fn from(_error: AllocError) -> OplReason {
        OplReason::Memory
    }
}

impl<T: Drop> From<AllocFailed<T>> for OplReason {
    ghost use Rattle.opl_line.specs.declared.reason.OplReason.TheVariants as opl;

    ghost from_gives = { λ _ reason. reason ≡ opl.Memory };

    fn from(_error: AllocFailed<T>) -> OplReason {
        OplReason::Memory
    }
}
