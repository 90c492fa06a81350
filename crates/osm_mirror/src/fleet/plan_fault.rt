//! Why plans are refused.
ghost use Rattle.std.specs.Prelude.{◌≡◌};
ghost use Rattle.osm_mirror.specs.fleet.PlanFault.{plan_reason_name, fault_at};

use osm_model::Memory;
use std::alloc::{AllocError, AllocFailed};
use thiserror::Error;

/// The fault of a plan: the line, and the reason.
#[derive(Clone, Copy, Debug, PartialEq, Eq, Error)]
#[error("line {line}: {}", .reason.name())]
pub struct PlanFault {
    /// The number of the line, counted from 1 with the empty lines; 0 if the fault is of no line.
    pub line: u64,
    /// The reason for the refusal.
    pub reason: PlanReason,
}

impl PlanFault {
    /// The fault for `reason` at the line with the number `line`. Out of memory has the line 0.
    pub(crate) fn at(line: u64, reason: PlanReason) -> PlanFault
        ensures { result ≡ fault_at line reason }
    {
        match reason {
            PlanReason::Memory => PlanFault { line: 0, reason },
            _ => PlanFault { line, reason },
        }
    }
}

/// Why a plan is refused.
#[derive(Clone, Copy, Debug, PartialEq, Eq, Error)]
pub enum PlanReason {
    /// The text isn't UTF-8. The fault is of no line.
    #[error("not UTF-8")]
    NotUtf8,
    /// A line has an unknown first word, a wrong number of words, an empty word, or another word where a number or a
    /// format is required.
    #[error("ill-formed line")]
    BadWord,
    /// A mirror line comes after another line, or a step after a write line.
    #[error("line out of order")]
    BadOrder,
    /// A line names a mirror that no line before it has made.
    #[error("no such mirror")]
    NoMirror,
    /// Memory ran out. The fault is of no line.
    #[error("out of memory")]
    Memory,
}

impl PlanReason {
    /// The reason's name, which is that of its variant.
    pub fn name(&self) -> &'static str
        ensures { result.now ≡ plan_reason_name self.now }
    {
        match self {
            PlanReason::NotUtf8 => "NotUtf8",
            PlanReason::BadWord => "BadWord",
            PlanReason::BadOrder => "BadOrder",
            PlanReason::NoMirror => "NoMirror",
            PlanReason::Memory => "Memory",
        }
    }
}

impl From<AllocError> for PlanReason {
    ghost use Rattle.std.specs.Prelude.{◌≡◌};
    ghost use Rattle.osm_mirror.specs.declared.fleet.plan_fault.PlanReason.TheVariants as why;

    ghost from_gives = { λ _ reason. reason ≡ why.Memory };

    fn from(_error: AllocError) -> PlanReason {
        PlanReason::Memory
    }
}

impl<T: Drop> From<AllocFailed<T>> for PlanReason {
    ghost use Rattle.std.specs.Prelude.{◌≡◌};
    ghost use Rattle.osm_mirror.specs.declared.fleet.plan_fault.PlanReason.TheVariants as why;

    ghost from_gives = { λ _ reason. reason ≡ why.Memory };

    fn from(_error: AllocFailed<T>) -> PlanReason {
        PlanReason::Memory
    }
}

impl From<Memory> for PlanReason {
    ghost use Rattle.std.specs.Prelude.{◌≡◌};
    ghost use Rattle.osm_mirror.specs.declared.fleet.plan_fault.PlanReason.TheVariants as why;

    ghost from_gives = { λ _ reason. reason ≡ why.Memory };

    fn from(_error: Memory) -> PlanReason {
        PlanReason::Memory
    }
}
