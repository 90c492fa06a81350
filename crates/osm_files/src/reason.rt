//! Why a file is refused.
ghost use Rattle.std.specs.Prelude.{◌≡◌};
ghost use Rattle.osm_files.specs.Reason.{reason_name};

use o5_codec::O5Reason;
use opl_line::OplReason;
use osm_model::Memory;
use thiserror::Error;

/// Why a file, or a call that reads or writes one, is refused.
#[derive(Clone, Copy, Debug, PartialEq, Eq, Error)]
pub enum Reason {
    /// A line of an OPL file can't be read. The inner reason is never `Memory`.
    #[error("{0}")]
    Opl(OplReason),
    /// A data set of an o5m or o5c file can't be read. The inner reason is never `Memory` or `Failed`.
    #[error("{0}")]
    O5(O5Reason),
    /// The file doesn't begin as its format requires.
    #[error("bad header")]
    BadHeader,
    /// The file isn't sorted: a version's key is below the key of the version before it.
    #[error("unsorted")]
    Unsorted,
    /// The file ends without the mark of its end.
    #[error("no end mark")]
    NoEnd,
    /// Bytes follow the mark of the file's end.
    #[error("bytes after the end mark")]
    AfterEnd,
    /// The file has 2^62 bytes or more.
    #[error("too long")]
    TooLong,
    /// The reader returned an error.
    #[error("read failed")]
    ReadFault,
    /// The writer returned an error, or took no byte of a slice that isn't empty.
    #[error("write failed")]
    WriteFault,
    /// Memory ran out.
    #[error("out of memory")]
    Memory,
    /// An earlier call was refused.
    #[error("failed before")]
    Failed,
}

impl Reason {
    /// The reason's name: the name of its variant, or the name of the inner reason of `Opl` and `O5`.
    pub fn name(&self) -> &'static str
        ensures { result.now ≡ reason_name self.now }
    {
        match self {
            Reason::Opl(reason) => reason.name(),
            Reason::O5(reason) => reason.name(),
            Reason::BadHeader => "BadHeader",
            Reason::Unsorted => "Unsorted",
            Reason::NoEnd => "NoEnd",
            Reason::AfterEnd => "AfterEnd",
            Reason::TooLong => "TooLong",
            Reason::ReadFault => "ReadFault",
            Reason::WriteFault => "WriteFault",
            Reason::Memory => "Memory",
            Reason::Failed => "Failed",
        }
    }
}

impl From<OplReason> for Reason {
    ghost use Rattle.std.specs.Prelude.{◌≡◌};
    ghost use Rattle.osm_files.specs.Reason.{of_line};

    ghost from_gives = { λ inner outer. outer ≡ of_line inner };

    /// `OplReason::Memory` becomes `Reason::Memory`.
    fn from(reason: OplReason) -> Reason {
        match reason {
            OplReason::Memory => Reason::Memory,
            _ => Reason::Opl(reason),
        }
    }
}

impl From<O5Reason> for Reason {
    ghost use Rattle.std.specs.Prelude.{◌≡◌};
    ghost use Rattle.osm_files.specs.Reason.{of_data_set};

    ghost from_gives = { λ inner outer. outer ≡ of_data_set inner };

    /// `O5Reason::Memory` and `O5Reason::Failed` become `Reason::Memory` and `Reason::Failed`.
    fn from(reason: O5Reason) -> Reason {
        match reason {
            O5Reason::Memory => Reason::Memory,
            O5Reason::Failed => Reason::Failed,
            _ => Reason::O5(reason),
        }
    }
}

impl From<Memory> for Reason {
    ghost use Rattle.std.specs.Prelude.{◌≡◌};
    ghost use Rattle.osm_files.specs.declared.reason.Reason.TheVariants.{Memory};

    ghost from_gives = { λ _ reason. reason ≡ Memory };

    fn from(_error: Memory) -> Reason {
        Reason::Memory
    }
}
