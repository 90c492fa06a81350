//! Why a version can't be written.
use osm_model::Memory;
use thiserror::Error;

/// Why an encoder doesn't write a version.
#[derive(Clone, Copy, Debug, PartialEq, Eq, Error)]
pub enum EncodeFault {
    /// An allocation failed.
    #[error("out of memory")]
    Memory,
    /// An earlier version ran out of memory.
    #[error("failed before")]
    Failed,
}

impl From<Memory> for EncodeFault {
    ghost use Rattle.std.specs.Prelude.{◌≡◌};
    ghost use Rattle.o5_codec.specs.declared.fault.EncodeFault.TheVariants as fault;

    ghost from_gives = { λ _ e. e ≡ fault.Memory };

    fn from(_error: Memory) -> EncodeFault {
        EncodeFault::Memory
    }
}
