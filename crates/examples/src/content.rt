//! A caller of o5_codec.
ghost use Rattle.std.specs.Prelude.{◌≡◌, ◌⊎◌, IfOk, IfErr};
ghost use Rattle.o5_codec.specs.Decoder.{new_segment};
ghost use Rattle.o5_codec.specs.Refusal.{SetReason};
ghost use Rattle.o5_codec.specs.Spelling.{SpellsSet};
ghost use Rattle.o5_codec.specs.declared.reason.O5Reason.TheVariants as o5;

use o5_codec::{Decoder, O5Reason};
use osm_model::{Kind, Version};
use std::alloc::Global;

/// The version that the first data set of a file spells, of this kind and with this content, and the decoder for the
/// next.
///
/// # Errors
///
/// The reason of the first step that can't be done, or `Memory`.
pub fn first_version(
    alloc: Global,
    kind: Kind,
    content: &[u8],
) -> Result<(Version, Decoder), O5Reason>
    ensures spelled { IfOk result (λ read. SpellsSet kind new_segment content.now (read.0, read.1.segment)) }
    ensures refused { IfErr result (λ reason. (reason ≡ o5.Memory) ⊎ SetReason kind new_segment content.now reason) }
{
    let mut decoder = Decoder::new(alloc)?;
    match decoder.read_set(kind, content) {
        Ok(version) => Ok((version, decoder)),
        Err(reason) => Err(reason),
    }
}
