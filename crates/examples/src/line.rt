//! A caller of opl_line.
ghost use Rattle.std.specs.Prelude.{◌≡◌, true, IfOk, MatchOption};
ghost use Rattle.osm_model.specs.Data.{VersionData};
ghost use Rattle.osm_model.specs.Line.{line};
ghost use Rattle.opl_line.specs.Reading.{is_skipped};
ghost use Rattle.opl_line.specs.Spells.{Spells};

use opl_line::{OplReason, read_line, write_line};
use std::alloc::Global;

/// The canonical line of the version that a line spells, or `None` for a line that is skipped.
///
/// # Errors
///
/// The reason of the line's first fault, or `Memory`.
pub fn canonical(alloc: Global, text: &[u8]) -> Result<Option<Vec<u8>>, OplReason>
    ensures { IfOk result (λ written. MatchOption written
        (is_skipped text.now ≡ true)
        (λ bytes. (version : VersionData) × Spells text.now version × (bytes.items ≡ line version))) }
{
    let Some(version) = read_line(alloc, text)? else {
        return Ok(None);
    };
    Ok(Some(write_line(alloc, &version)?))
}
