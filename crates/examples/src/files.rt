//! A caller of osm_files.
ghost use Rattle.std.specs.Prelude.{◌≡◌, IfOk};
ghost use Rattle.osm_model.specs.VersionSet.{VersionSet};
ghost use Rattle.osm_files.specs.Held.{Holds};
ghost use Rattle.osm_files.specs.Spell.{spell};
ghost use Rattle.osm_files.specs.declared.format.Format.TheVariants as format;

use osm_files::{Fault, Format, SliceIn, VecOut, load_any, write_history};
use std::alloc::Global;

/// The one o5m file of a file, which may be of any format and in any order.
///
/// # Errors
///
/// The first fault of the file, which has the number 0; `TooLong` of the output, which has the number 1; or `Memory`.
pub fn to_o5m(alloc: Global, file: &[u8]) -> Result<Vec<u8>, Fault>
    ensures { IfOk result (λ written. (held : VersionSet) × Holds file.now held ×
        (written.items ≡ spell format.O5m held)) }
{
    let loaded = load_any(alloc, 0, SliceIn::new(file))?;
    let mut output = VecOut::new(alloc);
    write_history(alloc, 1, Format::O5m, &loaded.history, &mut output)?;
    Ok(output.into_vec())
}
