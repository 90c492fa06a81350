//! A caller of osm_mirror.
ghost use Rattle.std.specs.Prelude.{◌≡◌, List, map, IfOk};
ghost use Rattle.osm_model.specs.VersionSet.{VersionSet};
ghost use Rattle.osm_model.specs.Pairwise.{Pairwise};
ghost use Rattle.osm_files.specs.Held.{HoldsSorted};
ghost use Rattle.osm_files.specs.Spell.{spell};
ghost use Rattle.osm_files.specs.declared.format.Format.TheVariants as format;
ghost use Rattle.osm_mirror.specs.run.Job.{union_of};

use osm_files::{Fault, Format, SliceIn, VecOut};
use osm_mirror::run_merge;
use std::alloc::{AllocError, Global};

/// The one OPL file of sorted files in memory.
///
/// # Errors
///
/// A fault of a file, by its index in the list; of the output, by the length of the list; or `Memory`.
pub fn one_file(alloc: Global, files: &[&[u8]]) -> Result<Vec<u8>, Fault>
    ensures { IfOk result (λ file. (held : List VersionSet)
        × Pairwise HoldsSorted (map (λ f. f.now) files.now) held
        × (file.items ≡ spell format.Opl (union_of held))) }
{
    let inputs = inputs_of(alloc, files)?;
    let mut output = VecOut::new(alloc);
    run_merge(alloc, inputs, Format::Opl, &mut output)?;
    Ok(output.into_vec())
}

/// The files as inputs.
fn inputs_of<'a>(alloc: Global, files: &[&'a [u8]]) -> Result<Vec<SliceIn<'a>>, AllocError>
    ensures { IfOk result (λ inputs. inputs.items ≡ map (λ f. f.now) files.now) }
{
    let mut inputs = Vec::new(alloc);
    for file in files {
        inputs.push(SliceIn::new(*file))?;
    }
    Ok(inputs)
}
