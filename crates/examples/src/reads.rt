//! A caller of osm_mirror, for whatever the reads of files returned.
ghost use Rattle.std.specs.Prelude.{◌≡◌, List, map, IfOk};
ghost use Rattle.osm_model.specs.VersionSet.{VersionSet};
ghost use Rattle.osm_model.specs.Pairwise.{Pairwise};
ghost use Rattle.osm_files.specs.Recorded.{given_by};
ghost use Rattle.osm_files.specs.Spell.{spell};
ghost use Rattle.osm_files.specs.declared.format.Format.TheVariants as format;
ghost use Rattle.osm_mirror.specs.run.Merge.{GivesSorted};
ghost use Rattle.osm_mirror.specs.run.Job.{union_of};

use osm_files::{Fault, Format, Recorded, VecOut};
use osm_mirror::run_merge;
use std::alloc::Global;

/// The one OPL file of sorted files, from the results of all reads of each.
///
/// If it returns `Ok`, no read of a file failed before the end of the file. Its bytes, up to the first read that gave
/// none, are a sorted file, in whatever pieces they came.
///
/// # Errors
///
/// A fault of a file, by its index in the list; of the output, by the length of the list; or `Memory`.
pub fn one_file_of_reads(alloc: Global, files: Vec<Recorded<'_>>) -> Result<Vec<u8>, Fault>
    ensures { IfOk result (λ file. (held : List VersionSet)
        × Pairwise GivesSorted (map given_by files.entry.items) held
        × (file.items ≡ spell format.Opl (union_of held))) }
{
    let mut output = VecOut::new(alloc);
    run_merge(alloc, files, Format::Opl, &mut output)?;
    Ok(output.into_vec())
}
