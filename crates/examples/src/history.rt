//! A caller of osm_model.
ghost use Rattle.std.specs.Prelude.{◌≡◌, ◌∷◌, [], IfOk};
ghost use Rattle.osm_model.specs.Sets as set;

use osm_model::{History, Memory, Version};
use std::alloc::Global;

/// The history with one more version. If it holds the version already, it is the same set.
///
/// # Errors
///
/// Only out of memory.
pub fn with_version(alloc: Global, history: &History, version: Version) -> Result<History, Memory>
    ensures { IfOk result (λ more. more ≡ set.union history.now (set.from_list (version ∷ []))) }
{
    let mut versions = Vec::new(alloc);
    versions.push(version)?;
    history.join(&History::from_versions(versions)?)
}
