//! The snapshot of a history that isn't needed any more.
ghost use Rattle.std.specs.Prelude.{◌≡◌, ◌+◌, ◌<◌, length, slice_get, slice_index_or};
ghost use Rattle.osm_model.specs.Data.{VersionData};
ghost use Rattle.osm_merge.specs.declared.selection.Selection.TheVariants as selection;
ghost use Rattle.osm_merge.specs.Selected as set;
ghost use Rattle.osm_merge.specs.Pass.{keeps};

use crate::selection::{Selection, keeps};
use osm_model::{History, Version};

/// The newest version of each object of `history`, deletions too. The function allocates no memory: the versions that
/// stay are moved, and the others are dropped.
pub fn into_snapshot(history: History) -> History
    ensures { result ≡ set.snapshot history }
{
    let mut versions = history.into_versions();
    let mut kept = 0;
    'versions: for index in 0..versions.len() {
        if is_newest(&versions, index) {
            versions.swap(kept, index);
            kept += 1;
        }
    }
    versions.truncate(kept);
    History::from_ascending(versions)
}

/// Whether the version at `index` of an ascending list is the newest one of its object: the next version, if there is
/// one, is of another object.
fn is_newest(versions: &[Version], index: usize) -> bool
    requires { index < length versions.now }
    ensures { (d : VersionData) → result
        ≡ keeps selection.Newest (slice_index_or versions.now index d) (slice_get versions.now (index + 1)) }
{
    match versions.get(index + 1) {
        None => true,
        Some(next) => keeps(Selection::Newest, &versions[index], next),
    }
}
