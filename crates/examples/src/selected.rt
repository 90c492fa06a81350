//! A caller of osm_merge.
ghost use Rattle.std.specs.Prelude.{◌≡◌, IfOk};
ghost use Rattle.osm_merge.specs.Selected as set;

use osm_merge::{snapshot, visible};
use osm_model::{History, Memory};
use std::alloc::Global;

/// The map of today: the newest version of each object, without the objects that were deleted.
///
/// # Errors
///
/// Only out of memory.
pub fn visible_map(alloc: Global, history: &History) -> Result<History, Memory>
    ensures { IfOk result (λ map. map ≡ set.visible (set.snapshot history.now)) }
{
    visible(alloc, &snapshot(alloc, history)?)
}
