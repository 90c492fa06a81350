//! The references of ways.
ghost use Rattle.std.specs.Prelude.{◌≡◌};
ghost use Rattle.std.specs.List.{list_all};
ghost use Rattle.osm_model.specs.Id.{is_id};

use crate::Memory;
use crate::id::is_id;
use crate::items::{Item, ItemList};
use crate::same::Same;

/// The ids of the nodes of a way in their order.
pub type References = ItemList<i64>;

/// Whether each reference is an id.
pub(crate) fn are_ids(references: &[i64]) -> bool
    ensures { result ≡ list_all is_id references.now }
{
    references.iter().all(|id| is_id(*id))
}

impl Item for i64 {
    fn copy(&self) -> Result<i64, Memory> {
        Ok(*self)
    }
}

impl Same for i64 {
    fn is_same(&self, other: &i64) -> bool {
        self == other
    }
}
