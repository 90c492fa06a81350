//! The members of relations.
ghost use Rattle.std.specs.Prelude.{◌≡◌};
ghost use Rattle.std.specs.List.{list_all};
ghost use Rattle.osm_model.specs.Id.{is_id};
ghost use Rattle.osm_model.specs.Text.{is_text};
ghost use Rattle.osm_model.specs.Members.{ids_of_members, roles_of};

use crate::id::is_id;
use crate::items::{Item, ItemList};
use crate::same::Same;
use crate::{Kind, Memory, Text};

/// A member of a relation.
#[derive(Debug, Drop)]
pub struct Member {
    /// What the member is: a node, a way or a relation.
    pub kind: Kind,
    /// The id, which `Version::new` tests ([`is_id`](crate::is_id)).
    pub id: i64,
    /// The role of the object in the relation; may be empty.
    pub role: Text,
}

impl Item for Member {
    fn copy(&self) -> Result<Member, Memory> {
        Ok(Member {
            kind: self.kind,
            id: self.id,
            role: self.role.copy()?,
        })
    }
}

/// The members of a relation in their order.
pub type Members = ItemList<Member>;

/// Whether each member has an id in the range of ids.
pub(crate) fn have_ids(members: &[Member]) -> bool
    ensures { result ≡ list_all is_id (ids_of_members members.now) }
{
    members.iter().all(|member| is_id(member.id))
}

/// Whether no role holds the character U+0000.
pub(crate) fn have_texts(members: &[Member]) -> bool
    ensures { result ≡ list_all is_text (roles_of members.now) }
{
    members.iter().all(|member| member.role.is_text())
}

impl Same for Member {
    fn is_same(&self, other: &Member) -> bool {
        self.kind == other.kind && self.id == other.id && self.role.is_same(&other.role)
    }
}
