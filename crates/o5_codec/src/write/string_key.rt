//! The strings that the writer appends, borrowed from the parts of a version.
use osm_model::{Kind, Tag, Text};

/// The strings of a user, of a tag or of a member. Contracts see the entry that has them.
#[derive(Clone, Copy)]
pub(crate) enum StringKey<'a> {
    User { uid: u64, name: &'a [u8] },
    Tag { key: &'a [u8], value: &'a [u8] },
    Member { kind: Kind, role: &'a [u8] },
}

impl<'a> StringKey<'a> {
    ghost use Rattle.std.specs.Prelude.{◌≡◌};
    ghost use Rattle.o5_codec.specs.Writing.{user_entry, tag_entry, member_entry};
    ghost use Rattle.o5_codec.specs.StringKey.{formed_of};

    #[inline(always)]
    pub(crate) fn of_user(uid: u64, user: &'a Text) -> StringKey<'a>
        ensures { formed_of result ≡ user_entry uid user.now }
    {
        let name = user.as_str().as_bytes();
        StringKey::User { uid, name }
    }

    #[inline(always)]
    pub(crate) fn of_tag(tag: &'a Tag) -> StringKey<'a>
        ensures { formed_of result ≡ tag_entry tag.now }
    {
        let (key, value) = (tag.key.as_str().as_bytes(), tag.value.as_str().as_bytes());
        StringKey::Tag { key, value }
    }

    /// The single string of a member: its kind's digit, and its role.
    #[inline(always)]
    pub(crate) fn of_member(kind: Kind, role: &'a Text) -> StringKey<'a>
        ensures { formed_of result ≡ member_entry kind role.now }
    {
        let role = role.as_str().as_bytes();
        StringKey::Member { kind, role }
    }
}
