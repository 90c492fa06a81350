//! Objects, keys of versions, and their orders.
ghost use Rattle.std.specs.Prelude.{◌≡◌};
ghost use Rattle.osm_model.specs.Order.{object_of, object_order, key_of, key_order};

use crate::{Kind, Version};
use std::cmp::Ordering;

/// An object: its kind and its id. Versions with the same kind and id are versions of one object.
#[derive(Clone, Copy, Debug, PartialEq, Eq)]
pub struct Object {
    /// What the object is: a node, a way or a relation.
    pub kind: Kind,
    /// The id, which other kinds of objects may have, too.
    pub id: i64,
}

impl Object {
    /// The object of a version.
    #[inline(always)]
    pub fn of(version: &Version) -> Object
        ensures { result ≡ object_of version.now }
    {
        Object {
            kind: version.kind(),
            id: version.id(),
        }
    }

    /// The order of objects: the kind; then ids up to 0 before ids above 0; then the absolute value of the id.
    #[inline(always)]
    pub fn order(&self, other: &Object) -> Ordering
        ensures { result ≡ object_order self.now other.now }
    {
        let kind = self.kind.index().cmp(&other.kind.index());
        if kind != Ordering::Equal {
            return kind;
        }
        if self.id > 0 && other.id > 0 {
            return self.id.cmp(&other.id);
        }
        let positive = (self.id > 0).cmp(&(other.id > 0));
        if positive != Ordering::Equal {
            return positive;
        }
        self.id.unsigned_abs().cmp(&other.id.unsigned_abs())
    }
}

/// The key of a version: its object and its version number.
#[derive(Clone, Copy, Debug, PartialEq, Eq)]
pub struct Key {
    /// The object of which the version is one.
    pub object: Object,
    /// The version number; that of a version is 1 to 4294967295.
    pub number: u64,
}

impl Key {
    /// The key of a version.
    #[inline(always)]
    pub fn of(version: &Version) -> Key
        ensures { result ≡ key_of version.now }
    {
        Key {
            object: Object::of(version),
            number: version.number(),
        }
    }

    /// The order of keys: the object, then the version number.
    #[inline(always)]
    pub fn order(&self, other: &Key) -> Ordering
        ensures { result ≡ key_order self.now other.now }
    {
        let object = self.object.order(&other.object);
        if object != Ordering::Equal {
            return object;
        }
        self.number.cmp(&other.number)
    }
}
