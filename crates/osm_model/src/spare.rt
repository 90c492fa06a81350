//! Memory of versions that are not needed any more. Later versions are made in it. A long list of which less than a
//! quarter was used is freed.
ghost use Rattle.std.specs.Prelude.{◌≡◌, []};

use crate::{Body, Member, Tag, Version};
use std::alloc::Global;
use std::marker::Model;
use std::mem;

/// The memory of versions that aren't needed any more: one version and three lists. A reader makes the next version in
/// it, and allocates only if that version needs more.
#[derive(Drop)]
pub struct Spare {
    version: Option<Version>,
    references: Vec<i64>,
    members: Vec<Member>,
    tags: Vec<Tag>,
}

/// A version made in used memory equals one made in new memory, so contracts see nothing of a `Spare`.
impl Model for Spare {
    ghost Value = { Unit {0} };

    ghost view = { λ _. tt };
}

impl Spare {
    /// Keeps nothing yet, and allocates nothing.
    pub fn new(alloc: Global) -> Spare {
        Spare {
            version: None,
            references: Vec::new(alloc),
            members: Vec::new(alloc),
            tags: Vec::new(alloc),
        }
    }

    /// Keeps a version that isn't needed any more. The version kept before is dropped.
    #[inline(always)]
    pub fn put(&mut self, mut version: Version) {
        if version.body().has_memory() {
            self.put_lists(&mut version);
        }
        self.version = Some(version);
    }

    #[inline(never)]
    fn put_lists(&mut self, version: &mut Version) {
        match version.take_body() {
            Body::Deleted(_) => {}
            Body::Node { tags, .. } => keep(&mut self.tags, tags.into_vec()),
            Body::Way { refs, tags } => {
                keep(&mut self.references, refs.into_vec());
                keep(&mut self.tags, tags.into_vec());
            }
            Body::Relation { members, tags } => {
                keep(&mut self.members, members.into_vec());
                keep(&mut self.tags, tags.into_vec());
            }
        }
    }

    #[inline(always)]
    pub(crate) fn take_version(&mut self) -> Option<Version> {
        self.version.take()
    }

    /// An empty list of references, in memory that was kept if there is some.
    #[inline(always)]
    pub fn take_references(&mut self) -> Vec<i64>
        ensures { result.items ≡ [] }
    {
        take(&mut self.references)
    }

    /// An empty list of members, in memory that was kept if there is some.
    #[inline(always)]
    pub fn take_members(&mut self) -> Vec<Member>
        ensures { result.items ≡ [] }
    {
        take(&mut self.members)
    }

    /// An empty list of tags, in memory that was kept if there is some.
    #[inline(always)]
    pub fn take_tags(&mut self) -> Vec<Tag>
        ensures { result.items ≡ [] }
    {
        take(&mut self.tags)
    }
}

/// A list with memory for at most 1024 items is kept, however few it holds.
const SMALL_LIST: usize = 1024;

/// Replaces `kept` by `list`, if `list` has memory, but not far more than it needs.
#[inline(always)]
fn keep<T: Drop>(kept: &mut Vec<T>, list: Vec<T>) {
    if list.capacity() > 0 && !is_oversized(list.capacity(), list.len()) {
        *kept = list;
    }
}

/// Whether less than a quarter of a long list's memory is used. Such a list is dropped: otherwise each reader would
/// hold the memory of the largest version that it ever read.
#[inline(always)]
fn is_oversized(capacity: usize, len: usize) -> bool {
    capacity > SMALL_LIST && len < capacity / 4
}

/// Takes the list out of `kept`, and empties it.
#[inline(always)]
fn take<T: Drop>(kept: &mut Vec<T>) -> Vec<T>
    ensures { result.items ≡ [] }
{
    let alloc = *kept.allocator();
    let mut list = mem::replace(kept, Vec::new(alloc));
    list.clear();
    list
}
