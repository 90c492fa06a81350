//! The tally of clashes: keys with a visible and a deleted version.
//!
//! A merge takes versions in their order, so the versions of a key are adjacent. By the order, a deleted version may
//! come before or after a visible one of its key: the time is compared first.
ghost use Rattle.std.specs.Prelude.{◌≡◌};
ghost use Rattle.osm_merge.specs.ClashTally.{no_clashes, is_at, with_version, tally_after};

use osm_model::{Key, Version};

/// The number of clashes among the versions taken so far.
#[derive(Clone, Copy)]
pub(crate) struct ClashTally {
    /// The key of the version taken last; none before a version is taken.
    key: Option<Key>,
    /// Whether a visible version of this key was taken.
    has_visible: bool,
    /// Whether a deleted version of this key was taken.
    has_deletion: bool,
    /// The number of clashes.
    pub(crate) count: u64,
}

impl ClashTally {
    /// The tally before a version is taken.
    pub(crate) fn new() -> ClashTally
        ensures { result ≡ no_clashes }
    {
        ClashTally {
            key: None,
            has_visible: false,
            has_deletion: false,
            count: 0,
        }
    }

    /// Counts the next version, which may repeat the one before it.
    #[inline(always)]
    pub(crate) fn see(&mut self, version: &Version)
        ensures { self.new ≡ tally_after self.old version.now }
    {
        let key = Key::of(version);
        let deleted = version.body().is_deleted();
        if self.is_at(key) {
            self.add(deleted);
        } else {
            self.key = Some(key);
            self.has_visible = !deleted;
            self.has_deletion = deleted;
        }
    }

    /// Whether the version taken last has this key.
    #[inline(always)]
    fn is_at(&self, key: Key) -> bool
        ensures { result ≡ is_at self.now.key key }
    {
        match self.key {
            None => false,
            Some(last) => last == key,
        }
    }

    /// Adds a version of the key of the version taken last.
    fn add(&mut self, deleted: bool)
        ensures { self.new ≡ with_version self.old deleted }
    {
        let was_clash = self.has_visible && self.has_deletion;
        self.has_visible = self.has_visible || !deleted;
        self.has_deletion = self.has_deletion || deleted;
        if !was_clash && self.has_visible && self.has_deletion {
            self.count = self.count.saturating_add(1);
        }
    }
}
