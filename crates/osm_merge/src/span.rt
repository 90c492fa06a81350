//! Spans of objects.
ghost use Rattle.std.specs.Prelude.{◌≡◌, ◌&&◌};
ghost use Rattle.osm_merge.specs.Slice.{reaches, is_under, is_within, is_ascending};

use osm_model::{Object, Version};

/// The objects of a slice: from a lower bound (inclusive) to an upper bound (exclusive). `None` is no bound.
#[derive(Clone, Copy, Debug, PartialEq, Eq)]
pub struct Span {
    pub from: Option<Object>,
    pub to: Option<Object>,
}

impl Span {
    /// Whether the object of a version isn't below the lower bound.
    #[inline(always)]
    pub fn reaches(&self, version: &Version) -> bool
        ensures { result ≡ reaches self.now.from version.now }
    {
        match self.from {
            None => true,
            Some(bound) => !Object::of(version).order(&bound).is_lt(),
        }
    }

    /// Whether the object of a version is below the upper bound.
    #[inline(always)]
    pub fn is_under(&self, version: &Version) -> bool
        ensures { result ≡ is_under self.now.to version.now }
    {
        match self.to {
            None => true,
            Some(bound) => Object::of(version).order(&bound).is_lt(),
        }
    }

    /// Whether the object of a version is within the bounds.
    #[inline(always)]
    pub fn contains(&self, version: &Version) -> bool
        ensures { result ≡ is_within self.now.from self.now.to version.now }
    {
        self.reaches(version) && self.is_under(version)
    }

    /// Whether the upper bound isn't below the lower one. A span with one bound or none ascends.
    pub fn is_ascending(&self) -> bool
        ensures { result ≡ is_ascending self.now }
    {
        match (self.from, self.to) {
            (Some(from), Some(to)) => !to.order(&from).is_lt(),
            _ => true,
        }
    }
}
