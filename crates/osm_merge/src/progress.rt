//! Observers of a run.
use osm_model::Version;

/// How a version that was read relates to the version before it in the order.
#[derive(Clone, Copy, Debug, PartialEq, Eq)]
pub enum Relation {
    /// It has another key, or there is none before it.
    OtherKey,
    /// It has the same key and other data.
    OtherData,
    /// It repeats the version before it, or the selection passes over it.
    Dropped,
}

/// Observes a run, and changes nothing.
pub trait Progress {
    /// Is called before a run reads its inputs, and again if the run begins anew. What was read and written before
    /// doesn't count then. A merge doesn't call it.
    fn begin(&mut self);

    /// Is called after each version that is read, in their order. `relation` compares it with the version before it
    /// that wasn't dropped.
    fn read(&mut self, version: &Version, relation: Relation);

    /// Is called after each version that is written.
    fn written(&mut self, version: &Version);
}

/// No observer.
#[derive(Clone, Copy, Debug)]
pub struct NoProgress;

impl Progress for NoProgress {
    #[inline(always)]
    fn begin(&mut self) {}

    #[inline(always)]
    fn read(&mut self, _version: &Version, _relation: Relation) {}

    #[inline(always)]
    fn written(&mut self, _version: &Version) {}
}
