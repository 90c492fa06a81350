//! The versions that a mirror keeps, and the size of a file that it took.

/// The versions that a mirror keeps of those that reach it.
#[derive(Clone, Copy, Debug, PartialEq, Eq)]
pub enum Keep {
    /// All versions: the whole history.
    Full,
    /// The newest version of each object, deletions too: the snapshot.
    Latest,
}

/// The size of a file that a mirror took. A number above 2^64 - 1 is given as 2^64 - 1.
#[derive(Clone, Copy, Debug, PartialEq, Eq)]
pub struct Taken {
    /// The number of the file's versions, each counted once, even if the mirror held them before.
    pub versions: u64,
}
