//! Versions with their offsets.
use osm_model::Version;

/// A version, and the offset of its unit in the file: of its line's first byte, or of the type byte of its data set.
#[derive(Drop)]
pub(crate) struct Placed {
    pub(crate) offset: u64,
    pub(crate) version: Version,
}
