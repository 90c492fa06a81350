//! Sorted runs: parts of a file that are files of their own, and the offsets at which a file may be split into them.
ghost use Rattle.std.specs.Prelude.{◌≡◌, ◌^◌, ◌<◌, ℕ, List, length, IfSome, if◌then◌else◌};
ghost use Rattle.osm_files.specs.SortedRun as spec;

use crate::o5::{FILE_END, O5M_HEADER};
use o5_codec::SEGMENT_RESET;

/// The header that is read before a part without one.
const HEADER_BYTES: &[u8] = &O5M_HEADER;

/// The end byte that is read after a part without one.
const END_BYTES: &[u8] = &[FILE_END];

/// No bytes: they are read before a part that lacks no header, and after a part that lacks no end.
const NOTHING: &[u8] = b"";

/// A part of a file that is read as a file of its own. A header is read before a part that lacks one, and the end byte
/// after a part that lacks it.
#[derive(Clone, Copy, Debug, PartialEq, Eq)]
pub struct SortedRun {
    /// The offset in the file of the part's first byte.
    pub start: u64,
    /// The most bytes of the file that the part has. The file may end earlier.
    pub size: u64,
    /// The part begins after a reset, so a header is read before it.
    pub lacks_header: bool,
    /// The part ends before a reset, so the end byte is read after it.
    pub lacks_end: bool,
}

/// The bytes of a file that determine whether a run of it may be split at an offset. Each is `None` if the file has no
/// byte there.
#[derive(Clone, Copy, Debug, PartialEq, Eq)]
pub struct BytesAtSplit {
    /// The byte at the run's start.
    pub first: Option<u8>,
    /// The byte before the offset.
    pub before: Option<u8>,
    /// The byte at the offset.
    pub at: Option<u8>,
}

impl SortedRun {
    /// The whole file.
    pub fn whole() -> SortedRun
        ensures whole { result ≡ spec.whole_run }
        ensures bytes { (file : List ℕ) → length file < 2 ^ 64 → spec.run_bytes result file ≡ file }
    {
        SortedRun {
            start: 0,
            size: u64::MAX,
            lacks_header: false,
            lacks_end: false,
        }
    }

    /// The bytes read before the part of the file: a header or nothing. The header is that of o5m in o5c files, too,
    /// since both are read in the same way.
    pub fn bytes_before(self) -> &'static [u8]
        ensures { result.now ≡ spec.bytes_before self }
    {
        if self.lacks_header {
            HEADER_BYTES
        } else {
            NOTHING
        }
    }

    /// The bytes read after the part of the file: the end byte or nothing.
    pub fn bytes_after(self) -> &'static [u8]
        ensures { result.now ≡ spec.bytes_after self }
    {
        if self.lacks_end { END_BYTES } else { NOTHING }
    }

    /// The offset in the file of the byte at `offset` in the run, at most `u64::MAX`. For a byte of the header that is
    /// read before the part, it is the part's start.
    pub fn offset_in_file(self, offset: u64) -> u64
        ensures { result ≡ spec.offset_in_file self offset }
    {
        let read = offset.saturating_sub(self.bytes_before().len() as u64);
        self.start.saturating_add(read)
    }

    /// Splits the run before the byte at `offset` of the file, and returns the front and the rest; `None` if it can't
    /// be split there, which `bytes` determine.
    ///
    /// OPL is split after the end of a line. The rest must not begin with `ff`, since it would be read as o5. o5 is
    /// split after a reset; in the front, the end byte replaces the reset.
    ///
    /// `bytes` don't determine whether a byte `ff` of o5 is a reset. It may be within a data set, or the last byte of
    /// one that is skipped. It is a reset if the front can be read as a file. So the caller reads the front before it
    /// uses the two runs.
    pub fn split(self, offset: u64, bytes: BytesAtSplit) -> Option<(SortedRun, SortedRun)>
        ensures value { result ≡ spec.split_run self offset bytes }
        ensures split { IfSome result (λ two. (file : List ℕ) → spec.HasBytes file self.start offset bytes
            → spec.IsSplit (spec.run_bytes two.0 file) (spec.run_bytes two.1 file) (spec.run_bytes self file)) }
    {
        let is_o5 = self.is_o5(bytes);
        if !self.is_within(offset, bytes) || !self.splits_as(is_o5, offset, bytes) {
            return None;
        }
        let size = offset - self.start;
        let front = SortedRun {
            start: self.start,
            size: size - u64::from(is_o5),
            lacks_header: self.lacks_header,
            lacks_end: is_o5,
        };
        let rest = SortedRun {
            start: offset,
            size: self.size - size,
            lacks_header: is_o5,
            lacks_end: self.lacks_end,
        };
        Some((front, rest))
    }

    /// Whether the run is an o5 file.
    fn is_o5(self, bytes: BytesAtSplit) -> bool
        ensures { result ≡ spec.is_o5_run self bytes }
    {
        self.lacks_header || is_reset(bytes.first)
    }

    /// Whether the offset is within the run, after its start, and the file has a byte there.
    fn is_within(self, offset: u64, bytes: BytesAtSplit) -> bool
        ensures { result ≡ spec.is_within self offset bytes }
    {
        self.start < offset && offset - self.start < self.size && bytes.at.is_some()
    }

    /// Whether the grammar allows a split at `offset`: that of o5 if `is_o5` is set, else that of OPL.
    fn splits_as(self, is_o5: bool, offset: u64, bytes: BytesAtSplit) -> bool
        requires after { self.start < offset }
        ensures { result ≡ (if is_o5 then spec.splits_o5 self offset bytes else spec.splits_opl bytes) }
    {
        if is_o5 {
            offset - self.start > 1 && is_reset(bytes.before)
        } else {
            ends_line(bytes.before) && !is_reset(bytes.at)
        }
    }
}

/// Whether the byte is a reset.
fn is_reset(byte: Option<u8>) -> bool
    ensures { result ≡ spec.is_reset byte }
{
    match byte {
        Some(byte) => byte == SEGMENT_RESET,
        None => false,
    }
}

/// Whether the byte ends a line.
fn ends_line(byte: Option<u8>) -> bool
    ensures { result ≡ spec.ends_line byte }
{
    match byte {
        Some(byte) => byte == b'\n' || byte == b'\r',
        None => false,
    }
}

#[cfg(test)]
mod tests;
