//! Short texts of which each character is written raw: at most 24 bytes. One copy appends such a text to a line.
ghost use Rattle.std.specs.Prelude.{◌≡◌, ◌≤◌, length};
ghost use Rattle.osm_model.specs.Escape.{IsPlain};

use arrayvec::ArrayString;

/// The greatest number of bytes of a text without memory of its own. Most user names, keys and values have fewer.
pub(crate) const INLINE_TEXT_BYTES: usize = 24;

/// A short text whose characters are all written as themselves, so a line has the same bytes.
#[derive(Debug, Clone, Copy)]
pub(crate) struct PlainString {
    string: ArrayString<INLINE_TEXT_BYTES>,
    ghost plain: { IsPlain string.bytes },
}

impl PlainString {
    /// A string each of whose characters is written as itself.
    #[inline(always)]
    pub(crate) fn new(string: ArrayString<INLINE_TEXT_BYTES>) -> PlainString
        requires { IsPlain string.bytes }
        ensures { result.string.bytes ≡ string.bytes }
    {
        PlainString { string }
    }

    /// The text as a slice.
    #[inline(always)]
    pub(crate) fn as_str(&self) -> &str
        ensures bytes { result.now ≡ self.now.string.bytes }
        ensures plain { IsPlain result.now }
        ensures short { length result.now ≤ 24 }
    {
        self.string.as_str()
    }

    /// The text as a string, without the mark that it is plain.
    #[inline(always)]
    pub(crate) fn string(&self) -> ArrayString<INLINE_TEXT_BYTES>
        ensures { result.bytes ≡ self.now.string.bytes }
    {
        self.string
    }
}
