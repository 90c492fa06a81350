//! Texts cut at some of their bytes.
ghost use Rattle.std.specs.Prelude.{◌≡◌, ◌∷◌, ◌<◌, ℕ, ◌||◌, ◌==◌, length, IfSome, option_copied};
ghost use Rattle.opl_line.specs.Delimiter.{is_end, split_first, split_all, pieces_of};

use super::scan::{ByteClass, find};
use std::simd::prelude::*;

/// The number of bytes that one step compares.
const CUT_LANES: usize = 16;

/// The delimiters at which a text is cut.
#[derive(Clone, Copy, Debug)]
pub(crate) enum Delimiter {
    /// At each space and each tab.
    Blanks,
    Commas,
    Equals,
    Ats,
    Percents,
    Points,
}

impl Delimiter {
    /// Splits a text at its first delimiter: the text before it, and the text after it. Without a delimiter they are
    /// the whole text and `None`.
    #[inline(always)]
    pub(crate) fn split(self, text: &str) -> (&str, Option<&str>)
        ensures first { result.0.now ≡ (split_first (is_end self) text.now).0 }
        ensures rest { option_copied result.1 ≡ (split_first (is_end self) text.now).1 }
        ensures pieces { split_all (is_end self) text.now ≡ result.0.now
            ∷ pieces_of (is_end self) (option_copied result.1) }
        ensures shorter { IfSome result.1 (λ after. length after.now < length text.now) }
    {
        match find(self, text.as_bytes()) {
            Some(end) => (&text[..end], Some(&text[end + 1..])),
            None => (text, None),
        }
    }

    /// Splits bytes at their first delimiter: the bytes before it, and those after it. Without a delimiter they are all
    /// bytes and `None`.
    #[inline(always)]
    pub(crate) fn split_bytes(self, bytes: &[u8]) -> (&[u8], Option<&[u8]>)
        ensures first { result.0.now ≡ (split_first (is_end self) bytes.now).0 }
        ensures rest { option_copied result.1 ≡ (split_first (is_end self) bytes.now).1 }
    {
        match find(self, bytes) {
            Some(end) => (&bytes[..end], Some(&bytes[end + 1..])),
            None => (bytes, None),
        }
    }

    /// The two delimiters, or the only one twice.
    #[inline(always)]
    fn ends(self) -> (u8, u8)
        ensures { (byte : ℕ) → is_end self byte ≡ (byte == result.0 || byte == result.1) }
    {
        match self {
            Delimiter::Blanks => (b' ', b'\t'),
            Delimiter::Commas => (b',', b','),
            Delimiter::Equals => (b'=', b'='),
            Delimiter::Ats => (b'@', b'@'),
            Delimiter::Percents => (b'%', b'%'),
            Delimiter::Points => (b'.', b'.'),
        }
    }
}

impl ByteClass<CUT_LANES> for Delimiter {
    ghost has = { is_end };

    #[inline(always)]
    fn marks(self, bytes: &[u8], from: usize) -> u64 {
        let lanes = Simd::<u8, CUT_LANES>::from_slice(&bytes[from..]);
        let (one, other) = self.ends();
        let ends = lanes.simd_eq(Simd::splat(one)) | lanes.simd_eq(Simd::splat(other));
        ends.to_bitmask()
    }

    #[inline(always)]
    fn contains(self, byte: u8) -> bool {
        let (one, other) = self.ends();
        byte == one || byte == other
    }
}
