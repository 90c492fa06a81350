//! The test whether a line is UTF-8. A line of ASCII, as most are, takes a faster one.
ghost use Rattle.std.specs.Prelude.{◌≡◌, ◌+◌, ◌<◌, ◌≤◌, ℕ, length, slice_index, MatchOption, IsUtf8};
ghost use Rattle.std.specs.Bool.{OnTrue};
ghost use Rattle.std.specs.Str.{IsAscii};

use std::simd::prelude::*;
use std::str;

/// The number of bytes that one step compares.
const UTF8_LANES: usize = 64;

/// The line as a text, if it is UTF-8. Most lines are ASCII, for which the test costs less.
#[inline(always)]
pub(crate) fn to_str(line: &[u8]) -> Option<&str>
    ensures { MatchOption result (¬ IsUtf8 line.now) (λ text. text.now ≡ line.now) }
{
    if is_long_ascii(line) {
        // SAFETY: the line is ASCII.
        return Some(unsafe { str::from_utf8_unchecked(line) });
    }
    simdutf8::compat::from_utf8(line).ok()
}

/// Whether a line has at least 64 bytes, all of them ASCII.
#[inline(always)]
fn is_long_ascii(line: &[u8]) -> bool
    ensures { OnTrue result (IsAscii line.now) }
{
    if line.len() < UTF8_LANES {
        return false;
    }
    let mut seen = 0;
    'lanes: while line.len() - seen >= UTF8_LANES {
        if !are_ascii(line, seen) {
            return false;
        }
        seen += UTF8_LANES;
    }
    are_ascii(line, line.len() - UTF8_LANES)
}

/// Whether the 64 bytes from `from` on are ASCII.
#[inline(always)]
fn are_ascii(bytes: &[u8], from: usize) -> bool
    requires { from + 64 ≤ length bytes.now }
    ensures { OnTrue result ((index : ℕ) → from ≤ index → index < from + 64 → slice_index bytes.now index < 128) }
{
    let lanes = u8x64::from_slice(&bytes[from..]);
    lanes.simd_ge(u8x64::splat(128)).to_bitmask() == 0
}
