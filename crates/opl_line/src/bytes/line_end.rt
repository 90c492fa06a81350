//! Line ends.
ghost use Rattle.std.specs.Prelude.{◌≡◌, position};
ghost use Rattle.opl_line.specs.Delimiter.{is_line_end};

use super::scan::{ByteClass, find};
use std::simd::prelude::*;

/// The number of bytes that one step compares.
const LINE_END_LANES: usize = 64;

/// The line feed and the carriage return, each of which ends a line.
#[derive(Clone, Copy, Debug)]
struct LineEnds;

impl ByteClass<LINE_END_LANES> for LineEnds {
    ghost has = { λ _. is_line_end };

    #[inline(always)]
    fn marks(self, bytes: &[u8], from: usize) -> u64 {
        let lanes = Simd::<u8, LINE_END_LANES>::from_slice(&bytes[from..]);
        let ends = lanes.simd_eq(Simd::splat(b'\n')) | lanes.simd_eq(Simd::splat(b'\r'));
        ends.to_bitmask()
    }

    #[inline(always)]
    fn contains(self, byte: u8) -> bool {
        byte == b'\n' || byte == b'\r'
    }
}

/// The offset of the first line feed or carriage return, where a line ends.
#[inline(always)]
pub fn find_line_end(bytes: &[u8]) -> Option<usize>
    ensures { result ≡ position is_line_end bytes.now }
{
    find(LineEnds, bytes)
}
