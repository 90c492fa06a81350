//! A search for bytes of a class, many at a time; the last ones, fewer than `LANES`, one by one.
ghost use Rattle.std.specs.Prelude.{◌≡◌, ◌+◌, ◌<◌, ◌≤◌, ℕ, Bool, not, length, position};
ghost use Rattle.std.specs.List.{prefix_len};
ghost use Rattle.std.specs.Simd.Lanes.{chunk};
ghost use Rattle.opl_line.specs.Scan.{marks_of};

/// A class of bytes. `find` tests `LANES` bytes at a time by `marks`, and the last few one by one by `contains`.
pub(crate) trait ByteClass<const LANES: usize>: Copy {
    /// The test whether a byte is of the class.
    ghost has: { Self → ℕ → Bool };

    /// Returns a bit for each of the `LANES` bytes from `from` on, the lowest for the first. The bit is set if the byte
    /// is of the class.
    fn marks(self, bytes: &[u8], from: usize) -> u64
        requires { from + LANES ≤ length bytes.now }
        ensures { result ≡ marks_of (has self) (chunk from LANES bytes.now) };

    fn contains(self, byte: u8) -> bool
        ensures { result ≡ has self byte };
}

/// The offset of the first byte of a class.
#[inline(always)]
pub(crate) fn find<const LANES: usize, C: ByteClass<LANES>>(class: C, bytes: &[u8]) -> Option<usize>
    requires some { 0 < LANES }
    requires few { LANES ≤ 64 }
    ensures { result ≡ position (C.has class) bytes.now }
{
    let mut seen = 0;
    'lanes: while bytes.len() - seen >= LANES {
        let run = run(class, bytes, seen);
        if run < LANES {
            return Some(seen + run);
        }
        seen += LANES;
    }
    'rest: for index in seen..bytes.len() {
        if class.contains(bytes[index]) {
            return Some(index);
        }
    }
    None
}

/// The number of bytes before the first one of a class among the `LANES` bytes from `from` on, or `LANES` if there is
/// none.
#[inline(always)]
fn run<const LANES: usize, C: ByteClass<LANES>>(class: C, bytes: &[u8], from: usize) -> usize
    requires few { LANES ≤ 64 }
    requires within { from + LANES ≤ length bytes.now }
    ensures { result ≡ prefix_len (λ b. not (C.has class b)) (chunk from LANES bytes.now) }
{
    let marks = class.marks(bytes, from);
    if marks == 0 {
        LANES
    } else {
        marks.trailing_zeros() as usize
    }
}
