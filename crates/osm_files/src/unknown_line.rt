//! Lines that begin no version, as a hole of zeros in a file does. Such a line is refused whatever bytes it has. The
//! reason depends only on whether the line is UTF-8, so its bytes are tested and dropped before its end is read.
ghost use Rattle.std.specs.Prelude.{◌≡◌, ◌≤◌, ◌++◌, ℕ, List, length, take};
ghost use Rattle.osm_files.specs.UnknownLine.{begins_unknown, unknown_reason, IsTested};

use opl_line::OplReason;

/// The most bytes of a character that lacks its last byte.
const MAX_PARTIAL_CHARACTER: usize = 3;

/// Whether a line that begins with `byte` isn't empty, and is no comment and no version.
pub(crate) fn begins_unknown(byte: u8) -> bool
    ensures { result ≡ begins_unknown byte }
{
    !matches!(byte, b'n' | b'w' | b'r' | b'#' | b'\n' | b'\r')
}

/// The result of a test for UTF-8 of the bytes that a line begins with.
#[derive(Clone, Copy, Debug)]
pub(crate) enum TestedFront {
    /// The bytes are UTF-8.
    Utf8,
    /// No line that begins with the bytes is UTF-8.
    NotUtf8,
}

impl TestedFront {
    /// Tests the first bytes of `bytes`, which follow a front with the result `self`. Returns the result for the front
    /// with these bytes, and their number. The bytes that aren't tested begin a character at most.
    pub(crate) fn extend(self, bytes: &[u8]) -> (TestedFront, usize)
        ensures within { result.1 ≤ length bytes.now }
        ensures tested { (front : List ℕ) → IsTested self front
            → IsTested result.0 (front ++ take result.1 bytes.now) }
    {
        let Err(fault) = str::from_utf8(bytes) else {
            return (self, bytes.len());
        };
        let valid = fault.valid_up_to();
        if bytes.len() - valid <= MAX_PARTIAL_CHARACTER {
            return (self, valid);
        }
        (TestedFront::NotUtf8, bytes.len())
    }

    /// The reason of a line that begins no version, and whose last bytes are `rest`. The bytes before them were tested
    /// with the result `self`.
    pub(crate) fn reason(self, rest: &[u8]) -> OplReason
        ensures { (front : List ℕ) → IsTested self front → result ≡ unknown_reason (front ++ rest.now) }
    {
        match self {
            TestedFront::Utf8 => match str::from_utf8(rest) {
                Ok(_) => OplReason::UnknownKind,
                Err(_) => OplReason::NotUtf8,
            },
            TestedFront::NotUtf8 => OplReason::NotUtf8,
        }
    }
}
