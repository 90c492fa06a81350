//! Strings whose characters are each raw, as most are. One look at each byte shows that; `text` tests the others.
ghost use Rattle.std.specs.Prelude.{◌≡◌, IfSome, Ok};
ghost use Rattle.std.specs.List.{list_all};
ghost use Rattle.std.specs.Str.{chars};
ghost use Rattle.osm_model.specs.Escape.{is_raw_byte, IsPlain};
ghost use Rattle.o5_codec.specs.Text.{text_of};

use std::str;

/// The bytes as a text, if each of them is a raw character by itself.
#[inline(always)]
pub(crate) fn raw_str(bytes: &[u8]) -> Option<&str>
    ensures bytes { IfSome result (λ text. text.now ≡ bytes.now) }
    ensures text { IfSome result (λ text. text_of bytes.now ≡ Ok (chars text.now)) }
    ensures plain { IfSome result (λ text. IsPlain text.now) }
{
    if !are_raw(bytes) {
        return None;
    }
    // SAFETY: these bytes are raw characters of one byte, so they are ASCII.
    Some(unsafe { str::from_utf8_unchecked(bytes) })
}

/// Whether each byte is a raw character by itself.
#[inline(always)]
fn are_raw(bytes: &[u8]) -> bool
    ensures { result ≡ list_all is_raw_byte bytes.now }
{
    bytes.iter().all(|byte| is_raw_byte(*byte))
}

/// Whether a byte is a raw character by itself.
#[inline(always)]
fn is_raw_byte(byte: u8) -> bool
    ensures { result ≡ is_raw_byte byte }
{
    RAW_BYTES[usize::from(byte)] == b'1'
}

/// For each byte `1` if it is a raw character by itself, else `0`.
static RAW_BYTES: [u8; 256] = *b"\
    0000000000000000000000000000000001111011111101111111111111111011\
    0111111111111111111111111111111111111111111111111111111111111110\
    0000000000000000000000000000000000000000000000000000000000000000\
    0000000000000000000000000000000000000000000000000000000000000000\
";
