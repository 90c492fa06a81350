//! Recognizes a character by its form in a line.
ghost use Rattle.std.specs.Prelude.{◌≡◌, ◌≢◌, ◌++◌, ◌∷◌, [], ◌<◌, ◌≤◌, ℕ, List, true, MatchOption, IfSome};
ghost use Rattle.std.specs.Char.{digit_char};
ghost use Rattle.osm_model.specs.Escape.{escape_char};
ghost use Rattle.osm_model.specs.Text.{is_text};

use crate::escape::has_four_digits;
use crate::put::{ESCAPE_BYTES, put_escaped};

/// Returns the bytes after the form of `c`, if `bytes` begins with that form. The form of a character is the one that a
/// canonical line has for it: the character itself or its escape.
pub fn strip_escaped(bytes: &[u8], c: char) -> Option<&[u8]>
    ensures { MatchOption result
        ((rest : List ℕ) → bytes.now ≢ escape_char c ++ rest)
        (λ after. bytes.now ≡ escape_char c ++ after.now) }
{
    let mut buffer = [0; ESCAPE_BYTES];
    let start = put_escaped(&mut buffer, ESCAPE_BYTES, c);
    bytes.strip_prefix(&buffer[start..])
}

/// The character of the escape of four digits that `bytes` begins with, and the bytes after it. A canonical line has
/// such escapes for the characters from U+0600 to U+FFFF. `None` for another form.
#[inline(always)]
pub fn split_four_digits(bytes: &[u8]) -> Option<(char, &[u8])>
    ensures text { IfSome result (λ x. bytes.now ≡ escape_char x.0 ++ x.1.now) }
    ensures valid { IfSome result (λ x. is_text (x.0 ∷ []) ≡ true) }
    ensures range { IfSome result (λ x. (0x600 ≤ x.0) × (x.0 < 0x1_0000)) }
{
    let [b'%', first, second, third, fourth, b'%', rest @ ..] = bytes else {
        return None;
    };
    let first = digit_value(*first)?;
    let second = digit_value(*second)?;
    let third = digit_value(*third)?;
    let fourth = digit_value(*fourth)?;
    let code = 0x1000 * first + 0x100 * second + 0x10 * third + fourth;
    if !has_four_digits(code) {
        return None;
    }
    Some((char::from_u32(code)?, rest))
}

/// The number that a hexadecimal digit in lower case spells.
#[inline(always)]
fn digit_value(digit: u8) -> Option<u32>
    ensures { IfSome result (λ value. (value < 16) × (digit ≡ digit_char value)) }
{
    let value = DIGIT_VALUES[usize::from(digit)];
    if value < 16 {
        Some(u32::from(value))
    } else {
        None
    }
}

/// For each byte the number that it spells as a hexadecimal digit in lower case, or 16 if it is no such digit.
static DIGIT_VALUES: [u8; 256] = *b"\
    \x10\x10\x10\x10\x10\x10\x10\x10\x10\x10\x10\x10\x10\x10\x10\x10\
    \x10\x10\x10\x10\x10\x10\x10\x10\x10\x10\x10\x10\x10\x10\x10\x10\
    \x10\x10\x10\x10\x10\x10\x10\x10\x10\x10\x10\x10\x10\x10\x10\x10\
    \x00\x01\x02\x03\x04\x05\x06\x07\x08\x09\x10\x10\x10\x10\x10\x10\
    \x10\x10\x10\x10\x10\x10\x10\x10\x10\x10\x10\x10\x10\x10\x10\x10\
    \x10\x10\x10\x10\x10\x10\x10\x10\x10\x10\x10\x10\x10\x10\x10\x10\
    \x10\x0A\x0B\x0C\x0D\x0E\x0F\x10\x10\x10\x10\x10\x10\x10\x10\x10\
    \x10\x10\x10\x10\x10\x10\x10\x10\x10\x10\x10\x10\x10\x10\x10\x10\
    \x10\x10\x10\x10\x10\x10\x10\x10\x10\x10\x10\x10\x10\x10\x10\x10\
    \x10\x10\x10\x10\x10\x10\x10\x10\x10\x10\x10\x10\x10\x10\x10\x10\
    \x10\x10\x10\x10\x10\x10\x10\x10\x10\x10\x10\x10\x10\x10\x10\x10\
    \x10\x10\x10\x10\x10\x10\x10\x10\x10\x10\x10\x10\x10\x10\x10\x10\
    \x10\x10\x10\x10\x10\x10\x10\x10\x10\x10\x10\x10\x10\x10\x10\x10\
    \x10\x10\x10\x10\x10\x10\x10\x10\x10\x10\x10\x10\x10\x10\x10\x10\
    \x10\x10\x10\x10\x10\x10\x10\x10\x10\x10\x10\x10\x10\x10\x10\x10\
    \x10\x10\x10\x10\x10\x10\x10\x10\x10\x10\x10\x10\x10\x10\x10\x10\
";
