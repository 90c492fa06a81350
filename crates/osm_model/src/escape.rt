//! The characters of a text in a line: raw ones, and escapes.
ghost use Rattle.std.specs.Prelude.{◌≡◌, ◌++◌, ◌<◌, ◌≤◌, if◌then◌else◌, ◌+◌, length, take, drop};
ghost use Rattle.std.specs.Str.{chars, IsUtf8, IsCharBoundary};
ghost use Rattle.std.specs.Bool.{OnTrue};
ghost use Rattle.std.specs.Char.{digit_char};
ghost use Rattle.std.specs.Int.{is_in_range};
ghost use Rattle.osm_model.specs.Escape as spec;

/// Whether a character is written as itself in a line, and not as an escape.
pub(crate) fn is_raw(c: char) -> bool
    ensures { result ≡ spec.is_raw c }
{
    matches!(
        c,
        '\x21'..='\x24'
            | '\x26'..='\x2B'
            | '\x2D'..='\x3C'
            | '\x3E'..='\x3F'
            | '\x41'..='\x7E'
            | '\u{A1}'..='\u{AC}'
            | '\u{AE}'..='\u{5FF}'
    )
}

/// The hexadecimal digits, in lower case.
static HEX_DIGITS: [u8; 16] = *b"0123456789abcdef";

/// The hexadecimal digit of a number below 16, in lower case.
#[inline(always)]
pub(crate) fn hex_digit(number: u32) -> u8
    requires { number < 16 }
    ensures { result ≡ digit_char number }
{
    HEX_DIGITS[number as usize]
}

/// Whether a code point is written as an escape of four digits. All code points with four digits are, except those of
/// raw characters.
#[inline(always)]
pub(crate) fn has_four_digits(code: u32) -> bool
    ensures { OnTrue result ((0x600 ≤ code) × (code < 0x1_0000)) }
{
    matches!(code, 0x600..=0xFFFF)
}

/// The escape of a code point that is written with four digits.
#[inline(always)]
pub(crate) fn four_digit_escape(code: u32) -> [u8; 6]
    requires { (0x600 ≤ code) × (code < 0x1_0000) }
    ensures { result ≡ spec.escape_char code }
{
    [
        b'%',
        hex_digit(code / 0x1000),
        hex_digit(code / 0x100 % 0x10),
        hex_digit(code / 0x10 % 0x10),
        hex_digit(code % 0x10),
        b'%',
    ]
}

/// The least number of digits in the escape of a code point.
pub(crate) fn escape_width(code: u32) -> usize
    ensures value { result ≡ spec.escape_width code }
    ensures small { result ≤ 4 }
{
    if code < 0x100 { 2 } else { 4 }
}

/// The number of bytes of a text before its first character that is not raw.
pub(crate) fn raw_length(text: &str) -> usize
    ensures length { result ≡ spec.raw_length (chars text.now) }
    ensures boundary { IsCharBoundary text.now result }
    ensures escape { spec.escape (chars text.now)
        ≡ take result text.now ++ spec.escape (chars (drop result text.now)) }
{
    let bytes = text.as_bytes();
    let mut length = 0;
    'characters: while length < bytes.len() {
        let width = raw_width(&bytes[length..]);
        if width == 0 {
            return length;
        }
        length += width;
    }
    length
}

/// The number of bytes of the first character of a text, if it is raw, and else 0.
fn raw_width(text: &[u8]) -> usize
    requires some { 0 < length text.now }
    requires utf8 { IsUtf8 text.now }
    ensures { result ≡ spec.raw_width (chars text.now) }
{
    match text[0] {
        byte if is_raw_byte(byte) => 1,
        lead if is_raw_lead(lead) => 2,
        0xC2 => latin_width(text[1]),
        _ => 0,
    }
}

/// Whether a byte is a raw character by itself.
fn is_raw_byte(byte: u8) -> bool
    ensures { result ≡ spec.is_raw_byte byte }
{
    is_raw(char::from(byte)) && byte < 0x80
}

/// Whether a byte is the first of the two bytes of a character from U+00C0 to U+05FF; all of these are raw.
fn is_raw_lead(byte: u8) -> bool
    ensures { result ≡ is_in_range 0xC3 0xD7 byte }
{
    matches!(byte, 0xC3..=0xD7)
}

/// The number of bytes of a character from U+0080 to U+00BF, if it is raw, and else 0.
fn latin_width(code: u8) -> usize
    requires { (0x80 ≤ code) × (code < 0xC0) }
    ensures { result ≡ (if spec.is_raw code then 2 else 0) }
{
    if code > 0xA0 && code != 0xAD { 2 } else { 0 }
}

#[cfg(test)]
mod tests;
