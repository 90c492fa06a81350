//! The characters that escapes of texts in OPL lines spell. Both readers use it.
ghost use Rattle.std.specs.Prelude.{◌≡◌};
ghost use Rattle.opl_line.specs.Text as spec;

/// The character whose code point is written in 1 to 8 hexadecimal digits. It isn't U+0000.
pub(crate) fn scalar_of(digits: &[u8]) -> Option<char>
    ensures { result ≡ spec.scalar_of digits.now }
{
    if digits.is_empty() || digits.len() > 8 {
        return None;
    }
    let mut code: u32 = 0;
    for digit in digits {
        let Some(value) = char::from(*digit).to_digit(16) else {
            return None;
        };
        code = 16 * code + value;
    }
    if code == 0 {
        return None;
    }
    char::from_u32(code)
}
