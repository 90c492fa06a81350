//! Names, as they are shown within other text: on a terminal, in a command for a shell, and in JSON.
use std::fmt::{Display, Formatter};
use std::io::Write as _;
use std::{fmt, io, str};

/// A text whose control characters are shown as escapes.
#[derive(Clone, Copy, Debug)]
pub struct Escaped<'a>(pub &'a str);

impl Display for Escaped<'_> {
    fn fmt<W: fmt::Write>(&self, f: &mut Formatter<W>) -> fmt::Result {
        for c in self.0.chars() {
            write_escaped(f, c)?;
        }
        Ok(())
    }
}

/// A name as an argument for a shell, quoted if it has to be. A name that begins with `-` is no option.
#[derive(Clone, Copy, Debug)]
pub struct Quoted<'a>(pub &'a str);

impl Display for Quoted<'_> {
    fn fmt<W: fmt::Write>(&self, f: &mut Formatter<W>) -> fmt::Result {
        let name = self.0;
        let folder = if name.starts_with('-') { "./" } else { "" };
        if !name.is_empty() && name.chars().all(is_plain) {
            return write!(f, "{folder}{}", name);
        }
        let has_controls = name.chars().any(is_control);
        let (open, quote) = if has_controls {
            ("$'", "\\'")
        } else {
            ("'", "'\\''")
        };
        write!(f, "{open}{folder}")?;
        for c in name.chars() {
            match c {
                '\'' => write!(f, "{quote}")?,
                '\\' if has_controls => write!(f, "\\\\")?,
                c if is_control(c) && c as u32 >= 0x80 => write!(f, "\\u{:04x}", c as u32)?,
                c => write_escaped(f, c)?,
            }
        }
        write!(f, "'")
    }
}

/// A text as a string of JSON, with its quotes. RFC 8259 requires escapes for quotes, backslashes and control
/// characters below U+0020. The other characters that a terminal acts on are escaped, too.
#[derive(Clone, Copy, Debug)]
pub struct JsonText<'a>(pub &'a str);

impl Display for JsonText<'_> {
    fn fmt<W: fmt::Write>(&self, f: &mut Formatter<W>) -> fmt::Result {
        f.write_char('"')?;
        for c in self.0.chars() {
            match c {
                '"' | '\\' => write!(f, "\\{c}")?,
                c if is_control(c) => write!(f, "\\u{:04x}", c as u32)?,
                c => f.write_char(c)?,
            }
        }
        f.write_char('"')
    }
}

/// Bytes, of which those that aren't printable ASCII are shown as escapes.
#[derive(Clone, Copy, Debug)]
pub struct EscapedBytes<'a>(pub &'a [u8]);

impl Display for EscapedBytes<'_> {
    fn fmt<W: fmt::Write>(&self, f: &mut Formatter<W>) -> fmt::Result {
        for byte in self.0 {
            if *byte == b' ' || byte.is_ascii_graphic() {
                f.write_char(*byte as char)?;
            } else {
                write!(f, "\\x{:02x}", *byte)?;
            }
        }
        Ok(())
    }
}

/// A writer to a terminal that escapes the control characters of the text that it is given. A line feed that ends a
/// write is a line's end.
#[derive(Drop)]
pub struct EscapedOut<'o, O>(pub &'o mut O);

impl<O: io::Write> io::Write for EscapedOut<'_, O> {
    fn write(&mut self, bytes: &[u8]) -> io::Result<usize> {
        let Ok(text) = str::from_utf8(bytes) else {
            return self.0.write(bytes);
        };
        match text.strip_suffix('\n') {
            Some(line) => writeln!(self.0, "{}", Escaped(line))?,
            None => write!(self.0, "{}", Escaped(text))?,
        }
        Ok(bytes.len())
    }

    fn flush(&mut self) -> io::Result<()> {
        self.0.flush()
    }
}

/// Whether a terminal acts on `c`: a control character, or one that changes the direction of the text. The code of each
/// is below 0x10000.
fn is_control(c: char) -> bool {
    c.is_control()
        || matches!(c, '\u{61c}' | '\u{200e}' | '\u{200f}' | '\u{202a}'..='\u{202e}' | '\u{2066}'..='\u{2069}')
}

/// Writes `c`, or its escape if it is a control character.
fn write_escaped<W: fmt::Write>(f: &mut Formatter<W>, c: char) -> fmt::Result {
    match c as u32 {
        _ if !is_control(c) => f.write_char(c),
        code if code < 0x100 => write!(f, "\\x{code:02x}"),
        code => write!(f, "\\u{{{code:x}}}"),
    }
}

/// Whether a shell takes `c` as it is, wherever it is in an argument.
fn is_plain(c: char) -> bool {
    c.is_alphanumeric() || matches!(c, '_' | '.' | '/' | ':' | '@' | '%' | '+' | ',' | '=' | '-')
}

#[cfg(test)]
mod tests;
