//! The keys of OPL lines: the kind, the id and the number of the version that a line spells. A line of the usual form
//! begins with a letter, an id, a space, `v` and a version number; another one is read whole.
ghost use Rattle.std.specs.Prelude.{◌≡◌, ◌<◌, ◌≤◌, ◌^◌, ◌∷◌, IfSome};
ghost use Rattle.osm_model.specs.Kind.{kind_letter};
ghost use Rattle.opl_line.specs.Number.{with_sign};
ghost use Rattle.osm_files.specs.LineKey as spec;

use opl_line::{LineReader, OplReason, leading_digits};
use osm_model::{Key, Kind, Object};

/// The most digits of an id in a line of the usual form. Each number of so few digits is an id.
const MOST_ID_DIGITS: usize = 18;

/// The most digits of a version number in a line of the usual form. Each number of so few digits has 32 bits.
const MOST_NUMBER_DIGITS: usize = 9;

/// Whether `key` is below the key `before`, if there is one.
pub(crate) fn is_key_below(key: Key, before: Option<Key>) -> bool
    ensures { result ≡ spec.is_key_below key before }
{
    match before {
        Some(before) => key.order(&before).is_lt(),
        None => false,
    }
}

/// The key of the version that a line spells; `None` for a line that is skipped. A line of the usual form isn't read
/// further than its version number, so it has a key even if it spells no version.
///
/// # Errors
///
/// As for [`LineReader::read`], for a line of another form.
pub(crate) fn read_key(reader: &mut LineReader, line: &[u8]) -> Result<Option<Key>, OplReason>
    ensures { spec.IsKeyRead line.now result }
{
    if let Some(key) = usual_key(line) {
        return Ok(Some(key));
    }
    match reader.read(line) {
        Ok(Some(version)) => {
            let key = Key::of(&version);
            reader.reuse(version);
            Ok(Some(key))
        }
        Ok(None) => Ok(None),
        Err(reason) => Err(reason),
    }
}

/// The key in a line of the usual form; `None` for a line of another form.
fn usual_key(line: &[u8]) -> Option<Key>
    ensures { IfSome result (spec.IsKeyOf line.now) }
{
    let (key, rest) = strip_key(line)?;
    if is_field_end(rest) { Some(key) } else { None }
}

/// The key in the line at the front of `bytes`, if the line has the usual form and more fields; `None` for other lines.
/// The line needn't end in `bytes`.
pub(crate) fn front_key(bytes: &[u8]) -> Option<Key>
    ensures { IfSome result (spec.IsKeyOfFront bytes.now) }
{
    let (key, rest) = strip_key(bytes)?;
    strip_byte(rest, b' ')?;
    Some(key)
}

/// The key at the front of a text of the usual form, and the text after it.
fn strip_key(text: &[u8]) -> Option<(Key, &[u8])>
    ensures { IfSome result (λ read. spec.BeginsAsVersion text.now read.0 read.1.now) }
{
    let (kind, text) = strip_kind(text)?;
    let (id, text) = strip_id(text)?;
    let text = strip_byte(strip_byte(text, b' ')?, b'v')?;
    let (number, text) = strip_number(text, MOST_NUMBER_DIGITS)?;
    let object = Object { kind, id };
    Some((Key { object, number }, text))
}

/// The kind of the letter at the front of a text, and the text after it.
fn strip_kind(text: &[u8]) -> Option<(Kind, &[u8])>
    ensures { IfSome result (λ read. text.now ≡ kind_letter read.0 ∷ read.1.now) }
{
    for kind in [Kind::Node, Kind::Way, Kind::Relation] {
        if let Some(rest) = strip_byte(text, kind.letter()) {
            return Some((kind, rest));
        }
    }
    None
}

/// The id at the front of a text, and the text after it. The id has at most 18 digits.
fn strip_id(text: &[u8]) -> Option<(i64, &[u8])>
    ensures { IfSome result (λ read. spec.BeginsWithId text.now read.0 read.1.now) }
{
    if let Some(digits) = strip_byte(text, b'-') {
        let (size, rest) = strip_number(digits, MOST_ID_DIGITS)?;
        return Some((with_sign(true, size), rest));
    }
    let (size, rest) = strip_number(text, MOST_ID_DIGITS)?;
    Some((with_sign(false, size), rest))
}

/// The integer of a sign and an absolute value.
fn with_sign(is_negative: bool, size: u64) -> i64
    requires { size < 10 ^ 18 }
    ensures { result ≡ with_sign is_negative size }
{
    let id = size as i64;
    if is_negative { -id } else { id }
}

/// The number at the front of a text, of 1 to `most` digits, and the text after them.
fn strip_number(text: &[u8], most: usize) -> Option<(u64, &[u8])>
    requires { most ≤ 18 }
    ensures digits { IfSome result (λ read. spec.BeginsWithNumeral text.now read.0 read.1.now) }
    ensures bound { IfSome result (λ read. read.0 < 10 ^ most) }
{
    let (number, count) = leading_digits(text, most);
    if count == 0 {
        return None;
    }
    Some((number, &text[count..]))
}

/// The text after `byte`, if the text begins with it.
fn strip_byte(text: &[u8], byte: u8) -> Option<&[u8]>
    ensures { IfSome result (λ rest. text.now ≡ byte ∷ rest.now) }
{
    if text.is_empty() || text[0] != byte {
        return None;
    }
    Some(&text[1..])
}

/// Whether a field ends before this text: at the end of the line, or at a space.
fn is_field_end(text: &[u8]) -> bool
    ensures { result ≡ spec.is_field_end text.now }
{
    match text.first() {
        None => true,
        Some(byte) => *byte == b' ',
    }
}

#[cfg(test)]
mod tests;
