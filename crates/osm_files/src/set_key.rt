//! The keys of the data sets of o5 files: the kind, the id and the number of the version that a data set spells. A set
//! of the usual form has an id and a version number first; at another one the caller reads the run whole.
ghost use Rattle.std.specs.Prelude.{◌≡◌, ◌+◌, ◌<◌, ◌≤◌, ◌∷◌, ◌++◌, Ok, None, List, ℕ, length, take, IfSome};
ghost use Rattle.o5_codec.specs.Base.{moved_id};
ghost use Rattle.osm_files.specs.FirstFault.{IsSetType};
ghost use Rattle.osm_files.specs.SetKey as spec;

use crate::o5::{FILE_END, is_lone, kind_of_type};
use o5_codec::{SEGMENT_RESET, read_number, read_signed};
use osm_model::{Key, Object, is_id};

/// A part of an o5 file, read as far as its key: a reset, a lone byte or a data set.
#[derive(Clone, Copy, Debug)]
pub(crate) struct KeyPart {
    /// The number of its bytes.
    pub(crate) size: u64,
    /// The key of its version; `None` if it is of no object.
    pub(crate) key: Option<Key>,
    /// The base of ids after it.
    pub(crate) base: i64,
}

/// The part at the front of `bytes`, which are the front of the next `room` bytes; `None` for a part of another form,
/// and for the end byte. `base` is the base of ids before the part.
///
/// Only the type, the length, the id and the version number need be in `bytes`.
pub(crate) fn read_part(bytes: &[u8], base: i64, room: u64) -> Option<KeyPart>
    requires { length bytes.now ≤ room }
    ensures size { IfSome result (λ part. 0 < part.size) }
    ensures within { IfSome result (λ part. part.size ≤ room) }
    ensures part { IfSome result (λ part. (rest : List ℕ) → part.size ≤ length (bytes.now ++ rest)
        → spec.IsPartOf base part (take part.size (bytes.now ++ rest))) }
{
    let (type_byte, rest) = bytes.split_first()?;
    if *type_byte == FILE_END {
        return None;
    }
    if *type_byte == SEGMENT_RESET {
        return Some(one_byte(0));
    }
    if is_lone(*type_byte) {
        return Some(one_byte(base));
    }
    read_set(*type_byte, rest, base, room)
}

/// A part of one byte, which has no key.
fn one_byte(base: i64) -> KeyPart
    ensures { result ≡ record { size = 1; key = None; base = base } }
{
    KeyPart {
        size: 1,
        key: None,
        base,
    }
}

/// The data set of the type `type_byte`, which `bytes` follow.
fn read_set(type_byte: u8, bytes: &[u8], base: i64, room: u64) -> Option<KeyPart>
    requires { IsSetType type_byte }
    ensures size { IfSome result (λ part. 0 < part.size) }
    ensures within { IfSome result (λ part. part.size ≤ room) }
    ensures part { IfSome result (λ part. (rest : List ℕ) → part.size ≤ length (type_byte ∷ (bytes.now ++ rest))
        → spec.IsPartOf base part (take part.size (type_byte ∷ (bytes.now ++ rest)))) }
{
    let Ok((length, content)) = read_number(bytes) else {
        return None;
    };
    let front = 1 + (bytes.len() - content.len()) as u64;
    if front > room || length > room - front {
        return None;
    }
    let size = front + length;
    let Some(kind) = kind_of_type(type_byte) else {
        return Some(KeyPart {
            size,
            key: None,
            base,
        });
    };
    let count = content.len().min(length as usize);
    let (id, number) = read_content(base, &content[..count])?;
    Some(KeyPart {
        size,
        key: Some(Key {
            object: Object { kind, id },
            number,
        }),
        base: id,
    })
}

/// The id and the version number at the front of the content of a data set. `base` is the base of ids before it.
fn read_content(base: i64, content: &[u8]) -> Option<(i64, u64)>
    ensures { IfSome result (λ key. spec.BeginsWithKey base content.now key.0 key.1) }
{
    let Ok((difference, rest)) = read_signed(content) else {
        return None;
    };
    let id = moved_id(base, difference)?;
    let Ok((number, _)) = read_number(rest) else {
        return None;
    };
    Some((id, number))
}

/// The sum of a base and a difference, if it is an id.
fn moved_id(base: i64, difference: i64) -> Option<i64>
    ensures { IfSome result (λ id. moved_id base difference ≡ Ok id) }
{
    let id = base.checked_add(difference)?;
    if is_id(id) { Some(id) } else { None }
}

#[cfg(test)]
mod tests;
