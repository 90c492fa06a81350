//! Pairs of strings and single strings at the front of a data set.
ghost use Rattle.std.specs.Prelude.{◌≡◌, ◌<◌, length, IfOk, position};
ghost use Rattle.o5_codec.specs.Results.{O5Gives};
ghost use Rattle.o5_codec.specs.StringPair.{is_zero, string_at, inline_at, inline_spelled, spelled_at};

use crate::O5Reason;
use crate::read::number::read_number;
use crate::strings::{Form, StringPair};

/// A pair or a single string in a data set.
#[derive(Drop)]
pub(crate) enum StringRef<'a> {
    /// The strings themselves.
    Inline(StringPair<'a>),
    /// The reference that names an entry of the table; 1 is the entry stored last.
    Reference(u64),
}

/// The pair or single string at the front, and the bytes after it.
///
/// # Errors
///
/// `BadText` if no byte is left or a string isn't ended, `BadNumber` if a reference is no number.
#[inline(always)]
#[tactic(auto, unfolding(crate::specs::StringPair::spelled_at))]
pub(crate) fn read_spelled(form: Form, bytes: &[u8]) -> Result<(StringRef<'_>, &[u8]), O5Reason>
    ensures value { O5Gives (λ x. (x.0, x.1.now)) (spelled_at form bytes.now) result }
    ensures shorter { IfOk result (λ x. length x.1.now < length bytes.now) }
{
    let Some((first, after)) = bytes.split_first() else {
        return Err(O5Reason::BadText);
    };
    if *first == 0 {
        return spelled_inline(form, after);
    }
    let (reference, rest) = read_number(bytes)?;
    Ok((StringRef::Reference(reference), rest))
}

/// The inline strings at the front, as a `StringRef`, and the bytes after them. The zero byte that begins inline
/// strings comes before `bytes`.
///
/// This function exists only for the optimizer: it takes the result of `read_inline` apart, so that no space for that
/// result is cleared when a reference is read. Five such functions of this crate bring 5 percent of a merge of o5m
/// files.
#[inline(always)]
fn spelled_inline(form: Form, bytes: &[u8]) -> Result<(StringRef<'_>, &[u8]), O5Reason>
    ensures value { O5Gives (λ x. (x.0, x.1.now)) (inline_spelled form bytes.now) result }
    ensures shorter { IfOk result (λ x. length x.1.now < length bytes.now) }
{
    let (strings, rest) = read_inline(form, bytes)?;
    Ok((StringRef::Inline(strings), rest))
}

/// The inline strings at the front, and the bytes after them. The zero byte that begins inline strings comes before
/// `bytes`.
#[inline(never)]
#[tactic(auto, unfolding(crate::specs::StringPair::inline_at))]
fn read_inline(form: Form, bytes: &[u8]) -> Result<(StringPair<'_>, &[u8]), O5Reason>
    ensures value { O5Gives (λ x. (x.0, x.1.now)) (inline_at form bytes.now) result }
    ensures shorter { IfOk result (λ x. length x.1.now < length bytes.now) }
{
    let (first, rest) = read_string(bytes)?;
    match form {
        Form::Pair => {
            let (second, rest) = read_string(rest)?;
            Ok((StringPair { first, second }, rest))
        }
        Form::Single => Ok((StringPair { first, second: &[] }, rest)),
    }
}

/// The string at the front, which ends at the first zero byte, and the bytes after it.
#[tactic(auto, unfolding(crate::specs::StringPair::string_at))]
fn read_string(bytes: &[u8]) -> Result<(&[u8], &[u8]), O5Reason>
    ensures value { O5Gives (λ x. (x.0.now, x.1.now)) (string_at bytes.now) result }
    ensures shorter { IfOk result (λ x. length x.1.now < length bytes.now) }
{
    match find_zero(bytes) {
        Some(end) => Ok((&bytes[..end], &bytes[end + 1..])),
        None => Err(O5Reason::BadText),
    }
}

/// The offset of the first zero byte.
fn find_zero(bytes: &[u8]) -> Option<usize>
    ensures { result ≡ position is_zero bytes.now }
{
    bytes.iter().position(|byte| *byte == 0)
}
