//! Numbers, ids, times and coordinates in their canonical form, each read at the front of a text.
ghost use Rattle.std.specs.Prelude.{◌≡◌, ◌++◌, ◌<◌, ◌≤◌, ◌^◌, true, IfSome};
ghost use Rattle.osm_model.specs.Id.{is_id};
ghost use Rattle.osm_model.specs.New.{is_number, is_time};
ghost use Rattle.osm_model.specs.Decimal.{number_text, integer_text};
ghost use Rattle.osm_model.specs.Coordinate.{coordinate_text, degrees_text, fraction_text};
ghost use Rattle.osm_model.specs.Time.{time_text};

use crate::number::{DEGREE, GREATEST_NUMBER, leading_digits, scale, split_sign, to_units};
use crate::time::read_time;

/// The greatest number of digits of a number of 32 bits without leading zeros.
const MOST_DIGITS: usize = 10;

/// Each number of at most this many digits is an id.
const MOST_ID_DIGITS: usize = 18;

/// The number of bytes of `yyyy-mm-ddThh:mm:ssZ`.
const TIME_LENGTH: usize = 20;

/// A version number, a changeset or a user id, and the text after it.
#[inline(always)]
pub(crate) fn parse_number(text: &[u8]) -> Option<(u64, &[u8])>
    ensures text { IfSome result (λ read. text.now ≡ number_text read.0 ++ read.1.now) }
    ensures bound { IfSome result (λ read. is_number read.0 ≡ true) }
{
    let (number, rest) = numeral(text, MOST_DIGITS)?;
    if number > GREATEST_NUMBER {
        return None;
    }
    Some((number, rest))
}

/// An id of at most 18 digits, and the text after it.
#[inline(always)]
pub(crate) fn parse_id(text: &[u8]) -> Option<(i64, &[u8])>
    ensures text { IfSome result (λ read. text.now ≡ integer_text read.0 ++ read.1.now) }
    ensures id { IfSome result (λ read. is_id read.0 ≡ true) }
{
    let (is_negative, digits) = split_sign(text);
    let (magnitude, after) = numeral(digits, MOST_ID_DIGITS)?;
    if is_negative && magnitude == 0 {
        return None;
    }
    let id = magnitude as i64;
    Some((if is_negative { -id } else { id }, after))
}

/// A time in seconds since 1970-01-01T00:00:00Z, and the text after it. Without a time they are `None` and `text`.
#[inline(always)]
pub(crate) fn parse_time(text: &[u8]) -> (Option<u64>, &[u8])
    ensures text { text.now ≡ time_text result.0 ++ result.1.now }
    ensures range { is_time result.0 ≡ true }
{
    if text.len() < TIME_LENGTH {
        return (None, text);
    }
    match read_time(&text[..TIME_LENGTH]) {
        Ok(time) => (Some(u64::from(time)), &text[TIME_LENGTH..]),
        Err(_) => (None, text),
    }
}

/// A coordinate in units of 10^-7 degree, and the text after it.
#[inline(always)]
pub(crate) fn parse_coordinate(text: &[u8]) -> Option<(i32, &[u8])>
    ensures { IfSome result (λ read. text.now ≡ coordinate_text read.0 ++ read.1.now) }
{
    let (is_negative, magnitude) = split_sign(text);
    let (units, after) = degrees(magnitude)?;
    if is_negative && units == 0 {
        return None;
    }
    let Ok(coordinate) = to_units(is_negative, units) else {
        return None;
    };
    Some((coordinate, after))
}

/// The units of a coordinate without its sign, and the text after it.
#[inline(always)]
fn degrees(text: &[u8]) -> Option<(u64, &[u8])>
    ensures text { IfSome result (λ read. text.now ≡ degrees_text read.0 ++ read.1.now) }
    ensures bound { IfSome result (λ read. read.0 < 2 ^ 48) }
{
    let (whole, rest) = numeral(text, 3)?;
    let (units, rest) = fraction(rest)?;
    Some((whole * DEGREE + units, rest))
}

/// The units of a part of a degree, and the text after it.
#[inline(always)]
fn fraction(text: &[u8]) -> Option<(u64, &[u8])>
    ensures text { IfSome result (λ read. text.now ≡ fraction_text read.0 ++ read.1.now) }
    ensures bound { IfSome result (λ read. read.0 < 10_000_000) }
{
    if text.is_empty() || text[0] != b'.' {
        return Some((0, text));
    }
    let (decimals, count) = leading_digits(&text[1..], 7);
    if decimals % 10 == 0 {
        return None;
    }
    Some((decimals * scale(count), &text[1 + count..]))
}

/// A number of at most `most` digits without a leading zero, and the text after it.
#[inline(always)]
fn numeral(text: &[u8], most: usize) -> Option<(u64, &[u8])>
    requires { most ≤ 19 }
    ensures text { IfSome result (λ read. text.now ≡ number_text read.0 ++ read.1.now) }
    ensures bound { IfSome result (λ read. read.0 < 10 ^ most) }
{
    let (number, length) = leading_digits(text, most);
    if length == 0 || (length > 1 && text[0] == b'0') {
        return None;
    }
    Some((number, &text[length..]))
}
