//! Numbers in OPL lines.
ghost use Rattle.std.specs.Prelude.{◌≡◌, ◌-◌, ◌<◌, ◌≤◌, ◌^◌, true, false, length, take, get_or, IfOk, option_copied};
ghost use Rattle.std.specs.List.{list_all};
ghost use Rattle.std.specs.Char.{is_ascii_digit};
ghost use Rattle.opl_line.specs.Number as spec;

use crate::OplReason;
use crate::bytes::cut::Delimiter;

/// The greatest version number, changeset and user id.
pub(crate) const GREATEST_NUMBER: u64 = (1 << 32) - 1;

/// The greatest id. The least id is its negative.
const GREATEST_ID: u64 = (1 << 62) - 1;

/// The number of units of a coordinate in one degree.
pub(crate) const DEGREE: u64 = 10_000_000;

/// A number: one decimal digit or more, with a value of at most `most`.
///
/// # Errors
///
/// `BadNumber` if `digits` is empty or has another byte, `OutOfRange` if the number is above `most`.
pub(crate) fn read_number(digits: &[u8], most: u64) -> Result<u64, OplReason>
    requires { most < 2 ^ 64 - 1 }
    ensures { result ≡ spec.reading_number most digits.now }
{
    if digits.is_empty() {
        return Err(OplReason::BadNumber);
    }
    let mut number: u64 = 0;
    for digit in digits {
        if !digit.is_ascii_digit() {
            return Err(OplReason::BadNumber);
        }
        number = number
            .saturating_mul(10)
            .saturating_add(u64::from(*digit - b'0'));
    }
    up_to(most, number)
}

/// The number if it is at most `most`, and else `OutOfRange`.
fn up_to(most: u64, number: u64) -> Result<u64, OplReason>
    ensures { result ≡ spec.up_to most number }
{
    if number <= most {
        Ok(number)
    } else {
        Err(OplReason::OutOfRange)
    }
}

/// The number that 1 to 19 bytes write, if all of them are decimal digits.
fn value_of_few(digits: &[u8]) -> Option<u64>
    requires { length digits.now ≤ 19 }
    ensures { result ≡ spec.value_of digits.now }
{
    if digits.is_empty() {
        return None;
    }
    let mut number: u64 = 0;
    for digit in digits {
        if !digit.is_ascii_digit() {
            return None;
        }
        number = 10 * number + u64::from(*digit - b'0');
    }
    Some(number)
}

/// An id: a number with or without a minus sign, from -4611686018427387903 to 4611686018427387903.
///
/// # Errors
///
/// `BadNumber` if the text is no integer, `OutOfRange` if the integer is no id.
pub(crate) fn read_id(text: &[u8]) -> Result<i64, OplReason>
    ensures { result ≡ spec.reading_id text.now }
{
    let (is_negative, digits) = split_sign(text);
    let magnitude = read_number(digits, GREATEST_ID)?;
    let id = magnitude as i64;
    Ok(if is_negative { -id } else { id })
}

/// Whether a text begins with a minus sign, and the text without it.
pub(crate) fn split_sign(text: &[u8]) -> (bool, &[u8])
    ensures sign { result.0 ≡ spec.is_negative text.now }
    ensures rest { result.1.now ≡ spec.without_sign text.now }
{
    match text.split_first() {
        Some((b'-', digits)) => (true, digits),
        _ => (false, text),
    }
}

/// A coordinate in units of 10^-7 degree, from -2147483648 to 2147483647.
///
/// # Errors
///
/// `BadCoordinate` if the text is no coordinate, `OutOfRange` if the number of units has more than 32 bits.
pub(crate) fn read_coordinate(text: &[u8]) -> Result<i32, OplReason>
    ensures { result ≡ spec.reading_coordinate text.now }
{
    let (is_negative, magnitude) = split_sign(text);
    let (whole, decimals) = Delimiter::Points.split_bytes(magnitude);
    let units = read_degrees(whole, decimals)?;
    to_units(is_negative, units)
}

/// The units with their sign, if they are a number of 32 bits, and else `OutOfRange`.
pub(crate) fn to_units(is_negative: bool, magnitude: u64) -> Result<i32, OplReason>
    requires { magnitude < 2 ^ 48 }
    ensures { result ≡ spec.reading_units is_negative magnitude }
{
    let units = magnitude as i64;
    let signed = if is_negative { -units } else { units };
    i32::try_from(signed).map_err(|_| OplReason::OutOfRange)
}

/// The units of a coordinate without its sign, from the whole degrees and the decimals.
fn read_degrees(whole: &[u8], decimals: Option<&[u8]>) -> Result<u64, OplReason>
    ensures value { result ≡ spec.reading_degrees whole.now (option_copied decimals.entry) }
    ensures bound { IfOk result (λ units. units < 2 ^ 48) }
{
    let degrees = read_short_numeral(whole, 3)? * DEGREE;
    let Some(decimals) = decimals else {
        return Ok(degrees);
    };
    let rest = read_short_numeral(decimals, 7)?;
    Ok(degrees + rest * scale(decimals.len()))
}

/// The value of 1 to `most` decimal digits.
fn read_short_numeral(digits: &[u8], most: usize) -> Result<u64, OplReason>
    requires { most ≤ 7 }
    ensures value { result ≡ spec.reading_short_numeral most digits.now }
    ensures few { IfOk result (λ _. length digits.now ≤ most) }
    ensures bound { IfOk result (λ number. number < 10 ^ most) }
{
    if digits.len() > most {
        return Err(OplReason::BadCoordinate);
    }
    value_of_few(digits).ok_or(OplReason::BadCoordinate)
}

/// The value of the last of `decimals` decimals, in units of 10^-7 degree.
pub(crate) fn scale(decimals: usize) -> u64
    requires { decimals ≤ 7 }
    ensures value { result ≡ 10 ^ (7 - decimals) }
    ensures bound { result ≤ 10 ^ 7 }
{
    10u64.pow(7 - decimals as u32)
}

/// The number that the first digits of a text write, and the number of these digits: all digits that the text begins
/// with, or the first `most` of them. Both are 0 if the text begins with no digit.
#[inline(always)]
pub fn leading_digits(text: &[u8], most: usize) -> (u64, usize)
    requires { most ≤ 19 }
    ensures within { result.1 ≤ length text.now }
    ensures few { result.1 ≤ most }
    ensures digits { list_all is_ascii_digit (take result.1 text.now) ≡ true }
    ensures all { result.1 < most → result.1 < length text.now → is_ascii_digit (get_or text.now result.1 0) ≡ false }
    ensures value { result.0 ≡ spec.decimal_value (take result.1 text.now) }
    ensures bound { result.0 < 10 ^ most }
{
    if text.len() >= most {
        digits_before(text, most)
    } else {
        digits_before(text, text.len())
    }
}

/// The number that the first digits of a text write, up to the offset `end`, and the number of these digits.
#[inline(always)]
fn digits_before(text: &[u8], end: usize) -> (u64, usize)
    requires few { end ≤ 19 }
    requires within { end ≤ length text.now }
    ensures within { result.1 ≤ end }
    ensures digits { list_all is_ascii_digit (take result.1 text.now) ≡ true }
    ensures all { result.1 < end → is_ascii_digit (get_or text.now result.1 0) ≡ false }
    ensures value { result.0 ≡ spec.decimal_value (take result.1 text.now) }
    ensures bound { result.0 < 10 ^ result.1 }
{
    let mut number: u64 = 0;
    for index in 0..end {
        let byte = text[index];
        if !byte.is_ascii_digit() {
            return (number, index);
        }
        number = 10 * number + u64::from(byte) - u64::from(b'0');
    }
    (number, end)
}
