//! Writes parts of a line into `buffer`, so that they end at the offset `end`. Each function returns the offset where
//! its part begins. A number is written from its last digit to its first. The offset is a parameter and a result, so
//! that it stays in a register.
ghost use Rattle.std.specs.Prelude.{◌≡◌, ◌++◌, ◌+◌, ◌/◌, ◌%◌, ◌∷◌, ◌≤◌, ◌<◌, ◌^◌, length, drop, replicate};
ghost use Rattle.std.specs.Option.{ForSome};
ghost use Rattle.osm_model.specs.Append.{head_text, location_text};
ghost use Rattle.osm_model.specs.Escape.{code_escape, escape_char};
ghost use Rattle.osm_model.specs.Numeral.{numeral, pad_zeros};
ghost use Rattle.osm_model.specs.Decimal.{number_text, sign_text, integer_text};
ghost use Rattle.osm_model.specs.Coordinate.{fraction_text, coordinate_text};
ghost use Rattle.osm_model.specs.Time.{date_of, date_text, clock_text, time_text};

use crate::Version;
use crate::calendar::Date;
use crate::escape::{escape_width, hex_digit, is_raw};

/// A buffer of this size holds the form of any character. The longest form is `%10ffff%`.
pub(crate) const ESCAPE_BYTES: usize = 16;

/// The number of units of a coordinate in one degree.
const UNITS_IN_DEGREE: u32 = 10_000_000;

const SECONDS_IN_DAY: u64 = 86_400;

#[inline(always)]
pub(crate) fn put_byte(buffer: &mut [u8], end: usize, byte: u8) -> usize
    requires within { end ≤ length buffer.old }
    requires fits { 0 < end }
    ensures written { drop result buffer.new ≡ byte ∷ drop end buffer.old }
    ensures start { result + 1 ≡ end }
    ensures size { length buffer.new ≡ length buffer.old }
{
    let start = end - 1;
    buffer[start] = byte;
    start
}

#[inline(always)]
pub(crate) fn put(buffer: &mut [u8], end: usize, bytes: &[u8]) -> usize
    requires within { end ≤ length buffer.old }
    requires fits { length bytes.now ≤ end }
    ensures written { drop result buffer.new ≡ bytes.now ++ drop end buffer.old }
    ensures start { result + length bytes.now ≡ end }
    ensures size { length buffer.new ≡ length buffer.old }
{
    let start = end - bytes.len();
    buffer[start..end].copy_from_slice(bytes);
    start
}

/// Writes a number in decimal.
#[inline(always)]
fn put_number(buffer: &mut [u8], end: usize, number: u64) -> usize
    requires within { end ≤ length buffer.old }
    requires fits { 20 ≤ end }
    ensures written { drop result buffer.new ≡ number_text number ++ drop end buffer.old }
    ensures start { result + length (number_text number) ≡ end }
    ensures short { end ≤ result + 20 }
    ensures size { length buffer.new ≡ length buffer.old }
{
    itoa::write_digits(number, buffer, end)
}

/// Writes a minus sign, if the integer is below 0.
#[inline(always)]
fn put_sign(buffer: &mut [u8], end: usize, integer: i64) -> usize
    requires within { end ≤ length buffer.old }
    requires fits { 0 < end }
    ensures written { drop result buffer.new ≡ sign_text integer ++ drop end buffer.old }
    ensures onward { result ≤ end }
    ensures short { end ≤ result + 1 }
    ensures size { length buffer.new ≡ length buffer.old }
{
    if integer < 0 {
        put_byte(buffer, end, b'-')
    } else {
        end
    }
}

/// Writes an integer in decimal.
pub(crate) fn put_integer(buffer: &mut [u8], end: usize, integer: i64) -> usize
    requires within { end ≤ length buffer.old }
    requires fits { 21 ≤ end }
    ensures written { drop result buffer.new ≡ integer_text integer ++ drop end buffer.old }
    ensures onward { result ≤ end }
    ensures short { end ≤ result + 21 }
    ensures size { length buffer.new ≡ length buffer.old }
{
    let digits = put_number(buffer, end, integer.unsigned_abs());
    put_sign(buffer, digits, integer)
}

/// Writes a coordinate in units of 10^-7 degree.
fn put_coordinate(buffer: &mut [u8], end: usize, units: i32) -> usize
    requires within { end ≤ length buffer.old }
    requires fits { 29 ≤ end }
    ensures written { drop result buffer.new ≡ coordinate_text units ++ drop end buffer.old }
    ensures onward { result ≤ end }
    ensures short { end ≤ result + 29 }
    ensures size { length buffer.new ≡ length buffer.old }
{
    let size = units.unsigned_abs();
    let fraction = put_fraction(buffer, end, size % UNITS_IN_DEGREE);
    let degrees = put_number(buffer, fraction, u64::from(size / UNITS_IN_DEGREE));
    put_sign(buffer, degrees, i64::from(units))
}

/// Writes the point and the decimals of a part of a degree, or nothing if the part is 0. Most parts have seven
/// decimals.
#[inline(always)]
fn put_fraction(buffer: &mut [u8], end: usize, units: u32) -> usize
    requires within { end ≤ length buffer.old }
    requires fits { 20 ≤ end }
    requires part { units < 10_000_000 }
    ensures written { drop result buffer.new ≡ fraction_text units ++ drop end buffer.old }
    ensures onward { result ≤ end }
    ensures short { end ≤ result + 8 }
    ensures size { length buffer.new ≡ length buffer.old }
{
    if units % 10 != 0 {
        return put_seven_decimals(buffer, end, units);
    }
    if units == 0 {
        return end;
    }
    put_fewer_decimals(buffer, end, units)
}

/// Writes the point and seven decimals.
#[inline(always)]
fn put_seven_decimals(buffer: &mut [u8], end: usize, units: u32) -> usize
    requires within { end ≤ length buffer.old }
    requires fits { 8 ≤ end }
    requires part { units < 10_000_000 }
    ensures written { drop result buffer.new ≡ 46 ∷ pad_zeros 7 (number_text units) ++ drop end buffer.old }
    ensures start { result + 8 ≡ end }
    ensures size { length buffer.new ≡ length buffer.old }
{
    let first = (units / 100_000) as u8;
    let second = (units / 1000 % 100) as u8;
    let third = (units / 10 % 100) as u8;
    let last = (units % 10) as u8;
    let decimals = [
        b'.',
        tens(first),
        ones(first),
        tens(second),
        ones(second),
        tens(third),
        ones(third),
        b'0' + last,
    ];
    put(buffer, end, &decimals)
}

/// Writes the point and the decimals of a part of a degree without the zeros at their end.
fn put_fewer_decimals(buffer: &mut [u8], end: usize, units: u32) -> usize
    requires within { end ≤ length buffer.old }
    requires fits { 20 ≤ end }
    requires some { 0 < units }
    requires part { units < 10_000_000 }
    ensures written { drop result buffer.new ≡ fraction_text units ++ drop end buffer.old }
    ensures onward { result ≤ end }
    ensures short { end ≤ result + 8 }
    ensures size { length buffer.new ≡ length buffer.old }
{
    let mut digits = units;
    let mut places = 7;
    while digits % 10 == 0 {
        digits /= 10;
        places -= 1;
    }
    let decimals = put_padded(buffer, end, u64::from(digits), places);
    put_byte(buffer, decimals, b'.')
}

/// Writes a number in decimal, with zeros before it up to `width`.
fn put_padded(buffer: &mut [u8], end: usize, number: u64, width: usize) -> usize
    requires within { end ≤ length buffer.old }
    requires buffer { 20 ≤ end }
    requires some { 0 < width }
    requires narrow { width ≤ 20 }
    requires fits { number < 10 ^ width }
    ensures written { drop result buffer.new ≡ pad_zeros width (number_text number) ++ drop end buffer.old }
    ensures start { result + width ≡ end }
    ensures size { length buffer.new ≡ length buffer.old }
{
    let digits = put_number(buffer, end, number);
    put_zeros(buffer, digits, width - (end - digits))
}

fn put_zeros(buffer: &mut [u8], end: usize, count: usize) -> usize
    requires within { end ≤ length buffer.old }
    requires fits { count ≤ end }
    ensures written { drop result buffer.new ≡ replicate count 48 ++ drop end buffer.old }
    ensures start { result + count ≡ end }
    ensures size { length buffer.new ≡ length buffer.old }
{
    let mut start = end;
    for _place in 0..count {
        start = put_byte(buffer, start, b'0');
    }
    start
}

/// Writes `yyyy-mm-ddThh:mm:ssZ`, or nothing if there is no time.
#[inline(always)]
fn put_time(buffer: &mut [u8], end: usize, time: Option<u64>) -> usize
    requires within { end ≤ length buffer.old }
    requires fits { 20 ≤ end }
    requires in_range { ForSome time (λ seconds. seconds < 2 ^ 32) }
    ensures written { drop result buffer.new ≡ time_text time ++ drop end buffer.old }
    ensures onward { result ≤ end }
    ensures short { end ≤ result + 20 }
    ensures size { length buffer.new ≡ length buffer.old }
{
    let Some(seconds) = time else {
        return end;
    };
    let mark = put_byte(buffer, end, b'Z');
    let clock = put_clock(buffer, mark, (seconds % SECONDS_IN_DAY) as u32);
    let mark = put_byte(buffer, clock, b'T');
    put_date(buffer, mark, (seconds / SECONDS_IN_DAY) as u16)
}

/// Writes the date that comes `day` days after 1970-01-01.
#[inline(always)]
fn put_date(buffer: &mut [u8], end: usize, day: u16) -> usize
    requires within { end ≤ length buffer.old }
    requires fits { 10 ≤ end }
    ensures written { drop result buffer.new ≡ date_text (date_of day) ++ drop end buffer.old }
    ensures start { result + 10 ≡ end }
    ensures size { length buffer.new ≡ length buffer.old }
{
    let date = Date::from_day(day);
    let century = (date.year / 100) as u8;
    let year = (date.year % 100) as u8;
    let text = [
        tens(century),
        ones(century),
        tens(year),
        ones(year),
        b'-',
        tens(date.month),
        ones(date.month),
        b'-',
        tens(date.day),
        ones(date.day),
    ];
    put(buffer, end, &text)
}

/// Writes a second of the day as `hh:mm:ss`.
#[inline(always)]
fn put_clock(buffer: &mut [u8], end: usize, second: u32) -> usize
    requires within { end ≤ length buffer.old }
    requires fits { 8 ≤ end }
    requires in_day { second < 86_400 }
    ensures written { drop result buffer.new ≡ clock_text second ++ drop end buffer.old }
    ensures start { result + 8 ≡ end }
    ensures size { length buffer.new ≡ length buffer.old }
{
    let hour = (second / 3600) as u8;
    let minute = (second / 60 % 60) as u8;
    let second = (second % 60) as u8;
    let text = [
        tens(hour),
        ones(hour),
        b':',
        tens(minute),
        ones(minute),
        b':',
        tens(second),
        ones(second),
    ];
    put(buffer, end, &text)
}

/// Writes a number in hexadecimal.
fn put_hex(buffer: &mut [u8], end: usize, number: u32) -> usize
    requires within { end ≤ length buffer.old }
    requires fits { 8 ≤ end }
    ensures written { drop result buffer.new ≡ numeral 16 number ++ drop end buffer.old }
    ensures start { result + length (numeral 16 number) ≡ end }
    ensures short { end ≤ result + 8 }
    ensures size { length buffer.new ≡ length buffer.old }
{
    let mut start = end;
    let mut rest = number;
    while rest >= 16 {
        start = put_byte(buffer, start, hex_digit(rest % 16));
        rest /= 16;
    }
    put_byte(buffer, start, hex_digit(rest))
}

/// Writes a character of a text, raw or as an escape.
pub(crate) fn put_escaped(buffer: &mut [u8], end: usize, c: char) -> usize
    requires within { end ≤ length buffer.old }
    requires fits { 16 ≤ end }
    ensures written { drop result buffer.new ≡ escape_char c ++ drop end buffer.old }
    ensures onward { result ≤ end }
    ensures size { length buffer.new ≡ length buffer.old }
{
    if is_raw(c) {
        let mut bytes = [0; 4];
        put(buffer, end, c.encode_utf8(&mut bytes).as_bytes())
    } else {
        put_code_escape(buffer, end, u32::from(c))
    }
}

/// Writes a code point in hexadecimal, between percent signs.
fn put_code_escape(buffer: &mut [u8], end: usize, code: u32) -> usize
    requires within { end ≤ length buffer.old }
    requires fits { 16 ≤ end }
    ensures written { drop result buffer.new ≡ code_escape code ++ drop end buffer.old }
    ensures onward { result ≤ end }
    ensures size { length buffer.new ≡ length buffer.old }
{
    let mark = put_byte(buffer, end, b'%');
    let digits = put_hex(buffer, mark, code);
    let zeros = escape_width(code).saturating_sub(mark - digits);
    let padded = put_zeros(buffer, digits, zeros);
    put_byte(buffer, padded, b'%')
}

/// Writes the fields before the user name, and the mark of the user name.
#[inline(always)]
pub(crate) fn put_head(buffer: &mut [u8], end: usize, version: &Version) -> usize
    requires within { end ≤ length buffer.old }
    requires fits { 128 ≤ end }
    ensures written { drop result buffer.new ≡ head_text version.now ++ drop end buffer.old }
    ensures onward { result ≤ end }
    ensures size { length buffer.new ≡ length buffer.old }
{
    let start = put(buffer, end, b" u");
    let start = put_number(buffer, start, version.uid());
    let start = put(buffer, start, b" i");
    let start = put_time(buffer, start, version.time());
    let start = put(buffer, start, b" t");
    let start = put_number(buffer, start, version.changeset());
    let start = put(buffer, start, b" c");
    let visible = if version.body().is_deleted() {
        b'D'
    } else {
        b'V'
    };
    let start = put_byte(buffer, start, visible);
    let start = put(buffer, start, b" d");
    let start = put_number(buffer, start, version.number());
    let start = put(buffer, start, b" v");
    let start = put_integer(buffer, start, version.id());
    put_byte(buffer, start, version.kind().letter())
}

/// Writes the fields of a location, which is in units of 10^-7 degree.
#[inline(always)]
pub(crate) fn put_location(buffer: &mut [u8], end: usize, lon: i32, lat: i32) -> usize
    requires within { end ≤ length buffer.old }
    requires fits { 62 ≤ end }
    ensures written { drop result buffer.new ≡ location_text lon lat ++ drop end buffer.old }
    ensures onward { result ≤ end }
    ensures short { end ≤ result + 62 }
    ensures size { length buffer.new ≡ length buffer.old }
{
    let start = put_coordinate(buffer, end, lat);
    let start = put(buffer, start, b" y");
    let start = put_coordinate(buffer, start, lon);
    put(buffer, start, b" x")
}

/// The two digits of each number below 100, in sequence.
static PAIRS: [u8; 200] = *b"\
    00010203040506070809101112131415161718192021222324\
    25262728293031323334353637383940414243444546474849\
    50515253545556575859606162636465666768697071727374\
    75767778798081828384858687888990919293949596979899\
";

/// The first digit of a number below 100.
fn tens(number: u8) -> u8
    requires { number < 100 }
    ensures { result ≡ 48 + number / 10 }
{
    PAIRS[2 * usize::from(number)]
}

/// The last digit of a number below 100.
fn ones(number: u8) -> u8
    requires { number < 100 }
    ensures { result ≡ 48 + number % 10 }
{
    PAIRS[2 * usize::from(number) + 1]
}

#[cfg(test)]
mod tests;
