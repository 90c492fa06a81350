//! Times in OPL lines.
ghost use Rattle.std.specs.Prelude.{◌≡◌, ◌+◌, ◌<◌, ◌≤◌, length, IfSome};
ghost use Rattle.opl_line.specs.Time as spec;

use crate::OplReason;
use jiff::civil::Date;

/// The number of days from 0000-01-01 to 1970-01-01.
const DAYS_FROM_YEAR_0_TO_1970: i32 = 719_528;

/// The number of seconds from 0000-01-01T00:00:00Z to 1970-01-01T00:00:00Z.
const EPOCH: u64 = 62_167_219_200;

/// The number of seconds of a day.
const DAY: u64 = 86_400;

/// A time in seconds since 1970-01-01T00:00:00Z, from 1 to 4294967295. Its form is `yyyy-mm-ddThh:mm:ssZ`.
///
/// # Errors
///
/// `BadTime` if it doesn't have this form, if the calendar lacks the day, or if the hour is above 23, or the minute or
/// the second above 59; `OutOfRange` if it is before 1970-01-01T00:00:01Z or after 2106-02-07T06:28:15Z.
#[inline(never)]
pub fn read_time(text: &[u8]) -> Result<u32, OplReason>
    ensures { result ≡ spec.reading_time text.now }
{
    if text.len() != 20 {
        return Err(OplReason::BadTime);
    }
    let days = read_date(text).ok_or(OplReason::BadTime)?;
    let second = read_clock(text).ok_or(OplReason::BadTime)?;
    to_moment(DAY * u64::from(days) + u64::from(second))
}

/// A moment in seconds since 1970-01-01T00:00:00Z, if it is from 1 to 4294967295. `seconds` is the moment in seconds
/// since 0000-01-01T00:00:00Z.
#[inline(always)]
fn to_moment(seconds: u64) -> Result<u32, OplReason>
    ensures { result ≡ spec.reading_moment seconds }
{
    if EPOCH < seconds && seconds < EPOCH + (1 << 32) {
        Ok((seconds - EPOCH) as u32)
    } else {
        Err(OplReason::OutOfRange)
    }
}

/// The days from 0000-01-01 to the date `yyyy-mm-dd` that a text begins with.
#[inline(always)]
fn read_date(text: &[u8]) -> Option<u32>
    requires { length text.now ≡ 20 }
    ensures { result ≡ spec.reading_date text.now }
{
    let year = four_digits_at(text, 0)?;
    let month = two_digits_at(text, 5)?;
    let day = two_digits_at(text, 8)?;
    if text[4] == b'-' && text[7] == b'-' {
        day_of(year, month as u8, day as u8)
    } else {
        None
    }
}

/// The second of the day, from the `Thh:mm:ssZ` that a text ends with.
#[inline(always)]
fn read_clock(text: &[u8]) -> Option<u32>
    requires { length text.now ≡ 20 }
    ensures { result ≡ spec.reading_clock text.now }
{
    let hour = two_digits_at(text, 11)?;
    let minute = two_digits_at(text, 14)?;
    let second = two_digits_at(text, 17)?;
    if text[10] == b'T' && text[13] == b':' && text[16] == b':' && text[19] == b'Z' {
        second_of(hour, minute, second)
    } else {
        None
    }
}

/// The second of the day, if a day has this time.
#[inline(always)]
fn second_of(hour: u16, minute: u16, second: u16) -> Option<u32>
    ensures { result ≡ spec.second_of hour minute second }
{
    if hour < 24 && minute < 60 && second < 60 {
        Some(3600 * u32::from(hour) + 60 * u32::from(minute) + u32::from(second))
    } else {
        None
    }
}

/// The number that four digits from `from` on write.
#[inline(always)]
fn four_digits_at(text: &[u8], from: usize) -> Option<u16>
    requires { from + 4 ≤ length text.now }
    ensures value { result ≡ spec.digits_at from 4 text.now }
    ensures bound { IfSome result (λ number. number < 10_000) }
{
    let thousands = digit_of(text[from])?;
    let hundreds = digit_of(text[from + 1])?;
    let tens = digit_of(text[from + 2])?;
    let ones = digit_of(text[from + 3])?;
    Some(1_000 * thousands + 100 * hundreds + 10 * tens + ones)
}

/// The number that two digits from `from` on write.
#[inline(always)]
fn two_digits_at(text: &[u8], from: usize) -> Option<u16>
    requires { from + 2 ≤ length text.now }
    ensures value { result ≡ spec.digits_at from 2 text.now }
    ensures bound { IfSome result (λ number. number < 100) }
{
    let tens = digit_of(text[from])?;
    let ones = digit_of(text[from + 1])?;
    Some(10 * tens + ones)
}

/// The value of a decimal digit; `None` for another byte.
#[inline(always)]
fn digit_of(byte: u8) -> Option<u16>
    ensures value { result ≡ spec.digit_of byte }
    ensures bound { IfSome result (λ digit. digit < 10) }
{
    if byte.is_ascii_digit() {
        Some(u16::from(byte - b'0'))
    } else {
        None
    }
}

/// The days from 0000-01-01 to a date, if the calendar has it.
#[inline(always)]
fn day_of(year: u16, month: u8, day: u8) -> Option<u32>
    requires year_in { year < 10_000 }
    requires month_in { month < 100 }
    requires day_in { day < 100 }
    ensures { result ≡ spec.day_of year month day }
{
    let Ok(date) = Date::new(year as i16, month as i8, day as i8) else {
        return None;
    };
    Some((date.to_plain().to_unix_epoch_day() + DAYS_FROM_YEAR_0_TO_1970) as u32)
}
