//! Days of the calendar.
ghost use Rattle.std.specs.Prelude.{◌≡◌, ◌<◌, ◌≤◌};

use jiff_core::civil;

/// The number of days from -9999-01-01, the first date of `jiff_core`, to 1970-01-01.
const DAYS_FROM_MIN_TO_1970: u32 = 4_371_587;

/// A day of the Gregorian calendar, from the year 0 on.
#[derive(Clone, Copy)]
pub(crate) struct Date {
    pub(crate) year: u16,
    /// The month, counted from 1.
    pub(crate) month: u8,
    /// The day of the month, counted from 1.
    pub(crate) day: u8,
}

impl Date {
    ghost use Rattle.osm_model.specs.Time.{date_of};

    /// The date that comes `day` days after 1970-01-01.
    pub(crate) fn from_day(day: u16) -> Date
        ensures value { result ≡ date_of day }
        ensures year { result.year < 10_000 }
        ensures month { result.month ≤ 12 }
        ensures day { result.day ≤ 31 }
    {
        let date = civil::Date::from_days_since_min(u32::from(day) + DAYS_FROM_MIN_TO_1970);
        Date {
            year: date.year as u16,
            month: date.month,
            day: date.day,
        }
    }
}

#[cfg(test)]
mod tests;
