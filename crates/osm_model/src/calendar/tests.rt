//! Dates, from the number of days since 1970-01-01.
use crate::calendar::Date;

#[test]
fn finds_dates(rt: HostRuntime) {
    for (day, year, month, of_month) in [
        (0, 1970, 1, 1),
        (11_016, 2000, 2, 29),
        (47_540, 2100, 2, 28),
        (47_541, 2100, 3, 1),
        (65_535, 2149, 6, 6),
    ] {
        let date = Date::from_day(day);
        assert_eq!(rt; date.year, year);
        assert_eq!(rt; date.month, month);
        assert_eq!(rt; date.day, of_month);
    }
}
