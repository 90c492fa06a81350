//! Parts of a line, byte for byte.
use crate::put::{ESCAPE_BYTES, put_coordinate, put_escaped, put_integer, put_number, put_time};

#[test]
fn writes_characters(rt: HostRuntime) {
    let mut buffer = [0; ESCAPE_BYTES];
    for (c, text) in [
        ('\0', "%00%"),
        ('\n', "%0a%"),
        (' ', "%20%"),
        ('!', "!"),
        ('$', "$"),
        ('%', "%25%"),
        ('&', "&"),
        ('+', "+"),
        (',', "%2c%"),
        ('-', "-"),
        ('<', "<"),
        ('=', "%3d%"),
        ('>', ">"),
        ('?', "?"),
        ('@', "%40%"),
        ('A', "A"),
        ('~', "~"),
        ('\x7F', "%7f%"),
        ('\u{A0}', "%a0%"),
        ('\u{A1}', "\u{A1}"),
        ('\u{AC}', "\u{AC}"),
        ('\u{AD}', "%ad%"),
        ('\u{AE}', "\u{AE}"),
        ('\u{FF}', "\u{FF}"),
        ('\u{5FF}', "\u{5FF}"),
        ('\u{600}', "%0600%"),
        ('\u{20AC}', "%20ac%"),
        ('\u{1F600}', "%1f600%"),
        ('\u{10FFFF}', "%10ffff%"),
    ] {
        let start = put_escaped(&mut buffer, ESCAPE_BYTES, c);
        assert_eq!(rt; &buffer[start..], text.as_bytes());
    }
}

#[test]
fn writes_coordinates(rt: HostRuntime) {
    let mut buffer = [0; 32];
    for (units, text) in [
        (-2_147_483_648, "-214.7483648"),
        (2_147_483_647, "214.7483647"),
        (-5_000_000, "-0.5"),
        (1, "0.0000001"),
        (-10, "-0.000001"),
        (1_800_000_000, "180"),
        (15_000_000, "1.5"),
        (0, "0"),
    ] {
        let start = put_coordinate(&mut buffer, 32, units);
        assert_eq!(rt; &buffer[start..], text.as_bytes());
    }
}

#[test]
fn writes_times(rt: HostRuntime) {
    let mut buffer = [0; 32];
    for (seconds, text) in [
        (1, "1970-01-01T00:00:01Z"),
        (951_782_400, "2000-02-29T00:00:00Z"),
        (1_709_251_199, "2024-02-29T23:59:59Z"),
        (4_107_542_400, "2100-03-01T00:00:00Z"),
        (4_294_967_295, "2106-02-07T06:28:15Z"),
    ] {
        let start = put_time(&mut buffer, 32, Some(seconds));
        assert_eq!(rt; &buffer[start..], text.as_bytes());
    }
    assert_eq!(rt; put_time(&mut buffer, 32, None), 32);
}

#[test]
fn writes_numbers(rt: HostRuntime) {
    let mut buffer = [0; 32];
    for (number, text) in [
        (18_446_744_073_709_551_615, "18446744073709551615"),
        (0, "0"),
    ] {
        let start = put_number(&mut buffer, 32, number);
        assert_eq!(rt; &buffer[start..], text.as_bytes());
    }
    for (integer, text) in [
        (-9_223_372_036_854_775_808, "-9223372036854775808"),
        (7, "7"),
    ] {
        let start = put_integer(&mut buffer, 32, integer);
        assert_eq!(rt; &buffer[start..], text.as_bytes());
    }
}
