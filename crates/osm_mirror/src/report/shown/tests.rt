//! Names in text, in a command and in JSON.
use super::{Escaped, EscapedBytes, JsonText, Quoted};

#[test]
fn names_are_shown_in_each_form(rt: HostRuntime) {
    let alloc = rt.alloc();
    for (name, escaped, quoted, json) in [
        ("a.opl", "a.opl", "a.opl", "\"a.opl\""),
        ("", "", "''", "\"\""),
        ("-x", "-x", "./-x", "\"-x\""),
        ("a b", "a b", "'a b'", "\"a b\""),
        ("it's", "it's", "'it'\\''s'", "\"it's\""),
        ("a\"b", "a\"b", "'a\"b'", "\"a\\\"b\""),
        ("a\\b", "a\\b", "'a\\b'", "\"a\\\\b\""),
        ("a\nb", "a\\x0ab", "$'a\\x0ab'", "\"a\\u000ab\""),
        ("\u{1b}'", "\\x1b'", "$'\\x1b\\''", "\"\\u001b'\""),
        ("\u{9b}", "\\x9b", "$'\\u009b'", "\"\\u009b\""),
        ("\u{202e}", "\\u{202e}", "$'\\u202e'", "\"\\u202e\""),
        ("é\u{1f600}", "é\u{1f600}", "'é\u{1f600}'", "\"é\u{1f600}\""),
    ] {
        assert!(rt;
            format!(in alloc; "{}", Escaped(name)).is_ok_and(|text| text.as_str() == escaped)
        );
        assert!(rt;
            format!(in alloc; "{}", Quoted(name)).is_ok_and(|text| text.as_str() == quoted)
        );
        assert!(rt;
            format!(in alloc; "{}", JsonText(name)).is_ok_and(|text| text.as_str() == json)
        );
    }
}

#[test]
fn bytes_are_shown_as_ascii(rt: HostRuntime) {
    let shown = format!(in rt.alloc(); "{}", EscapedBytes(b"a\xff \x1b'\\"));
    assert!(rt; shown.is_ok_and(|text| text.as_str() == "a\\xff \\x1b'\\"));
}
