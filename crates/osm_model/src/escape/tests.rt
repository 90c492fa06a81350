//! The lengths of the raw characters at the front of texts.
use crate::escape::raw_length;

#[test]
fn measures_plain_text(rt: HostRuntime) {
    for (text, length) in [
        ("", 0),
        ("Main", 4),
        ("Main Street", 4),
        ("a=b", 1),
        ("caf\u{E9}, bar", 5),
        ("\u{A1}\u{AC}\u{AE}\u{BF}\u{C0}\u{5FF}", 12),
        ("\u{A0}", 0),
        ("x\u{AD}", 1),
        ("x\u{600}", 1),
        ("x\u{20AC}", 1),
        ("\x7F", 0),
    ] {
        assert_eq!(rt; raw_length(text), length);
    }
}
