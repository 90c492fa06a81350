//! Texts that were tested whether they are plain.
use crate::same::Same;
use crate::{Body, Kind, Meta, Text, Version};
use std::alloc::Global;
use std::test::Fail;

/// Texts, their form in a line, and whether they are plain.
const TEXTS: [(&str, &str, bool); 8] = [
    ("", "", true),
    ("Main-Street_1", "Main-Street_1", true),
    ("ä", "ä", true),
    ("a b", "a%20%b", false),
    ("x=y", "x%3d%y", false),
    ("東", "%6771%", false),
    ("as_many_as_lie_within_it", "as_many_as_lie_within_it", true),
    (
        "one_more_than_lies_within",
        "one_more_than_lies_within",
        false,
    ),
];

/// A text that was tested.
fn tested(alloc: Global, characters: &str) -> Result<Text, Fail> {
    Ok(Text::from_tested_str(alloc, characters)?)
}

/// The line of a deletion by `user`.
fn line(alloc: Global, user: Text) -> Result<Vec<u8>, Fail> {
    let meta = Meta {
        version: 1,
        time: Some(1),
        changeset: 1,
        uid: 1,
        user,
    };
    let version = Version::new(alloc, 1, meta, Body::Deleted(Kind::Node))?;
    let mut out = Vec::new(alloc);
    version.append_line(&mut out)?;
    Ok(out)
}

/// Whether a tested text has these characters and equals `other`, which wasn't tested, and whether it is plain.
fn compared(text: &Text, other: &Text, characters: &str) -> (bool, bool) {
    let is_equal = text.as_str() == characters && text.is_same(other) && other.is_same(text);
    (is_equal && other.plain().is_none(), text.plain().is_some())
}

/// Whether the line of a deletion by `user` has `escaped` as the user's name.
fn is_written(alloc: Global, user: Text, escaped: &str) -> Result<bool, Fail> {
    let line = line(alloc, user)?;
    let expected = format!(in alloc; "n1 v1 dD c1 t1970-01-01T00:00:01Z i1 u{escaped} T x y")?;
    Ok(line.as_slice() == expected.as_bytes())
}

#[test]
fn a_test_changes_no_text(rt: HostRuntime) -> Result<(), Fail> {
    let alloc = rt.alloc();
    for (characters, escaped, is_plain) in TEXTS {
        assert_eq!(rt;
            compared(
                &tested(alloc, characters)?,
                &Text::from_str(alloc, characters)?,
                characters
            ),
            (true, is_plain)
        );
        assert!(rt; is_written(alloc, tested(alloc, characters)?, escaped)?);
        assert!(rt; is_written(alloc, Text::from_str(alloc, characters)?, escaped)?);
    }
    Ok(())
}

/// Replaces `target` by a tested text. Returns whether it then has its characters, and whether `target` and a copy of
/// the text are plain.
fn copied(alloc: Global, target: &mut Text, characters: &str) -> Result<(bool, bool, bool), Fail> {
    let text = tested(alloc, characters)?;
    text.copy_into(target)?;
    let is_plain = text.copy()?.plain().is_some();
    Ok((
        target.as_str() == characters,
        target.plain().is_some(),
        is_plain,
    ))
}

#[test]
fn copies_of_plain_texts_are_plain(rt: HostRuntime) -> Result<(), Fail> {
    let mut target = Text::new();
    for (characters, is_plain) in [("ä", true), ("ä", true), ("a b", false), ("ä", true)] {
        assert_eq!(rt;
            copied(rt.alloc(), &mut target, characters)?,
            (true, is_plain, is_plain)
        );
    }
    Ok(())
}

/// Whether a plain text that grows by `more` has the characters `whole`, and isn't plain.
fn grows_to(alloc: Global, more: &str, whole: &str) -> Result<bool, Fail> {
    let mut text = tested(alloc, "a")?;
    text.push_str(alloc, more)?;
    Ok(text.as_str() == whole && text.plain().is_none())
}

#[test]
fn what_is_after_a_plain_text_may_not_be(rt: HostRuntime) -> Result<(), Fail> {
    let alloc = rt.alloc();
    for (more, whole) in [
        (" b", "a b"),
        (
            " of which not all lies within",
            "a of which not all lies within",
        ),
    ] {
        assert!(rt; grows_to(alloc, more, whole)?);
    }
    Ok(())
}

/// Whether `try_into_string` returns a string or a text, if the result has the characters `characters`.
fn given_back(text: Text, characters: &str) -> &'static str {
    let (form, is_kept) = match text.try_into_string() {
        Ok(string) => ("string", string.as_str() == characters),
        Err(text) => ("text", text.as_str() == characters),
    };
    if is_kept { form } else { "other characters" }
}

#[test]
fn texts_give_their_strings_back(rt: HostRuntime) -> Result<(), Fail> {
    let alloc = rt.alloc();
    for (characters, form_of_a_copy) in [
        ("", "text"),
        ("as_many_as_lie_within_it", "text"),
        ("one_more_than_lies_within", "string"),
    ] {
        let text = Text::from_string(String::from_str(alloc, characters)?);
        assert_eq!(rt; given_back(text, characters), "string");
        let copy = tested(alloc, characters)?;
        assert_eq!(rt; given_back(copy, characters), form_of_a_copy);
    }
    Ok(())
}
