//! What files are by their first bytes.
use super::{Content, OtherOutput, content_of};
use osm_files::Format;
use std::alloc::Global;

#[test]
fn first_bytes_show_the_content(rt: HostRuntime) {
    for (name, head, is_cut, content) in [
        ("a.opl", b"n1 v1 x1".as_slice(), false, Content::Line),
        ("a.opl", b"", false, Content::Line),
        ("a.o5m", b"\xff\xe0\x04o5m2", false, Content::DataSet),
        (
            "a.o5m",
            b"\xff\xe0\x04o5m2",
            true,
            Content::Other("ends early, perhaps: get it again"),
        ),
        (
            "a.opl",
            b"n\x001\x00",
            false,
            Content::Other("is UTF-16, perhaps: OPL is UTF-8"),
        ),
    ] {
        assert!(rt; content_of(name, head, is_cut) == content);
    }
}

/// The text about the file `name` of another format.
fn text_of(alloc: Global, name: &str, head: &[u8]) -> String {
    let text = match content_of(name, head, false) {
        Content::Foreign(conversion) => format!(in alloc; "{conversion}"),
        _ => format!(in alloc; "none"),
    };
    text.unwrap_or(String::new(alloc))
}

#[test]
fn files_of_other_formats_are_converted(rt: HostRuntime) {
    for (name, head, text) in [
        (
            "a.opl",
            b"<osm>".as_slice(),
            "a.opl is XML: osm_hist .. --ended <(osmium cat -f opl a.opl && echo '# end')",
        ),
        (
            "a b.gz",
            b"\x1f\x8b\x08",
            "a b.gz is compressed: osm_hist .. --ended <(gzip -dc 'a b.gz' && echo '# end')",
        ),
        (
            "a.osc.gz",
            b"\x1f\x8b\x08",
            "a.osc.gz is compressed XML: osm_hist .. --ended <(osmium cat -f opl a.osc.gz && echo '# end')",
        ),
        (
            "a.o5m.gz",
            b"\x1f\x8b\x08",
            "a.o5m.gz is compressed: osm_hist .. <(gzip -dc a.o5m.gz)",
        ),
    ] {
        assert_eq!(rt; text_of(rt.alloc(), name, head).as_str(), text);
    }
}

/// The text about the output `name`, or `none` if its name ends as `format` does.
fn output_text(alloc: Global, name: &str, format: Format) -> String {
    let text = match OtherOutput::of_name(name, format) {
        Some(other) => format!(in alloc; "{other}"),
        None => format!(in alloc; "none"),
    };
    text.unwrap_or(String::new(alloc))
}

#[test]
fn names_of_outputs_show_another_format(rt: HostRuntime) {
    for (name, format, text) in [
        ("x.opl", Format::Opl, "none"),
        ("x.txt", Format::Opl, "none"),
        ("x", Format::Opl, "none"),
        (
            "x.o5m",
            Format::Opl,
            "x.o5m is opl, whatever its name ends in; --format chooses its format",
        ),
        (
            "a b.osm.pbf",
            Format::O5m,
            "a b.osm.pbf is o5m, whatever its name ends in: osm_hist .. --format opl --output - | \
            osmium cat - -F opl -o 'a b.osm.pbf'",
        ),
        (
            "x.opl.gz",
            Format::Opl,
            "x.opl.gz is opl, whatever its name ends in: osm_hist .. --format opl --output - | \
            osmium cat - -F opl -o x.opl.gz",
        ),
        (
            "x.osc.zst",
            Format::Opl,
            "x.osc.zst is opl, whatever its name ends in: osm_hist .. --format opl --output - | \
            osmium cat - -F opl -f osc | zstd > x.osc.zst",
        ),
    ] {
        assert_eq!(rt; output_text(rt.alloc(), name, format).as_str(), text);
    }
}
