//! What a refused file is, by its first bytes: OPL, a data set of o5, or a file of another format.

use crate::report::shown::{Escaped, Quoted};
use osm_files::{FORMAT_NAMES, Format, O5_START};
use std::fmt;
use std::fmt::{Display, Formatter};

/// The endings of names of compressed XML.
const XML_ENDINGS: [&str; 4] = [".osc.gz", ".osm.gz", ".osc.bz2", ".osm.bz2"];

/// The command that reads other formats.
const OSMIUM: &str = "osmium cat -f opl";

/// What a text in UTF-16 is.
const UTF_16: &str = "is UTF-16, perhaps: OPL is UTF-8";

/// What a file is whose end is missing.
pub const CUT: &str = "ends early, perhaps: get it again";

/// What a refused file is.
#[derive(Clone, Copy, Debug, PartialEq, Eq)]
pub enum Content<'a> {
    /// OPL with a faulty line.
    Line,
    /// An o5 file with a faulty data set.
    DataSet,
    /// A file of another format.
    Foreign(Conversion<'a>),
    /// None of these: what is said about the file, after its name.
    Other(&'static str),
}

/// A file of another format, and how the program reads it. Its text has the command.
#[derive(Clone, Copy, Debug, PartialEq, Eq)]
pub struct Conversion<'a> {
    /// The name of the file.
    pub name: &'a str,
    /// The name of its format.
    pub kind: &'static str,
    /// The command that converts it.
    pub tool: &'static str,
}

/// The format of the file, and a pipe from the command that converts it, which the shell opens: several files may be
/// read so. OPL gets a mark at its end, so that a failure of the command isn't taken for the end.
impl Display for Conversion<'_> {
    fn fmt<W: fmt::Write>(&self, f: &mut Formatter<W>) -> fmt::Result {
        let (kind, tool) = (self.kind, self.tool);
        let (file, argument) = (Escaped(self.name), Quoted(self.name));
        if [".o5m.", ".o5c."]
            .iter()
            .any(|part| self.name.contains(*part))
        {
            return write!(f, "{file} is {kind}: osm_hist .. <({tool} {argument})");
        }
        write!(
            f,
            "{file} is {kind}: osm_hist .. --ended <({tool} {argument} && echo '# end')"
        )
    }
}

/// What the refused file `name` is, whose first bytes are `head`. 16 bytes are enough. `is_cut` is set if the reason of
/// the refusal is that the file ends early.
pub fn content_of<'a>(name: &'a str, head: &[u8], is_cut: bool) -> Content<'a> {
    let is_xml = XML_ENDINGS.iter().any(|ending| name.ends_with(*ending));
    match head {
        [0xff, 0xfe, ..] | [0xfe, 0xff, ..] => Content::Other(UTF_16),
        [0xef, 0xbb, 0xbf, ..] => {
            Content::Other("begins with a byte order mark: OPL is UTF-8 without one")
        }
        [O5_START, ..] if !is_cut => Content::DataSet,
        [O5_START, ..] => Content::Other(CUT),
        [0x1f, 0x8b, ..] | [b'B', b'Z', b'h', ..] if is_xml => foreign(
            name,
            "compressed XML",
            OSMIUM,
        ),
        [0x1f, 0x8b, ..] => foreign(name, "compressed", "gzip -dc"),
        [b'B', b'Z', b'h', ..] => foreign(name, "compressed", "bzip2 -dc"),
        [0xfd, b'7', b'z', b'X', b'Z', ..] => foreign(name, "compressed", "xz -dc"),
        [0x28, 0xb5, 0x2f, 0xfd, ..] => foreign(name, "compressed", "zstd -dc"),
        [0, 0, 0, _, 10, 9, b'O', b'S', b'M', b'H', ..] => foreign(name, "PBF", OSMIUM),
        [b'<', b'!' | b'h' | b'H', ..] => {
            Content::Other("is a page of HTML: a server's error, perhaps")
        }
        [b'<', ..] => foreign(name, "XML", OSMIUM),
        [(1..), 0, (1..), 0, ..] | [0, (1..), 0, (1..), ..] => Content::Other(UTF_16),
        _ if is_cut => Content::Other(CUT),
        _ => Content::Line,
    }
}

/// An output whose name ends as those of another format do. Its text says so, and how that format is written.
#[derive(Clone, Copy, Debug)]
pub struct OtherOutput<'a> {
    /// The name of the output.
    pub name: &'a str,
    /// The format that was written.
    pub format: Format,
    /// How the format of the name is written.
    way: OtherWay,
}

/// How a format is written.
#[derive(Clone, Copy, Debug, PartialEq, Eq)]
enum OtherWay {
    /// By the program itself.
    Own,
    /// By osmium, from OPL.
    Osmium,
    /// As osmium's format of this name, from OPL, which this command compresses.
    Compressed(&'static str, &'static str),
}

/// The endings that osmium writes, and the names of their formats.
const OSMIUM_ENDINGS: [&str; 6] = [".osm", ".osc", ".osh", ".xml", ".pbf", ".opl"];

/// The endings of compressed files that osmium doesn't write, and the commands that do.
const COMPRESSED_ENDINGS: [(&str, &str); 2] = [(".xz", "xz"), (".zst", "zstd")];

impl<'a> OtherOutput<'a> {
    /// The output `name`, if its name ends as those of another format than `format` do.
    pub fn of_name(name: &'a str, format: Format) -> Option<OtherOutput<'a>> {
        let way = way_of(name, format)?;
        Some(OtherOutput { name, format, way })
    }
}

/// How the format is written that an output's name ends in; none if it is `format`, or unknown.
fn way_of(name: &str, format: Format) -> Option<OtherWay> {
    for (ending, tool) in &COMPRESSED_ENDINGS {
        if let Some(name) = name.strip_suffix(*ending) {
            return osmium_format(name).map(|kind| OtherWay::Compressed(kind, *tool));
        }
    }
    for ending in &[".gz", ".bz2"] {
        if let Some(name) = name.strip_suffix(*ending) {
            return osmium_format(name).map(|_| OtherWay::Osmium);
        }
    }
    let (_, ending) = name.rsplit_once('.')?;
    if ending == format.name() {
        return None;
    }
    if FORMAT_NAMES.contains(&ending) {
        return Some(OtherWay::Own);
    }
    osmium_format(name).map(|_| OtherWay::Osmium)
}

/// The name of the format that osmium writes into a file of this name.
fn osmium_format(name: &str) -> Option<&'static str> {
    let ending = OSMIUM_ENDINGS
        .iter()
        .find(|ending| name.ends_with(**ending))?;
    ending.strip_prefix('.')
}

impl Display for OtherOutput<'_> {
    fn fmt<W: fmt::Write>(&self, f: &mut Formatter<W>) -> fmt::Result {
        let (name, argument) = (Escaped(self.name), Quoted(self.name));
        write!(
            f,
            "{name} is {}, whatever its name ends in",
            self.format.name()
        )?;
        let osmium = "osm_hist .. --format opl --output - | osmium cat - -F opl";
        match self.way {
            OtherWay::Own => write!(f, "; --format chooses its format"),
            OtherWay::Osmium => write!(f, ": {osmium} -o {argument}"),
            OtherWay::Compressed(kind, tool) => {
                write!(f, ": {osmium} -f {kind} | {tool} > {argument}")
            }
        }
    }
}

/// A file of another format.
fn foreign<'a>(name: &'a str, kind: &'static str, tool: &'static str) -> Content<'a> {
    Content::Foreign(Conversion { name, kind, tool })
}

#[cfg(test)]
mod tests;
