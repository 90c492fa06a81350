//! The formats of files.
ghost use Rattle.std.specs.Prelude.{◌≡◌, ◌≢◌, None, IfSome};
ghost use Rattle.osm_files.specs.declared.format.Format.{Format};
ghost use Rattle.osm_files.specs.Format.{format_name};

/// The names of the formats.
pub static FORMAT_NAMES: [&str; 3] = [OPL, O5M, O5C];

const OPL: &str = "opl";

const O5M: &str = "o5m";

const O5C: &str = "o5c";

/// A format of files.
#[derive(Clone, Copy, Debug, PartialEq, Eq)]
pub enum Format {
    /// The Object Per Line format of Osmium: text, a line for each version.
    Opl,
    /// The binary format o5m of osmconvert: objects.
    O5m,
    /// The binary format o5c of osmconvert: changes of objects. Only its header differs from that of o5m.
    O5c,
}

impl Format {
    /// The name of the format in the arguments of a command.
    pub fn name(&self) -> &'static str
        ensures { result.now ≡ format_name self.now }
    {
        match self {
            Format::Opl => OPL,
            Format::O5m => O5M,
            Format::O5c => O5C,
        }
    }

    /// The format with this name, if there is one.
    pub fn named(name: &str) -> Option<Format>
        ensures named { IfSome result (λ format. name.now ≡ format_name format) }
        ensures none { result ≡ None → (format : Format) → name.now ≢ format_name format }
    {
        match name {
            OPL => Some(Format::Opl),
            O5M => Some(Format::O5m),
            O5C => Some(Format::O5c),
            _ => None,
        }
    }
}
