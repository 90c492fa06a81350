//! The bytes of o5 files around and between the contents of data sets: headers, type bytes, lone bytes and the end.
ghost use Rattle.std.specs.Prelude.{◌≡◌};
ghost use Rattle.osm_files.specs.O5.{kind_of_type, is_lone};
ghost use Rattle.osm_files.specs.Units.{is_header};

use o5_codec::SEGMENT_RESET;
use osm_model::Kind;

/// The first byte of o5 files: their headers begin with a reset. No line of OPL begins with it, since it isn't UTF-8.
pub const O5_START: u8 = SEGMENT_RESET;

/// The number of bytes of a header.
pub(crate) const HEADER_LENGTH: usize = 7;

/// The header of o5m files.
pub(crate) const O5M_HEADER: [u8; HEADER_LENGTH] = *b"\xff\xe0\x04o5m2";

/// The header of o5c files.
pub(crate) const O5C_HEADER: [u8; HEADER_LENGTH] = *b"\xff\xe0\x04o5c2";

/// The byte that ends an o5 file.
pub(crate) const FILE_END: u8 = 0xfe;

/// Whether `bytes` are the header of o5m or of o5c.
pub(crate) fn is_header(bytes: &[u8]) -> bool
    ensures { result ≡ is_header bytes.now }
{
    bytes == O5M_HEADER.as_slice() || bytes == O5C_HEADER.as_slice()
}

/// The kind of object of a type byte.
pub(crate) fn kind_of_type(byte: u8) -> Option<Kind>
    ensures { result ≡ kind_of_type byte }
{
    match byte {
        0x10 => Some(Kind::Node),
        0x11 => Some(Kind::Way),
        0x12 => Some(Kind::Relation),
        _ => None,
    }
}

/// Whether a byte is a lone one, which is skipped.
pub(crate) fn is_lone(byte: u8) -> bool
    ensures { result ≡ is_lone byte }
{
    byte >= 0xf0 && byte <= 0xfd
}
