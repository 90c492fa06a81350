//! The letters of kinds, which both readers know.
ghost use Rattle.std.specs.Prelude.{◌≡◌};
ghost use Rattle.opl_line.specs.Item as spec;

use osm_model::Kind;

/// The kind with the letter `letter`: `n`, `w` or `r`.
pub(crate) fn kind_of_letter(letter: u8) -> Option<Kind>
    ensures { result ≡ spec.kind_of_letter letter }
{
    match letter {
        b'n' => Some(Kind::Node),
        b'w' => Some(Kind::Way),
        b'r' => Some(Kind::Relation),
        _ => None,
    }
}
