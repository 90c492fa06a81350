//! The kinds of objects.
ghost use Rattle.std.specs.Prelude.{◌≡◌, ◌≤◌, ◌∷◌, length};
ghost use Rattle.osm_model.specs.Kind.{kind_order, kind_letter};
ghost use Rattle.osm_model.specs.Joined.{join_with};
ghost use Rattle.osm_model.specs.Line as text;

/// The kind of an object.
#[derive(Clone, Copy, Debug, PartialEq, Eq)]
pub enum Kind {
    Node,
    Way,
    Relation,
}

impl Kind {
    /// The index of the kind in the order of versions: nodes, ways, relations.
    pub fn index(self) -> u8
        ensures { result ≡ kind_order self }
    {
        match self {
            Kind::Node => 0,
            Kind::Way => 1,
            Kind::Relation => 2,
        }
    }

    /// The letter of the kind in OPL: `n`, `w` or `r`.
    pub fn letter(self) -> u8
        ensures { result ≡ kind_letter self }
    {
        match self {
            Kind::Node => b'n',
            Kind::Way => b'w',
            Kind::Relation => b'r',
        }
    }

    /// The fields after the tags in the line of a deleted version, each after a space.
    pub fn empty_fields(self) -> &'static [u8]
        ensures text { result.now ≡ 32 ∷ join_with 32 (text.empty_fields self) }
        ensures short { length result.now ≤ 4 }
    {
        match self {
            Kind::Node => b" x y",
            Kind::Way => b" N",
            Kind::Relation => b" M",
        }
    }
}
