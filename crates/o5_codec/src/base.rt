//! The values last spelled in a segment. Later values are spelled as differences to them.
ghost use Rattle.std.specs.Prelude.{◌≡◌};
ghost use Rattle.o5_codec.specs.Decoder.{no_bases};

use std::marker::Model;

/// The value last spelled for each field in the segment, 0 if there is none.
#[derive(Drop)]
pub struct Bases {
    /// The id of the object, of any kind.
    pub id: IdBase,
    /// Seconds since 1970-01-01T00:00:00Z; no time is 0.
    pub time: NumberBase,
    /// The changeset.
    pub changeset: NumberBase,
    /// The longitude in units of 10^-7 degree.
    pub lon: CoordinateBase,
    /// The latitude in units of 10^-7 degree.
    pub lat: CoordinateBase,
    /// The reference of a way.
    pub reference: IdBase,
    /// The id of a member that is a node.
    pub node_member: IdBase,
    /// The id of a member that is a way.
    pub way_member: IdBase,
    /// The id of a member that is a relation.
    pub relation_member: IdBase,
}

impl Bases {
    /// The bases at the start of a segment.
    pub(crate) fn new() -> Bases
        ensures { result ≡ no_bases }
    {
        Bases {
            id: IdBase { id: 0 },
            time: NumberBase { number: 0 },
            changeset: NumberBase { number: 0 },
            lon: CoordinateBase { coordinate: 0 },
            lat: CoordinateBase { coordinate: 0 },
            reference: IdBase { id: 0 },
            node_member: IdBase { id: 0 },
            way_member: IdBase { id: 0 },
            relation_member: IdBase { id: 0 },
        }
    }
}

/// The base of a field of ids. Contracts see the id.
#[derive(Drop)]
pub struct IdBase {
    pub(crate) id: i64,
}

impl Model for IdBase {
    ghost use Rattle.std.specs.Prelude.{◌≡◌, ℤ, true};
    ghost use Rattle.osm_model.specs.Id.{is_id};

    ghost Value = { ℤ };

    ghost view = { λ b. b.id };

    ghost invariant = { λ b. is_id b.id ≡ true };
}

/// The base of a field of numbers up to 4294967295: times and changesets. Contracts see the number.
#[derive(Drop)]
pub struct NumberBase {
    pub(crate) number: u32,
}

impl Model for NumberBase {
    ghost use Rattle.std.specs.Prelude.{ℕ};

    ghost Value = { ℕ };

    ghost view = { λ b. b.number };
}

/// The base of a longitude or a latitude. Contracts see the coordinate.
#[derive(Drop)]
pub struct CoordinateBase {
    pub(crate) coordinate: i32,
}

impl Model for CoordinateBase {
    ghost use Rattle.std.specs.Prelude.{ℤ};

    ghost Value = { ℤ };

    ghost view = { λ b. b.coordinate };
}
