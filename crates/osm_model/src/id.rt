//! Ids of objects.
ghost use Rattle.std.specs.Prelude.{◌≡◌};
ghost use Rattle.osm_model.specs.Id.{is_id};

/// Whether a number is an id: from -4611686018427387903 to 4611686018427387903.
pub fn is_id(id: i64) -> bool
    ensures { result ≡ is_id id }
{
    id.unsigned_abs() < 1 << 62
}
