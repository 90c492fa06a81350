//! The general reader, which reads any line field by field. Only this reader refuses lines.
ghost use Rattle.std.specs.Prelude.{◌≡◌, true};
ghost use Rattle.osm_model.specs.Id.{is_id};
ghost use Rattle.opl_line.specs.Results.{OplReads};
ghost use Rattle.opl_line.specs.Reading as spec;
ghost use Rattle.opl_line.specs.Within.{AreWithin};

mod content;
mod field;
mod item;
mod text;

use crate::OplReason;
use crate::bytes::cut::Delimiter;
use crate::number::read_id;
use field::Fields;
use item::split_kind;
use osm_model::{Body, Kind, Members, Meta, References, Spare, Tags, Text, Version};
use std::alloc::Global;

/// The version of a line that is UTF-8 and is not skipped. The version is made in the memory of `spare`, if there is
/// some.
///
/// # Errors
///
/// The reason of the leftmost faulty field. If there is none, the first that applies of `NoVersion`, `NoTime` and
/// `NoLocation`. `Memory` if an allocation fails.
pub(crate) fn read_version(
    alloc: Global,
    spare: &mut Spare,
    line: &str,
) -> Result<Version, OplReason>
    ensures { OplReads (spec.reading_version line.now) result }
{
    let (object, others) = Delimiter::Blanks.split(line);
    let (kind, id) = read_object(object.as_bytes())?;
    let mut fields = Fields::no_fields();
    fields.read(alloc, kind, others)?;
    to_version(alloc, spare, kind, id, &mut fields)
}

/// The kind and the id of an object, from the first field of a line.
fn read_object(field: &[u8]) -> Result<(Kind, i64), OplReason>
    ensures { result ≡ spec.reading_object field.now }
{
    let (kind, digits) = split_kind(field).ok_or(OplReason::UnknownKind)?;
    Ok((kind, read_id(digits)?))
}

/// The version of an object, from the fields of its line, which are within their ranges.
fn to_version(
    alloc: Global,
    spare: &mut Spare,
    kind: Kind,
    id: i64,
    fields: &mut Fields,
) -> Result<Version, OplReason>
    requires id { is_id id ≡ true }
    requires within { AreWithin fields.old }
    ensures { OplReads (spec.reading_whole kind id fields.old) result }
{
    let meta = to_meta(fields);
    if meta.version == 0 {
        return Err(OplReason::NoVersion);
    }
    if !meta.is_dated() {
        return Err(OplReason::NoTime);
    }
    let body = to_body(alloc, kind, fields)?;
    // The data has no fault, so only an allocation can fail.
    Ok(Version::from_checked_data(alloc, spare, id, meta, body)?)
}

/// The metadata of a version. The numbers of fields that the line lacks are 0. The user is taken out of `fields`.
fn to_meta(fields: &mut Fields) -> Meta
    ensures meta { result ≡ spec.meta_of fields.old }
    ensures rest { fields.new ≡ record fields.old { user = None } }
{
    Meta {
        version: fields.number.unwrap_or(0),
        time: fields.time.unwrap_or(None),
        changeset: fields.changeset.unwrap_or(0),
        uid: fields.uid.unwrap_or(0),
        user: fields.user.take().unwrap_or(Text::new()),
    }
}

/// The body of a version. The lists are taken out of `fields`; a list whose field the line lacks is empty.
///
/// # Errors
///
/// `NoLocation` if a visible node lacks its longitude or its latitude.
fn to_body(alloc: Global, kind: Kind, fields: &mut Fields) -> Result<Body, OplReason>
    ensures { result ≡ spec.reading_body kind fields.old }
{
    if fields.deleted.unwrap_or(false) {
        return Ok(Body::Deleted(kind));
    }
    let no_tags = Tags::from_vec(Vec::new(alloc));
    let tags = fields.tags.take().unwrap_or(no_tags);
    match kind {
        Kind::Node => {
            let longitude = fields.longitude.unwrap_or(None);
            let latitude = fields.latitude.unwrap_or(None);
            let (Some(lon), Some(lat)) = (longitude, latitude) else {
                return Err(OplReason::NoLocation);
            };
            Ok(Body::Node { lon, lat, tags })
        }
        Kind::Way => {
            let no_references = References::from_vec(Vec::new(alloc));
            let refs = fields.references.take().unwrap_or(no_references);
            Ok(Body::Way { refs, tags })
        }
        Kind::Relation => {
            let no_members = Members::from_vec(Vec::new(alloc));
            let members = fields.members.take().unwrap_or(no_members);
            Ok(Body::Relation { members, tags })
        }
    }
}
