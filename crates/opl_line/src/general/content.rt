//! Readers of the contents of fields. They allocate nothing.
ghost use Rattle.std.specs.Prelude.{◌≡◌};
ghost use Rattle.opl_line.specs.Number.{reading_coordinate};
ghost use Rattle.opl_line.specs.Time.{reading_time};
ghost use Rattle.opl_line.specs.Field as spec;

use crate::OplReason;
use crate::number::{GREATEST_NUMBER, read_coordinate, read_number};
use crate::time::read_time;

/// A number of 32 bits: a version number, a changeset or a user id.
pub(crate) fn read_number_32(content: &[u8]) -> Result<u64, OplReason>
    ensures { result ≡ spec.reading_number_32 content.now }
{
    read_number(content, GREATEST_NUMBER)
}

/// Whether an object was deleted: `D` for deleted, `V` for visible.
pub(crate) fn read_deleted(content: &[u8]) -> Result<bool, OplReason>
    ensures { result ≡ spec.reading_deleted content.now }
{
    match content {
        b"V" => Ok(false),
        b"D" => Ok(true),
        _ => Err(OplReason::BadText),
    }
}

/// A changeset or a user id. It is 0 if the content is empty.
pub(crate) fn read_count(content: &[u8]) -> Result<u64, OplReason>
    ensures { result ≡ spec.reading_count content.now }
{
    if content.is_empty() {
        return Ok(0);
    }
    read_number_32(content)
}

/// A time, or `None` if the content is empty.
pub(crate) fn read_optional_time(content: &[u8]) -> Result<Option<u64>, OplReason>
    ensures { result ≡ spec.reading_optional reading_time content.now }
{
    if content.is_empty() {
        return Ok(None);
    }
    Ok(Some(u64::from(read_time(content)?)))
}

/// A coordinate, or `None` if the content is empty.
pub(crate) fn read_optional_coordinate(content: &[u8]) -> Result<Option<i32>, OplReason>
    ensures { result ≡ spec.reading_optional reading_coordinate content.now }
{
    if content.is_empty() {
        return Ok(None);
    }
    Ok(Some(read_coordinate(content)?))
}
