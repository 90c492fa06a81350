//! The fields of an OPL line.
ghost use Rattle.std.specs.Prelude.{◌≡◌, ◌⊎◌, Ok, Err, MatchResult, option_copied};
ghost use Rattle.opl_line.specs.declared.bytes.cut.Delimiter.TheVariants.{Blanks};
ghost use Rattle.opl_line.specs.declared.reason.OplReason.TheVariants.{Memory};
ghost use Rattle.opl_line.specs.Delimiter.{is_end, pieces_of};

use super::content::{
    read_count, read_deleted, read_number_32, read_optional_coordinate, read_optional_time,
};
use super::item::read_list;
use super::text::read_text;
use crate::OplReason;
use crate::bytes::cut::Delimiter;
use osm_model::{Kind, Members, References, Tags, Text};
use std::alloc::Global;

/// The content of each field of a line; `None` if the line does not have the field.
#[derive(Debug, Drop)]
pub(crate) struct Fields {
    /// `v`: the version number; 0 means none.
    pub(crate) number: Option<u64>,
    /// `d`: whether the object was deleted.
    pub(crate) deleted: Option<bool>,
    /// `c`: the changeset.
    pub(crate) changeset: Option<u64>,
    /// `t`: the time, in seconds since 1970-01-01T00:00:00Z.
    pub(crate) time: Option<Option<u64>>,
    /// `i`: the user id.
    pub(crate) uid: Option<u64>,
    /// `u`: the user name.
    pub(crate) user: Option<Text>,
    /// `T`: the tags.
    pub(crate) tags: Option<Tags>,
    /// `x`: the longitude, in units of 10^-7 degree.
    pub(crate) longitude: Option<Option<i32>>,
    /// `y`: the latitude, in units of 10^-7 degree.
    pub(crate) latitude: Option<Option<i32>>,
    /// `N`: the references of a way.
    pub(crate) references: Option<References>,
    /// `M`: the members of a relation.
    pub(crate) members: Option<Members>,
}

impl Fields {
    ghost use Rattle.opl_line.specs.Field as spec;

    /// The fields of a line that has none.
    pub(crate) fn no_fields() -> Fields
        ensures { result ≡ spec.no_fields }
    {
        Fields {
            number: None,
            deleted: None,
            changeset: None,
            time: None,
            uid: None,
            user: None,
            tags: None,
            longitude: None,
            latitude: None,
            references: None,
            members: None,
        }
    }

    /// Adds the contents of the fields in `text`, which is the line after its first blank. The object has the kind
    /// `kind`.
    ///
    /// # Errors
    ///
    /// The reason of the leftmost faulty field, or `Memory`.
    pub(crate) fn read(
        &mut self,
        alloc: Global,
        kind: Kind,
        text: Option<&str>,
    ) -> Result<(), OplReason>
        ensures { MatchResult result
            (λ _. spec.reading_fields kind (pieces_of (is_end Blanks) (option_copied text.entry)) self.old
            ≡ Ok self.new)
            (λ reason. (reason ≡ Memory)
            ⊎ (spec.reading_fields kind (pieces_of (is_end Blanks) (option_copied text.entry)) self.old
            ≡ Err reason)) }
    {
        let mut rest = text;
        'fields: while let Some(text) = rest {
            let (field, after) = Delimiter::Blanks.split(text);
            self.add(alloc, kind, field)?;
            rest = after;
        }
        Ok(())
    }

    /// Adds the content of one more field. An empty field has none.
    fn add(&mut self, alloc: Global, kind: Kind, field: &str) -> Result<(), OplReason>
        ensures { MatchResult result
            (λ _. spec.reading_field kind field.now self.old ≡ Ok self.new)
            (λ reason. (reason ≡ Memory) ⊎ (spec.reading_field kind field.now self.old ≡ Err reason)) }
    {
        let Some(letter) = field.as_bytes().first() else {
            return Ok(());
        };
        if self.has(*letter) {
            return Err(OplReason::RepeatedField);
        }
        if !letter.is_ascii() {
            return Err(OplReason::UnknownField);
        }
        self.add_content(alloc, kind, *letter, &field[1..])
    }

    /// Whether a field with the letter `letter` was read.
    fn has(&self, letter: u8) -> bool
        ensures { result ≡ spec.has_field self.now letter }
    {
        match letter {
            b'v' => self.number.is_some(),
            b'd' => self.deleted.is_some(),
            b'c' => self.changeset.is_some(),
            b't' => self.time.is_some(),
            b'i' => self.uid.is_some(),
            b'u' => self.user.is_some(),
            b'T' => self.tags.is_some(),
            b'x' => self.longitude.is_some(),
            b'y' => self.latitude.is_some(),
            b'N' => self.references.is_some(),
            b'M' => self.members.is_some(),
            _ => false,
        }
    }

    /// Adds the content of the field with the letter `letter`.
    fn add_content(
        &mut self,
        alloc: Global,
        kind: Kind,
        letter: u8,
        content: &str,
    ) -> Result<(), OplReason>
        ensures { MatchResult result
            (λ _. spec.with_field kind letter content.now self.old ≡ Ok self.new)
            (λ reason. (reason ≡ Memory) ⊎ (spec.with_field kind letter content.now self.old ≡ Err reason)) }
    {
        match letter {
            b'v' => self.number = Some(read_number_32(content.as_bytes())?),
            b'd' => self.deleted = Some(read_deleted(content.as_bytes())?),
            b'c' => self.changeset = Some(read_count(content.as_bytes())?),
            b't' => self.time = Some(read_optional_time(content.as_bytes())?),
            b'i' => self.uid = Some(read_count(content.as_bytes())?),
            b'u' => self.user = Some(read_text(alloc, content)?),
            b'T' => self.tags = Some(Tags::from_vec(read_list(alloc, content)?)),
            _ => return self.add_body_content(alloc, kind, letter, content),
        }
        Ok(())
    }

    /// Adds the content of a field that only one kind of object has.
    fn add_body_content(
        &mut self,
        alloc: Global,
        kind: Kind,
        letter: u8,
        content: &str,
    ) -> Result<(), OplReason>
        ensures { MatchResult result
            (λ _. spec.with_body_field kind letter content.now self.old ≡ Ok self.new)
            (λ reason. (reason ≡ Memory) ⊎ (spec.with_body_field kind letter content.now self.old ≡ Err reason)) }
    {
        match (kind, letter) {
            (Kind::Node, b'x') => self.longitude = Some(read_optional_coordinate(
                content.as_bytes(),
            )?),
            (Kind::Node, b'y') => self.latitude = Some(read_optional_coordinate(
                content.as_bytes(),
            )?),
            (Kind::Way, b'N') => self.references = Some(References::from_vec(read_list(
                alloc, content,
            )?)),
            (Kind::Relation, b'M') => self.members = Some(Members::from_vec(read_list(
                alloc, content,
            )?)),
            _ => return Err(OplReason::UnknownField),
        }
        Ok(())
    }
}
