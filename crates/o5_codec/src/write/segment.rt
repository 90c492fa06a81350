//! The context of a data set that is written, and the steps of a data set before its body.
ghost use Rattle.std.specs.Prelude.{◌≡◌, ◌<◌, ◌^◌, true, IfOk, OnOk, unwrap_or};
ghost use Rattle.osm_model.specs.Id.{is_id};
ghost use Rattle.o5_codec.specs.Encoder.{new_encoder_segment};
ghost use Rattle.o5_codec.specs.Formed.{reference_to};
ghost use Rattle.o5_codec.specs.Appended.{AppendsSpelling};
ghost use Rattle.o5_codec.specs.StringKey.{formed_of};
ghost use Rattle.o5_codec.specs.Writing as spec;

use crate::base::Bases;
use crate::write::entry::Entry;
use crate::write::indexed_table::IndexedTable;
use crate::write::set_buffer::SetBuffer;
use crate::write::slot::Slot;
use crate::write::string_key::StringKey;
use osm_model::{Kind, Memory, Version};
use std::alloc::Global;
use std::marker::Model;

/// The part of a segment that later data sets are written relative to. Contracts see the bases and the table.
#[derive(Drop)]
pub(crate) struct EncoderSegment {
    bases: Bases,
    table: IndexedTable,
    /// The entry that is filled and appended; its buffer is reused.
    entry: Entry,
}

impl Model for EncoderSegment {
    ghost use Rattle.o5_codec.specs.Writing.{EncoderSegment};

    ghost Value = { EncoderSegment };

    ghost view = { λ c. record { bases = c.bases; table = c.table } };
}

impl EncoderSegment {
    /// The context at the start of a segment.
    pub(crate) fn new(alloc: Global) -> Result<EncoderSegment, Memory>
        ensures { IfOk result (λ c. c ≡ new_encoder_segment) }
    {
        Ok(EncoderSegment {
            bases: Bases::new(),
            table: IndexedTable::new(alloc)?,
            entry: Entry::new(alloc),
        })
    }

    /// Begins a segment: all bases are 0, and the table is empty.
    pub(crate) fn clear(&mut self)
        ensures { self.new ≡ new_encoder_segment }
    {
        self.bases = Bases::new();
        self.table.clear();
    }

    /// Appends the content of a version's data set. `section` is a buffer for the section in it.
    #[tactic(auto, unfolding(crate::specs::Writing::content_spelling))]
    pub(crate) fn append_content(
        &mut self,
        out: &mut SetBuffer,
        section: &mut SetBuffer,
        v: &Version,
    ) -> Result<(), Memory>
        ensures { OnOk result (AppendsSpelling out.old out.new self.new (spec.content_spelling v.now self.old)) }
    {
        self.append_id(out, v.id())?;
        out.append_number(v.number())?;
        self.append_time(out, v.time().unwrap_or(0) as u32)?;
        self.append_author(out, v)?;
        self.append_body(out, section, v.body())?;
        Ok(())
    }

    #[tactic(auto, unfolding(crate::specs::Writing::id_spelling))]
    fn append_id(&mut self, out: &mut SetBuffer, id: i64) -> Result<(), Memory>
        requires { is_id id ≡ true }
        ensures { OnOk result (AppendsSpelling out.old out.new self.new (spec.id_spelling id self.old)) }
    {
        self.bases.id.append(out, id)
    }

    /// Appends a time in seconds since 1970-01-01T00:00:00Z; 0 is none.
    #[tactic(auto, unfolding(crate::specs::Writing::time_spelling))]
    fn append_time(&mut self, out: &mut SetBuffer, time: u32) -> Result<(), Memory>
        ensures { OnOk result (AppendsSpelling out.old out.new self.new (spec.time_spelling time self.old)) }
    {
        self.bases.time.append(out, time)
    }

    /// Appends changeset and user, if there is a time.
    #[tactic(auto, unfolding(crate::specs::Writing::author_spelling))]
    fn append_author(&mut self, out: &mut SetBuffer, v: &Version) -> Result<(), Memory>
        requires { v.now.changeset < 2 ^ 32 }
        ensures { OnOk result (AppendsSpelling out.old out.new self.new (spec.author_spelling v.now self.old)) }
    {
        match v.time() {
            None => Ok(()),
            Some(_) => {
                self.append_changeset(out, v.changeset() as u32)?;
                self.append_strings(out, StringKey::of_user(v.uid(), v.user()))?;
                Ok(())
            }
        }
    }

    #[tactic(auto, unfolding(crate::specs::Writing::changeset_spelling))]
    fn append_changeset(&mut self, out: &mut SetBuffer, changeset: u32) -> Result<(), Memory>
        ensures { OnOk result (AppendsSpelling out.old out.new self.new (spec.changeset_spelling changeset self.old)) }
    {
        self.bases.changeset.append(out, changeset)
    }

    /// Appends the strings of `key`: the reference of their entry if the table has it, else the strings inline.
    ///
    /// The function is inlined so that each caller has only the code for its kind of strings.
    #[inline(always)]
    #[tactic(auto, unfolding(crate::specs::Writing::strings_spelling))]
    pub(crate) fn append_strings(
        &mut self,
        out: &mut SetBuffer,
        key: StringKey<'_>,
    ) -> Result<(), Memory>
        ensures { OnOk result
            (AppendsSpelling out.old out.new self.new (spec.strings_spelling (formed_of key.entry) self.old)) }
    {
        if let Some(reference) = self.table.cached_reference(key) {
            return out.append_number(reference);
        }
        self.entry.fill(key)?;
        self.table.append(out, Slot::of(key), &self.entry)
    }

    /// Appends the id of a member. Members of each kind have their own base.
    #[tactic(auto, unfolding(crate::specs::Writing::member_id_spelling))]
    pub(crate) fn append_member_id(
        &mut self,
        out: &mut SetBuffer,
        kind: Kind,
        id: i64,
    ) -> Result<(), Memory>
        requires { is_id id ≡ true }
        ensures { OnOk result (AppendsSpelling out.old out.new self.new (spec.member_id_spelling kind id self.old)) }
    {
        match kind {
            Kind::Node => self.bases.node_member.append(out, id),
            Kind::Way => self.bases.way_member.append(out, id),
            Kind::Relation => self.bases.relation_member.append(out, id),
        }
    }

    /// Appends the reference of a way. All ways of a segment have one base.
    #[tactic(auto, unfolding(crate::specs::Writing::reference_spelling))]
    pub(crate) fn append_reference(&mut self, out: &mut SetBuffer, id: i64) -> Result<(), Memory>
        requires { is_id id ≡ true }
        ensures { OnOk result (AppendsSpelling out.old out.new self.new (spec.reference_spelling id self.old)) }
    {
        self.bases.reference.append(out, id)
    }

    /// Appends a longitude in units of 10^-7 degree.
    #[tactic(auto, unfolding(crate::specs::Writing::longitude_spelling))]
    pub(crate) fn append_longitude(&mut self, out: &mut SetBuffer, lon: i32) -> Result<(), Memory>
        ensures { OnOk result (AppendsSpelling out.old out.new self.new (spec.longitude_spelling lon self.old)) }
    {
        self.bases.lon.append(out, lon)
    }

    /// Appends a latitude in units of 10^-7 degree.
    #[tactic(auto, unfolding(crate::specs::Writing::latitude_spelling))]
    pub(crate) fn append_latitude(&mut self, out: &mut SetBuffer, lat: i32) -> Result<(), Memory>
        ensures { OnOk result (AppendsSpelling out.old out.new self.new (spec.latitude_spelling lat self.old)) }
    {
        self.bases.lat.append(out, lat)
    }
}
