//! Writing the bodies of data sets.
ghost use Rattle.std.specs.Prelude.{◌≡◌, ◌++◌, ◌∷◌, true, length, OnOk};
ghost use Rattle.std.specs.List.{list_all};
ghost use Rattle.osm_model.specs.Id.{is_id};
ghost use Rattle.osm_model.specs.Data.{ids_of};
ghost use Rattle.osm_model.specs.Members.{ids_of_members};
ghost use Rattle.o5_codec.specs.Shortest.{shortest_number};
ghost use Rattle.o5_codec.specs.Appended.{AppendsSpelling};
ghost use Rattle.o5_codec.specs.Writing as spec;

use crate::write::segment::EncoderSegment;
use crate::write::set_buffer::SetBuffer;
use crate::write::string_key::StringKey;
use osm_model::{Body, Member, Memory, Tag};

impl EncoderSegment {
    /// Appends a body. `section` is a buffer for the section of references or members, whose length comes before it.
    #[tactic(auto, unfolding(crate::specs::Writing::body_spelling))]
    pub(crate) fn append_body(
        &mut self,
        out: &mut SetBuffer,
        section: &mut SetBuffer,
        body: &Body,
    ) -> Result<(), Memory>
        requires { list_all is_id (ids_of body.now) ≡ true }
        ensures { OnOk result (AppendsSpelling out.old out.new self.new (spec.body_spelling body.now self.old)) }
    {
        match body {
            Body::Deleted(_) => Ok(()),
            Body::Node { lon, lat, tags } => {
                self.append_longitude(out, *lon)?;
                self.append_latitude(out, *lat)?;
                self.append_tags(out, tags.as_slice())?;
                Ok(())
            }
            Body::Way { refs, tags } => {
                self.append_references(out, section, refs.as_slice())?;
                self.append_tags(out, tags.as_slice())?;
                Ok(())
            }
            Body::Relation { members, tags } => {
                self.append_members(out, section, members.as_slice())?;
                self.append_tags(out, tags.as_slice())?;
                Ok(())
            }
        }
    }

    #[inline(always)]
    #[tactic(auto, unfolding(crate::specs::Writing::tags_spelling))]
    fn append_tags(&mut self, out: &mut SetBuffer, tags: &[Tag]) -> Result<(), Memory>
        ensures { OnOk result (AppendsSpelling out.old out.new self.new (spec.tags_spelling tags.now self.old)) }
    {
        for tag in tags {
            self.append_strings(out, StringKey::of_tag(tag))?;
        }
        Ok(())
    }

    /// Appends the section of a way's references, which is made in `section`.
    #[tactic(auto, unfolding(crate::specs::Writing::section_spelling))]
    fn append_references(
        &mut self,
        out: &mut SetBuffer,
        section: &mut SetBuffer,
        ids: &[i64],
    ) -> Result<(), Memory>
        requires { list_all is_id ids.now ≡ true }
        ensures { OnOk result
            (AppendsSpelling out.old out.new self.new
            (spec.section_spelling (spec.references_spelling ids.now) self.old)) }
    {
        section.clear();
        self.append_each_reference(section, ids)?;
        append_section(out, section)
    }

    #[tactic(auto, unfolding(crate::specs::Writing::references_spelling))]
    fn append_each_reference(&mut self, out: &mut SetBuffer, ids: &[i64]) -> Result<(), Memory>
        requires { list_all is_id ids.now ≡ true }
        ensures { OnOk result (AppendsSpelling out.old out.new self.new (spec.references_spelling ids.now self.old)) }
    {
        for id in ids {
            self.append_reference(out, *id)?;
        }
        Ok(())
    }

    /// Appends the section of a relation's members, which is made in `section`.
    #[tactic(auto, unfolding(crate::specs::Writing::section_spelling))]
    fn append_members(
        &mut self,
        out: &mut SetBuffer,
        section: &mut SetBuffer,
        members: &[Member],
    ) -> Result<(), Memory>
        requires { list_all is_id (ids_of_members members.now) ≡ true }
        ensures { OnOk result
            (AppendsSpelling out.old out.new self.new
            (spec.section_spelling (spec.members_spelling members.now) self.old)) }
    {
        section.clear();
        self.append_each_member(section, members)?;
        append_section(out, section)
    }

    #[tactic(auto, unfolding(crate::specs::Writing::members_spelling))]
    fn append_each_member(&mut self, out: &mut SetBuffer, members: &[Member]) -> Result<(), Memory>
        requires { list_all is_id (ids_of_members members.now) ≡ true }
        ensures { OnOk result (AppendsSpelling out.old out.new self.new (spec.members_spelling members.now self.old)) }
    {
        for member in members {
            self.append_member(out, member)?;
        }
        Ok(())
    }

    /// Appends a member: its id, and then its kind and its role as a single string.
    #[tactic(auto, unfolding(crate::specs::Writing::member_spelling))]
    fn append_member(&mut self, out: &mut SetBuffer, member: &Member) -> Result<(), Memory>
        requires { is_id member.now.id ≡ true }
        ensures { OnOk result (AppendsSpelling out.old out.new self.new (spec.member_spelling member.now self.old)) }
    {
        self.append_member_id(out, member.kind, member.id)?;
        self.append_strings(out, StringKey::of_member(member.kind, &member.role))?;
        Ok(())
    }
}

/// Appends the length of a section, and then the section.
fn append_section(out: &mut SetBuffer, section: &SetBuffer) -> Result<(), Memory>
    ensures { OnOk result (out.new ≡ out.old ++ (shortest_number (length section.now) ++ section.now)) }
{
    out.append_number(section.len())?;
    out.append_buffer(section)
}
