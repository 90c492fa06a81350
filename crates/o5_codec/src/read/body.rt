//! The bodies of data sets.
ghost use Rattle.std.specs.Prelude.{◌≡◌, ◌<◌, [], length, IfOk};
ghost use Rattle.o5_codec.specs.Results.{O5Gives, O5Reads};
ghost use Rattle.o5_codec.specs.Items.{items_at, and_one_more};
ghost use Rattle.o5_codec.specs.Body as spec;

use crate::O5Reason;
use crate::base::Bases;
use crate::read::number::{count_ended, read_number, read_signed};
use crate::read::segment::{ListsSeen, Segment};
use crate::read::strings::read_spelled;
use crate::read::text::to_text;
use crate::strings::Form;
use osm_model::{Body, Kind, Member, Members, Memory, References, Spare, Tag, Tags};

impl ListsSeen {
    /// The lists that the segment has had after a way whose section of references is `section`.
    fn with_section(self, section: &[u8]) -> Result<ListsSeen, O5Reason>
        ensures { result ≡ spec.with_section self section.now }
    {
        if section.is_empty() {
            return Ok(self);
        }
        match self {
            ListsSeen::Neither | ListsSeen::References => Ok(ListsSeen::References),
            ListsSeen::NodeMembers => Err(O5Reason::MixedSegment),
        }
    }

    /// The lists that the segment has had after a member of the kind `kind`.
    fn with_member(self, kind: Kind) -> Result<ListsSeen, O5Reason>
        ensures { result ≡ spec.with_member self kind }
    {
        match (kind, self) {
            (Kind::Node, ListsSeen::References) => Err(O5Reason::MixedSegment),
            (Kind::Node, _) => Ok(ListsSeen::NodeMembers),
            (Kind::Way | Kind::Relation, _) => Ok(self),
        }
    }
}

impl Bases {
    /// The id of a member of the kind `kind`, by its difference to the base. The base moves to the id.
    fn move_member(&mut self, kind: Kind, difference: i64) -> Result<i64, O5Reason>
        ensures { O5Gives (λ id. (id, self.new)) (spec.moved_member self.old kind difference) result }
    {
        match kind {
            Kind::Node => self.node_member.move_by(difference),
            Kind::Way => self.way_member.move_by(difference),
            Kind::Relation => self.relation_member.move_by(difference),
        }
    }
}

impl Segment {
    /// Reads the body of an object of `kind`, to the end of the bytes, and replaces `body`, which holds no memory. If
    /// `bytes` is empty, the object was deleted.
    #[tactic(auto, unfolding(crate::specs::Body::body_at))]
    pub(crate) fn read_body(
        &mut self,
        kind: Kind,
        bytes: &[u8],
        spare: &mut Spare,
        body: &mut Body,
    ) -> Result<(), O5Reason>
        ensures { O5Reads (λ _. (body.new, self.new)) (spec.body_at kind self.old bytes.now) result }
    {
        if bytes.is_empty() {
            body.overwrite(Body::Deleted(kind));
            return Ok(());
        }
        match kind {
            Kind::Node => self.read_node(bytes, spare, body),
            Kind::Way => self.read_way(bytes, spare, body),
            Kind::Relation => self.read_relation(bytes, spare, body),
        }
    }

    /// Reads the location and the tags of a node to the end of the bytes, and replaces `body` by the node.
    #[tactic(auto, unfolding(crate::specs::Body::node_at))]
    fn read_node(
        &mut self,
        bytes: &[u8],
        spare: &mut Spare,
        body: &mut Body,
    ) -> Result<(), O5Reason>
        ensures { O5Reads (λ _. (body.new, self.new)) (spec.node_at self.old bytes.now) result }
    {
        let (lon, rest) = self.read_longitude(bytes)?;
        let (lat, rest) = self.read_latitude(rest)?;
        // Most nodes have no tags. This path moves no list of tags.
        if rest.is_empty() {
            let tags = self.no_tags();
            body.overwrite(Body::Node { lon, lat, tags });
            return Ok(());
        }
        self.read_tagged_node(lon, lat, rest, spare, body)
    }

    /// Reads the tags of a node to the end of the bytes, and replaces `body` by the node at `lon` and `lat`. This is a
    /// function of its own only for the optimizer, since most nodes have no tags. Five such functions of this crate
    /// bring 5 percent of a merge of o5m files.
    #[inline(always)]
    fn read_tagged_node(
        &mut self,
        lon: i32,
        lat: i32,
        bytes: &[u8],
        spare: &mut Spare,
        body: &mut Body,
    ) -> Result<(), O5Reason>
        ensures { O5Reads (λ _. (body.new, self.new)) (spec.node_body_at lon lat self.old bytes.now) result }
    {
        let tags = self.read_each_tag(bytes, spare)?;
        body.overwrite(Body::Node { lon, lat, tags });
        Ok(())
    }

    /// The longitude in units of 10^-7 degree, and the bytes after it.
    #[tactic(auto, unfolding(crate::specs::Body::longitude_at))]
    fn read_longitude<'a>(&mut self, bytes: &'a [u8]) -> Result<(i32, &'a [u8]), O5Reason>
        ensures { O5Gives (λ x. (x.0, self.new, x.1.now)) (spec.longitude_at self.old bytes.now) result }
    {
        self.bases.lon.read(bytes)
    }

    /// The latitude in units of 10^-7 degree, and the bytes after it.
    #[tactic(auto, unfolding(crate::specs::Body::latitude_at))]
    fn read_latitude<'a>(&mut self, bytes: &'a [u8]) -> Result<(i32, &'a [u8]), O5Reason>
        ensures { O5Gives (λ x. (x.0, self.new, x.1.now)) (spec.latitude_at self.old bytes.now) result }
    {
        self.bases.lat.read(bytes)
    }

    /// Reads the section of references and the tags of a way to the end of the bytes, and replaces `body` by the way.
    #[tactic(auto, unfolding(crate::specs::Body::way_at))]
    fn read_way(&mut self, bytes: &[u8], spare: &mut Spare, body: &mut Body) -> Result<(), O5Reason>
        ensures { O5Reads (λ _. (body.new, self.new)) (spec.way_at self.old bytes.now) result }
    {
        let (section, rest) = read_section(bytes)?;
        self.seen = self.seen.with_section(section)?;
        let refs = self.read_references(section, spare)?;
        let tags = self.read_tags(rest, spare)?;
        body.overwrite(Body::Way { refs, tags });
        Ok(())
    }

    /// Reads the section of members and the tags of a relation to the end of the bytes, and replaces `body` by the
    /// relation.
    #[tactic(auto, unfolding(crate::specs::Body::relation_at))]
    fn read_relation(
        &mut self,
        bytes: &[u8],
        spare: &mut Spare,
        body: &mut Body,
    ) -> Result<(), O5Reason>
        ensures { O5Reads (λ _. (body.new, self.new)) (spec.relation_at self.old bytes.now) result }
    {
        let (section, rest) = read_section(bytes)?;
        let members = self.read_members(section, spare)?;
        let tags = self.read_tags(rest, spare)?;
        body.overwrite(Body::Relation { members, tags });
        Ok(())
    }

    /// Reads references to the end of the bytes.
    fn read_references(&mut self, bytes: &[u8], spare: &mut Spare) -> Result<References, O5Reason>
        ensures { O5Reads (λ ids. (ids, self.new)) (items_at spec.reference_at self.old bytes.now) result }
    {
        let mut ids = room_for_references(bytes, spare)?;
        let mut rest = bytes;
        while !rest.is_empty() {
            let (id, after) = self.read_reference(rest)?;
            ids.push(id)?;
            rest = after;
        }
        Ok(References::from_vec(ids))
    }

    /// The next reference of a way, and the bytes after it.
    #[tactic(auto, unfolding(crate::specs::Body::reference_at))]
    fn read_reference<'a>(&mut self, bytes: &'a [u8]) -> Result<(i64, &'a [u8]), O5Reason>
        ensures value { O5Gives (λ x. (x.0, self.new, x.1.now)) (spec.reference_at self.old bytes.now) result }
        ensures shorter { IfOk result (λ x. length x.1.now < length bytes.now) }
    {
        self.bases.reference.read(bytes)
    }

    /// Reads members to the end of the bytes.
    fn read_members(&mut self, bytes: &[u8], spare: &mut Spare) -> Result<Members, O5Reason>
        ensures { O5Reads (λ members. (members, self.new)) (items_at spec.member_at self.old bytes.now) result }
    {
        let mut members = spare.take_members();
        let mut rest = bytes;
        while !rest.is_empty() {
            let (member, after) = self.read_member(rest)?;
            members.push(member)?;
            rest = after;
        }
        Ok(Members::from_vec(members))
    }

    /// The next member of a relation, and the bytes after it.
    #[tactic(auto, unfolding(crate::specs::Body::member_at, crate::specs::StringPair::strings_at))]
    fn read_member<'a>(&mut self, bytes: &'a [u8]) -> Result<(Member, &'a [u8]), O5Reason>
        ensures value { O5Reads (λ x. (x.0, self.new, x.1.now)) (spec.member_at self.old bytes.now) result }
        ensures shorter { IfOk result (λ x. length x.1.now < length bytes.now) }
    {
        let (difference, rest) = read_signed(bytes)?;
        let (spelled, rest) = read_spelled(Form::Single, rest)?;
        self.table.store(&spelled)?;
        let strings = self.table.strings(&spelled)?;
        let (kind, role) = split_kind(strings.first)?;
        self.seen = self.seen.with_member(kind)?;
        let id = self.bases.move_member(kind, difference)?;
        let role = to_text(self.table.allocator(), role)?;
        Ok((Member { kind, id, role }, rest))
    }

    /// Reads tags to the end of the bytes.
    #[inline(always)]
    fn read_tags(&mut self, bytes: &[u8], spare: &mut Spare) -> Result<Tags, O5Reason>
        ensures { O5Reads (λ tags. (tags, self.new)) (items_at spec.tag_at self.old bytes.now) result }
    {
        if bytes.is_empty() {
            return Ok(self.no_tags());
        }
        self.read_each_tag(bytes, spare)
    }

    #[inline(always)]
    fn no_tags(&self) -> Tags
        ensures { result ≡ [] }
    {
        Tags::from_vec(Vec::new(self.table.allocator()))
    }

    /// Reads tags to the end of the bytes, which are not empty. This is a function of its own only for the optimizer,
    /// since most objects have no tags: that brings 10 percent of a merge of o5m files.
    #[inline(never)]
    fn read_each_tag(&mut self, bytes: &[u8], spare: &mut Spare) -> Result<Tags, O5Reason>
        ensures { O5Reads (λ tags. (tags, self.new)) (items_at spec.tag_at self.old bytes.now) result }
    {
        let mut tags = spare.take_tags();
        let mut rest = bytes;
        while !rest.is_empty() {
            rest = self.add_tag(rest, &mut tags)?;
        }
        Ok(Tags::from_vec(tags))
    }

    /// Reads a tag and adds it to `tags`. Returns the bytes after the tag. If functions returned the tag, it would be
    /// moved four times.
    #[inline(always)]
    #[tactic(auto, unfolding(crate::specs::Body::tag_at, crate::specs::StringPair::strings_at))]
    fn add_tag<'a>(&mut self, bytes: &'a [u8], tags: &mut Vec<Tag>) -> Result<&'a [u8], O5Reason>
        ensures value { O5Reads (λ rest. (tags.new.items, self.new, rest.now))
            (and_one_more tags.old.items (spec.tag_at self.old bytes.now)) result }
        ensures shorter { IfOk result (λ rest. length rest.now < length bytes.now) }
    {
        let (spelled, rest) = read_spelled(Form::Pair, bytes)?;
        self.table.add_tag(&spelled, tags)?;
        Ok(rest)
    }
}

/// An empty list for the references in `bytes`: a list of `spare` that was used before, or a new one with room for all
/// references.
fn room_for_references(bytes: &[u8], spare: &mut Spare) -> Result<Vec<i64>, Memory>
    ensures { IfOk result (λ ids. ids.items ≡ []) }
{
    let mut ids = spare.take_references();
    if ids.capacity() == 0 {
        ids.reserve(count_ended(bytes))?;
    }
    Ok(ids)
}

/// The section at the front, which begins with its length, and the bytes after it.
#[tactic(auto, unfolding(crate::specs::Body::section_at))]
fn read_section(bytes: &[u8]) -> Result<(&[u8], &[u8]), O5Reason>
    ensures { O5Gives (λ x. (x.0.now, x.1.now)) (spec.section_at bytes.now) result }
{
    let (length, rest) = read_number(bytes)?;
    if length > rest.len() as u64 {
        return Err(O5Reason::BadSection);
    }
    Ok(rest.split_at(length as usize))
}

/// The kind of a member, by the first byte of `text`, and the role after that byte.
fn split_kind(text: &[u8]) -> Result<(Kind, &[u8]), O5Reason>
    ensures { O5Gives (λ x. (x.0, x.1.now)) (spec.kind_and_role text.now) result }
{
    match text.split_first() {
        Some((b'0', role)) => Ok((Kind::Node, role)),
        Some((b'1', role)) => Ok((Kind::Way, role)),
        Some((b'2', role)) => Ok((Kind::Relation, role)),
        _ => Err(O5Reason::BadMemberType),
    }
}
