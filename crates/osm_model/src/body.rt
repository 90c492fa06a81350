//! The bodies of versions.
ghost use Rattle.std.specs.Prelude.{◌≡◌, ◌↔◌, [], IfOk, IsTrue};
ghost use Rattle.std.specs.Bool.{OnFalse};
ghost use Rattle.std.specs.List.{list_all};
ghost use Rattle.osm_model.specs.Id.{is_id};
ghost use Rattle.osm_model.specs.Text.{is_text};
ghost use Rattle.osm_model.specs.Valid.{IsInRange};
ghost use Rattle.osm_model.specs.Data.{kind_of, is_deleted, tags_of, ids_of, texts_of, normal_body};
ghost use Rattle.osm_model.specs.declared.kind.Kind.TheVariants as kind;
ghost use Rattle.osm_model.specs.declared.body.Body.TheVariants.{Deleted};

use crate::members::{have_ids, have_texts};
use crate::references::are_ids;
use crate::same::Same;
use crate::{Kind, Members, Memory, References, Tag, Tags};
use std::mem;

/// The data of a version other than its id and its metadata.
#[derive(Debug, Drop)]
pub enum Body {
    /// A deleted version has a kind and nothing else.
    Deleted(Kind),
    /// A location in units of 10^-7 degree, and tags.
    Node { lon: i32, lat: i32, tags: Tags },
    /// References to nodes, and tags.
    Way { refs: References, tags: Tags },
    /// Members, and tags.
    Relation { members: Members, tags: Tags },
}

impl Body {
    /// The kind, which a deleted version has, too.
    pub fn kind(&self) -> Kind
        ensures { result ≡ kind_of self.now }
    {
        match self {
            Body::Deleted(kind) => *kind,
            Body::Node { .. } => Kind::Node,
            Body::Way { .. } => Kind::Way,
            Body::Relation { .. } => Kind::Relation,
        }
    }

    /// Whether the version is deleted. Such a body has a kind and nothing else.
    pub fn is_deleted(&self) -> bool
        ensures { result ≡ is_deleted self.now }
    {
        matches!(self, Body::Deleted(_))
    }

    /// The tags; a deleted version has none.
    pub fn tags(&self) -> &[Tag]
        ensures { result.now ≡ tags_of self.now }
    {
        match self {
            Body::Deleted(_) => &[],
            Body::Node { tags, .. } | Body::Way { tags, .. } | Body::Relation { tags, .. } => {
                tags.as_slice()
            }
        }
    }

    /// Whether each reference and the id of each member is in the range of ids.
    pub(crate) fn are_ids(&self) -> bool
        ensures { result ≡ list_all is_id (ids_of self.now) }
    {
        match self {
            Body::Deleted(_) | Body::Node { .. } => true,
            Body::Way { refs, .. } => are_ids(refs.as_slice()),
            Body::Relation { members, .. } => have_ids(members.as_slice()),
        }
    }

    /// Whether no text of the body holds the character U+0000.
    pub(crate) fn are_texts(&self) -> bool
        ensures { result ≡ list_all is_text (texts_of self.now) }
    {
        match self {
            Body::Deleted(_) => true,
            Body::Node { tags, .. } | Body::Way { tags, .. } => tags.are_texts(),
            Body::Relation { members, tags } => have_texts(members.as_slice()) && tags.are_texts(),
        }
    }

    /// Whether the body may hold memory.
    #[inline(always)]
    pub(crate) fn has_memory(&self) -> bool
        ensures ids { OnFalse result (ids_of self.now ≡ []) }
        ensures texts { OnFalse result (texts_of self.now ≡ []) }
    {
        match self {
            Body::Deleted(_) => false,
            Body::Node { tags, .. } => tags.has_memory(),
            Body::Way { .. } | Body::Relation { .. } => true,
        }
    }

    /// Replaces the body. This is the assignment `*self = body`, but faster if the old body holds no memory.
    #[inline(always)]
    pub fn overwrite(&mut self, body: Body)
        ensures { self.new ≡ body }
    {
        if self.has_memory() {
            self.release();
        }
        // The old body holds no memory here, so it is forgotten and not dropped.
        mem::forget(mem::replace(self, body));
    }

    /// Drops the contents of the body, and leaves the body of a deleted node.
    #[inline(never)]
    pub(crate) fn release(&mut self)
        ensures { self.new ≡ Deleted kind.Node }
    {
        *self = Body::Deleted(Kind::Node);
    }

    /// Shows contracts that the location of a node is within its range. The code only reads the two numbers, which have
    /// 32 bits.
    #[inline(always)]
    pub(crate) fn show_in_range(&self)
        ensures { IsInRange self.now }
    {
        if let Body::Node { lon, lat, .. } = self {
            let _location = (*lon, *lat);
        }
    }

    /// Sorts the tags and drops repeats.
    #[inline(always)]
    pub(crate) fn normalize(&mut self)
        ensures { self.new ≡ normal_body self.old }
    {
        match self {
            Body::Deleted(_) => {}
            Body::Node { tags, .. } => tags.normalize(),
            Body::Way { tags, .. } => tags.normalize(),
            Body::Relation { tags, .. } => tags.normalize(),
        }
    }

    /// An equal body, with copies of its lists and texts.
    ///
    /// # Errors
    ///
    /// Only out of memory.
    pub fn copy(&self) -> Result<Body, Memory>
        ensures { IfOk result (λ b. b ≡ self.now) }
    {
        match self {
            Body::Deleted(kind) => Ok(Body::Deleted(*kind)),
            Body::Node { lon, lat, tags } => Ok(Body::Node {
                lon: *lon,
                lat: *lat,
                tags: tags.copy()?,
            }),
            Body::Way { refs, tags } => Ok(Body::Way {
                refs: refs.copy()?,
                tags: tags.copy()?,
            }),
            Body::Relation { members, tags } => Ok(Body::Relation {
                members: members.copy()?,
                tags: tags.copy()?,
            }),
        }
    }
}

impl Same for Body {
    fn is_same(&self, other: &Body) -> bool {
        match (self, other) {
            (Body::Deleted(left), Body::Deleted(right)) => left == right,
            (
                Body::Node { lon, lat, tags },
                Body::Node {
                    lon: other_lon,
                    lat: other_lat,
                    tags: other_tags,
                },
            ) => lon == other_lon && lat == other_lat && tags.is_same(other_tags),
            (
                Body::Way { refs, tags },
                Body::Way {
                    refs: other_refs,
                    tags: other_tags,
                },
            ) => refs.is_same(other_refs) && tags.is_same(other_tags),
            (
                Body::Relation { members, tags },
                Body::Relation {
                    members: other_members,
                    tags: other_tags,
                },
            ) => members.is_same(other_members) && tags.is_same(other_tags),
            _ => false,
        }
    }
}
