//! Tags.
ghost use Rattle.std.specs.Prelude.{◌≡◌, ◌↔◌, Some, refl, IsTrue};
ghost use Rattle.std.specs.Ordering.{eq_by_cmp, as_partial_cmp};
ghost use Rattle.std.specs.Cmp.{eq_by_cmp_equiv, partial_equiv_from_equiv, partial_order_from_agreeing_total};
ghost use Rattle.std.specs.List.{list_all};
ghost use Rattle.osm_model.specs.Text.{is_text};
ghost use Rattle.osm_model.specs.Tags.{tag_cmp, tag_cmp_total, normal_tags, texts_of_tags};

use crate::items::{Item, ItemList};
use crate::same::Same;
use crate::{Memory, Text};
use std::cmp::Ordering;

/// A key with its value; both may be empty.
#[derive(Debug, Drop)]
pub struct Tag {
    pub key: Text,
    pub value: Text,
}

impl Item for Tag {
    fn copy(&self) -> Result<Tag, Memory> {
        Ok(Tag {
            key: self.key.copy()?,
            value: self.value.copy()?,
        })
    }
}

impl PartialEq for Tag {
    ghost eq = { eq_by_cmp tag_cmp };

    ghost laws = { partial_equiv_from_equiv (eq_by_cmp_equiv tag_cmp_total) };

    fn eq(&self, other: &Tag) -> bool {
        self.cmp(other) == Ordering::Equal
    }
}

impl Eq for Tag {
    ghost laws = { eq_by_cmp_equiv tag_cmp_total };
}

impl PartialOrd for Tag {
    ghost partial_cmp = { as_partial_cmp tag_cmp };

    ghost laws = { partial_order_from_agreeing_total tag_cmp tag_cmp_total (λ x y. refl) (λ x y. refl) };

    fn partial_cmp(&self, other: &Tag) -> Option<Ordering> {
        Some(self.cmp(other))
    }
}

impl Ord for Tag {
    ghost cmp = { tag_cmp };

    ghost total = { tag_cmp_total };

    ghost matches_partial_cmp = { λ x y. refl };

    ghost matches_eq = { λ x y. refl };

    fn cmp(&self, other: &Tag) -> Ordering {
        let key = self.key.as_str().cmp(other.key.as_str());
        if key != Ordering::Equal {
            return key;
        }
        self.value.as_str().cmp(other.value.as_str())
    }
}

/// Tags in some order.
pub type Tags = ItemList<Tag>;

impl ItemList<Tag> {
    /// Sorts the tags by the bytes of the key and then of the value, and drops repeats. The call allocates nothing.
    #[inline(always)]
    pub(crate) fn normalize(&mut self)
        ensures { self.new ≡ normal_tags self.old }
    {
        if !self.are_normal() {
            self.sort();
        }
    }

    /// Sorts the tags, whatever their order, and drops repeats.
    #[cold]
    #[inline(never)]
    fn sort(&mut self)
        ensures { self.new ≡ normal_tags self.old }
    {
        self.vec.sort_unstable();
        self.vec.dedup();
    }

    /// Whether each tag is below the next one. Fewer than two tags pass.
    #[tactic(auto, using(crate::proofs::TagLaws::few_normal))]
    #[inline(always)]
    pub(crate) fn are_normal(&self) -> bool
        ensures { IsTrue result ↔ (normal_tags self.now ≡ self.now) }
    {
        self.vec.len() < 2 || are_ascending(&self.vec)
    }

    /// Whether no key and no value holds the character U+0000.
    pub(crate) fn are_texts(&self) -> bool
        ensures { result ≡ list_all is_text (texts_of_tags self.now) }
    {
        self.vec
            .iter()
            .all(|tag| tag.key.is_text() && tag.value.is_text())
    }
}

/// Whether each tag is below the next one.
#[inline(never)]
fn are_ascending(tags: &[Tag]) -> bool
    ensures { IsTrue result ↔ (normal_tags tags.now ≡ tags.now) }
{
    tags.is_sorted_by(|left, right| left.cmp(right).is_lt())
}

impl Same for Tag {
    fn is_same(&self, other: &Tag) -> bool {
        self.key.is_same(&other.key) && self.value.is_same(&other.value)
    }
}
