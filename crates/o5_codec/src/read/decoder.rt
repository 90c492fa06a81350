//! Reading data sets.
ghost use Rattle.std.specs.Prelude.{◌≡◌, ◌⊎◌, Ok, true, false, IfOk, IfErr, OnOk};
ghost use Rattle.o5_codec.specs.Results.{O5Reads};
ghost use Rattle.o5_codec.specs.Body.{set_at};
ghost use Rattle.o5_codec.specs.Sound.{is_sound};
ghost use Rattle.o5_codec.specs.Decoder.{new_segment, reading_in, Reads};
ghost use Rattle.o5_codec.specs.Spelling.{SpellsSet};
ghost use Rattle.o5_codec.specs.Refusal.{SetReason};

use crate::O5Reason;
use crate::base::Bases;
use crate::read::segment::{ListsSeen, Segment};
use crate::read::table::Table;
use osm_model::{Kind, Memory, Parts, Spare, Version};
use std::alloc::Global;
use std::marker::Model;

/// Reads the data sets of o5m and o5c files in sequence, each relative to those before it in its segment.
#[derive(Drop)]
pub struct Decoder {
    segment: Segment,
    failed: bool,
    /// The memory of versions that were given back; the next version is made in it.
    spare: Spare,
}

impl Model for Decoder {
    ghost use Rattle.std.specs.Prelude.{◌≡◌, true, false};
    ghost use Rattle.o5_codec.specs.Decoder.{DecoderState};
    ghost use Rattle.o5_codec.specs.Sound.{is_sound};

    ghost Value = { DecoderState };

    ghost view = { λ d. record { segment = d.segment; failed = d.failed } };

    ghost invariant = { λ d. d.failed ≡ false → is_sound d.segment ≡ true };
}

impl Decoder {
    /// A decoder at the start of a segment, with room for all entries of its string table.
    ///
    /// # Errors
    ///
    /// `Memory` if the string table can't be allocated.
    pub fn new(alloc: Global) -> Result<Decoder, Memory>
        ensures { IfOk result (λ d. d ≡ reading_in new_segment) }
    {
        Ok(Decoder {
            segment: Segment::new(alloc)?,
            failed: false,
            spare: Spare::new(alloc),
        })
    }

    /// Reads the version of an object of `kind` from the content of a data set.
    ///
    /// # Errors
    ///
    /// The reason of the first step that can't be done, or `Memory`. After an error every call returns `Failed`.
    pub fn read_set(&mut self, kind: Kind, content: &[u8]) -> Result<Version, O5Reason>
        ensures state { Reads kind content.now self.old self.new result }
        ensures spelled { IfOk result (λ v. SpellsSet kind self.old.segment content.now (v, self.new.segment)) }
        ensures refused { IfErr result (λ reason.
            self.old.failed ≡ false → (reason ≡ O5Reason.Memory) ⊎ SetReason kind self.old.segment content.now reason) }
    {
        if self.failed {
            return Err(O5Reason::Failed);
        }
        match self.segment.read_set(kind, content, &mut self.spare) {
            Ok(version) => Ok(version),
            Err(reason) => {
                self.failed = true;
                Err(reason)
            }
        }
    }

    /// Takes back a version that isn't needed any more. The next version is made in its memory.
    #[inline(always)]
    pub fn reuse(&mut self, version: Version)
        ensures { self.new ≡ self.old }
    {
        self.spare.put(version);
    }

    /// Begins a segment: all bases are 0, and the string table is empty. A decoder that has failed remains failed.
    pub fn reset(&mut self)
        ensures { self.new ≡ record { segment = new_segment; failed = self.old.failed } }
    {
        self.segment.clear();
    }
}

impl Segment {
    fn new(alloc: Global) -> Result<Segment, Memory>
        ensures { IfOk result (λ s. s ≡ new_segment) }
    {
        Ok(Segment {
            bases: Bases::new(),
            table: Table::new(alloc)?,
            seen: ListsSeen::Neither,
        })
    }

    fn clear(&mut self)
        ensures { self.new ≡ new_segment }
    {
        self.bases = Bases::new();
        self.table.clear();
        self.seen = ListsSeen::Neither;
    }

    /// Reads the version of a data set. The version is made in the memory of `spare`, if `spare` has some.
    #[tactic(auto, unfolding(crate::specs::Body::set_at))]
    fn read_set(
        &mut self,
        kind: Kind,
        content: &[u8],
        spare: &mut Spare,
    ) -> Result<Version, O5Reason>
        requires { is_sound self.old ≡ true }
        ensures value { O5Reads (λ v. (v, self.new)) (set_at kind self.old content.now) result }
        ensures sound { OnOk result (is_sound self.new ≡ true) }
    {
        let mut parts = Parts::recycled_or_new(self.table.allocator(), spare)?;
        let (id, rest) = self.read_id(content)?;
        parts.id = id;
        let rest = self.read_meta(rest, &mut parts.meta)?;
        self.read_body(kind, rest, spare, &mut parts.body)?;
        // A version that is read is within all ranges.
        Ok(Version::from_checked_parts(parts))
    }
}
