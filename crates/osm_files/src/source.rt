//! Sources: versions in ascending order, one by one. A key group of one version, as nearly all are, is returned without
//! a list and without a sort.
ghost use Rattle.std.specs.Prelude.{◌≡◌, ℕ, ◌+◌, ◌<◌, [], ◌∷◌, Bool, true, false, None, Some, Ok, Err};
ghost use Rattle.std.specs.Prelude.{option_to_list, is_err, IsSome, IfOk, IfErr, OnErr};
ghost use Rattle.std.specs.Vec.Iter.{into_iter_items};
ghost use Rattle.osm_model.specs.Data.{VersionData};
ghost use Rattle.osm_files.specs.declared.fault.Fault.{Fault};
ghost use Rattle.osm_files.specs.Fault.{memory_fault, failed_fault};
ghost use Rattle.osm_files.specs.Input.{GivesOne};
ghost use Rattle.osm_files.specs.Stream.{SourceRest};
ghost use Rattle.osm_files.specs.Source.{Ascends, SourceSteps};
ghost use Rattle.osm_files.specs.Position.{units_left};
ghost use Rattle.osm_files.specs.Groups.{new_source, ended_source, with_group, versions_left, IsGroup, BeginsOn};
ghost use Rattle.osm_files.specs.Groups.{FileSteps, FileCanGive, given_at, known_or_whole, one_given, file_ascends};
ghost use Rattle.osm_files.specs.EndRule.{by_rule};
ghost use Rattle.osm_files.specs.Load.{Opens, StopsOpening};

use crate::end_rule::EndRule;
use crate::fault::Fault;
use crate::format::Format;
use crate::group::Group;
use crate::input::Input;
use crate::reading::Reading;
use crate::reason::Reason;
use osm_model::Version;
use std::alloc::Global;
use std::marker::Model;
use std::vec::IntoIter;

/// A strictly ascending list of versions, given one by one.
pub trait Source {
    /// Holds for each list of versions, with its end, that the source can still give. If the source reports its
    /// versions, it can give only one list. Otherwise its versions are known only as they are given.
    ghost can_give: { Self → SourceRest VersionData Fault → Type 0 };

    /// A list that the source can give.
    ghost one: { Self → SourceRest VersionData Fault };

    /// A bound on the number of versions still to come.
    ghost left: { Self → ℕ };

    /// The number of the source's input, which its fault `Failed` has.
    ghost input: { Self → ℕ };

    /// Whether a call of the source was refused.
    ghost has_failed: { Self → Bool };

    /// The source can give `one`.
    ghost possible: { (s : Self) → can_give s (one s) };

    /// Each list that the source can give ascends strictly.
    ghost ascends: { (s : Self) (still : SourceRest VersionData Fault) → can_give s still → Ascends still };

    /// The next version; `None` at the end and ever after.
    ///
    /// # Errors
    ///
    /// The fault that ends the source's list, or `Memory`. After an error each call returns `Failed` with the source's
    /// number.
    fn next(&mut self) -> Result<Option<Version>, Fault>
        ensures step { SourceSteps can_give self.old result self.new }
        ensures fewer { IfOk result (λ given. IsSome given → left self.new < left self.old) }
        ensures again { has_failed self.old ≡ true → result ≡ Err (failed_fault (input self.old)) }
        ensures failed { has_failed self.new ≡ is_err result }
        ensures input { input self.new ≡ input self.old };

    /// Takes back a version that isn't needed any more. The source makes a later version in that memory, or drops the
    /// version.
    fn reuse(&mut self, _version: Version)
        ensures { self.new ≡ self.old }
    {}
}

/// The number of unread bytes that the sources of one merge hold together, if there are more than 8. It is half the
/// size of a second-level cache, since the pending versions are in the cache, too.
const READ_AHEAD_TOTAL: usize = 524_288;

/// The fewest bytes that one read of a source asks for, however many sources there are.
const MIN_CHUNK: usize = 4096;

/// A sorted file: the key groups in sequence, each ascending and without repeats.
///
/// Nearly every key group is one version, which is kept without a list.
#[derive(Drop)]
pub struct FileSource<R: Input> {
    alloc: Global,
    units: Reading<R>,
    /// The first version of the next group, if it was read.
    pending: Option<Version>,
    /// The rest of the current group.
    ready: IntoIter<Version>,
}

impl<R: Input> Model for FileSource<R> {
    ghost use Rattle.std.specs.Prelude.{option_to_list};
    ghost use Rattle.std.specs.Vec.Iter.{into_iter_items};
    ghost use Rattle.osm_files.specs.Groups.{FileSourceData, source_data, IsOpenSource};

    ghost Value = { FileSourceData R };

    ghost view = { λ s. source_data s.units (option_to_list s.pending) (into_iter_items s.ready) };

    ghost invariant = { λ s.
        IsOpenSource R.can_give (source_data s.units (option_to_list s.pending) (into_iter_items s.ready)) };
}

impl<R: Input> FileSource<R> {
    /// A source of the versions of a sorted file of any format. `input` is the file's number. The call reads nothing.
    ///
    /// # Errors
    ///
    /// Only out of memory.
    pub fn new(alloc: Global, input: usize, reader: R) -> Result<FileSource<R>, Fault>
        ensures opened { IfOk result (λ s. s ≡ new_source input reader) }
        ensures memory { IfErr result (λ fault. fault ≡ memory_fault) }
    {
        FileSource::ended(alloc, input, EndRule::Any, reader)
    }

    /// A source as [`FileSource::new`] makes it, of a file that has to end as `end` requires. If the end is missing,
    /// the source is refused as `NoEnd` at the file's length, unless a whole unit is faulty or out of order.
    ///
    /// # Errors
    ///
    /// Only out of memory.
    pub fn ended(
        alloc: Global,
        input: usize,
        end: EndRule,
        reader: R,
    ) -> Result<FileSource<R>, Fault>
        ensures opened { IfOk result (λ s. s ≡ ended_source end input reader) }
        ensures memory { IfErr result (λ fault. fault ≡ memory_fault) }
    {
        Ok(FileSource {
            alloc,
            units: Reading::new(alloc, input, end, reader),
            pending: None,
            ready: Vec::new(alloc).into_iter(),
        })
    }

    /// A source as [`FileSource::ended`] makes it, which is one of `sources` in one merge. With more sources it reads
    /// fewer bytes at a time, so that the unread bytes of all of them stay in the processor's cache.
    ///
    /// # Errors
    ///
    /// Only out of memory.
    pub fn with_peers(
        alloc: Global,
        input: usize,
        end: EndRule,
        reader: R,
        sources: usize,
    ) -> Result<FileSource<R>, Fault>
        ensures opened { IfOk result (λ s. s ≡ ended_source end input reader) }
        ensures memory { IfErr result (λ fault. fault ≡ memory_fault) }
    {
        let mut source = FileSource::ended(alloc, input, end, reader)?;
        let share = READ_AHEAD_TOTAL / sources.max(1);
        source.units.set_chunk_size(share.max(MIN_CHUNK));
        Ok(source)
    }

    /// Returns the first version of the next group, and makes the others ready; `None` at the end.
    #[inline(always)]
    fn next_group(&mut self) -> Result<Option<Version>, Fault>
        requires nothing { self.old.ready ≡ [] }
        ensures step { FileSteps R.can_give self.old result self.new }
        ensures again { self.old.units.failed ≡ true → result ≡ Err (failed_fault self.old.units.input) }
        ensures failed { self.new.units.failed ≡ is_err result }
        ensures input { self.new.units.input ≡ self.old.units.input }
        ensures fewer { IfOk result (λ given. IsSome given → versions_left self.new < versions_left self.old) }
    {
        let Some(first) = self.begin()? else {
            return Ok(None);
        };
        let Some(second) = self.units.next()? else {
            return Ok(Some(first));
        };
        let order = first.key_cmp(&second.version);
        if order.is_lt() {
            self.pending = Some(second.version);
            return Ok(Some(first));
        }
        if order.is_gt() {
            return Err(self.units.refuse(second.offset, Reason::Unsorted));
        }
        self.next_of_many(first, second.version)
    }

    /// The version that the next group begins with: the one read before, or else the next one; `None` at the end.
    #[inline(always)]
    fn begin(&mut self) -> Result<Option<Version>, Fault>
        requires nothing { self.old.ready ≡ [] }
        ensures taken { (self.new.group ≡ []) × (self.new.ready ≡ []) }
        ensures input { self.new.units.input ≡ self.old.units.input }
        ensures again { self.old.units.failed ≡ true
            → (self.new.units.failed ≡ true) × IfErr result (λ fault. fault ≡ failed_fault self.old.units.input) }
        ensures failed { OnErr result (self.new.units.failed ≡ true) }
        ensures ended { result ≡ Ok None → self.new.units.failed ≡ false }
        ensures begins { BeginsOn R.can_give self.old.units self.old.group result self.new.units }
        ensures left { IfOk result (λ first. IsSome first → versions_left self.new < versions_left self.old) }
    {
        match self.pending.take() {
            Some(first) => Ok(Some(first)),
            None => begin_next(&mut self.units),
        }
    }

    /// Returns the least version of a group that begins with two versions of one key, and makes the others ready.
    #[inline(never)]
    fn next_of_many(&mut self, first: Version, second: Version) -> Result<Option<Version>, Fault>
        requires nothing { self.old.ready ≡ [] }
        requires group { IsGroup first (second ∷ []) }
        ensures step { FileSteps R.can_give (with_group self.old (first ∷ second ∷ [])) result self.new }
        ensures failed { self.new.units.failed ≡ is_err result }
        ensures input { self.new.units.input ≡ self.old.units.input }
        ensures fewer { IfOk result (λ given. IsSome given →
            versions_left self.new < versions_left (with_group self.old (first ∷ second ∷ []))) }
    {
        let mut group = match Group::of_two(self.alloc, first, second) {
            Err(_) => return Err(self.units.refuse(0, Reason::Memory)),
            Ok(group) => group,
        };
        self.pending = group.gather(&mut self.units)?;
        match group.into_ascending() {
            Err(_) => Err(self.units.refuse(0, Reason::Memory)),
            Ok(versions) => {
                self.ready = versions;
                Ok(self.ready.next())
            }
        }
    }
}

impl<R: Input + Drop> FileSource<R> {
    /// Returns the format of a sorted file, which its first bytes determine, and a source of its versions. The file has
    /// to end as `end` requires. The call reads the first bytes, and the source still gives all versions.
    ///
    /// # Errors
    ///
    /// The fault of the bytes that determine the format, or `Memory`.
    pub fn open(
        alloc: Global,
        input: usize,
        end: EndRule,
        reader: R,
    ) -> Result<(Format, FileSource<R>), Fault>
        ensures opened { IfOk result (λ opened. Opens R.can_give end input reader opened.0 opened.1) }
        ensures refused { IfErr result (λ fault.
            GivesOne (R.can_give reader) (λ c. StopsOpening input (by_rule end c) fault)) }
    {
        let mut units = Reading::new(alloc, input, end, reader);
        match units.format() {
            Ok(format) => {
                let ready = Vec::new(alloc).into_iter();
                let pending = None;
                Ok((
                    format,
                    FileSource {
                        alloc,
                        units,
                        pending,
                        ready,
                    },
                ))
            }
            Err(fault) => Err(fault),
        }
    }
}

impl<R: Input> Source for FileSource<R> {
    ghost can_give = { λ s still. FileCanGive R.can_give s still };

    ghost one = { λ s. known_or_whole (given_at s (R.one s.units.rest)) };

    ghost left = { λ s. versions_left s };

    ghost input = { λ s. s.units.input };

    ghost has_failed = { λ s. s.units.failed };

    ghost possible = { λ s. (R.one s.units.rest, R.possible s.units.rest, one_given s (R.one s.units.rest)) };

    ghost ascends = { λ s still h. file_ascends R.can_give s still h };

    #[inline(always)]
    fn next(&mut self) -> Result<Option<Version>, Fault> {
        match self.ready.next() {
            Some(version) => Ok(Some(version)),
            None => self.next_group(),
        }
    }

    #[inline(always)]
    fn reuse(&mut self, version: Version) {
        self.units.reuse(version);
    }
}

/// The version that a group begins with, if none was read before; `None` at the end.
///
/// This is a function of its own only for the optimizer: inlined, [`Reading::next`] would be twice in the loop of every
/// merge. Three such functions of this crate bring 2 percent of a merge of o5m files.
#[inline(never)]
fn begin_next<R: Input>(units: &mut Reading<R>) -> Result<Option<Version>, Fault>
    ensures input { units.new.input ≡ units.old.input }
    ensures again { units.old.failed ≡ true → result ≡ Err (failed_fault units.old.input) }
    ensures failed { units.new.failed ≡ is_err result }
    ensures begins { BeginsOn R.can_give units.old [] result units.new }
    ensures left { IfOk result (λ first. IsSome first → units_left units.new < units_left units.old) }
{
    match units.next() {
        Err(fault) => Err(fault),
        Ok(None) => Ok(None),
        Ok(Some(unit)) => Ok(Some(unit.version)),
    }
}

#[cfg(test)]
mod tests;
