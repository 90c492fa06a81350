//! The version met last, and the decision which versions are written.
ghost use Rattle.std.specs.Prelude.{◌≡◌, ◌≤◌, ◌+◌, ◌∷◌, [], true, false, None, IfOk, IfSome, OnOk, option_copied};
ghost use Rattle.osm_files.specs.Output.{FailingLasts, IsGoodThroughout};
ghost use Rattle.osm_files.specs.Change.{change_of};
ghost use Rattle.osm_files.specs.Sink.{IsOpen};
ghost use Rattle.osm_merge.specs.Union.{capped_count};
ghost use Rattle.osm_merge.specs.Pass.{is_new, is_met, pending_next, versions_put, put_at, put_at_end, put_with};
ghost use Rattle.osm_merge.specs.Put.{TakesEach, PutsMore, EndsFile, CountsMore, outcome_of};

use crate::compare::compare;
use crate::merge::Counts;
use crate::progress::{Progress, Relation};
use crate::selection::{Selection, keeps_before, passes, puts_at_once};
use osm_files::{Fault, Output, Sink};
use osm_model::{Ranked, Version};

/// The version met last, which may be written once the next one is known, and the counts so far.
#[derive(Drop)]
pub(crate) struct Pending {
    /// Which versions are written.
    pub(crate) selection: Selection,
    /// The version met last.
    last: Option<Ranked>,
    /// Whether the version that `meet` got last became the pending one.
    is_new: bool,
    /// The counts so far.
    pub(crate) counts: Counts,
}

impl Pending {
    /// The state before a version is met.
    pub(crate) fn new(selection: Selection) -> Pending
        ensures { result ≡ record {
          selection = selection;
          last = None;
          is_new = false;
          counts = record { read = 0; written = 0; compared = 0; clashes = 0 };
        } }
    {
        Pending {
            selection,
            last: None,
            is_new: false,
            counts: Counts {
                read: 0,
                written: 0,
                compared: 0,
                clashes: 0,
            },
        }
    }

    /// Meets the next version. If it passes and is greater than the pending one, it decides which version is written,
    /// and becomes the pending one. If `is_repeated`, the version is known to repeat one that was taken before, and
    /// isn't compared. Returns a version that isn't needed any more: the one that was pending before, if there was one,
    /// or the version itself. A source may make its next version in its memory.
    #[inline(always)]
    pub(crate) fn meet<W: Output>(
        &mut self,
        version: Ranked,
        is_repeated: bool,
        compared: &mut u64,
        sink: &mut Sink,
        out: &mut W,
    ) -> Result<Option<Version>, Fault>
        requires open { IsOpen sink.old }
        requires takes { is_met self.old.selection self.old.last version ≡ true
            → TakesEach (put_at self.old.selection self.old.last version) sink.old }
        requires repeated { is_repeated ≡ true → is_met self.old.selection self.old.last version ≡ false }
        ensures puts { PutsMore W.Output (versions_put self.old.selection self.old.last version)
            sink.old sink.new out.old out.new (outcome_of result) }
        ensures lasts { FailingLasts (change_of W.Output out.old out.new) }
        ensures selection { self.new.selection ≡ self.old.selection }
        ensures last { OnOk result (self.new.last ≡ pending_next self.old.selection self.old.last version) }
        ensures read { self.new.counts.read ≡ capped_count (self.old.counts.read + 1) }
        ensures written { OnOk result (CountsMore (versions_put self.old.selection self.old.last version)
            self.old.counts.written self.new.counts.written) }
        ensures grows { compared.old ≤ compared.new }
        ensures most { compared.new ≤ compared.old + 1 }
        ensures least { is_repeated ≡ false → IfSome self.old.last
            (λ _. capped_count (compared.old + 1) ≤ compared.new) }
    {
        self.counts.read = self.counts.read.saturating_add(1);
        if is_repeated || !self.is_met(&version, compared) {
            self.is_new = false;
            return Ok(Some(version.into_version()));
        }
        self.put_decided(Some(version.version()), sink, out)?;
        self.is_new = true;
        Ok(self.last.replace(version).map(Ranked::into_version))
    }

    /// Reports the version that `meet` got last, and the version that it wrote, if it wrote one. `written` is the
    /// number of versions written before, and `spare` what `meet` returned.
    #[inline(always)]
    pub(crate) fn report<P: Progress>(
        &self,
        written: u64,
        spare: Option<&Version>,
        progress: &mut P,
    ) {
        let last = version_of(&self.last);
        match (last, spare) {
            (Some(version), _) if self.is_new => progress.read(version, relation(spare, version)),
            (_, Some(version)) => progress.read(version, Relation::Dropped),
            _ => {}
        }
        let put = if puts_at_once(self.selection) {
            last
        } else {
            spare
        };
        if let Some(version) = put
            && self.counts.written != written
        {
            progress.written(version);
        }
    }

    /// Reports the version that `end` wrote, if it wrote one. `outcome` is what `end` returned.
    pub(crate) fn report_end<P: Progress>(
        &self,
        outcome: &Result<Counts, Fault>,
        progress: &mut P,
    ) {
        if let Some(version) = version_of(&self.last)
            && outcome.is_ok()
            && !puts_at_once(self.selection)
            && keeps_before(self.selection, version, None)
        {
            progress.written(version);
        }
    }

    /// Whether a version passes and is greater than the pending one.
    #[inline(always)]
    fn is_met(&self, version: &Ranked, compared: &mut u64) -> bool
        ensures met { result ≡ is_met self.now.selection self.now.last version.now }
        ensures grows { compared.old ≤ compared.new }
        ensures most { compared.new ≤ compared.old + 1 }
        ensures least { IfSome self.now.last (λ _. capped_count (compared.old + 1) ≤ compared.new) }
    {
        is_new(&self.last, version, compared) && passes(self.selection, version.version())
    }

    /// Writes the version that `next` decides; `None` is the end of all versions. If all versions are written at once,
    /// the decided version is `next` itself. Otherwise it is the pending one, which is written if it stays.
    #[inline(always)]
    fn put_decided<W: Output>(
        &mut self,
        next: Option<&Version>,
        sink: &mut Sink,
        out: &mut W,
    ) -> Result<(), Fault>
        requires open { IsOpen sink.old }
        requires takes { TakesEach (put_with self.old.selection self.old.last (option_copied next)) sink.old }
        ensures puts { PutsMore W.Output (put_with self.old.selection self.old.last (option_copied next.entry))
            sink.old sink.new out.old out.new result }
        ensures lasts { FailingLasts (change_of W.Output out.old out.new) }
        ensures open { OnOk result (IsOpen sink.new) }
        ensures selection { self.new.selection ≡ self.old.selection }
        ensures last { self.new.last ≡ self.old.last }
        ensures read { self.new.counts.read ≡ self.old.counts.read }
        ensures written { OnOk result (CountsMore (put_with self.old.selection self.old.last (option_copied next.entry))
            self.old.counts.written self.new.counts.written) }
    {
        if puts_at_once(self.selection) {
            return match next {
                None => Ok(()),
                Some(version) => put(version, &mut self.counts, sink, out),
            };
        }
        match &self.last {
            None => Ok(()),
            Some(last) => {
                let last = last.version();
                if !keeps_before(self.selection, last, next) {
                    return Ok(());
                }
                put(last, &mut self.counts, sink, out)
            }
        }
    }

    /// Writes the pending version, if it stays, and ends the file. Returns the counts, with `compared` comparisons and
    /// `clashes` clashes.
    pub(crate) fn end<W: Output>(
        &mut self,
        compared: u64,
        clashes: u64,
        sink: &mut Sink,
        out: &mut W,
    ) -> Result<Counts, Fault>
        requires open { IsOpen sink.old }
        requires takes { TakesEach (put_at_end self.old.selection self.old.last) sink.old }
        ensures read { IfOk result (λ done. done.read ≡ self.old.counts.read) }
        ensures written { IfOk result (λ done. CountsMore (put_at_end self.old.selection self.old.last)
            self.old.counts.written done.written) }
        ensures compared { IfOk result (λ done. done.compared ≡ compared) }
        ensures clashes { IfOk result (λ done. done.clashes ≡ clashes) }
        ensures file { EndsFile W.Output (put_at_end self.old.selection self.old.last)
            sink.old out.old out.new result }
        ensures good { OnOk result (IsGoodThroughout (change_of W.Output out.old out.new)) }
        ensures ended { OnOk result (sink.new.ended ≡ true) }
    {
        self.put_decided(None, sink, out)?;
        sink.end(out)?;
        Ok(Counts {
            compared,
            clashes,
            ..self.counts
        })
    }
}

/// The version that is pending.
#[inline(always)]
fn version_of(last: &Option<Ranked>) -> Option<&Version> {
    match last {
        Some(last) => Some(last.version()),
        None => None,
    }
}

/// How `version` relates to `before`, which is less.
#[inline(always)]
fn relation(before: Option<&Version>, version: &Version) -> Relation {
    match before {
        Some(before) if before.key_cmp(version).is_eq() => Relation::OtherData,
        _ => Relation::OtherKey,
    }
}

/// Puts a version, and counts it.
#[inline(always)]
fn put<W: Output>(
    version: &Version,
    counts: &mut Counts,
    sink: &mut Sink,
    out: &mut W,
) -> Result<(), Fault>
    requires open { IsOpen sink.old }
    requires takes { TakesEach (version.now ∷ []) sink.old }
    ensures puts { PutsMore W.Output (version.now ∷ []) sink.old sink.new out.old out.new result }
    ensures lasts { FailingLasts (change_of W.Output out.old out.new) }
    ensures open { OnOk result (IsOpen sink.new) }
    ensures read { counts.new.read ≡ counts.old.read }
    ensures written { OnOk result (CountsMore (version.now ∷ []) counts.old.written counts.new.written) }
    ensures compared { counts.new.compared ≡ counts.old.compared }
{
    let put = sink.put(out, version);
    if put.is_ok() {
        counts.written = counts.written.saturating_add(1);
    }
    put
}

/// Whether a version is greater than the pending one.
#[inline(always)]
fn is_new(last: &Option<Ranked>, version: &Ranked, compared: &mut u64) -> bool
    ensures new { result ≡ is_new last.now version.now }
    ensures grows { compared.old ≤ compared.new }
    ensures most { compared.new ≤ compared.old + 1 }
    ensures least { IfSome last.now (λ _. capped_count (compared.old + 1) ≤ compared.new) }
{
    match last {
        None => true,
        Some(last) => compare(last, version, compared).is_lt(),
    }
}
