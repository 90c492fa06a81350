//! The versions of a source within a span of objects.
ghost use Rattle.std.specs.Prelude.{◌≡◌, ◌<◌, true, Some, Err, IsSome, IfOk, is_err};
ghost use Rattle.osm_files.specs.Fault.{failed_fault};
ghost use Rattle.osm_files.specs.Input.{Explained};
ghost use Rattle.osm_files.specs.Source.{SourceStep};
ghost use Rattle.osm_merge.specs.Within.{from_bound, dropped_outside, refused_outside, within_span, still_within};
ghost use Rattle.osm_merge.specs.Within.{has_failed};
ghost use Rattle.osm_merge.specs.declared.within.Outside.TheVariants as outside;
ghost use Rattle.osm_merge.specs.declared.within.State.TheVariants as state;

use crate::span::Span;
use osm_files::{Fault, Reason, Source};
use osm_model::Version;

/// How the versions of a source that are outside a span are treated.
#[derive(Clone, Copy, Debug, PartialEq, Eq)]
pub enum Outside {
    /// Versions below the span are dropped. The first version above it is the end: the source is not called again, so a
    /// fault that comes later in the source may go unnoticed.
    Dropped,
    /// The first version outside is refused as `Unsorted`, at the place 0, since a source doesn't know the place. The
    /// source is expected to be the part of a sorted file that is within the span.
    Refused,
}

/// Whether a source within a span still gives versions.
#[derive(Clone, Copy, Debug, PartialEq, Eq)]
pub(crate) enum State {
    /// Versions may still come.
    Open,
    /// A version above the span was met.
    Ended,
    /// A call was refused.
    Failed,
}

/// The versions of a source whose objects are within a span.
#[derive(Drop)]
pub struct Within<S: Source> {
    source: S,
    input: usize,
    span: Span,
    outside: Outside,
    state: State,
}

impl<S: Source> Within<S> {
    /// The versions of a source within a span. `input` is the number of the source in faults.
    pub fn new(outside: Outside, span: Span, input: usize, source: S) -> Within<S>
        ensures { result ≡ within_span outside span input source }
    {
        Within {
            source,
            input,
            span,
            outside,
            state: State::Open,
        }
    }

    /// The next version, if versions outside the span are dropped.
    #[inline(always)]
    fn next_dropping(&mut self) -> Result<Option<Version>, Fault>
        requires open { self.old.state ≡ state.Open }
        requires dropped { self.old.outside ≡ outside.Dropped }
        ensures step { Explained (S.can_give self.old.source) (S.can_give self.new.source) (λ earlier later.
            SourceStep (Some (dropped_outside self.old.span earlier)) result (Some (still_within self.new later))) }
        ensures fewer { IfOk result (λ given. IsSome given → S.left self.new.source < S.left self.old.source) }
        ensures failed { has_failed self.new.state ≡ is_err result }
        ensures input { self.new.input ≡ self.old.input }
    {
        match next_from(&mut self.source, self.span) {
            Ok(Some(version)) if self.span.is_under(&version) => Ok(Some(version)),
            Ok(Some(version)) => {
                self.source.reuse(version);
                self.state = State::Ended;
                Ok(None)
            }
            Ok(None) => Ok(None),
            Err(fault) => Err(self.refuse(fault)),
        }
    }

    /// The next version, if a version outside the span is refused.
    #[inline(always)]
    fn next_refusing(&mut self) -> Result<Option<Version>, Fault>
        requires open { self.old.state ≡ state.Open }
        requires refused { self.old.outside ≡ outside.Refused }
        ensures step { Explained (S.can_give self.old.source) (S.can_give self.new.source) (λ earlier later.
            SourceStep (Some (refused_outside self.old.input self.old.span earlier)) result
            (Some (still_within self.new later))) }
        ensures fewer { IfOk result (λ given. IsSome given → S.left self.new.source < S.left self.old.source) }
        ensures failed { has_failed self.new.state ≡ is_err result }
        ensures input { self.new.input ≡ self.old.input }
    {
        match self.source.next() {
            Ok(Some(version)) if self.span.contains(&version) => Ok(Some(version)),
            Ok(Some(_)) => Err(self.refuse(Fault::at(self.input, 0, Reason::Unsorted))),
            Ok(None) => Ok(None),
            Err(fault) => Err(self.refuse(fault)),
        }
    }

    /// Returns the fault of a call that is refused. Every later call is refused, too.
    fn refuse(&mut self, fault: Fault) -> Fault
        ensures failed { self.new ≡ record self.old { state = state.Failed } }
        ensures fault { result ≡ fault }
    {
        self.state = State::Failed;
        fault
    }
}

impl<S: Source> Source for Within<S> {
    ghost use Rattle.std.specs.Prelude.{refl};
    ghost use Rattle.osm_merge.specs.Within.{WithinCanGive, still_within, has_failed, within_ascends};

    ghost can_give = { λ w still. WithinCanGive S.can_give w still };

    ghost one = { λ w. still_within w (S.one w.source) };

    ghost left = { λ w. S.left w.source };

    ghost input = { λ w. w.input };

    ghost has_failed = { λ w. has_failed w.state };

    ghost possible = { λ w. (S.one w.source, S.possible w.source, refl) };

    ghost ascends = { λ w still h. within_ascends S.can_give S.ascends w still h };

    #[inline(always)]
    fn next(&mut self) -> Result<Option<Version>, Fault> {
        match (self.state, self.outside) {
            (State::Open, Outside::Dropped) => self.next_dropping(),
            (State::Open, Outside::Refused) => self.next_refusing(),
            (State::Ended, _) => Ok(None),
            (State::Failed, _) => Err(Fault::failed(self.input)),
        }
    }

    #[inline(always)]
    fn reuse(&mut self, version: Version) {
        self.source.reuse(version);
    }
}

/// The next version of a source whose object isn't below the span.
#[inline(always)]
fn next_from<S: Source>(source: &mut S, span: Span) -> Result<Option<Version>, Fault>
    ensures step { Explained (S.can_give source.old) (S.can_give source.new) (λ earlier later.
        SourceStep (Some (from_bound span earlier)) result (Some (from_bound span later))) }
    ensures fewer { IfOk result (λ given. IsSome given → S.left source.new < S.left source.old) }
{
    'versions: loop {
        let Some(version) = source.next()? else {
            return Ok(None);
        };
        if span.reaches(&version) {
            return Ok(Some(version));
        }
        source.reuse(version);
    }
}
