//! Merges of sources in memory, with their output worked out by hand.
use super::{Counts, Selection, merge_into, merge_selected};
use crate::progress::NoProgress;
use crate::rows::{
    AT_9_EAST, AT_10_EAST, CAME_AT_10, DELETED_AT_5, DELETED_AT_20, DELETED_AT_30, DELETED_NEXT,
    DELETED_TOO, DELETED_WAY, MOVED_AT_5, MOVED_AT_20, OTHER_AT_20, OTHER_MOVED_AT_20, VISIBLE,
    WAY, history, history_of, text,
};
use osm_files::{Broken, Fault, Format, Output, Reason, Sink, Source, VecOut};
use osm_model::{History, Version};
use std::alloc::{AllocGlobal, Global};
use std::cell::Cell;
use std::process::Abort;

/// A source of the versions of a history, which counts the versions that it gave.
#[derive(Drop)]
struct Held<'a> {
    history: History,
    /// The number of versions that were given.
    index: usize,
    /// The fault after the versions, if there is one.
    fault: Option<Fault>,
    input: usize,
    has_failed: bool,
    given: &'a Cell<usize>,
}

impl Source for Held<'_> {
    ghost use Rattle.std.specs.Prelude.{◌≡◌, drop, length, refl};
    ghost use Rattle.osm_model.specs.Sets.{to_list};
    ghost use Rattle.osm_merge.specs.Rest.{rest_from, rest_unless, rest_ascends};

    ghost can_give = { λ s still. still ≡ rest_unless s.has_failed s.input (rest_from s.history s.index s.fault) };

    ghost one = { λ s. rest_unless s.has_failed s.input (rest_from s.history s.index s.fault) };

    ghost left = { λ s. length (drop s.index (to_list s.history)) };

    ghost input = { λ s. s.input };

    ghost has_failed = { λ s. s.has_failed };

    ghost possible = { λ s. refl };

    ghost ascends = { λ s still is. rest_ascends s.has_failed s.input s.history s.index s.fault still is };

    fn next(&mut self) -> Result<Option<Version>, Fault> {
        if self.has_failed {
            return Err(Fault::failed(self.input));
        }
        if self.index < self.history.len() {
            if let Ok(version) = self.history.get(self.index).copy() {
                self.index += 1;
                self.given.set(self.given.get().saturating_add(1));
                return Ok(Some(version));
            }
            self.has_failed = true;
            return Err(Fault::memory());
        }
        match self.fault {
            None => Ok(None),
            Some(fault) => {
                self.has_failed = true;
                Err(fault)
            }
        }
    }
}

/// The call that merges: the one that writes all, or the one that selects.
#[derive(Clone, Copy)]
enum Call {
    Merge,
    Select(Selection),
}

/// The result of a call over `sources`. The number of the output is the number of the sources.
fn merge_to<S: Source + Drop, W: Output>(
    alloc: Global,
    call: Call,
    format: Format,
    sources: Vec<S>,
    out: &mut W,
) -> Result<Counts, Fault> {
    let mut sink = match Sink::new(alloc, format, sources.len()) {
        Ok(sink) => sink,
        Err(fault) => return Err(fault),
    };
    match call {
        Call::Merge => merge_into(alloc, sources, &mut sink, out),
        Call::Select(selection) => {
            merge_selected(alloc, selection, sources, &mut sink, out, &mut NoProgress)
        }
    }
}

/// A source for each list of lines in `sources`. The source that the fault names ends with the fault.
fn sources_of<'a>(
    alloc: Global,
    sources: &[&[&[u8]]],
    fault: Option<Fault>,
    given: &'a Cell<usize>,
) -> Vec<Held<'a>> {
    let mut inputs = Vec::new(alloc);
    for (input, lines) in sources.iter().enumerate() {
        let _ = inputs.push(Held {
            history: history(alloc, lines),
            index: 0,
            fault: fault.filter(|fault| fault.input == input),
            input,
            has_failed: false,
            given,
        });
    }
    inputs
}

/// The result of a call over the sources of `sources_of`, and the bytes that the call wrote.
fn merged(
    alloc: Global,
    call: Call,
    format: Format,
    sources: &[&[&[u8]]],
    fault: Option<Fault>,
) -> (Result<Counts, Fault>, Vec<u8>) {
    let given = Cell::new(0usize);
    let mut out = VecOut::new(alloc);
    let inputs = sources_of(alloc, sources, fault, &given);
    let outcome = merge_to(alloc, call, format, inputs, &mut out);
    (outcome, out.into_vec())
}

/// The lines of each source, the call over the sources, the number of versions read, and the lines written.
type Row = (
    &'static [&'static [&'static [u8]]],
    Call,
    u64,
    &'static [&'static [u8]],
);

/// Whether the call of a row over its sources writes the lines of the row, and counts the versions read and written.
fn is_merged(alloc: Global, row: &Row) -> bool {
    let (sources, call, read, lines) = row;
    let (outcome, written) = merged(alloc, *call, Format::Opl, sources, None);
    let is_written = written == text(alloc, lines);
    match outcome {
        Ok(counts) => is_written && counts.read == *read && counts.written == lines.len() as u64,
        Err(_) => false,
    }
}

/// Asserts that the call of each row writes the lines of the row, and counts the versions.
fn assert_rows<R: AllocGlobal + Abort>(rt: &R, rows: &[Row]) {
    for row in rows {
        assert!(rt; is_merged(rt.alloc(), row));
    }
}

const FIRST: &[u8] = b"n1 v1 dV c0 t i0 u T x1.5 y1\n";

const SECOND: &[u8] = b"n1 v2 dV c0 t i0 u T x1.5 y1\n";

const MERGES: &[Row] = &[
    (&[&[FIRST], &[SECOND]], Call::Merge, 2, &[FIRST, SECOND]),
    (
        &[&[SECOND], &[FIRST], &[FIRST]],
        Call::Merge,
        3,
        &[FIRST, SECOND],
    ),
    (
        &[&[AT_9_EAST], &[AT_10_EAST]],
        Call::Merge,
        2,
        &[AT_10_EAST, AT_9_EAST],
    ),
    (&[], Call::Merge, 0, &[]),
];

#[test]
fn order_and_repetition_make_no_difference(rt: HostRuntime) {
    assert_rows(&rt, MERGES);
}

/// The file that a merge of no sources writes.
fn empty_file(alloc: Global, format: Format) -> Vec<u8> {
    let (_, written) = merged(alloc, Call::Merge, format, &[], None);
    written
}

#[test]
fn empty_inputs(rt: HostRuntime) {
    for (format, file) in [
        (Format::Opl, b"".as_slice()),
        (Format::O5m, b"\xff\xe0\x04o5m2\xfe".as_slice()),
        (Format::O5c, b"\xff\xe0\x04o5c2\xfe".as_slice()),
    ] {
        assert_eq!(rt; empty_file(rt.alloc(), format).as_slice(), file);
    }
}

/// Node 1, without a time.
const N1: &[u8] = b"n1 v1 dV c0 t i0 u T x1 y1\n";

const N2: &[u8] = b"n2 v1 dV c0 t i0 u T x1 y1\n";

const N3: &[u8] = b"n3 v1 dV c0 t i0 u T x1 y1\n";

const N4: &[u8] = b"n4 v1 dV c0 t i0 u T x1 y1\n";

const N5: &[u8] = b"n5 v1 dV c0 t i0 u T x1 y1\n";

const N6: &[u8] = b"n6 v1 dV c0 t i0 u T x1 y1\n";

const N7: &[u8] = b"n7 v1 dV c0 t i0 u T x1 y1\n";

const N8: &[u8] = b"n8 v1 dV c0 t i0 u T x1 y1\n";

/// Sources, and the least and the most comparisons of their merge. A merge of two sources with the same three versions
/// plays five games. Three of the six versions are compared with the one put last: the first has none before it, and
/// two of the others are known repeats.
const COMPARISONS: &[(&[&[&[u8]]], u64, u64)] = &[
    (&[], 0, 0),
    (&[&[FIRST, SECOND]], 1, 2),
    (&[&[SECOND], &[FIRST], &[FIRST]], 2, 11),
    (&[&[N1, N5], &[N2, N6], &[N3, N7], &[N4, N8]], 7, 27),
    (&[&[N1, N2, N3], &[N1, N2, N3]], 8, 8),
];

/// The number of comparisons of a merge of sources that have the lines `sources`.
fn compared(alloc: Global, sources: &[&[&[u8]]]) -> Option<u64> {
    let (outcome, _) = merged(alloc, Call::Merge, Format::Opl, sources, None);
    match outcome {
        Ok(counts) => Some(counts.compared),
        Err(_) => None,
    }
}

#[test]
fn comparison_bounds(rt: HostRuntime) {
    for (sources, least, most) in COMPARISONS {
        let compared = compared(rt.alloc(), sources);
        assert!(rt; compared.is_some_and(|compared| *least <= compared && compared <= *most));
    }
}

/// Sources, a call, and the number of clashes that the call counts.
const CLASHES: &[(&[&[&[u8]]], Call, u64)] = &[
    (&[&[VISIBLE, DELETED_TOO]], Call::Merge, 1),
    (&[&[VISIBLE], &[DELETED_TOO]], Call::Merge, 1),
    (
        &[&[VISIBLE, DELETED_TOO], &[DELETED_TOO], &[VISIBLE]],
        Call::Merge,
        1,
    ),
    (
        &[&[VISIBLE, DELETED_TOO], &[AT_10_EAST, DELETED_TOO]],
        Call::Merge,
        1,
    ),
    (&[&[DELETED_AT_5], &[CAME_AT_10]], Call::Merge, 1),
    (
        &[&[DELETED_AT_5, DELETED_AT_20], &[CAME_AT_10]],
        Call::Merge,
        1,
    ),
    (
        &[&[VISIBLE, WAY], &[DELETED_TOO, DELETED_WAY]],
        Call::Merge,
        2,
    ),
    (&[&[VISIBLE, AT_10_EAST]], Call::Merge, 0),
    (&[&[DELETED_AT_5], &[DELETED_AT_20]], Call::Merge, 0),
    (&[&[VISIBLE], &[DELETED_NEXT, DELETED_WAY]], Call::Merge, 0),
    (&[], Call::Merge, 0),
    (
        &[&[DELETED_AT_5], &[CAME_AT_10]],
        Call::Select(Selection::StateVisible(7)),
        1,
    ),
    (
        &[&[DELETED_AT_5], &[CAME_AT_10]],
        Call::Select(Selection::Visible),
        1,
    ),
    (
        &[&[VISIBLE, DELETED_TOO], &[DELETED_NEXT]],
        Call::Select(Selection::NewestVisible),
        1,
    ),
];

/// The number of clashes that a call over sources with the lines `sources` counts.
fn clashes(alloc: Global, call: Call, sources: &[&[&[u8]]]) -> Option<u64> {
    let (outcome, _) = merged(alloc, call, Format::Opl, sources, None);
    match outcome {
        Ok(counts) => Some(counts.clashes),
        Err(_) => None,
    }
}

#[test]
fn clashes_are_counted(rt: HostRuntime) {
    for (sources, call, count) in CLASHES {
        assert_eq!(rt; clashes(rt.alloc(), *call, sources), Some(*count));
    }
}

/// A fault of the second source at its end.
const CUT: Fault = Fault {
    input: 1,
    place: 40,
    reason: Reason::NoEnd,
};

/// Whether a call over sources that have the lines `sources` writes `lines` and then returns the fault `CUT`, with
/// which the second source ends.
fn is_cut(
    alloc: Global,
    call: Call,
    format: Format,
    sources: &[&[&[u8]]],
    lines: &[&[u8]],
) -> bool {
    let (outcome, written) = merged(alloc, call, format, sources, Some(CUT));
    outcome == Err(CUT) && written == text(alloc, lines)
}

#[test]
fn read_ahead(rt: HostRuntime) {
    let sources: [&[&[u8]]; 3] = [&[N1, N4], &[N2, N3], &[N5]];
    assert!(rt;
        is_cut(
            rt.alloc(),
            Call::Merge,
            Format::Opl,
            &sources,
            &[N1, N2, N3]
        )
    );
    assert!(rt; is_cut(rt.alloc(), Call::Merge, Format::O5m, &[&[FIRST], &[]], &[]));
    // The version of node 3 is pending, since the one after it isn't known.
    let newest: [&[&[u8]]; 2] = [&[N1, N4], &[NEXT_OF_1, N3]];
    let call = Call::Select(Selection::Newest);
    assert!(rt; is_cut(rt.alloc(), call, Format::Opl, &newest, &[NEXT_OF_1]));
}

const NEXT_OF_1: &[u8] = b"n1 v2 dV c0 t i0 u T x1 y1\n";

/// An output that notes the greatest number of versions that the sources gave and that it had no line of yet.
#[derive(Drop)]
struct Ahead<'a> {
    given: &'a Cell<usize>,
    lines: usize,
    most: &'a Cell<usize>,
}

impl Output for Ahead<'_> {
    ghost use Rattle.std.specs.Prelude.{false};

    ghost holds = { λ _ _. Unit {0} };

    ghost failed = { λ _. false };

    fn write(&mut self, bytes: &[u8]) -> Result<usize, Broken> {
        let ahead = self.given.get().saturating_sub(self.lines);
        self.most.set(self.most.get().max(ahead));
        for byte in bytes {
            if *byte == b'\n' {
                self.lines = self.lines.saturating_add(1);
            }
        }
        Ok(bytes.len())
    }

    fn flush(&mut self) -> Result<(), Broken> {
        Ok(())
    }
}

/// A hundred nodes. Their ids begin at `first`, and each is 3 more than the one before.
fn every_third(alloc: Global, first: u32) -> History {
    let mut text = String::new(alloc);
    for step in 0..100u32 {
        let id = step.saturating_mul(3).saturating_add(first);
        let _ = writeln!(text, "n{id} v1 x1 y1");
    }
    history_of(alloc, text.as_bytes())
}

/// The result of a merge of three sources, each with the nodes of `every_third` from another id on.
fn merge_thirds<W: Output>(
    alloc: Global,
    given: &Cell<usize>,
    out: &mut W,
) -> Result<Counts, Fault> {
    let mut inputs = Vec::new(alloc);
    for first in 1..4u32 {
        let input = inputs.len();
        let _ = inputs.push(Held {
            history: every_third(alloc, first),
            index: 0,
            fault: None,
            input,
            has_failed: false,
            given,
        });
    }
    merge_to(alloc, Call::Merge, Format::Opl, inputs, out)
}

#[test]
fn merge_reads_one_version_ahead_of_each_source(rt: HostRuntime) {
    let given = Cell::new(0usize);
    let most = Cell::new(0usize);
    let mut out = Ahead {
        given: &given,
        lines: 0,
        most: &most,
    };
    let outcome = merge_thirds(rt.alloc(), &given, &mut out);
    assert!(rt; outcome.is_ok_and(|counts| counts.read == 300 && counts.written == 300));
    assert_eq!(rt; (given.get(), most.get()), (300, 3));
}

const MOVED: &[&[&[u8]]] = &[&[CAME_AT_10, DELETED_AT_30], &[MOVED_AT_20, DELETED_AT_30]];

const OTHER: &[&[&[u8]]] = &[&[OTHER_MOVED_AT_20], &[OTHER_AT_20]];

const TURNED: &[&[&[u8]]] = &[&[MOVED_AT_5, WAY], &[CAME_AT_10, WAY]];

const PERIODS: &[Row] = &[
    (
        MOVED,
        Call::Select(Selection::Between { from: 20, to: 30 }),
        4,
        &[MOVED_AT_20],
    ),
    (
        MOVED,
        Call::Select(Selection::Between { from: 15, to: 31 }),
        4,
        &[CAME_AT_10, MOVED_AT_20, DELETED_AT_30],
    ),
    (
        MOVED,
        Call::Select(Selection::Between { from: 31, to: 40 }),
        4,
        &[DELETED_AT_30],
    ),
    (
        MOVED,
        Call::Select(Selection::Between { from: 5, to: 10 }),
        4,
        &[],
    ),
    (
        OTHER,
        Call::Select(Selection::Between { from: 20, to: 21 }),
        2,
        &[OTHER_AT_20, OTHER_MOVED_AT_20],
    ),
    (
        OTHER,
        Call::Select(Selection::Between { from: 21, to: 22 }),
        2,
        &[OTHER_MOVED_AT_20],
    ),
    (
        TURNED,
        Call::Select(Selection::Between { from: 6, to: 11 }),
        4,
        &[MOVED_AT_5, WAY],
    ),
];

#[test]
fn period_table(rt: HostRuntime) {
    assert_rows(&rt, PERIODS);
}

const STATES: &[Row] = &[
    (TURNED, Call::Select(Selection::StateVisible(4)), 4, &[WAY]),
    (
        TURNED,
        Call::Select(Selection::StateVisible(7)),
        4,
        &[MOVED_AT_5, WAY],
    ),
    (
        TURNED,
        Call::Select(Selection::StateVisible(10)),
        4,
        &[MOVED_AT_5, WAY],
    ),
    (MOVED, Call::Select(Selection::State(29)), 4, &[MOVED_AT_20]),
    (
        MOVED,
        Call::Select(Selection::State(30)),
        4,
        &[DELETED_AT_30],
    ),
    (
        MOVED,
        Call::Select(Selection::StateVisible(29)),
        4,
        &[MOVED_AT_20],
    ),
    (MOVED, Call::Select(Selection::StateVisible(30)), 4, &[]),
    (MOVED, Call::Select(Selection::NewestVisible), 4, &[]),
];

#[test]
fn state_at_moment(rt: HostRuntime) {
    assert_rows(&rt, STATES);
}

const APART: &[&[&[u8]]] = &[&[VISIBLE, WAY], &[DELETED_NEXT]];

const TIED: &[&[&[u8]]] = &[&[DELETED_TOO], &[VISIBLE, WAY]];

const NEWEST: &[Row] = &[
    (
        APART,
        Call::Select(Selection::All),
        3,
        &[VISIBLE, DELETED_NEXT, WAY],
    ),
    (APART, Call::Select(Selection::Visible), 3, &[VISIBLE, WAY]),
    (
        APART,
        Call::Select(Selection::Newest),
        3,
        &[DELETED_NEXT, WAY],
    ),
    (APART, Call::Select(Selection::NewestVisible), 3, &[WAY]),
    (
        TIED,
        Call::Select(Selection::All),
        3,
        &[VISIBLE, DELETED_TOO, WAY],
    ),
    (TIED, Call::Select(Selection::Visible), 3, &[VISIBLE, WAY]),
    (
        TIED,
        Call::Select(Selection::Newest),
        3,
        &[DELETED_TOO, WAY],
    ),
    (TIED, Call::Select(Selection::NewestVisible), 3, &[WAY]),
    (&[], Call::Select(Selection::Newest), 0, &[]),
];

#[test]
fn newest_versions_of_two_sources(rt: HostRuntime) {
    assert_rows(&rt, NEWEST);
}
