//! Selections of histories, worked out by hand.
use super::{at, between, snapshot, visible};
use crate::rows::{
    AT_9_EAST, AT_10_EAST, CAME_AT_10, DELETED_AT_30, DELETED_NEXT, DELETED_TOO, MOVED_AT_5,
    MOVED_AT_20, OTHER_AT_20, OTHER_MOVED_AT_20, VISIBLE, WAY, history, holds,
};
use std::alloc::Global;

type Lines = &'static [&'static [u8]];

const SNAPSHOTS: &[(Lines, Lines)] = &[
    (&[VISIBLE, DELETED_NEXT], &[DELETED_NEXT]),
    (&[VISIBLE, DELETED_TOO], &[DELETED_TOO]),
    (&[AT_10_EAST, AT_9_EAST], &[AT_9_EAST]),
    (&[VISIBLE, DELETED_NEXT, WAY], &[DELETED_NEXT, WAY]),
    (&[], &[]),
];

/// Whether the snapshot of `lines` is `newest`.
fn is_snapshot(alloc: Global, lines: &[&[u8]], newest: &[&[u8]]) -> bool {
    holds(alloc, snapshot(alloc, &history(alloc, lines)), newest)
}

#[test]
fn snapshot_is_the_newest_version_of_each_object(rt: HostRuntime) {
    for (lines, newest) in SNAPSHOTS {
        assert!(rt; is_snapshot(rt.alloc(), lines, newest));
    }
}

const MOVED: Lines = &[CAME_AT_10, MOVED_AT_20, DELETED_AT_30];

const OTHER: Lines = &[OTHER_AT_20, OTHER_MOVED_AT_20];

const TURNED: Lines = &[CAME_AT_10, MOVED_AT_5];

const TIMELESS: Lines = &[VISIBLE, DELETED_NEXT];

const SEEN: &[(Lines, Lines)] = &[
    (MOVED, &[CAME_AT_10, MOVED_AT_20]),
    (&[VISIBLE, DELETED_TOO, WAY], &[VISIBLE, WAY]),
    (&[DELETED_NEXT], &[]),
];

/// Whether the visible versions of `lines` are `seen`.
fn is_visible_part(alloc: Global, lines: &[&[u8]], seen: &[&[u8]]) -> bool {
    holds(alloc, visible(alloc, &history(alloc, lines)), seen)
}

#[test]
fn visible_leaves_deletions_out(rt: HostRuntime) {
    for (lines, seen) in SEEN {
        assert!(rt; is_visible_part(rt.alloc(), lines, seen));
    }
}

const STATES: &[(Lines, u32, Lines)] = &[
    (TURNED, 4, &[]),
    (TURNED, 7, &[MOVED_AT_5]),
    (TURNED, 10, &[MOVED_AT_5]),
    (MOVED, 9, &[]),
    (MOVED, 10, &[CAME_AT_10]),
    (MOVED, 4_294_967_295, &[DELETED_AT_30]),
    (TIMELESS, 0, &[DELETED_NEXT]),
];

/// Whether the state of `lines` at `time` is `state`.
fn is_state(alloc: Global, lines: &[&[u8]], time: u32, state: &[&[u8]]) -> bool {
    holds(alloc, at(alloc, &history(alloc, lines), time), state)
}

#[test]
fn state_at_moment(rt: HostRuntime) {
    for (lines, time, state) in STATES {
        assert!(rt; is_state(rt.alloc(), lines, *time, state));
    }
}

const PERIODS: &[(Lines, u32, u32, Lines)] = &[
    (MOVED, 20, 30, &[MOVED_AT_20]),
    (MOVED, 15, 31, MOVED),
    (MOVED, 31, 40, &[DELETED_AT_30]),
    (MOVED, 5, 10, &[]),
    (OTHER, 20, 21, OTHER),
    (OTHER, 21, 22, &[OTHER_MOVED_AT_20]),
    (TURNED, 6, 11, &[MOVED_AT_5]),
    (TIMELESS, 0, 1, TIMELESS),
    (TIMELESS, 1, 2, &[DELETED_NEXT]),
];

/// Whether the history of `lines` from `from` up to `to` is `period`.
fn is_period(alloc: Global, lines: &[&[u8]], from: u32, to: u32, period: &[&[u8]]) -> bool {
    holds(
        alloc,
        between(alloc, &history(alloc, lines), from, to),
        period,
    )
}

#[test]
fn period_table(rt: HostRuntime) {
    for (lines, from, to, period) in PERIODS {
        assert!(rt; is_period(rt.alloc(), lines, *from, *to, period));
    }
}
