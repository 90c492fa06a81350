//! Histories that took others in, compared with the plain union and its snapshot.
use super::{absorb, absorb_newest};
use crate::chosen::snapshot;
use crate::rows::history_of;
use osm_model::{History, Memory};
use std::alloc::Global;

/// Versions of the number `number` of `count` nodes, whose ids are `apart` from each other.
fn nodes(alloc: Global, count: u32, apart: u32, number: u32) -> History {
    let mut text = String::new(alloc);
    for index in 0..count {
        let id = index.saturating_mul(apart);
        let _ = writeln!(text, "n{id} v{number} dV c0 t i0 u T x1 y1");
    }
    history_of(alloc, text.as_bytes())
}

/// Arguments of `nodes` for histories that a history of 300 nodes takes in: no versions; older, equal and newer ones;
/// versions of all its nodes, of some of them, and of nodes after them.
const TAKEN: &[(u32, u32, u32)] = &[
    (0, 1, 1),
    (5, 50, 1),
    (5, 50, 2),
    (5, 50, 3),
    (40, 7, 3),
    (300, 1, 2),
    (200, 3, 1),
    (900, 1, 4),
];

/// A history that took another one in.
fn union_taken(alloc: Global, held: &History, more: History) -> Result<History, Memory> {
    let mut taken = held.copy()?;
    absorb(alloc, &mut taken, more)?;
    Ok(taken)
}

/// The snapshot of a history, after the snapshot took another history in.
fn newest_taken(alloc: Global, held: &History, more: History) -> Result<History, Memory> {
    let mut taken = snapshot(alloc, held)?;
    absorb_newest(alloc, &mut taken, more)?;
    Ok(taken)
}

/// Whether two histories were made, and are the same.
fn are_same(one: Result<History, Memory>, other: Result<History, Memory>) -> bool {
    let (Ok(one), Ok(other)) = (one, other) else {
        return false;
    };
    one.into_versions() == other.into_versions()
}

/// Whether a history of 300 nodes has the union, after it took other nodes in.
fn holds_union(alloc: Global, count: u32, apart: u32, number: u32) -> bool {
    let held = nodes(alloc, 300, 1, 2);
    let more = nodes(alloc, count, apart, number);
    let union = held.join(&more);
    are_same(union_taken(alloc, &held, more), union)
}

#[test]
fn a_history_absorbs_another(rt: HostRuntime) {
    for (count, apart, number) in TAKEN {
        assert!(rt; holds_union(rt.alloc(), *count, *apart, *number));
    }
}

/// The versions of `nodes`, and some of the 300 versions.
fn more_nodes(alloc: Global, count: u32, apart: u32, number: u32) -> History {
    let more = nodes(alloc, count, apart, number);
    match more.join(&nodes(alloc, 20, 31, 2)) {
        Ok(both) => both,
        Err(_) => more,
    }
}

/// Whether the snapshot of 300 nodes is the snapshot of the union, after it took other nodes in.
fn holds_newest(alloc: Global, count: u32, apart: u32, number: u32) -> bool {
    let held = nodes(alloc, 300, 1, 2);
    let more = more_nodes(alloc, count, apart, number);
    let Ok(union) = held.join(&more) else {
        return false;
    };
    are_same(newest_taken(alloc, &held, more), snapshot(alloc, &union))
}

#[test]
fn a_snapshot_absorbs_another_history(rt: HostRuntime) {
    for (count, apart, number) in TAKEN {
        assert!(rt; holds_newest(rt.alloc(), *count, *apart, *number));
    }
}
