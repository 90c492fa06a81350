//! Fleets of mirrors of both kinds, and the snapshots to which they converge.
use super::Fleet;
use crate::fleet::event::{Event, Reply};
use crate::fleet::keep::Keep;
use crate::fleet::mirror::Mirror;
use osm_files::Format;
use std::alloc::Global;

const FORMATS: [Format; 3] = [Format::Opl, Format::O5m, Format::O5c];

const KINDS: [Keep; 9] = [
    Keep::Full,
    Keep::Latest,
    Keep::Full,
    Keep::Latest,
    Keep::Latest,
    Keep::Full,
    Keep::Full,
    Keep::Latest,
    Keep::Full,
];

/// Files that hold a node, its deletion, one key with two locations, and no file at all.
const FILES: [&[u8]; 5] = [
    b"n1 v1 dV x1 y1\n",
    b"n1 v2 dD\n",
    b"n2 v1 dV x9 y1\n",
    b"n2 v1 dV x10 y1\n",
    b"n2 v1 dV x1\n",
];

/// The snapshot of all versions of the files.
const NEWEST: &[u8] = b"n1 v2 dD c0 t i0 u T x y\nn2 v1 dV c0 t i0 u T x9 y1\n";

/// Runs `events`, and returns the replies; no replies if the events name mirrors that the fleet doesn't have.
fn run(alloc: Global, fleet: &mut Fleet, events: &[Event]) -> Vec<Reply> {
    if fleet.may_run(events)
        && let Ok(replies) = fleet.run(events)
    {
        return replies;
    }
    Vec::new(alloc)
}

/// The file of the mirror with the number `index`, as OPL.
fn written(alloc: Global, fleet: &Fleet, index: usize) -> Vec<u8> {
    if index < fleet.len()
        && let Ok(file) = fleet.mirror(index).write(Format::Opl)
    {
        return file;
    }
    Vec::new(alloc)
}

/// The snapshot of the mirror with the number `index`, as OPL.
fn newest(alloc: Global, fleet: &Fleet, index: usize) -> Vec<u8> {
    let mut latest = Mirror::new_latest(alloc);
    let file = written(alloc, fleet, index);
    if latest.take(&file).is_ok()
        && let Ok(snapshot) = latest.write(Format::Opl)
    {
        return snapshot;
    }
    file
}

/// Whether each mirror of a fleet has the snapshot of all versions of the files.
fn has_one_map(alloc: Global, fleet: &Fleet) -> bool {
    for index in 0..fleet.len() {
        if newest(alloc, fleet, index).as_slice() != NEWEST {
            return false;
        }
    }
    fleet.len() == KINDS.len()
}

/// The number of replies of nine new mirrors to `events`, if all mirrors then have the snapshot `NEWEST`; otherwise 0.
fn replies_to_one_map(alloc: Global, events: &[Event]) -> usize {
    let Ok(mut fleet) = Fleet::new(alloc, &KINDS) else {
        return 0;
    };
    let count = run(alloc, &mut fleet, events).len();
    if has_one_map(alloc, &fleet) { count } else { 0 }
}

/// Appends the events in which each of the first mirrors takes a file. The last of `FILES` is refused.
fn deliver<'a>(events: &mut Vec<Event<'a>>) {
    for (mirror, file) in FILES.iter().enumerate() {
        let _ = events.push(Event::Take {
            mirror,
            file: *file,
        });
    }
}

/// Appends the event in which a mirror passes to another one, in a format that `turn` chooses.
fn pass(events: &mut Vec<Event>, from: usize, to: usize, turn: usize) {
    let format = FORMATS[turn % 3];
    let _ = events.push(Event::Pass { from, to, format });
}

/// Appends the events in which all mirrors pass to the first one, and then the first one passes to all, itself
/// included.
fn meet(events: &mut Vec<Event>) {
    for other in 0..KINDS.len() {
        pass(events, other, 0, other);
    }
    for other in 0..KINDS.len() {
        pass(events, 0, other, other);
    }
}

/// The number of replies if each mirror passes to the next one, and the last one to the first, twice.
fn replies_in_a_ring(alloc: Global) -> usize {
    let mut events = Vec::new(alloc);
    deliver(&mut events);
    for step in 0..2 * KINDS.len() {
        pass(
            &mut events,
            step % KINDS.len(),
            (step + 1) % KINDS.len(),
            step,
        );
    }
    replies_to_one_map(alloc, &events)
}

#[test]
fn mirrors_in_a_ring(rt: HostRuntime) {
    assert_eq!(rt; replies_in_a_ring(rt.alloc()), 23);
}

/// The number of replies if all mirrors meet in the first one.
fn replies_in_a_star(alloc: Global) -> usize {
    let mut events = Vec::new(alloc);
    deliver(&mut events);
    meet(&mut events);
    replies_to_one_map(alloc, &events)
}

#[test]
fn mirrors_in_a_star(rt: HostRuntime) {
    assert_eq!(rt; replies_in_a_star(rt.alloc()), 23);
}

/// A pseudorandom event: `number` determines the mirrors, the file and the format.
fn chance(number: usize) -> Event<'static> {
    let mirror = number % KINDS.len();
    let other = number / 9 % KINDS.len();
    let format = FORMATS[number / 81 % 3];
    match number / 243 % 4 {
        0 => Event::Take {
            mirror,
            file: FILES[number / 972 % 5],
        },
        1 => Event::Restart { mirror, format },
        _ => Event::Pass {
            from: mirror,
            to: other,
            format,
        },
    }
}

/// The number of replies to sixty pseudorandom events, after which each file is taken and the mirrors meet.
fn replies_by_chance(alloc: Global) -> usize {
    let mut events = Vec::new(alloc);
    let mut number: usize = 1;
    for _ in 0..60 {
        number = number.wrapping_mul(7_621) % 65_521;
        let _ = events.push(chance(number));
    }
    deliver(&mut events);
    meet(&mut events);
    replies_to_one_map(alloc, &events)
}

#[test]
fn mirrors_by_chance(rt: HostRuntime) {
    assert_eq!(rt; replies_by_chance(rt.alloc()), 83);
}

/// Appends the events in which a full and a latest mirror take the files by turns, and pass to each other twice in each
/// format.
fn two_mirrors_events<'a>(events: &mut Vec<Event<'a>>) {
    for (index, file) in FILES.iter().enumerate() {
        let _ = events.push(Event::Take {
            mirror: index % 2,
            file: *file,
        });
    }
    for step in 0..12 {
        pass(events, step % 2, (step + 1) % 2, step / 4);
    }
}

/// The number of replies to `two_mirrors_events`, if `NEWEST` then is the snapshot of the full mirror and the file of
/// the latest one; otherwise 0.
fn replies_of_two_mirrors(alloc: Global) -> usize {
    let Ok(mut fleet) = Fleet::new(alloc, &[Keep::Full, Keep::Latest]) else {
        return 0;
    };
    let mut events = Vec::new(alloc);
    two_mirrors_events(&mut events);
    let count = run(alloc, &mut fleet, &events).len();
    let is_first = newest(alloc, &fleet, 0).as_slice() == NEWEST;
    let is_second = written(alloc, &fleet, 1).as_slice() == NEWEST;
    if is_first && is_second { count } else { 0 }
}

#[test]
fn two_mirrors_pass_to_each_other(rt: HostRuntime) {
    assert_eq!(rt; replies_of_two_mirrors(rt.alloc()), 17);
}

/// Appends a reply.
fn push_reply(text: &mut String, reply: &Reply) {
    let _ = match *reply {
        Reply::Taken => writeln!(text, "taken"),
        Reply::Refused(fault) => writeln!(text, "{fault}"),
    };
}

/// The replies of new mirrors of the kinds `kinds`, and the file that the last mirror writes afterwards.
fn fleet_text(alloc: Global, kinds: &[Keep], events: &[Event]) -> String {
    let mut text = String::new(alloc);
    let Ok(mut fleet) = Fleet::new(alloc, kinds) else {
        return text;
    };
    for reply in &run(alloc, &mut fleet, events) {
        push_reply(&mut text, reply);
    }
    let file = written(alloc, &fleet, fleet.len().saturating_sub(1));
    let _ = text.push_str(str::from_utf8(&file).unwrap_or("?"));
    text
}

#[test]
fn same_key_two_locations(rt: HostRuntime) {
    let events = [
        Event::Take {
            mirror: 0,
            file: FILES[2],
        },
        Event::Take {
            mirror: 1,
            file: FILES[3],
        },
        Event::Pass {
            from: 0,
            to: 1,
            format: Format::O5m,
        },
    ];
    assert_eq!(rt;
        fleet_text(rt.alloc(), &[Keep::Latest, Keep::Latest], &events).as_str(),
        "taken\ntaken\ntaken\nn2 v1 dV c0 t i0 u T x9 y1\n"
    );
}

#[test]
fn a_refused_event_has_its_reply(rt: HostRuntime) {
    let events = [
        Event::Take {
            mirror: 0,
            file: FILES[0],
        },
        Event::Take {
            mirror: 0,
            file: FILES[4],
        },
        Event::Restart {
            mirror: 0,
            format: Format::Opl,
        },
    ];
    assert_eq!(rt;
        fleet_text(rt.alloc(), &[Keep::Full], &events).as_str(),
        "taken\nfile 0, byte 0: NoLocation\ntaken\nn1 v1 dV c0 t i0 u T x1 y1\n"
    );
}
